//! The table references of a select, in the order of the text.

ghost use Rattle.std.specs.Prelude.{◌≡◌, ◌<◌, ◌++◌, IfOk, length, map};
ghost use Rattle.sql_statements.specs.Plain.{plain_chain, plain_select};
ghost use Rattle.statement_resolution.specs.query.Faults.{known_twice};
ghost use Rattle.statement_resolution.specs.query.Scopes.{chain_tables, tables_of};

use catalog_core::{MatchCount, known_name, matches_among};
use period_core::Memory;
use sql_statements::{JoinChain, SelectDistinct, TableReference};
use std::alloc::Global;

/// Adds the references of a chain.
fn push_chain<'a>(
    references: &mut Vec<&'a TableReference>,
    chain: &'a JoinChain,
) -> Result<(), Memory>
    ensures { IfOk result (λ _. map (λ r. r.now) references.new.items
        ≡ map (λ r. r.now) references.old.items ++ chain_tables (plain_chain chain.now)) }
{
    references.push(&chain.first)?;
    for join in chain.joins.as_slice() {
        references.push(&join.reference)?;
    }
    Ok(())
}

/// The references of a select.
pub fn references_of(alloc: Global, select: &SelectDistinct) -> Result<Vec<&TableReference>, Memory>
    ensures value { IfOk result (λ references.
        map (λ r. r.now) references.items ≡ tables_of (plain_select select.now)) }
    ensures filled { IfOk result (λ references. 0 < length references.items) }
{
    let mut references = Vec::new(alloc);
    for chain in select.chains.as_slice() {
        push_chain(&mut references, chain)?;
    }
    Ok(references)
}

/// Whether two of them are known by one name.
pub fn names_twice(references: &[&TableReference]) -> bool
    ensures { result ≡ known_twice (map (λ r. r.now) references.now) }
{
    for reference in references {
        if MatchCount::Many.is(matches_among(references, known_name(reference))) {
            return true;
        }
    }
    false
}
