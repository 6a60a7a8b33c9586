//! The limits of a sequenced query as it is written.

ghost use Rattle.std.specs.Prelude.{◌≡◌, ◌+◌, ◌<◌, IfNone, IfSome, flat_map, length, map};
ghost use Rattle.std.specs.Prelude.{nat_lt};
ghost use Rattle.std.specs.List.{list_any};
ghost use Rattle.sql_statements.specs.Plain.{plain_chain, plain_query, plain_select};
ghost use Rattle.statement_resolution.specs.Limits.{most_select_tables};
ghost use Rattle.statement_resolution.specs.query.QueryParts.{operator_count, selects_of};
ghost use Rattle.statement_resolution.specs.query.Refusals as refusals;
ghost use Rattle.statement_resolution.specs.query.Scopes.{chain_tables};

use crate::limits::{MOST_ITEMS, MOST_OPERATORS, MOST_SELECT_TABLES};
use sql_statements::{JoinChain, QueryTree, SelectDistinct};

/// Whether there are more table references than a select may have.
fn has_many_tables(chains: &[JoinChain]) -> bool
    ensures { result ≡ nat_lt most_select_tables
        (length (flat_map chain_tables (map plain_chain chains.now))) }
{
    let mut room = MOST_SELECT_TABLES;
    for chain in chains {
        let joined = chain.joins.len();
        if joined >= room {
            return true;
        }
        room -= joined + 1;
    }
    false
}

/// Whether there are more table references or items than a select may have.
#[tactic(auto, unfolding(crate::specs::query::Refusals::is_too_long))]
fn is_too_long(select: &SelectDistinct) -> bool
    ensures { result ≡ refusals.is_too_long (plain_select select.now) }
{
    has_many_tables(select.chains.as_slice()) || select.items.len() > MOST_ITEMS
}

/// Whether one of the selects is too long.
fn has_long_select(query: &QueryTree<SelectDistinct>) -> bool
    ensures { result ≡ list_any refusals.is_too_long (selects_of (plain_query query.now)) }
{
    match query {
        QueryTree::Select(select) => is_too_long(select),
        QueryTree::Combined(first, steps) => {
            if has_long_select(first) {
                return true;
            }
            for step in steps {
                if has_long_select(&step.1) {
                    return true;
                }
            }
            false
        }
    }
}

/// The number of `room` set operators that the query leaves unused: none, if it has more.
fn operators_left(query: &QueryTree<SelectDistinct>, room: usize) -> Option<usize>
    ensures some { IfSome result (λ left. left + operator_count (plain_query query.now) ≡ room) }
    ensures none { IfNone result (room < operator_count (plain_query query.now)) }
{
    let QueryTree::Combined(first, steps) = query else {
        return Some(room);
    };
    let mut left = operators_left(first, room)?;
    for step in steps {
        left = operators_left(&step.1, left.checked_sub(1)?)?;
    }
    Some(left)
}

/// Whether the query is above a limit.
pub fn is_above_limit(query: &QueryTree<SelectDistinct>) -> bool
    ensures { result ≡ refusals.is_above_limit (plain_query query.now) }
{
    operators_left(query, MOST_OPERATORS).is_none() || has_long_select(query)
}
