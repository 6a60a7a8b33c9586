//! Conditions whatever their tests are: what they are with positions in place of names, and their
//! faults, in one walk.

ghost use Rattle.std.specs.Prelude.{◌≡◌, IfOk};
ghost use Rattle.std.specs.Option.{option_map};
ghost use Rattle.sql_statements.specs.Plain.{plain_condition};
ghost use Rattle.statement_resolution.specs.Faults as judged;
ghost use Rattle.statement_resolution.specs.Faults.{either};
ghost use Rattle.statement_resolution.specs.Positions.{ReplacesWhere, map_condition};

use crate::faults::Faults;
use period_core::Memory;
use sql_statements::Tree;
use std::alloc::Global;

/// Tests of conditions are judged and resolved by it.
pub trait Resolver<T> {
    ghost use Rattle.statement_resolution.specs.declared.faults.Faults.{Faults};

    /// A resolved test.
    type Resolved: Drop;

    /// A resolved test with no proof inside.
    ghost Parts: { Type 0 };

    /// The faults of a test.
    ghost faults: { Self → T → Faults };

    /// A test with positions for its columns.
    ghost placed: { Self → T → Parts };

    /// The parts of a resolved test.
    ghost parts: { Self.Resolved → Parts };

    /// A test with positions for its columns. Its faults are added to those found so far.
    fn resolve_test(
        &self,
        alloc: Global,
        test: &T,
        found: &mut Faults,
    ) -> Result<Self::Resolved, Memory>
        ensures numbered { IfOk result (λ numbered. placed self.now test.now ≡ parts numbered) }
        ensures judged { IfOk result
            (λ _. found.new ≡ either found.old (faults self.now test.now)) };
}

/// A condition with positions for its columns. Its faults are added to those found so far.
pub fn resolve_condition<T, S: Resolver<T>>(
    alloc: Global,
    resolver: &S,
    condition: &Tree<T>,
    found: &mut Faults,
) -> Result<Tree<S::Resolved>, Memory>
    ensures numbered { IfOk result (λ numbered.
        map_condition (S.placed resolver.now) (plain_condition condition.now)
        ≡ map_condition S.parts (plain_condition numbered)) }
    ensures judged { IfOk result (λ _. found.new ≡ either found.old
        (judged.condition_faults (S.faults resolver.now) (plain_condition condition.now))) }
{
    match condition {
        Tree::Or(first, others) | Tree::And(first, others) => {
            let mut numbered = Vec::new(alloc);
            for part in others {
                numbered.push(resolve_condition(alloc, resolver, part, found)?)?;
            }
            let first = resolve_condition(alloc, resolver, first, found)?;
            let first = Box::new(alloc, first)?;
            match condition {
                Tree::And(_, _) => Ok(Tree::And(first, numbered)),
                _ => Ok(Tree::Or(first, numbered)),
            }
        }
        Tree::Not(part) => {
            let part = resolve_condition(alloc, resolver, part, found)?;
            Ok(Tree::Not(Box::new(alloc, part)?))
        }
        Tree::Test(test) => Ok(Tree::Test(resolver.resolve_test(alloc, test, found)?)),
    }
}

/// The condition of WHERE, if there is one, with positions for its columns. Its faults are added to
/// those found so far.
pub fn resolve_where<T, S: Resolver<T>>(
    alloc: Global,
    resolver: &S,
    condition: &Option<Tree<T>>,
    found: &mut Faults,
) -> Result<Option<Tree<S::Resolved>>, Memory>
    ensures numbered { IfOk result (λ numbered. ReplacesWhere (S.placed resolver.now) S.parts
        (option_map plain_condition condition.now) numbered) }
    ensures judged { IfOk result (λ _. found.new ≡ either found.old
        (judged.where_faults (S.faults resolver.now) (option_map plain_condition condition.now))) }
{
    match condition {
        Some(condition) => Ok(Some(resolve_condition(alloc, resolver, condition, found)?)),
        None => Ok(None),
    }
}
