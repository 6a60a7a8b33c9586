//! Comparisons with positions in place of names, and their faults.

ghost use Rattle.std.specs.Prelude.{◌≡◌, IfOk};
ghost use Rattle.statement_resolution.specs.Faults.{either};
ghost use Rattle.statement_resolution.specs.Placing.{place_side};
ghost use Rattle.statement_resolution.specs.query.Faults as judged;
ghost use Rattle.statement_resolution.specs.query.Faults.{matches_among};
ghost use Rattle.statement_resolution.specs.query.Places.{place_among};

use crate::faults::Faults;
use crate::query::scope::Scope;
use crate::resolver::Resolver;
use catalog_core::{Comparand, CompareValues, ValueKind, differ, kind_of_value};
use period_core::Memory;
use sql_statements::{Compare, Operand};
use std::alloc::Global;

/// A side of a comparison by its position, and its kind.
#[derive(Drop)]
struct ResolvedSide {
    side: Comparand,
    kind: Option<ValueKind>,
}

/// A side of a comparison. Its faults are added to those found so far.
#[tactic(auto, using(crate::proofs::lemmas::query::Matching::found_match))]
fn resolve_side(
    alloc: Global,
    scope: &Scope<'_>,
    side: &Operand,
    found: &mut Faults,
) -> Result<ResolvedSide, Memory>
    ensures numbered { IfOk result (λ numbered. numbered.side
        ≡ place_side (place_among scope.now.before.now scope.now.seen.now) side.now) }
    ensures kind { IfOk result (λ numbered. numbered.kind
        ≡ judged.side_kind (matches_among scope.now.seen.now) side.now) }
    ensures judged { IfOk result (λ _. found.new ≡ either found.old
        (judged.side_faults (matches_among scope.now.seen.now) side.now)) }
{
    match side {
        Operand::Column(column) => {
            let named = scope.look_up(column);
            *found = found.or(named.matched.faults());
            Ok(ResolvedSide {
                side: Comparand::Position(named.position),
                kind: named.matched.kind,
            })
        }
        Operand::Literal(value) => Ok(ResolvedSide {
            side: Comparand::Literal(value.copy(alloc)?),
            kind: Some(kind_of_value(value)),
        }),
    }
}

impl<'a> Resolver<Compare> for Scope<'a> {
    ghost use Rattle.std.specs.Prelude.{Option, Some};
    ghost use Rattle.statement_resolution.specs.Placing.{place_compare};
    ghost use Rattle.statement_resolution.specs.query.Faults.{compare_faults, matches_among};
    ghost use Rattle.statement_resolution.specs.query.Places.{place_among};
    ghost use Rattle.catalog_core.specs.declared.condition.CompareValues.{CompareValues as Resolved};

    type Resolved = CompareValues;

    ghost Parts = { Option Resolved };

    ghost faults = { λ s c. compare_faults (matches_among s.seen.now) c };

    ghost placed = { λ s c. Some (place_compare (place_among s.before.now s.seen.now) c) };

    ghost parts = { λ numbered. Some numbered };

    fn resolve_test(
        &self,
        alloc: Global,
        test: &Compare,
        found: &mut Faults,
    ) -> Result<CompareValues, Memory> {
        let left = resolve_side(alloc, self, &test.left, found)?;
        let right = resolve_side(alloc, self, &test.right, found)?;
        *found = found.or(Faults {
            kinds: differ(left.kind, right.kind),
            ..Faults::none()
        });
        Ok(CompareValues {
            left: left.side,
            comparison: test.comparison,
            right: right.side,
        })
    }
}
