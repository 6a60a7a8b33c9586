//! Conditions over a row's values.

ghost use Rattle.std.specs.Prelude.{◌≡◌};
ghost use Rattle.std.specs.Option.{option_copied};
ghost use Rattle.sql_statements.specs.Plain.{plain_condition};
ghost use Rattle.catalog_core.specs.Conditions.{allows, is_satisfied, meets, side_value};

use period_core::Value;
use sql_statements::{Comparison, Tree};
use std::cmp::Ordering;

/// A side of a comparison: the row's value at a position, or a literal.
#[derive(Drop)]
pub enum Comparand {
    Position(usize),
    Literal(Value),
}

/// Two sides compared.
#[derive(Drop)]
pub struct CompareValues {
    pub left: Comparand,
    pub comparison: Comparison,
    pub right: Comparand,
}

/// A condition over a row's values.
pub type Cond = Tree<CompareValues>;

/// Whether the comparison holds of two values that are in this order.
pub fn is_allowed(comparison: Comparison, order: Ordering) -> bool
    ensures { result ≡ allows comparison order }
{
    match comparison {
        Comparison::Equal => order == Ordering::Equal,
        Comparison::NotEqual => order != Ordering::Equal,
        Comparison::Less => order == Ordering::Less,
        Comparison::LessOrEqual => order != Ordering::Greater,
        Comparison::Greater => order == Ordering::Greater,
        Comparison::GreaterOrEqual => order != Ordering::Less,
    }
}

/// The value of a side in a row: `None` if the row has none at its position.
fn value_of<'a>(side: &'a Comparand, values: &'a [Value]) -> Option<&'a Value>
    ensures { option_copied result ≡ side_value side.now values.now }
{
    match side {
        Comparand::Position(position) => values.get(*position),
        Comparand::Literal(value) => Some(value),
    }
}

/// A row or a version, of which a test may hold.
pub trait Subject<T>: Copy {
    ghost use Rattle.std.specs.Prelude.{Bool};

    /// Whether a test holds.
    ghost passed: { Self → T → Bool };

    /// Whether a test holds.
    fn passes(self, test: &T) -> bool
        ensures { result ≡ passed self test.now };
}

impl<'a> Subject<CompareValues> for &'a [Value] {
    ghost use Rattle.catalog_core.specs.Conditions.{compares};

    ghost passed = { λ values. compares values.now };

    fn passes(self, test: &CompareValues) -> bool {
        let Some(left) = value_of(&test.left, self) else {
            return false;
        };
        let Some(right) = value_of(&test.right, self) else {
            return false;
        };
        is_allowed(test.comparison, left.cmp(right))
    }
}

/// Whether the condition holds of the subject. It takes no memory.
pub fn satisfies<T, S: Subject<T>>(condition: &Tree<T>, subject: S) -> bool
    ensures { result ≡ is_satisfied (S.passed subject) (plain_condition condition.now) }
{
    match condition {
        Tree::Or(first, others) => {
            if satisfies(first, subject) {
                return true;
            }
            for part in others {
                if satisfies(part, subject) {
                    return true;
                }
            }
            false
        }
        Tree::And(first, others) => {
            if !satisfies(first, subject) {
                return false;
            }
            for part in others {
                if !satisfies(part, subject) {
                    return false;
                }
            }
            true
        }
        Tree::Not(part) => !satisfies(part, subject),
        Tree::Test(test) => subject.passes(test),
    }
}

/// Whether the condition holds of the row's values. It takes no memory.
pub fn holds(condition: &Cond, values: &[Value]) -> bool
    ensures { result ≡ meets condition.now values.now }
{
    satisfies(condition, values)
}
