//! Values of columns, with their order.

ghost use Rattle.std.specs.Prelude.{◌≡◌, ◌↔◌, IfOk, IsTrue};

use crate::day::Day;
use crate::memory::Memory;
use crate::text::Text;
use std::alloc::Global;
use std::cmp::Ordering;
use std::marker::Model;

/// The greatest number of 64 bits signed: no INTEGER is above it.
pub const GREATEST_NUMBER: u64 = 9_223_372_036_854_775_807;

/// A value of a column, of one of three kinds. Integers come before texts, and texts before dates.
#[derive(Drop, Debug, PartialEq, Eq, PartialOrd, Ord)]
pub enum Value {
    /// An integer of 64 bits.
    Int(i64),
    /// A text.
    Text(Text),
    /// A day.
    Date(Day),
}

impl Value {
    /// An equal value. An `Err` says that memory was refused.
    pub fn copy(&self, alloc: Global) -> Result<Value, Memory>
        ensures { IfOk result (λ v. v ≡ self.now) }
    {
        match self {
            Value::Int(n) => Ok(Value::Int(*n)),
            Value::Text(text) => Ok(Value::Text(text.copy(alloc)?)),
            Value::Date(day) => Ok(Value::Date(*day)),
        }
    }
}

/// The values of a row, column by column, which contracts see as their list. Lists are in the
/// order of their first values that differ, and a list before those that it begins.
#[derive(Drop, Debug)]
pub struct Values {
    items: Vec<Value>,
}

impl Model for Values {
    ghost use Rattle.std.specs.Prelude.{List};
    ghost use Rattle.period_core.specs.declared.value.Value.{Value as ColumnValue};

    ghost Value = { List ColumnValue };

    ghost view = { λ v. v.items.items };
}

impl Values {
    /// The values of a vector, in its order.
    pub fn from_vec(items: Vec<Value>) -> Values
        ensures { result ≡ items.items }
    {
        Values { items }
    }

    /// The values.
    pub fn as_slice(&self) -> &[Value]
        ensures { result.now ≡ self.now }
    {
        self.items.as_slice()
    }

    /// An equal list. An `Err` says that memory was refused.
    pub fn copy(&self, alloc: Global) -> Result<Values, Memory>
        ensures { IfOk result (λ v. v ≡ self.now) }
    {
        let mut items = Vec::with_capacity(alloc, self.items.len())?;
        for value in self.as_slice() {
            items.push(value.copy(alloc)?)?;
        }
        Ok(Values { items })
    }
}

impl PartialEq for Values {
    ghost use Rattle.std.specs.Cmp.{partial_equiv_from_equiv, eq_by_cmp_equiv};
    ghost use Rattle.std.specs.Ordering.{eq_by_cmp};
    ghost use Rattle.period_core.specs.Order.{values_cmp};
    ghost use Rattle.period_core.specs.OrderLaws.{values_cmp_total};

    ghost eq = { eq_by_cmp values_cmp };

    ghost laws = { partial_equiv_from_equiv (eq_by_cmp_equiv values_cmp_total) };

    fn eq(&self, other: &Values) -> bool
        ensures value { result ≡ eq_by_cmp values_cmp self.now other.now }
        ensures same { IsTrue result ↔ (self.now ≡ other.now) }
    {
        self.cmp(other) == Ordering::Equal
    }
}

impl Eq for Values {
    ghost use Rattle.std.specs.Cmp.{eq_by_cmp_equiv};
    ghost use Rattle.period_core.specs.OrderLaws.{values_cmp_total};

    ghost laws = { eq_by_cmp_equiv values_cmp_total };
}

impl Ord for Values {
    ghost use Rattle.std.specs.Prelude.{refl};
    ghost use Rattle.period_core.specs.Order.{values_cmp};
    ghost use Rattle.period_core.specs.OrderLaws.{values_cmp_total};

    ghost cmp = { values_cmp };

    ghost total = { values_cmp_total };

    ghost matches_partial_cmp = { λ x y. refl };

    ghost matches_eq = { λ x y. refl };

    fn cmp(&self, other: &Values) -> Ordering {
        self.as_slice().cmp(other.as_slice())
    }
}

impl PartialOrd for Values {
    ghost use Rattle.std.specs.Cmp.{partial_order_from_total};
    ghost use Rattle.std.specs.Ordering.{as_partial_cmp};
    ghost use Rattle.period_core.specs.Order.{values_cmp};
    ghost use Rattle.period_core.specs.OrderLaws.{values_cmp_total};

    ghost partial_cmp = { as_partial_cmp values_cmp };

    ghost laws = { partial_order_from_total values_cmp_total };

    fn partial_cmp(&self, other: &Values) -> Option<Ordering> {
        Some(self.cmp(other))
    }
}
