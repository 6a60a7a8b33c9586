//! The refusals of a query, an UPDATE or a DELETE that apply: they are collected over all its
//! parts, and the lowest-numbered is reported.

ghost use Rattle.std.specs.Prelude.{◌≡◌};
ghost use Rattle.statement_resolution.specs.Faults.{either, fault_conditions, no_faults};
ghost use Rattle.catalog_core.specs.RefusalConditions.{first_holding};

use period_core::Refusal;

/// Whether the conditions of the refusals from 23 to 31 and of 41 hold.
#[derive(Clone, Copy)]
pub struct Faults {
    /// A table that is missing.
    pub table: bool,
    /// A column's name that matches nothing.
    pub unknown: bool,
    /// A column's name that matches several columns.
    pub ambiguous: bool,
    /// Two tables of a select that are known by one name, or a column that is set twice.
    pub twice: bool,
    /// A period or system column where a value column has to be.
    pub period: bool,
    /// Sides of a set operator with different numbers of columns.
    pub count: bool,
    /// A comparison of two kinds, a set operator over columns of two kinds, or a value of another
    /// kind than its column.
    pub kinds: bool,
    /// A text that its column does not take.
    pub long: bool,
    /// A period that does not end after its start.
    pub empty: bool,
}

impl Faults {
    /// None of them.
    pub fn none() -> Faults
        ensures { result ≡ no_faults }
    {
        Faults {
            table: false,
            unknown: false,
            ambiguous: false,
            twice: false,
            period: false,
            count: false,
            kinds: false,
            long: false,
            empty: false,
        }
    }

    /// The union of the faults of both.
    pub fn or(self, other: Faults) -> Faults
        ensures { result ≡ either self other }
    {
        Faults {
            table: self.table | other.table,
            unknown: self.unknown | other.unknown,
            ambiguous: self.ambiguous | other.ambiguous,
            twice: self.twice | other.twice,
            period: self.period | other.period,
            count: self.count | other.count,
            kinds: self.kinds | other.kinds,
            long: self.long | other.long,
            empty: self.empty | other.empty,
        }
    }

    /// The lowest-numbered.
    pub fn first(self) -> Option<Refusal>
        ensures { result ≡ first_holding (fault_conditions self) }
    {
        if self.table {
            return Some(Refusal::UnknownTable);
        }
        if self.unknown {
            return Some(Refusal::UnknownColumn);
        }
        if self.ambiguous {
            return Some(Refusal::AmbiguousColumn);
        }
        if self.twice {
            return Some(Refusal::DuplicateName);
        }
        if self.period {
            return Some(Refusal::PeriodColumn);
        }
        if self.count {
            return Some(Refusal::ColumnCount);
        }
        if self.kinds {
            return Some(Refusal::TypeMismatch);
        }
        if self.long {
            return Some(Refusal::TextTooLong);
        }
        if self.empty {
            return Some(Refusal::EmptyPeriod);
        }
        None
    }
}
