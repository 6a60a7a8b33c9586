//! The numbered refusals of scripts, statements and stores; the least that applies is answered.

ghost use Rattle.std.specs.Prelude.{◌≡◌};
ghost use Rattle.period_core.specs.declared.refusal.Refusal.TheVariants.{Memory as OutOfMemory};

use crate::day::Day;
use crate::memory::Memory;
use std::alloc::{AllocError, AllocFailed};

/// Why a script, a statement or a store was refused. Each variant says what it carries.
#[derive(Clone, Copy, Debug, PartialEq, Eq)]
pub enum Refusal {
    /// A script of at most 4 MiB that is not UTF-8.
    NotUtf8,
    /// A script of more than 4,194,304 bytes.
    ScriptTooLarge,
    /// No token begins at this byte of the script, or a text that is opened here does not end. It
    /// carries the byte's offset, the least such, from 0.
    BadToken(usize),
    /// The tokens have the syntax of no statement.
    Syntax,
    /// Up to some token there are over 32 more `(` than `)`.
    TooDeep,
    /// A DATE literal that is not a date from 0001-01-01 to 9999-12-31, written `YYYY-MM-DD`.
    BadDate,
    /// A TIMESTAMP literal that is no moment, or the open end where none may be.
    BadMoment,
    /// A number, with its sign, outside 64 bits signed.
    NumberRange,
    /// A limit on tables, columns, references, select items, operators or tokens.
    LimitReached,
    /// CREATE of a name that exists.
    TableExists,
    /// A table's name that is missing.
    UnknownTable,
    /// A column, period or qualifier that the tables in scope lack.
    UnknownColumn,
    /// A column's name that matches more than once.
    AmbiguousColumn,
    /// One name for two things, or a column repeated in a list.
    DuplicateName,
    /// A period or system column where a value column has to be.
    PeriodColumn,
    /// A CREATE whose periods, key, types or references are not those that a table has to have.
    BadDefinition,
    /// Lists of unequal length.
    ColumnCount,
    /// A value, comparison, set operator or reference over two kinds.
    TypeMismatch,
    /// A text to be stored that is longer than its column takes.
    TextTooLong,
    /// AT below the clock.
    MomentBack,
    /// A period that does not end after its start.
    EmptyPeriod,
    /// Two rows would share a key on this day, the least such day.
    KeyOverlap(Day),
    /// A child row would have no parent on this day, the least such day.
    PeriodReference(Day),
    /// A store that was not written by this product, or is damaged.
    BadStore,
    /// Out of memory.
    Memory,
    /// Any other refusal of the database.
    Store,
}

impl Refusal {
    ghost use Rattle.period_core.specs.Codes.{code_of, name_of};

    /// The number of the refusal, the same whatever it carries.
    pub fn code(&self) -> u8
        ensures { result ≡ code_of self.now }
    {
        match self {
            Refusal::NotUtf8 => 1,
            Refusal::ScriptTooLarge => 2,
            Refusal::BadToken(_) => 3,
            Refusal::Syntax => 10,
            Refusal::TooDeep => 11,
            Refusal::BadDate => 12,
            Refusal::BadMoment => 13,
            Refusal::NumberRange => 14,
            Refusal::LimitReached => 21,
            Refusal::TableExists => 22,
            Refusal::UnknownTable => 23,
            Refusal::UnknownColumn => 24,
            Refusal::AmbiguousColumn => 25,
            Refusal::DuplicateName => 26,
            Refusal::PeriodColumn => 27,
            Refusal::BadDefinition => 28,
            Refusal::ColumnCount => 29,
            Refusal::TypeMismatch => 30,
            Refusal::TextTooLong => 31,
            Refusal::MomentBack => 40,
            Refusal::EmptyPeriod => 41,
            Refusal::KeyOverlap(_) => 42,
            Refusal::PeriodReference(_) => 43,
            Refusal::BadStore => 60,
            Refusal::Memory => 61,
            Refusal::Store => 62,
        }
    }

    /// The name of the refusal, as a report prints it, without what it carries.
    pub fn name(&self) -> &'static str
        ensures { result.now ≡ name_of self.now }
    {
        match self {
            Refusal::NotUtf8 => "NotUtf8",
            Refusal::ScriptTooLarge => "ScriptTooLarge",
            Refusal::BadToken(_) => "BadToken",
            Refusal::Syntax => "Syntax",
            Refusal::TooDeep => "TooDeep",
            Refusal::BadDate => "BadDate",
            Refusal::BadMoment => "BadMoment",
            Refusal::NumberRange => "NumberRange",
            Refusal::LimitReached => "LimitReached",
            Refusal::TableExists => "TableExists",
            Refusal::UnknownTable => "UnknownTable",
            Refusal::UnknownColumn => "UnknownColumn",
            Refusal::AmbiguousColumn => "AmbiguousColumn",
            Refusal::DuplicateName => "DuplicateName",
            Refusal::PeriodColumn => "PeriodColumn",
            Refusal::BadDefinition => "BadDefinition",
            Refusal::ColumnCount => "ColumnCount",
            Refusal::TypeMismatch => "TypeMismatch",
            Refusal::TextTooLong => "TextTooLong",
            Refusal::MomentBack => "MomentBack",
            Refusal::EmptyPeriod => "EmptyPeriod",
            Refusal::KeyOverlap(_) => "KeyOverlap",
            Refusal::PeriodReference(_) => "PeriodReference",
            Refusal::BadStore => "BadStore",
            Refusal::Memory => "Memory",
            Refusal::Store => "Store",
        }
    }
}

impl From<Memory> for Refusal {
    ghost from_gives = { λ _ refusal. refusal ≡ OutOfMemory };

    fn from(_fault: Memory) -> Refusal {
        Refusal::Memory
    }
}

impl From<AllocError> for Refusal {
    ghost from_gives = { λ _ refusal. refusal ≡ OutOfMemory };

    fn from(_fault: AllocError) -> Refusal {
        Refusal::Memory
    }
}

impl<T: Drop> From<AllocFailed<T>> for Refusal {
    ghost from_gives = { λ _ refusal. refusal ≡ OutOfMemory };

    fn from(_fault: AllocFailed<T>) -> Refusal {
        Refusal::Memory
    }
}
