//! Faults of a piece, whatever its tokens spell.

ghost use Rattle.std.specs.Prelude.{◌↔◌, false, IsTrue, IfSome, IfNone};
ghost use Rattle.period_core.specs.Leasts.{IsLeast, NoneApplies};
ghost use Rattle.sql_statements.specs.Lexemes.{lexemes};
ghost use Rattle.sql_front.specs.Depth.{IsDeeper, most_open};
ghost use Rattle.sql_front.specs.LiteralFaults.{HasBadDate, HasBadMoment, HasNumberOutside};
ghost use Rattle.sql_front.specs.LiteralRefusals.{LiteralApplies};

use crate::depth::Room;
use crate::literal_faults::{is_above, is_bad_date, is_bad_moment};
use crate::terminal::{Terminal, is_terminal};
use period_core::Refusal;
use sql_statements::token::Token;

/// The faults that are somewhere in a piece.
#[derive(Clone, Copy)]
struct Faults {
    /// Up to some token there are over 32 more `(` than `)`.
    too_deep: bool,
    /// Some DATE names no day.
    bad_date: bool,
    /// Some TIMESTAMP names no moment, or one after AT or OF names none before the open end.
    bad_moment: bool,
    /// Some number, with its sign, is outside 64 bits signed.
    number_outside: bool,
}

/// The faults that are somewhere in a piece: one pass over its tokens.
fn faults_of(tokens: &[Token<'_>]) -> Faults
    ensures depth { IsTrue result.too_deep ↔ IsDeeper most_open (lexemes tokens.now) }
    ensures dates { IsTrue result.bad_date ↔ HasBadDate (lexemes tokens.now) }
    ensures moments { IsTrue result.bad_moment ↔ HasBadMoment (lexemes tokens.now) }
    ensures numbers { IsTrue result.number_outside ↔ HasNumberOutside (lexemes tokens.now) }
{
    let mut faults = Faults {
        too_deep: false,
        bad_date: false,
        bad_moment: false,
        number_outside: false,
    };
    let mut room = Room::whole();
    let mut minus = false;
    let mut rest = tokens;
    'tokens: while let [first, after @ ..] = rest {
        faults.bad_date |= is_bad_date(first, after);
        faults.bad_moment |= is_bad_moment(first, after);
        faults.number_outside |= is_above(minus, first);
        room = room.after(first);
        minus = is_terminal(first, Terminal::Symbol("-"));
        rest = after;
    }
    faults.too_deep = room.is_exceeded();
    faults
}

/// The refusals that a piece calls for, whatever its tokens spell.
#[derive(Clone, Copy)]
pub struct PieceFaults {
    /// Up to some token there are over 32 more `(` than `)`.
    pub too_deep: bool,
    /// The lowest-numbered refusal that the literals call for, if they call for one.
    pub literal: Option<Refusal>,
}

/// The refusals that a piece calls for, whatever its tokens spell.
pub fn piece_faults(tokens: &[Token<'_>]) -> PieceFaults
    ensures depth { IsTrue result.too_deep ↔ IsDeeper most_open (lexemes tokens.now) }

    // The refusal for a literal is the lowest-numbered one whose condition holds.
    ensures least { IfSome result.literal (IsLeast (LiteralApplies (lexemes tokens.now))) }

    // A piece has no such refusal only if no condition holds.
    ensures none { IfNone result.literal (NoneApplies (LiteralApplies (lexemes tokens.now))) }
{
    let faults = faults_of(tokens);
    let too_deep = faults.too_deep;
    if faults.bad_date {
        return PieceFaults {
            too_deep,
            literal: Some(Refusal::BadDate),
        };
    }
    if faults.bad_moment {
        return PieceFaults {
            too_deep,
            literal: Some(Refusal::BadMoment),
        };
    }
    if faults.number_outside {
        return PieceFaults {
            too_deep,
            literal: Some(Refusal::NumberRange),
        };
    }
    PieceFaults {
        too_deep,
        literal: None,
    }
}
