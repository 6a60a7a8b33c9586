//! The days and moments that text tokens name.

ghost use Rattle.std.specs.Prelude.{◌≡◌, ◌↔◌, ◌≤◌, IsSome, IsTrue, is_none, length};
ghost use Rattle.sql_front.specs.LiteralTests.{AreDigitsWithin, IsLateYear};
ghost use Rattle.sql_front.specs.reading.LeafValues as leaves;
ghost use Rattle.sql_front.specs.reading.LeafValues.{clock_value, day_value, moment_value};
ghost use Rattle.sql_front.specs.LiteralValues as values;
ghost use Rattle.sql_front.specs.LiteralValues.{IsClockToken, IsDateToken, IsMomentToken};

use period_core::{Day, Moment};
use sql_statements::clock_moment::ClockMoment;

/// The bytes of a token without its first and its last.
fn between_quotes(token: &str) -> &[u8]
    ensures { result.now ≡ values.between_quotes token.now }
{
    let bytes = token.as_bytes();
    if bytes.len() < 2 {
        return &bytes[..0];
    }
    &bytes[1..bytes.len() - 1]
}

#[tactic(auto, unfolding(crate::specs::reading::LeafValues::day_of_token))]
fn day_between_quotes(token: &str) -> Option<Day>
    ensures { result ≡ leaves.day_of_token token.now }
{
    Day::from_text(between_quotes(token))
}

/// The day that a text token of the form YYYY-MM-DD names, if it names one.
#[tactic(auto, using(crate::proofs::TokenFacts::day_there))]
pub fn day_of_token(token: &str) -> Option<Day>
    ensures value { result ≡ leaves.day_of_token token.now }
    ensures there { IsSome result ↔ IsDateToken token.now }
{
    day_between_quotes(token)
}

/// Whether a byte is from the one to the other.
#[inline(always)]
fn is_between(byte: u8, least: u8, greatest: u8) -> bool
    ensures { IsTrue result → (least ≤ byte) × (byte ≤ greatest) }
{
    least <= byte && byte <= greatest
}

/// Whether these are the digits of a year from 1000 on.
#[inline(always)]
fn is_late_year(first: u8, second: u8, third: u8, fourth: u8) -> bool
    ensures { IsTrue result → IsLateYear first second third fourth }
{
    is_between(first, b'1', b'9')
        && is_between(second, b'0', b'9')
        && is_between(third, b'0', b'9')
        && is_between(fourth, b'0', b'9')
}

/// Whether these are the digits of a month.
#[inline(always)]
fn is_month(tens: u8, ones: u8) -> bool
    ensures { IsTrue result → AreDigitsWithin 12 tens ones }
{
    if tens == b'0' {
        return is_between(ones, b'1', b'9');
    }
    tens == b'1' && is_between(ones, b'0', b'2')
}

/// Whether these are the digits of a day that each month has: here, of which the second is from 1
/// to 8.
#[inline(always)]
fn is_early(tens: u8, ones: u8) -> bool
    ensures { IsTrue result → AreDigitsWithin 28 tens ones }
{
    is_between(tens, b'0', b'2') && is_between(ones, b'1', b'8')
}

/// Whether a text token of twelve bytes names a day that is in each month, of a year from 1000 on.
/// Each byte of it is looked at alone, so not all such days are found.
fn is_plain_day(token: &[u8]) -> bool
    requires { length token.now ≡ 12 }
    ensures { IsTrue result → IsSome (leaves.day_of_token token.now) }
{
    if token[5] != b'-' || token[8] != b'-' {
        return false;
    }
    if !is_late_year(token[1], token[2], token[3], token[4]) {
        return false;
    }
    if !is_month(token[6], token[7]) {
        return false;
    }
    is_early(token[9], token[10])
}

/// Whether a text token names no day.
// Most dates are plain, and no number is made of them.
pub fn names_no_day(token: &str) -> bool
    ensures { result ≡ is_none (leaves.day_of_token token.now) }
{
    let bytes = token.as_bytes();
    if bytes.len() == 12 && is_plain_day(bytes) {
        return false;
    }
    day_of_token(token).is_none()
}

#[tactic(auto, unfolding(crate::specs::reading::LeafValues::moment_of_token))]
fn moment_between_quotes(token: &str) -> Option<Moment>
    ensures { result ≡ leaves.moment_of_token token.now }
{
    Moment::from_text(between_quotes(token))
}

/// The moment that a text token of the form YYYY-MM-DD HH:MM:SS names, with a fraction of the
/// second or without, if it names one.
#[tactic(auto, using(crate::proofs::TokenFacts::moment_there))]
pub fn moment_of_token(token: &str) -> Option<Moment>
    ensures value { result ≡ leaves.moment_of_token token.now }
    ensures there { IsSome result ↔ IsMomentToken token.now }
{
    moment_between_quotes(token)
}

#[tactic(auto, unfolding(crate::specs::reading::LeafValues::clock_of_token))]
fn clock_moment_at(token: &str) -> Option<ClockMoment>
    ensures { result ≡ leaves.clock_of_token token.now }
{
    ClockMoment::new(moment_of_token(token)?)
}

/// The moment before the open end that a text token names, if it names one.
#[tactic(auto, using(crate::proofs::TokenFacts::clock_there))]
pub fn clock_moment_of_token(token: &str) -> Option<ClockMoment>
    ensures value { result ≡ leaves.clock_of_token token.now }
    ensures there { IsSome result ↔ IsClockToken token.now }
{
    clock_moment_at(token)
}

/// The day that a text token names: the first day if it names none.
#[tactic(auto, unfolding(crate::specs::reading::LeafValues::day_value))]
pub fn named_day(token: &str) -> Day
    ensures { result ≡ day_value token.now }
{
    match day_of_token(token) {
        Some(day) => day,
        None => Day::first(),
    }
}

/// The moment that a text token names: the first moment if it names none.
#[tactic(auto, unfolding(crate::specs::reading::LeafValues::moment_value))]
pub fn named_moment(token: &str) -> Moment
    ensures { result ≡ moment_value token.now }
{
    match moment_of_token(token) {
        Some(moment) => moment,
        None => Moment::first(),
    }
}

/// The moment before the open end that a text token names: the first moment if it names none.
#[tactic(auto, unfolding(crate::specs::reading::LeafValues::clock_value))]
pub fn named_clock_moment(token: &str) -> ClockMoment
    ensures { result ≡ clock_value token.now }
{
    match clock_moment_of_token(token) {
        Some(moment) => moment,
        None => ClockMoment::first(),
    }
}
