//! Days and moments read back from their texts.

ghost use Rattle.std.specs.Prelude.{◌≡◌, ◌+◌, ◌*◌, ◌-◌, ◌<◌, length, slice_index};
ghost use Rattle.std.specs.Prelude.{IfSome, Some, None};
ghost use Rattle.period_core.specs.TextReading as reading;
ghost use Rattle.period_core.specs.TextReading.{date_parts_of, day_of_text, digit_of};
ghost use Rattle.period_core.specs.TextReading.{moment_of_text, six_of, time_parts_of, two_of};

use crate::day::Day;
use crate::moment::Moment;

fn digit(byte: u8) -> Option<u8>
    ensures value { result ≡ digit_of byte }
    ensures small { IfSome result (λ d. d < 10) }
{
    if byte < b'0' || byte > b'9' {
        return None;
    }
    Some(byte - b'0')
}

fn two(tens: u8, ones: u8) -> Option<u8>
    ensures value { result ≡ two_of tens ones }
    ensures small { IfSome result (λ n. n < 100) }
{
    Some(digit(tens)? * 10 + digit(ones)?)
}

#[tactic(auto, unfolding(crate::specs::TextReading::date_parts_of))]
fn date_parts(date: [u8; 8]) -> Option<(u16, u8, u8)>
    ensures { result ≡ date_parts_of
        (slice_index date 0) (slice_index date 1) (slice_index date 2) (slice_index date 3)
        (slice_index date 4) (slice_index date 5) (slice_index date 6) (slice_index date 7) }
{
    let century = two(date[0], date[1])? as u16;
    let year = two(date[2], date[3])? as u16;
    let month = two(date[4], date[5])?;
    let day = two(date[6], date[7])?;
    Some((century * 100 + year, month, day))
}

/// The year, the month and the day of a text that begins as YYYY-MM-DD, of whatever size.
#[tactic(auto, unfolding(crate::specs::TextReading::date_at))]
fn date_at(text: &[u8]) -> Option<(u16, u8, u8)>
    requires { 9 < length text.now }
    ensures { result ≡ reading.date_at text.now }
{
    if text[4] != b'-' || text[7] != b'-' {
        return None;
    }
    date_parts([
        text[0], text[1], text[2], text[3], text[5], text[6], text[8], text[9],
    ])
}

#[tactic(auto, unfolding(crate::specs::TextReading::time_parts_of))]
fn time_parts(time: [u8; 6]) -> Option<(u8, u8, u8)>
    ensures { result ≡ time_parts_of
        (slice_index time 0) (slice_index time 1) (slice_index time 2)
        (slice_index time 3) (slice_index time 4) (slice_index time 5) }
{
    let hour = two(time[0], time[1])?;
    let minute = two(time[2], time[3])?;
    let second = two(time[4], time[5])?;
    Some((hour, minute, second))
}

/// The hour, the minute and the second of a text that has HH:MM:SS after a date and one more byte,
/// of whatever size.
#[tactic(auto, unfolding(crate::specs::TextReading::time_at))]
fn time_at(text: &[u8]) -> Option<(u8, u8, u8)>
    requires { 18 < length text.now }
    ensures { result ≡ reading.time_at text.now }
{
    if text[13] != b':' || text[16] != b':' {
        return None;
    }
    time_parts([text[11], text[12], text[14], text[15], text[17], text[18]])
}

#[tactic(auto, unfolding(crate::specs::TextReading::six_of))]
fn six(digits: [u8; 6]) -> Option<u32>
    ensures { result ≡ six_of
        (slice_index digits 0) (slice_index digits 1) (slice_index digits 2)
        (slice_index digits 3) (slice_index digits 4) (slice_index digits 5) }
{
    let high = two(digits[0], digits[1])? as u32;
    let middle = two(digits[2], digits[3])? as u32;
    let low = two(digits[4], digits[5])? as u32;
    Some(high * 10_000 + middle * 100 + low)
}

/// The byte at a place, or the digit 0 past the end of the text.
fn digit_at(text: &[u8], place: usize) -> u8
    ensures { result ≡ reading.digit_at text.now place }
{
    text.get(place).copied().unwrap_or(b'0')
}

/// The microseconds of a text that ends after a time of day, or has a point and one to six digits
/// there.
#[tactic(auto, unfolding(crate::specs::TextReading::fraction_at))]
fn fraction_at(text: &[u8]) -> Option<u32>
    requires { 18 < length text.now }
    ensures { result ≡ reading.fraction_at text.now }
{
    if text.len() == 19 {
        return Some(0);
    }
    if text[19] != b'.' || text.len() <= 20 || text.len() > 26 {
        return None;
    }
    six([
        digit_at(text, 20),
        digit_at(text, 21),
        digit_at(text, 22),
        digit_at(text, 23),
        digit_at(text, 24),
        digit_at(text, 25),
    ])
}

/// The day of YYYY-MM-DD, if there is such a day.
#[tactic(auto, unfolding(crate::specs::TextReading::day_of_text))]
pub(crate) fn day_of_bytes(text: &[u8]) -> Option<Day>
    ensures { result ≡ day_of_text text.now }
{
    if text.len() != 10 {
        return None;
    }
    let (year, month, day) = date_at(text)?;
    Day::from_date(year, month, day)
}

/// The moment of YYYY-MM-DD HH:MM:SS, with a fraction of the second or without, if there is such a
/// moment.
#[tactic(auto, unfolding(crate::specs::TextReading::moment_of_text))]
pub(crate) fn moment_of_bytes(text: &[u8]) -> Option<Moment>
    ensures { result ≡ moment_of_text text.now }
{
    if text.len() < 19 || text[10] != b' ' {
        return None;
    }
    let (year, month, day) = date_at(text)?;
    let (hour, minute, second) = time_at(text)?;
    let microsecond = fraction_at(text)?;
    Moment::from_parts(year, month, day, hour, minute, second, microsecond)
}
