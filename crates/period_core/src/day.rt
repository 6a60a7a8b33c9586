//! Days of the proleptic Gregorian calendar of ISO 8601, by their numbers; their dates are jiff's.

ghost use Rattle.std.specs.Prelude.{◌≡◌, ◌↔◌, IsSome, IfSome, ℤ, pos, ◌+ℤ◌, ◌-ℤ◌, neg_ℤ, ◌<ℤ◌};
ghost use Rattle.period_core.specs.Calendar.{IsDate, IsDayNumber, IsDayText, day_after, day_before};
ghost use Rattle.period_core.specs.Calendar.{day_number, day_text, first_day};
ghost use Rattle.period_core.specs.TextReading.{day_of_text};

use crate::text_reading::day_of_bytes;
use jiff::civil::Date;
use jiff_core::civil;
use std::marker::Model;

/// A day from 0001-01-01 to 9999-12-31, by its number: 1970-01-01 is 0, and each day has the number
/// after the day before's.
#[derive(Clone, Copy, PartialEq, Eq, PartialOrd, Ord, Debug)]
pub struct Day {
    number: i32,
}

impl Model for Day {
    ghost Value = { ℤ };

    ghost view = { λ d. d.number };

    ghost invariant = { λ d. IsDayNumber d.number };

    ghost inverse = { λ n. record { number = n } };
}

/// 0001-01-01.
pub(crate) const FIRST: i32 = -719_162;

/// 9999-12-31.
const LAST: i32 = 2_932_896;

impl Day {
    /// The day with this number: `None` below 0001-01-01 and above 9999-12-31.
    pub fn new(number: i32) -> Option<Day>
        ensures there { IsSome result ↔ IsDayNumber number }
        ensures value { IfSome result (λ d. d ≡ number) }
    {
        if number < FIRST || number > LAST {
            return None;
        }
        Some(Day { number })
    }

    /// The day with this date of the proleptic Gregorian calendar: `None` exactly if the years
    /// 1 to 9999 have no such date. Months and days count from 1.
    pub fn from_date(year: u16, month: u8, day: u8) -> Option<Day>
        ensures there { IsSome result ↔ IsDate year month day }
        ensures value { IfSome result (λ d. d ≡ day_number year month day) }
    {
        if year == 0 || year > 9999 || month > 12 || day > 31 {
            return None;
        }
        match Date::new(year as i16, month as i8, day as i8) {
            Ok(date) => Some(Day {
                number: date.to_plain().to_unix_epoch_day(),
            }),
            Err(_) => None,
        }
    }

    /// The day with this text, YYYY-MM-DD in ASCII as `write_text` writes it: `None` exactly if
    /// it is no day's.
    #[tactic(auto, using(crate::proofs::TextReadings::day_readings))]
    pub fn from_text(text: &[u8]) -> Option<Day>
        ensures there { IsSome result ↔ ((n : ℤ) × IsDayText n text.now) }
        ensures value { IfSome result (λ d. IsDayText d text.now) }
        ensures reading { result ≡ day_of_text text.now }
    {
        day_of_bytes(text)
    }

    /// 0001-01-01, the least.
    pub fn first() -> Day
        ensures { result ≡ first_day }
    {
        Day { number: FIRST }
    }

    /// The number of the day, counted from 1970-01-01.
    pub fn number(self) -> i32
        ensures value { result ≡ self }
        ensures in_range { IsDayNumber self }
    {
        self.number
    }

    /// The day before: `None` for 0001-01-01.
    pub fn prev(self) -> Option<Day>
        ensures { result ≡ day_before self }
    {
        if self.number > FIRST {
            Some(Day {
                number: self.number - 1,
            })
        } else {
            None
        }
    }

    /// The day after: `None` for 9999-12-31.
    pub fn next(self) -> Option<Day>
        ensures { result ≡ day_after self }
    {
        if self.number < LAST {
            Some(Day {
                number: self.number + 1,
            })
        } else {
            None
        }
    }

    /// Writes the date as YYYY-MM-DD, the extended format of ISO 8601, in ASCII.
    pub fn write_text(self, text: &mut [u8; 10])
        ensures date { IsDayText self text.new }
        ensures text { text.new ≡ day_text self }
    {
        let date = civil::Date::from_unix_epoch_day(i64::from(self.number)).unwrap();
        let year = date.year.unsigned_abs();
        *text = [
            b'0' + (year / 1000) as u8,
            b'0' + (year / 100 % 10) as u8,
            b'0' + (year / 10 % 10) as u8,
            b'0' + (year % 10) as u8,
            b'-',
            b'0' + date.month / 10,
            b'0' + date.month % 10,
            b'-',
            b'0' + date.day / 10,
            b'0' + date.day % 10,
        ];
    }
}
