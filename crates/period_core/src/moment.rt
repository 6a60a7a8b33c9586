//! Moments of system time, of the proleptic Gregorian calendar, by their numbers.

ghost use Rattle.std.specs.Prelude.{◌≡◌, ◌↔◌, ◌<◌, IsSome, IfSome, ℤ, pos, neg_ℤ, ◌+ℤ◌, ◌-ℤ◌};
ghost use Rattle.std.specs.Prelude.{◌*ℤ◌, ◌≤ℤ◌, length, take, drop};
ghost use Rattle.period_core.specs.Calendar.{IsDayText, day_text};
ghost use Rattle.period_core.specs.Moments.{IsMoment, IsMomentNumber, IsMomentText, day_of_moment};
ghost use Rattle.period_core.specs.Moments.{first_moment, forever, full_moment_text, moment_after};
ghost use Rattle.period_core.specs.Moments.{moment_before, moment_number, moment_text};
ghost use Rattle.period_core.specs.Moments.{moments_before};
ghost use Rattle.period_core.specs.TextReading.{moment_of_text};

use crate::day::{Day, FIRST as FIRST_DAY};
use crate::text_reading::moment_of_bytes;
use std::marker::Model;

/// A moment: a whole microsecond from 0001-01-01 00:00:00 to 9999-12-31 23:59:59.999999, by its
/// number. 1970-01-01 00:00:00 is 0, and each moment has the number after the one of the moment
/// before.
#[derive(Clone, Copy, PartialEq, Eq, PartialOrd, Ord, Debug)]
pub struct Moment {
    number: i64,
}

impl Model for Moment {
    ghost Value = { ℤ };

    ghost view = { λ m. m.number };

    ghost invariant = { λ m. IsMomentNumber m.number };

    ghost inverse = { λ n. record { number = n } };
}

/// 0001-01-01 00:00:00.
const FIRST: i64 = -62_135_596_800_000_000;

/// 9999-12-31 23:59:59.999999.
const FOREVER: i64 = 253_402_300_799_999_999;

/// The moments of a second: the unit is a microsecond.
const MICROSECONDS_PER_SECOND: u64 = 1_000_000;

/// The moments of a minute.
const MICROSECONDS_PER_MINUTE: u64 = 60 * MICROSECONDS_PER_SECOND;

/// The moments of an hour.
const MICROSECONDS_PER_HOUR: u64 = 60 * MICROSECONDS_PER_MINUTE;

/// The moments of a day.
const MICROSECONDS_PER_DAY: u64 = 24 * MICROSECONDS_PER_HOUR;

impl Moment {
    /// The moment with this number: `None` below 0001-01-01 00:00:00 and above 9999-12-31
    /// 23:59:59.999999.
    pub fn new(number: i64) -> Option<Moment>
        ensures there { IsSome result ↔ IsMomentNumber number }
        ensures value { IfSome result (λ m. m ≡ number) }
    {
        if number < FIRST || number > FOREVER {
            return None;
        }
        Some(Moment { number })
    }

    /// The moment of this date and time of day: `None` exactly if the years 1 to 9999 have no
    /// such date, or a day no such time. Months and days count from 1, hours, minutes, seconds and
    /// microseconds from 0; no minute has a leap second.
    pub fn from_parts(
        year: u16,
        month: u8,
        day: u8,
        hour: u8,
        minute: u8,
        second: u8,
        microsecond: u32,
    ) -> Option<Moment>
        ensures there { IsSome result ↔ IsMoment year month day hour minute second microsecond }
        ensures value { IfSome result (λ m. m
            ≡ moment_number year month day hour minute second microsecond) }
    {
        if hour > 23 || minute > 59 || second > 59 || microsecond > 999_999 {
            return None;
        }
        let date = Day::from_date(year, month, day)?;
        let time = MICROSECONDS_PER_HOUR * u64::from(hour)
            + MICROSECONDS_PER_MINUTE * u64::from(minute)
            + MICROSECONDS_PER_SECOND * u64::from(second)
            + u64::from(microsecond);
        Some(Moment {
            number: MICROSECONDS_PER_DAY as i64 * i64::from(date.number()) + time as i64,
        })
    }

    /// The moment with this text in ASCII, YYYY-MM-DD HH:MM:SS, or this with a point and one to six
    /// digits of the second's fraction: `None` exactly if it is no moment's.
    #[tactic(auto, using(crate::proofs::TextReadings::moment_readings))]
    pub fn from_text(text: &[u8]) -> Option<Moment>
        ensures there { IsSome result ↔ ((n : ℤ) × IsMomentText n text.now) }
        ensures value { IfSome result (λ m. IsMomentText m text.now) }
        ensures reading { result ≡ moment_of_text text.now }
    {
        moment_of_bytes(text)
    }

    /// 0001-01-01 00:00:00, the least.
    pub fn first() -> Moment
        ensures { result ≡ first_moment }
    {
        Moment { number: FIRST }
    }

    /// 9999-12-31 23:59:59.999999, the greatest: FOREVER, at which the system time of a current
    /// version ends.
    pub fn forever() -> Moment
        ensures { result ≡ forever }
    {
        Moment { number: FOREVER }
    }

    /// The number of the moment, counted from 1970-01-01 00:00:00.
    pub fn number(self) -> i64
        ensures value { result ≡ self }
        ensures in_range { IsMomentNumber self }
    {
        self.number
    }

    /// The moment before: `None` for the first.
    pub fn prev(self) -> Option<Moment>
        ensures { result ≡ moment_before self }
    {
        if self.number > FIRST {
            Some(Moment {
                number: self.number - 1,
            })
        } else {
            None
        }
    }

    /// The moment after: `None` for FOREVER.
    pub fn next(self) -> Option<Moment>
        ensures { result ≡ moment_after self }
    {
        if self.number < FOREVER {
            Some(Moment {
                number: self.number + 1,
            })
        } else {
            None
        }
    }

    // The number of moments before this one.
    fn count_before(self) -> u64
        ensures value { result ≡ moments_before self }
        ensures few { result < 315_537_897_600_000_000 }
        ensures in_range { IsMomentNumber self }
    {
        (self.number - FIRST) as u64
    }

    // YYYY-MM-DD HH:MM:SS, a point and the six digits of the microsecond, in ASCII.
    fn full_text(self) -> [u8; 26]
        ensures text { result ≡ full_moment_text self }
        ensures day { IsDayText (day_of_moment self) (day_text (day_of_moment self)) }
    {
        let before = self.count_before();
        let day = Day::new((before / MICROSECONDS_PER_DAY) as i32 + FIRST_DAY).unwrap();
        let mut date = [0; 10];
        day.write_text(&mut date);
        let time = before % MICROSECONDS_PER_DAY;
        let hour = (time / MICROSECONDS_PER_HOUR) as u8;
        let minute = (time % MICROSECONDS_PER_HOUR / MICROSECONDS_PER_MINUTE) as u8;
        let second = (time % MICROSECONDS_PER_MINUTE / MICROSECONDS_PER_SECOND) as u8;
        let fraction = before % MICROSECONDS_PER_SECOND;
        let high = (fraction / 10_000) as u8;
        let middle = (fraction / 100 % 100) as u8;
        let low = (fraction % 100) as u8;
        [
            date[0],
            date[1],
            date[2],
            date[3],
            date[4],
            date[5],
            date[6],
            date[7],
            date[8],
            date[9],
            b' ',
            b'0' + hour / 10,
            b'0' + hour % 10,
            b':',
            b'0' + minute / 10,
            b'0' + minute % 10,
            b':',
            b'0' + second / 10,
            b'0' + second % 10,
            b'.',
            b'0' + high / 10,
            b'0' + high % 10,
            b'0' + middle / 10,
            b'0' + middle % 10,
            b'0' + low / 10,
            b'0' + low % 10,
        ]
    }

    /// Writes the date and the time of day in ASCII, and says how many bytes that took: 19 as
    /// YYYY-MM-DD HH:MM:SS if the fraction of the second is zero, else 26, with a point and all
    /// six digits. The remaining bytes stay as they are.
    pub fn write_text(self, text: &mut [u8; 26]) -> usize
        ensures length { result ≡ length (moment_text self) }
        ensures text { take result text.new ≡ moment_text self }
        ensures rest { drop result text.new ≡ drop result text.old }
        ensures moment { IsMomentText self (take result text.new) }
    {
        let full = self.full_text();
        let length = if self.count_before() % MICROSECONDS_PER_SECOND == 0 {
            19
        } else {
            26
        };
        text[..length].copy_from_slice(&full[..length]);
        length
    }
}
