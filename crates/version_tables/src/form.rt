//! The forms of a store, which differ in the unit of their moments.

ghost use Rattle.std.specs.Prelude.{◌≡◌, ◌↔◌, IsTrue, MatchOption};
ghost use Rattle.version_tables.specs.Forms.{IsNumberIn, end_in, form_number, least_number};
ghost use Rattle.version_tables.specs.Forms.{moment_in, open_end};

use period_core::Moment;

/// The form of a store: in which unit it counts moments. The three tables are the same.
#[derive(Clone, Copy, PartialEq, Eq, Debug)]
pub enum Form {
    /// Form 1: in seconds, and its open end is 9999-12-31 23:59:59.
    Seconds,
    /// Form 2: in microseconds, as the numbers of `Moment` do.
    Microseconds,
}

/// 0001-01-01 00:00:00 in seconds.
const FIRST_SECOND: i64 = -62_135_596_800;

/// 9999-12-31 23:59:59 in seconds: the open end of form 1.
const LAST_SECOND: i64 = 253_402_300_799;

/// The moments of a second.
const MICROSECONDS_PER_SECOND: i64 = 1_000_000;

impl Form {
    /// The number of the form, 1 or 2, which bt_meta has.
    pub fn number(self) -> i64
        ensures { result ≡ form_number self }
    {
        match self {
            Form::Seconds => 1,
            Form::Microseconds => 2,
        }
    }

    /// The form that has this number, if there is one.
    pub(crate) fn of_number(number: i64) -> Option<Form>
        ensures { MatchOption result ((form : Form) → ¬ (form_number form ≡ number))
            (λ form. form_number form ≡ number) }
    {
        match number {
            1 => Some(Form::Seconds),
            2 => Some(Form::Microseconds),
            _ => None,
        }
    }

    /// The number of the first moment, in the form's unit.
    pub(crate) fn least_number(self) -> i64
        ensures { result ≡ least_number self }
    {
        match self {
            Form::Seconds => FIRST_SECOND,
            Form::Microseconds => Moment::first().number(),
        }
    }

    /// The number of the open end, at which current versions end, in the form's unit.
    pub(crate) fn open_end(self) -> i64
        ensures { result ≡ open_end self }
    {
        match self {
            Form::Seconds => LAST_SECOND,
            Form::Microseconds => Moment::forever().number(),
        }
    }

    /// Whether the number is a moment's, in the form's unit.
    pub(crate) fn has_number(self, number: i64) -> bool
        ensures { IsTrue result ↔ IsNumberIn self number }
    {
        self.least_number() <= number && number <= self.open_end()
    }

    /// The moment with this number in the form's unit: of a second, that at which it begins. `None`
    /// for a number before the first moment or after the open end.
    pub fn moment(self, number: i64) -> Option<Moment>
        ensures { MatchOption result (¬ IsNumberIn self number)
            (λ moment. IsNumberIn self number × (moment ≡ moment_in self number)) }
    {
        match self {
            Form::Seconds => {
                if !self.has_number(number) {
                    return None;
                }
                Moment::new(number * MICROSECONDS_PER_SECOND)
            }
            Form::Microseconds => Moment::new(number),
        }
    }

    /// The moment at which the system time of a version ends that has this end in the form's unit:
    /// FOREVER for the open end. `None` for a number before the first moment or after the open end.
    pub fn end(self, number: i64) -> Option<Moment>
        ensures { MatchOption result (¬ IsNumberIn self number)
            (λ moment. IsNumberIn self number × (moment ≡ end_in self number)) }
    {
        if number == self.open_end() {
            return Some(Moment::forever());
        }
        self.moment(number)
    }
}
