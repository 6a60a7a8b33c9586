//! The moments that the clock may have.

ghost use Rattle.std.specs.Prelude.{◌≡◌, ◌↔◌, ◌<ℤ◌, IsSome, IfSome};
ghost use Rattle.period_core.specs.Moments.{IsMomentNumber, first_moment, forever};

use period_core::Moment;
use std::marker::Model;

/// A moment before the open end of system time: one that AT names, or that AS OF looks back to.
#[derive(Clone, Copy)]
pub struct ClockMoment {
    moment: Moment,
}

impl Model for ClockMoment {
    ghost use Rattle.std.specs.Prelude.{ℤ, ◌<ℤ◌};
    ghost use Rattle.period_core.specs.Moments.{IsMomentNumber, forever};

    ghost Value = { ℤ };

    ghost view = { λ m. m.moment };

    ghost invariant = { λ m. IsMomentNumber m.moment × (m.moment <ℤ forever) };

    ghost inverse = { λ n. record { moment = n } };
}

impl ClockMoment {
    /// The moment, unless it is the open end.
    pub fn new(moment: Moment) -> Option<ClockMoment>
        ensures there { IsSome result ↔ (moment <ℤ forever) }
        ensures value { IfSome result (λ m. m ≡ moment) }
    {
        if moment.number() < Moment::forever().number() {
            Some(ClockMoment { moment })
        } else {
            None
        }
    }

    /// The first moment, at which a new store begins.
    pub fn first() -> ClockMoment
        ensures { result ≡ first_moment }
    {
        ClockMoment {
            moment: Moment::first(),
        }
    }

    /// The moment.
    pub fn moment(self) -> Moment
        ensures value { result ≡ self }
        ensures in_range { IsMomentNumber result }
        ensures below { result <ℤ forever }
    {
        self.moment
    }
}
