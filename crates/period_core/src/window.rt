//! System-time windows: which versions a table reference sees by FOR SYSTEM_TIME.

ghost use Rattle.std.specs.Prelude.{◌≡◌};

use crate::moment::Moment;

/// The versions that a table reference sees, by their system time. A FROM .. TO sees none unless
/// its first moment is before its second, and a BETWEEN .. AND none if its first is after its
/// second.
#[derive(Clone, Copy, PartialEq, Eq, Debug)]
pub enum Window {
    /// The current versions: those that end at FOREVER.
    Now,
    /// AS OF: the versions whose system time has the moment.
    AsOf(Moment),
    /// FROM .. TO: the versions whose system time has a moment from the first on and before the
    /// second.
    FromTo(Moment, Moment),
    /// BETWEEN .. AND: the versions whose system time has a moment from the first on and up to the
    /// second.
    Between(Moment, Moment),
}

impl Window {
    ghost use Rattle.period_core.specs.Windows.{window_sees};

    /// Whether the window sees a version whose system time is from `from` on and before `to`.
    pub fn sees(self, from: Moment, to: Moment) -> bool
        ensures { result ≡ window_sees self from to }
    {
        match self {
            Window::Now => to == Moment::forever(),
            Window::AsOf(moment) => from <= moment && moment < to,
            Window::FromTo(start, end) => start < end && from < end && start < to,
            Window::Between(start, last) => start <= last && from <= last && start < to,
        }
    }
}
