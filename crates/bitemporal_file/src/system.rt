//! The system as a run sees it, apart from its files: the clock, new files, and standard error.

ghost use Rattle.std.specs.Prelude.{ℕ, ℤ, IfErr, List, OnOk};
ghost use Rattle.bitemporal_file.specs.Copies.{AnyFile, IsCopyFault};

use crate::new_file::make_file;
use command_line::RunFault;
use period_core::Moment;
use script_engine::system_time;
use std::time::Clock;

/// The system, of which contracts know no more than what it was asked for.
pub trait System: Clock {
    /// Whether a file of that name was made with the bytes.
    ghost made: { List ℕ → List ℕ → Type 0 };

    /// Whether the clock was read at that moment.
    ghost tells: { ℤ → Type 0 };

    /// The moment that the clock gives, or the first one, as `system_time` has it.
    fn time(&self) -> Moment
        ensures { tells result };

    /// Makes a file of that name with the bytes. If there is one, it stays.
    fn make(&self, name: &str, bytes: &[u8]) -> Result<(), RunFault>
        ensures made { OnOk result (made name.now bytes.now) }
        ensures fault { IfErr result IsCopyFault };
}

impl System for HostRuntime {
    ghost made = { AnyFile };

    ghost tells = { λ moment. Unit {0} };

    fn time(&self) -> Moment {
        system_time(self).moment()
    }

    fn make(&self, name: &str, bytes: &[u8]) -> Result<(), RunFault> {
        make_file(self, name, bytes)
    }
}
