//! The writers of reports, and whether they failed.

ghost use Rattle.std.specs.Prelude.{OnErr, OnOk, ⊤};
ghost use Rattle.std.specs.Io.KnownBytes.{Appends};

use std::io::Write;

/// A writer did not take all of some bytes.
#[derive(Clone, Copy)]
pub struct WriteRefused;

/// A writer that can be said to have failed. Of a write that fails `Write` says nothing; here what
/// holds after it has a name, of which the functions that write a report know no more. So they can
/// answer that the writer failed only after it did.
pub trait ReportWriter: Write {
    /// Whether the last write to it failed.
    ghost has_failed: { Self → Type 0 };

    /// Writes all of the bytes. After a fault the writer may hold some of them.
    fn put(&mut self, bytes: &[u8]) -> Result<(), WriteRefused>
        ensures ok { OnOk result
            (Appends (Self.contents self.old) (Self.contents self.new) bytes.now) }
        ensures err { OnErr result (has_failed self.new) };
}

// Of an unknown writer nothing more can be said: any may have failed.
impl<W: Write> ReportWriter for W {
    ghost has_failed = { λ _. ⊤ };

    fn put(&mut self, bytes: &[u8]) -> Result<(), WriteRefused> {
        match self.write_all(bytes) {
            Ok(()) => Ok(()),
            Err(_) => Err(WriteRefused),
        }
    }
}
