//! A reader or a writer that remembers that it failed, so that a contract can say: only then.

ghost use Rattle.std.specs.Prelude.{◌≡◌, ◌<◌, false, true, length, IfErr, IfOk};
ghost use Rattle.std.specs.Io.{ReadsAtMost, WritesAtMost};
ghost use Rattle.std.specs.Io.KnownBytes.{ReadConsumes, WriteAppends};

use std::io;
use std::io::{Read, Write};

/// A reader or a writer, and whether a read or a write of it failed.
#[derive(Drop)]
pub struct Tracked<T> {
    inner: T,
    has_failed: bool,
}

impl<T> Tracked<T> {
    /// A reader or a writer that has not failed yet.
    pub fn new(inner: T) -> Tracked<T>
        ensures inner { result.inner ≡ inner }
        ensures fresh { result.has_failed ≡ false }
    {
        Tracked {
            inner,
            has_failed: false,
        }
    }

    /// Whether a read or a write failed.
    pub(crate) fn has_failed(&self) -> bool
        ensures { result ≡ self.now.has_failed }
    {
        self.has_failed
    }
}

impl<R: Read> Read for Tracked<R> {
    ghost remaining = { λ tracked. R.remaining tracked.inner };

    fn read(&mut self, buf: &mut [u8]) -> io::Result<usize>
        ensures bound { ReadsAtMost result buf.new }
        ensures bytes { ReadConsumes
            (R.remaining self.old.inner) (R.remaining self.new.inner) result buf.new }
        ensures kept { IfOk result (λ _. self.new.has_failed ≡ self.old.has_failed) }
        ensures failed { IfErr result (λ _. self.new.has_failed ≡ true) }
    {
        match self.inner.read(buf) {
            Ok(count) => Ok(count),
            Err(error) => {
                self.has_failed = true;
                Err(error)
            }
        }
    }
}

impl<W: Write> Write for Tracked<W> {
    ghost contents = { λ tracked. W.contents tracked.inner };

    // A write that takes none of the bytes has failed too.
    fn write(&mut self, buf: &[u8]) -> io::Result<usize>
        ensures bound { WritesAtMost result buf.now }
        ensures bytes { WriteAppends
            (W.contents self.old.inner) (W.contents self.new.inner) result buf.now }
        ensures kept { IfOk result (λ count.
            0 < count → self.new.has_failed ≡ self.old.has_failed) }
        ensures stuck { IfOk result (λ count.
            count ≡ 0 → 0 < length buf.now → self.new.has_failed ≡ true) }
        ensures failed { IfErr result (λ _. self.new.has_failed ≡ true) }
        ensures stays { self.old.has_failed ≡ true → self.new.has_failed ≡ true }
    {
        match self.inner.write(buf) {
            Ok(count) => {
                if count == 0 && !buf.is_empty() {
                    self.has_failed = true;
                }
                Ok(count)
            }
            Err(error) => {
                self.has_failed = true;
                Err(error)
            }
        }
    }

    fn flush(&mut self) -> io::Result<()> {
        self.inner.flush()
    }
}
