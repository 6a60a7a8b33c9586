//! The scripts of a command line: the files that their names open.

ghost use Rattle.std.specs.Prelude.{◌≡◌, ◌||◌, ℕ, List, None, Option, IfErr, IfOk, false, true};

use crate::fault::RunFault;
use crate::tracked::Tracked;
use std::fs::File;
use std::io;
use std::io::Read;

/// Files by their names.
pub trait Scripts {
    // The bytes of the file that a name opens, if they are known.
    ghost content: { Self → List ℕ → Option (List ℕ) };

    /// An open file.
    type Script: Read + Drop;

    /// Opens the file to read it from its start.
    fn open_script(&self, name: &str) -> io::Result<Self::Script>
        ensures { IfOk result (λ script.
            Self.Script.remaining script ≡ content self.now name.now) };
}

/// The files of the system. Their bytes are not known.
impl Scripts for HostRuntime {
    ghost content = { λ _ _. None };

    type Script = File;

    fn open_script(&self, name: &str) -> io::Result<File> {
        File::open(self, name)
    }
}

/// The files of the scripts of a run, and whether one did not open or a read of one failed.
#[derive(Drop)]
pub struct ScriptFiles<'a, S> {
    scripts: &'a S,
    has_failed: bool,
}

impl<'a, S: Scripts> ScriptFiles<'a, S> {
    /// Files of which none has failed yet.
    pub fn new(scripts: &'a S) -> ScriptFiles<'a, S>
        ensures same { result.scripts.now ≡ scripts.now }
        ensures fresh { result.has_failed ≡ false }
    {
        ScriptFiles {
            scripts,
            has_failed: false,
        }
    }

    /// Opens the file of this name to read it from its start.
    pub fn open(&mut self, name: &str) -> Result<Tracked<S::Script>, RunFault>
        ensures same { self.new.scripts ≡ self.old.scripts }
        ensures opened { IfOk result (λ script.
            S.Script.remaining script.inner ≡ S.content self.old.scripts.now name.now) }
        ensures kept { IfOk result (λ _. self.new.has_failed ≡ self.old.has_failed) }
        ensures refused { IfErr result (λ fault. (fault ≡ RunFault.Read)
            × (self.new.has_failed ≡ true)) }
    {
        match self.scripts.open_script(name) {
            Ok(script) => Ok(Tracked::new(script)),
            Err(_) => {
                self.has_failed = true;
                Err(RunFault::Read)
            }
        }
    }

    /// Notes whether a read of an open file failed.
    pub fn note(&mut self, script: &Tracked<S::Script>)
        ensures same { self.new.scripts ≡ self.old.scripts }
        ensures noted { self.new.has_failed ≡ (self.old.has_failed || script.now.has_failed) }
    {
        self.has_failed = self.has_failed || script.has_failed();
    }
}
