//! The words of the command line, as the system gives them.

ghost use Rattle.std.specs.Prelude.{◌≡◌, IfErr, IfOk, IsOk, OnOk};
ghost use Rattle.std.specs.IoError.{error_kind};
ghost use Rattle.std.specs.Vec.Iter.{into_iter_items};
ghost use Rattle.command_line.specs.Lines.{words_fault};

use crate::fault::RunFault;
use std::alloc::Global;
use std::env::Args;
use std::io;

/// The words of the command line, or why there are none: out of memory, or what the system says.
pub fn words_of(alloc: Global, args: io::Result<Args>) -> Result<Vec<String>, RunFault>
    ensures given { OnOk result (IsOk args) }
    ensures all { IfOk args (λ given. IfOk result (λ words. words.items ≡ into_iter_items given)) }
    ensures memory { IfOk args (λ _. IfErr result (λ fault. fault ≡ RunFault.Memory)) }
    ensures refused { IfErr args
        (λ error. IfErr result (λ fault. fault ≡ words_fault (error_kind error))) }
{
    match args {
        Ok(args) => match args.collect(alloc) {
            Ok(words) => Ok(words),
            Err(_) => Err(RunFault::Memory),
        },
        Err(error) => Err(RunFault::of_words(&error)),
    }
}
