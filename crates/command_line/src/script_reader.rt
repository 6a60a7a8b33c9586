//! The script as its reader gives it.

ghost use Rattle.std.specs.Prelude.{◌≡◌, ◌⊎◌, ◌≤◌, ◌+◌, length, true, IfOk, IfErr, IfSome};
ghost use Rattle.command_line.specs.Reading.{TakesAtMost, read_of};

use crate::fault::RunFault;
use crate::tracked::Tracked;
use std::alloc::Global;
use std::io::{ErrorKind, Read};

const CHUNK: usize = 4096;

// The number of interrupted reads of one script that are tried again.
const MOST_RETRIES: usize = 1000;

/// Reads a script that may have at most `most` bytes, and at most one byte more. A read that is
/// interrupted is tried again, up to 1,000 times in all; any other fault of the reader ends this.
pub fn read_script<R: Read>(
    alloc: Global,
    input: &mut Tracked<R>,
    most: usize,
) -> Result<Vec<u8>, RunFault>
    ensures bytes { IfOk result
        (λ text. IfSome (R.remaining input.old.inner) (λ all. text.items ≡ read_of most all)) }
    ensures bounded { IfOk result (λ text. length text.items ≤ most + 1) }
    ensures taken { TakesAtMost (most + 1)
        (R.remaining input.old.inner) (R.remaining input.new.inner) }
    ensures refused { IfErr result (λ fault. (fault ≡ RunFault.Memory)
        ⊎ ((fault ≡ RunFault.Read) × (input.new.has_failed ≡ true))) }
{
    let mut text = Vec::new(alloc);
    let mut buffer = [0u8; CHUNK];
    let mut retries = MOST_RETRIES;
    while text.len() <= most {
        let room = (CHUNK - 1).min(most - text.len()) + 1;
        let count = match input.read(&mut buffer[..room]) {
            Ok(count) => count,
            Err(error) => {
                if retries == 0 || error.kind() != ErrorKind::Interrupted {
                    return Err(RunFault::Read);
                }
                retries -= 1;
                continue;
            }
        };
        if count == 0 {
            return Ok(text);
        }
        if text.extend_from_slice(&buffer[..count]).is_err() {
            return Err(RunFault::Memory);
        }
    }
    Ok(text)
}
