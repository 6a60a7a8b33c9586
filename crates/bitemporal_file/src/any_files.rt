//! Any files of a store, as a program opens them: nothing is supposed of them.

ghost use Rattle.std.specs.Prelude.{[], true};

use sqlite::Start;

/// Files of which no code knows what they hold: a program has this. Unlike `Unknown` of sqlite it
/// can be used again, if a store is opened at a later try.
#[derive(Clone, Copy)]
pub struct AnyFiles;

impl Start for AnyFiles {
    ghost log = { [] };

    ghost db = { [] };

    ghost is_mixing = { true };

    fn mixes() -> bool {
        true
    }
}
