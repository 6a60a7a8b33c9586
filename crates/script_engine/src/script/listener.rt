//! Listeners get the results of a run, each as soon as there is one.

ghost use Rattle.std.specs.Prelude.{ℕ, Bool};
ghost use Rattle.script_engine.specs.script.Keeping.{AddsWhereRoom};

/// A receiver of the results of a script's pieces, one after the other.
pub trait Listener<K> {
    /// The listener after it receives the result of the piece of a number, and whether it then
    /// asks for more.
    ghost hears: { Self → ℕ → K → Bool → Self → Type 0 };

    /// Takes the result of the piece of a number, counted from 1. Says whether the run goes on: if
    /// not, it ends with this piece.
    fn hear(&mut self, number: u64, kept: K) -> bool
        ensures { hears self.old number kept result self.new };
}

/// Keeps the results in a list, as many as it has room for.
#[derive(Drop)]
pub(crate) struct AllKept<K> {
    pub(crate) kept: Vec<K>,
}

impl<K: Drop> Listener<K> for AllKept<K> {
    ghost hears = { AddsWhereRoom };

    fn hear(&mut self, _number: u64, kept: K) -> bool {
        if self.kept.len() == self.kept.capacity() {
            return false;
        }
        self.kept.push_reserved(kept);
        true
    }
}
