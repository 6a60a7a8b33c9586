//! Visitors, which take the rows of a scan.

ghost use Rattle.std.specs.Prelude.{◌≡◌, ◌++◌, ◌∷◌, [], List, OnErr, OnOk, IfErr};
ghost use Rattle.std.specs.Prelude.{None, Option, Some};
ghost use Rattle.period_core.specs.declared.refusal.Refusal.{Refusal as AnyRefusal};
ghost use Rattle.period_core.specs.declared.refusal.Refusal.TheVariants.{Memory};
ghost use Rattle.period_core.specs.declared.version.VersionRow.{VersionRow as AnyRow};

use period_core::{Refusal, VersionRow};
use std::alloc::Global;

/// A visitor, which takes version rows one at a time. What it makes of them is its meaning: each
/// row that it takes leads from one meaning to the next.
pub trait RowVisitor {
    /// The values of its meaning.
    ghost Meaning: { Type 0 };

    /// The meaning of the rows that it was handed.
    ghost meaning: { Self → Meaning };

    /// The meaning with one row more.
    ghost next: { Meaning → AnyRow → Meaning };

    /// The refusals that it may answer.
    ghost may_refuse: { AnyRefusal → Type 0 };

    /// The refusal that it has answered: `None` if it has refused no row.
    ghost answered: { Self → Option AnyRefusal → Type 0 };

    /// Takes a row, or refuses it. A refused row leaves the meaning, and no other follows it.
    fn visit(&mut self, row: VersionRow) -> Result<(), Refusal>
        requires { answered self.old None }
        ensures taken { OnOk result (meaning self.new ≡ next (meaning self.old) row) }
        ensures refused { OnErr result (meaning self.new ≡ meaning self.old) }
        ensures named { IfErr result may_refuse }
        ensures takes { OnOk result (answered self.new None) }
        ensures refuses { IfErr result (λ refusal. answered self.new (Some refusal)) };
}

/// A visitor that keeps all rows, in the order in which it takes them. A row for which there is no
/// memory is refused.
#[derive(Drop, Debug)]
pub struct RowCollector {
    /// The rows so far.
    pub rows: Vec<VersionRow>,
    /// Why it refused a row, if it did.
    pub refusal: Option<Refusal>,
}

impl RowCollector {
    /// No rows so far, and none refused.
    pub fn new(alloc: Global) -> RowCollector
        ensures rows { result.rows.items ≡ [] }
        ensures refusal { result.refusal ≡ None }
    {
        RowCollector {
            rows: Vec::new(alloc),
            refusal: None,
        }
    }
}

impl RowVisitor for RowCollector {
    ghost Meaning = { List AnyRow };

    ghost meaning = { λ kept. kept.rows.items };

    ghost next = { λ rows row. rows ++ row ∷ [] };

    ghost may_refuse = { λ refusal. refusal ≡ Memory };

    ghost answered = { λ kept answer. kept.refusal ≡ answer };

    fn visit(&mut self, row: VersionRow) -> Result<(), Refusal> {
        match self.rows.push(row) {
            Ok(()) => Ok(()),
            Err(_) => {
                self.refusal = Some(Refusal::Memory);
                Err(Refusal::Memory)
            }
        }
    }
}
