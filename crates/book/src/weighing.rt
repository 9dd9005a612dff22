//! Weighing on the shelf, for the open and the closed book.
ghost use Rattle.std.specs.Prelude.{◌≡◌, ℕ, length, is_ok, Err, ◌≢◌};
ghost use Rattle.kinds.specs.declared.fault.Refusal.TheVariants.{OutOfRange};
ghost use Rattle.kinds.specs.Faults.{fault_at};
ghost use Rattle.tables.specs.Strip.{cleared};
ghost use Rattle.ledger.specs.View.{view};
ghost use Rattle.uses.specs.Calls.{at, weigh as weighs};
ghost use Rattle.uses.specs.History.{LeadsOn};
ghost use Rattle.uses.specs.Holds.{part};
ghost use Rattle.uses.specs.Weigh.{WeighedAt, Weighed};

use crate::reading::Reader;
use kinds::fault::{Fault, Refusal};
use kinds::kind::Kind;
use ledger::ledger::Standing;
use tables::weighing::clear;

/// Gives a weight that is out of range the place of its table.
fn at_table<K: Kind>(weight: Result<K, Fault>, place: usize) -> Result<K, Fault>
    ensures range { (q : ℕ) → weight ≡ Err (fault_at OutOfRange q) → result ≡ Err (fault_at OutOfRange place) }
    ensures other { ((q : ℕ) → weight ≢ Err (fault_at OutOfRange q)) → result ≡ weight }
{
    weight.map_err(|fault| match fault.refusal {
        Refusal::OutOfRange => Fault::at(Refusal::OutOfRange, place),
        _ => fault,
    })
}

impl<'a, K: Kind> Reader<'a, K> {
    /// The weight of a word in the table that stands there; `place` is for what is out of range.
    pub(crate) fn weigh_at(
        &self,
        standing: Standing,
        place: usize,
        word: &[u8],
        strip: &mut [K],
    ) -> Result<K, Fault>
        ensures answer { WeighedAt K.Kind.numbers (record { states = standing.states.count; run = part self.now.shelf.now standing.at standing.size }) (view self.now.ledger.now).events place word.now (length strip.old) result }
        ensures strip { strip.new ≡ cleared K.Kind.numbers strip.old }
    {
        let table = self.table(standing);
        at_table(table.weigh(self.ledger.events(), word, strip), place)
    }

    /// The weight of a word in a table of the book. A strip of sixteen numbers is all zero afterwards, any other as it was.
    pub(crate) fn weigh(&self, table: usize, word: &[u8], strip: &mut [K]) -> Result<K, Fault>
        ensures answer { Weighed K.Kind.numbers (view self.now.ledger.now) self.now.shelf.now table word.now (length strip.old) result }
        ensures strip { strip.new ≡ cleared K.Kind.numbers strip.old }
        ensures leads { LeadsOn K.Kind.numbers (at (view self.now.ledger.now) self.now.shelf.now) (weighs table word.now strip.old) (is_ok result) (at (view self.now.ledger.now) self.now.shelf.now) }
    {
        // First, so that the strip is clear however the call ends.
        clear(strip);
        let standing = self.ledger.table(table, 1)?;
        self.weigh_at(standing, 1, word, strip)
    }
}
