//! What the calls that read a book are given, whether it is open or closed.
ghost use Rattle.std.specs.Prelude.{◌≡◌};
ghost use Rattle.uses.specs.Holds.{part};

use crate::shelf::part;
use kinds::kind::Kind;
use ledger::ledger::{Ledger, Standing};
use tables::shape::Table;

/// The ledger of a book and its shelf, to be read.
#[derive(Drop)]
pub(crate) struct Reader<'a, K: Kind> {
    pub(crate) ledger: &'a Ledger,
    pub(crate) shelf: &'a [K],
}

impl<'a, K: Kind> Reader<'a, K> {
    /// The table that stands there.
    pub(crate) fn table(&self, standing: Standing) -> Table<'a, K>
        ensures states { result.states.count ≡ standing.states.count }
        ensures run { result.run.now ≡ part self.now.shelf.now standing.at standing.size }
    {
        Table {
            states: standing.states,
            run: part(self.shelf, standing.at, standing.size),
        }
    }
}
