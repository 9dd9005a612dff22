//! The parts of the ledger, in the order in which they were kept.
ghost use Rattle.std.specs.Prelude.{◌≡◌, ◌<◌, ◌≤◌, map, length, set};
ghost use Rattle.tables.specs.Words.{events_of, longest_word, Spelled};
ghost use Rattle.ledger.specs.Parts.{most_parts};
ghost use Rattle.ledger.specs.Stored.{meaning};

use crate::part::Part;

/// The most parts that a book keeps.
pub const MOST_PARTS: usize = 32;

/// A record for each part that a book may keep; those of parts that it has not mean nothing.
// A plain table, which lends one record to the record's own method, as the lines' does.
#[derive(Clone, Copy)]
pub struct Parts {
    pub all: [Part; MOST_PARTS],
}

impl Parts {
    /// Writes the part at a place, counted from 0.
    pub(crate) fn write(&mut self, at: usize, first: usize, second: usize, word: &[u8])
        requires { (at < most_parts) × ((length word.now ≤ longest_word) × (Spelled word.now)) }
        ensures { map meaning self.new.all ≡ set (map meaning self.old.all) at (record { first = first; second = second; word = events_of word.now }) }
    {
        self.all[at].write(first, second, word);
    }
}
