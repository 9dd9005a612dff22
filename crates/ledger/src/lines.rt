//! The lines of the ledger, in order of entry.
ghost use Rattle.std.specs.Prelude.{◌≡◌, ◌<◌, ◌≤◌, ◌++◌, map, take, drop, set};
ghost use Rattle.ledger.specs.Classes.{relabelled};
ghost use Rattle.ledger.specs.Lines.{most_tables};

use crate::line::Line;

/// The most tables of a book.
pub const MOST_TABLES: usize = 32;

/// A line for each table that a book may have; those of tables that it has not mean nothing.
// A plain table beside that of the parts, which lends one line to the line's own method: a rule of the project.
#[derive(Clone, Copy)]
pub struct Lines {
    pub all: [Line; MOST_TABLES],
}

impl Lines {
    /// Writes the line at a place, counted from 0.
    pub(crate) fn write(&mut self, at: usize, states: usize, place: usize, class: usize)
        requires { at < most_tables }
        ensures { self.new.all ≡ set self.old.all at (record { states = states; place = place; class = class }) }
    {
        self.all[at].write(states, place, class);
    }

    /// Moves each of the first `count` lines of one class to another.
    pub(crate) fn relabel(&mut self, count: usize, from: usize, to: usize)
        requires { count ≤ most_tables }
        ensures { self.new.all ≡ map (relabelled from to) (take count self.old.all) ++ drop count self.old.all }
    {
        for line in self.all[..count].iter_mut() {
            line.relabel_from(from, to);
        }
    }
}
