//! One line of the ledger.
ghost use Rattle.std.specs.Prelude.{◌≡◌};
ghost use Rattle.ledger.specs.Classes.{relabelled, with_class};

/// What the ledger has of a table: its states, the place of its first number on the shelf, counted from 1, and its class,
/// named by the smallest table in it.
#[derive(Clone, Copy)]
pub struct Line {
    pub states: usize,
    pub place: usize,
    pub class: usize,
}

impl Line {
    /// Writes the line.
    pub fn write(&mut self, states: usize, place: usize, class: usize)
        ensures { self.new ≡ record { states = states; place = place; class = class } }
    {
        self.states = states;
        self.place = place;
        self.class = class;
    }

    /// Moves the table to another class.
    pub fn relabel(&mut self, to: usize)
        ensures { self.new ≡ with_class self.old to }
    {
        self.class = to;
    }

    /// Moves the table to another class, if it is in this one.
    pub(crate) fn relabel_from(&mut self, from: usize, to: usize)
        ensures { self.new ≡ relabelled from to self.old }
    {
        if self.class == from {
            self.relabel(to);
        }
    }
}
