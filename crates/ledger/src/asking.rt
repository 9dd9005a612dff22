//! What is known of two tables.
ghost use Rattle.std.specs.Prelude.{◌≡◌, ◌≤◌};
ghost use Rattle.ledger.specs.Ask.{ask_answer, lowest_between, pairs};
ghost use Rattle.ledger.specs.Lines.{class_of};
ghost use Rattle.ledger.specs.View.{view};

use crate::ledger::Ledger;
use kinds::fault::{Fault, Refusal};

/// What a ledger says of two tables.
// An enum of its own, whose middle case has the part's number: a rule of the project.
#[derive(Clone, Copy)]
pub enum Comparison {
    /// They are of one class, so every word weighs the same in both.
    Same,
    /// The word of this part tells them apart.
    Different(usize),
    /// Neither has been shown.
    Unknown,
}

/// Whether u and v are x and y, either way round.
pub(crate) fn pairs(u: usize, v: usize, x: usize, y: usize) -> bool
    ensures { result ≡ pairs u v x y }
{
    (u, v) == (x, y) || (u, v) == (y, x)
}

impl Ledger {
    /// The name of the class of a table that there is.
    fn class(&self, table: usize) -> usize
        requires some { 1 ≤ table }
        requires there { table ≤ self.now.tables }
        ensures { result ≡ class_of (view self.now).lines table }
    {
        self.lines.all[table - 1].class
    }

    /// The lowest part between two classes.
    fn lowest_between(&self, x: usize, y: usize) -> Option<usize>
        ensures { result ≡ lowest_between (view self.now).lines (view self.now).parts x y }
    {
        // A loop: a closure for `position` would owe what `class` asks, and say it.
        for (i, part) in self.parts.all[..self.kept].iter().enumerate() {
            let u = self.class(part.first());
            let v = self.class(part.second());
            if pairs(u, v, x, y) {
                return Some(i + 1);
            }
        }
        None
    }

    /// What is known of two tables: same where they are of one class, else different by the lowest part between their
    /// classes, else unknown; refused where one is not in the book.
    pub fn ask(&self, a: usize, b: usize) -> Result<Comparison, Fault>
        ensures { result ≡ ask_answer (view self.now).lines (view self.now).parts a b }
    {
        let first = self.line(a).ok_or(Fault::at(Refusal::NoSuchTable, 1))?;
        let second = self.line(b).ok_or(Fault::at(Refusal::NoSuchTable, 2))?;
        let (x, y) = (first.class, second.class);
        if x == y {
            return Ok(Comparison::Same);
        }
        match self.lowest_between(x, y) {
            Some(part) => Ok(Comparison::Different(part)),
            None => Ok(Comparison::Unknown),
        }
    }
}
