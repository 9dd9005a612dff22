//! Where tables of the book stand.
ghost use Rattle.ledger.specs.Standing.{LineFound, Pairs, Stands};
ghost use Rattle.ledger.specs.View.{view};

use crate::ledger::{Ledger, Pair, Standing};
use crate::line::Line;
use kinds::fault::{Fault, Refusal};
use tables::shape::{States, table_size};

impl Ledger {
    /// The line of a table, if the book has one of that number.
    pub(crate) fn line(&self, table: usize) -> Option<Line>
        ensures { LineFound (view self.now).lines table result }
    {
        let at = table.checked_sub(1)?;
        self.lines.all[..self.tables].get(at).copied()
    }

    /// Where a table stands, or a refusal at the given place where there is none of that number.
    pub fn table(&self, table: usize, place: usize) -> Result<Standing, Fault>
        ensures { Stands (view self.now).events (view self.now).lines table place result }
    {
        let line = self
            .line(table)
            .ok_or(Fault::at(Refusal::NoSuchTable, place))?;
        let states = States::new(line.states)?;
        Ok(Standing {
            states,
            at: line.place - 1,
            size: table_size(states, self.events),
        })
    }

    /// Where two different tables stand, or why they are not: the first or the second is not in the book, or both are one.
    pub fn two_tables(&self, a: usize, b: usize) -> Result<Pair, Fault>
        ensures { Pairs (view self.now).events (view self.now).lines a b result }
    {
        let first = self.table(a, 1)?;
        let second = self.table(b, 2)?;
        if a == b {
            return Err(Fault::of(Refusal::SameTable));
        }
        Ok(Pair { first, second })
    }
}
