//! One table more.
ghost use Rattle.std.specs.Prelude.{◌≡◌, ◌*◌, ◌≤◌, OnErr};
ghost use Rattle.tables.specs.Shape.{most_events, most_states, table_size};
ghost use Rattle.ledger.specs.Lines.{most_tables, used};
ghost use Rattle.ledger.specs.Model.{append_answer, append_lines};
ghost use Rattle.ledger.specs.View.{view};

use crate::ledger::{Ledger, Placed};
use crate::lines::MOST_TABLES;
use kinds::fault::{Fault, Refusal};
use tables::shape::{States, table_size};

impl Ledger {
    /// How many numbers of the shelf the tables take.
    fn used(&self) -> usize
        ensures is { result ≡ used (view self.now).events (view self.now).lines }
        ensures small { result ≤ table_size most_states most_events * most_tables }
    {
        match self.table(self.tables, 1) {
            Ok(last) => last.at + last.size,
            Err(_) => 0,
        }
    }

    /// One table more, right behind the others and in a class of its own; refused where there are as many as may be,
    /// or where a shelf of so many numbers has not enough left.
    pub fn append(&mut self, states: States, shelf: usize) -> Result<Placed, Fault>
        ensures answer { result ≡ append_answer (view self.old).events (view self.old).lines states.count shelf }
        ensures lines { (view self.new).lines ≡ append_lines (view self.old).events (view self.old).lines states.count shelf }
        ensures events { self.new.events ≡ self.old.events }
        ensures parts { (view self.new).parts ≡ (view self.old).parts }
        ensures refused { OnErr result (self.new ≡ self.old) }
    {
        let tables = self.tables;
        if tables >= MOST_TABLES {
            return Err(Fault::of(Refusal::TooManyTables));
        }
        let used = self.used();
        if used + table_size(states, self.events) > shelf {
            return Err(Fault::of(Refusal::ShelfFull));
        }
        self.lines
            .write(tables, states.count(), 1 + used, tables + 1);
        self.tables = tables + 1;
        Ok(Placed {
            table: tables + 1,
            place: 1 + used,
        })
    }
}
