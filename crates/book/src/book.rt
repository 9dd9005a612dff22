//! A book over a lent shelf.
ghost use Rattle.std.specs.Prelude.{◌≡◌, [], length, is_ok, IfOk, OnErr};
ghost use Rattle.ledger.specs.Model.{opened};
ghost use Rattle.ledger.specs.View.{view};
ghost use Rattle.uses.specs.Holds.{Entered};
ghost use Rattle.tables.specs.Strip.{cleared};
ghost use Rattle.uses.specs.Weigh.{Weighed};
ghost use Rattle.uses.specs.Calls.{at, enter as enters, weigh as weighs};
ghost use Rattle.uses.specs.History.{LeadsOn, Used};
ghost use Rattle.uses.specs.Enter.{TableEntered, enter_answer, enter_ledger, enter_shelf};

use crate::placing::place;
use crate::reading::Reader;
use crate::shelf::lay;
use kinds::fault::Fault;
use kinds::kind::Kind;
use ledger::ledger::Ledger;
use tables::shape::Events;

/// A ledger, and a lent shelf on which each table's numbers stand from the place that its line names.
// That these numbers are entries is a premise of the calls' promises and no invariant of the book: a rule of the project.
#[derive(Drop)]
pub struct Book<'a, K: Kind> {
    pub(crate) shelf: &'a mut [K],
    pub(crate) ledger: Ledger,
}

impl<'a, K: Kind> Book<'a, K> {
    /// A book without tables. What stands on the shelf stays there until a table is entered over it.
    pub fn open(events: Events, shelf: &'a mut [K]) -> Book<'a, K>
        ensures ledger { view result.ledger ≡ opened events.count }
        ensures shelf { result.shelf.now ≡ shelf.old }
        ensures entries { Entered K.Kind.numbers (view result.ledger) result.shelf.now }
        ensures leads { Used K.Kind.numbers events.count shelf.old [] (at (view result.ledger) result.shelf.now) }
    {
        Book {
            shelf,
            ledger: Ledger::new(events),
        }
    }

    /// The book, to be read.
    pub(crate) fn reader(&self) -> Reader<'_, K>
        ensures ledger { result.ledger.now ≡ self.now.ledger }
        ensures shelf { result.shelf.now ≡ self.now.shelf.now }
    {
        Reader {
            ledger: &self.ledger,
            shelf: self.shelf,
        }
    }

    /// The events of the book.
    pub fn events(&self) -> Events
        ensures { result ≡ self.now.ledger.events }
    {
        self.ledger.events()
    }

    /// Enters a table: so many states and its numbers. Answers the table's number, or the first refusal that holds.
    pub fn enter(&mut self, states: usize, run: &[K]) -> Result<usize, Fault>
        ensures answer { result ≡ enter_answer K.Kind.numbers (view self.old.ledger) self.old.shelf.now states run.now }
        ensures ledger { view self.new.ledger ≡ enter_ledger K.Kind.numbers (view self.old.ledger) self.old.shelf.now states run.now }
        ensures shelf { self.new.shelf.now ≡ enter_shelf K.Kind.numbers (view self.old.ledger) self.old.shelf.now states run.now }
        ensures refused { OnErr result (self.new.ledger ≡ self.old.ledger) }
        ensures table { IfOk result (λ i. TableEntered (view self.old.ledger) (view self.new.ledger) self.old.shelf.now self.new.shelf.now states run.now i) }
        ensures entries { Entered K.Kind.numbers (view self.old.ledger) self.old.shelf.now → Entered K.Kind.numbers (view self.new.ledger) self.new.shelf.now }
        ensures leads { LeadsOn K.Kind.numbers (at (view self.old.ledger) self.old.shelf.now) (enters states run.now) (is_ok result) (at (view self.new.ledger) self.new.shelf.now) }
    {
        let room = self.shelf.len();
        let placed = place(&mut self.ledger, room, states, run)?;
        lay(self.shelf, placed.place - 1, run);
        Ok(placed.table)
    }

    /// What a word weighs in a table: the number of the exact weight, or the first refusal that holds. The strip is
    /// scratch; one of sixteen numbers is all zero afterwards, any other as it was.
    pub fn weigh(&self, table: usize, word: &[u8], strip: &mut [K]) -> Result<K, Fault>
        ensures answer { Weighed K.Kind.numbers (view self.now.ledger) self.now.shelf.now table word.now (length strip.old) result }
        ensures strip { strip.new ≡ cleared K.Kind.numbers strip.old }
        ensures leads { LeadsOn K.Kind.numbers (at (view self.now.ledger) self.now.shelf.now) (weighs table word.now strip.old) (is_ok result) (at (view self.now.ledger) self.now.shelf.now) }
    {
        self.reader().weigh(table, word, strip)
    }
}
