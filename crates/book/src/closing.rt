//! A closed book: it can be read and asked, and nothing more is entered, joined or kept.
ghost use Rattle.std.specs.Prelude.{◌≡◌, length, is_ok};
ghost use Rattle.tables.specs.Strip.{cleared};
ghost use Rattle.ledger.specs.Ask.{ask_answer};
ghost use Rattle.ledger.specs.Parts.{word_answer, word_run};
ghost use Rattle.ledger.specs.View.{view};
ghost use Rattle.uses.specs.Calls.{at, ask as asks, weigh as weighs, word as words};
ghost use Rattle.uses.specs.History.{LeadsOn, StillUsed};
ghost use Rattle.uses.specs.Holds.{Entered};
ghost use Rattle.uses.specs.Law.{LawAt};
ghost use Rattle.uses.specs.Weigh.{Weighed};

use crate::book::Book;
use crate::reading::Reader;
use kinds::fault::Fault;
use kinds::kind::Kind;
use ledger::asking::Comparison;
use ledger::ledger::Ledger;

/// The ledger and the shelf of a book that was closed.
// A struct of its own, and no state in the type of `Book`: the open book is asked for writing and this one for reading, so a
// common impl would hold `weigh` and `word` alone, each of one line.
#[derive(Drop)]
pub struct Closed<'a, K: Kind> {
    shelf: &'a mut [K],
    ledger: Ledger,
}

impl<'a, K: Kind> Book<'a, K> {
    /// Uses the book up and gives the closed one, with the same ledger and the same shelf.
    pub fn close(self) -> Closed<'a, K>
        ensures ledger { result.ledger ≡ self.entry.ledger }
        ensures shelf { result.shelf.now ≡ self.entry.shelf.now }
        ensures entries { Entered K.Kind.numbers (view self.entry.ledger) self.entry.shelf.now → Entered K.Kind.numbers (view result.ledger) result.shelf.now }
        ensures leads { StillUsed K.Kind.numbers (at (view self.entry.ledger) self.entry.shelf.now) (at (view result.ledger) result.shelf.now) }
    {
        let Book { shelf, ledger } = self;
        Closed { shelf, ledger }
    }
}

impl<'a, K: Kind> Closed<'a, K> {
    /// What a word weighs in a table, as the open book answers it.
    pub fn weigh(&self, table: usize, word: &[u8], strip: &mut [K]) -> Result<K, Fault>
        ensures answer { Weighed K.Kind.numbers (view self.now.ledger) self.now.shelf.now table word.now (length strip.old) result }
        ensures strip { strip.new ≡ cleared K.Kind.numbers strip.old }
        ensures leads { LeadsOn K.Kind.numbers (at (view self.now.ledger) self.now.shelf.now) (weighs table word.now strip.old) (is_ok result) (at (view self.now.ledger) self.now.shelf.now) }
    {
        let reader = Reader {
            ledger: &self.ledger,
            shelf: self.shelf,
        };
        reader.weigh(table, word, strip)
    }

    /// The word of a part, as the open book gives it.
    pub fn word(&self, part: usize, run: &mut [u8]) -> Result<usize, Fault>
        ensures answer { result ≡ word_answer (view self.now.ledger).parts part run.old }
        ensures run { run.new ≡ word_run (view self.now.ledger).parts part run.old }
        ensures leads { LeadsOn K.Kind.numbers (at (view self.now.ledger) self.now.shelf.now) (words part run.old) (is_ok result) (at (view self.now.ledger) self.now.shelf.now) }
    {
        self.ledger.word(part, run)
    }

    /// What is known of two tables, as the open book answers it.
    pub fn ask(&self, a: usize, b: usize) -> Result<Comparison, Fault>
        ensures answer { result ≡ ask_answer (view self.now.ledger).lines (view self.now.ledger).parts a b }
        ensures leads { LeadsOn K.Kind.numbers (at (view self.now.ledger) self.now.shelf.now) (asks a b) (is_ok result) (at (view self.now.ledger) self.now.shelf.now) }
        ensures law { LawAt K.Kind.numbers (at (view self.now.ledger) self.now.shelf.now) a b result }
    {
        self.ledger.ask(a, b)
    }
}
