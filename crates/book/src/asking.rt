//! Asking what is known of two tables.
ghost use Rattle.std.specs.Prelude.{◌≡◌, is_ok};
ghost use Rattle.ledger.specs.Ask.{ask_answer};
ghost use Rattle.ledger.specs.View.{view};
ghost use Rattle.uses.specs.Calls.{at, ask as asks};
ghost use Rattle.uses.specs.History.{LeadsOn};
ghost use Rattle.uses.specs.Law.{LawAt, LawOfUses};

use crate::book::Book;
use kinds::fault::Fault;
use kinds::kind::Kind;
use ledger::asking::Comparison;

// The calls of a book take two tables, a word and a strip, or a sheet, one by one, as the rules of the calls name them.
impl<'a, K: Kind> Book<'a, K> {
    /// What is known of two tables: same, different by a part, or unknown; refused where one is not in the book.
    /// Whatever use of a book led here, the answer is true of all words, and no further use withdraws it.
    pub fn ask(&mut self, a: usize, b: usize) -> Result<Comparison, Fault>
        ensures answer { result ≡ ask_answer (view self.old.ledger).lines (view self.old.ledger).parts a b }
        ensures ledger { self.new.ledger ≡ self.old.ledger }
        ensures shelf { self.new.shelf.now ≡ self.old.shelf.now }
        ensures leads { LeadsOn K.Kind.numbers (at (view self.old.ledger) self.old.shelf.now) (asks a b) (is_ok result) (at (view self.new.ledger) self.new.shelf.now) }
        ensures law { LawAt K.Kind.numbers (at (view self.old.ledger) self.old.shelf.now) a b result }
        ensures every_use { LawOfUses K.Kind.numbers }
    {
        self.ledger.ask(a, b)
    }
}
