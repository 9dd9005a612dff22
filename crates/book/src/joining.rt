//! Joining two tables by a sheet.
ghost use Rattle.std.specs.Prelude.{◌≡◌, is_ok, Ok, MatchResult};
ghost use Rattle.ledger.specs.View.{view};
ghost use Rattle.uses.specs.Calls.{at, join as joins};
ghost use Rattle.uses.specs.History.{LeadsOn};
ghost use Rattle.uses.specs.Holds.{Entered};
ghost use Rattle.uses.specs.Join.{with_merged, EarlyJoin, Joined, JoinSays, JoinsExactly, AlikeInBook};

use crate::book::Book;
use crate::reading::Reader;
use kinds::fault::Fault;
use kinds::kind::Kind;
use sheets::{Sheet, check_sheet};

impl<'a, K: Kind> Reader<'a, K> {
    /// Whether a sheet shows that two different tables of the book weigh every word alike.
    fn check_join(&self, a: usize, b: usize, vectors: usize, sheet: &[K]) -> Result<(), Fault>
        ensures { JoinSays K.Kind.numbers (view self.now.ledger.now) self.now.shelf.now a b vectors sheet.now result }
    {
        let two = self.ledger.two_tables(a, b)?;
        check_sheet(
            self.ledger.events(),
            self.table(two.first),
            self.table(two.second),
            Sheet {
                vectors,
                run: sheet,
            },
        )
    }
}

impl<'a, K: Kind> Book<'a, K> {
    /// Joins two tables by a sheet: makes their classes one, under the smaller name, or answers the first refusal that holds.
    pub fn join(&mut self, a: usize, b: usize, vectors: usize, sheet: &[K]) -> Result<(), Fault>
        ensures early { EarlyJoin K.Kind.numbers (view self.old.ledger) self.old.shelf.now a b vectors sheet.now result }
        ensures answer { Entered K.Kind.numbers (view self.old.ledger) self.old.shelf.now → Joined K.Kind.numbers (view self.old.ledger) self.old.shelf.now a b vectors sheet.now result (view self.new.ledger) }
        ensures exactly { Entered K.Kind.numbers (view self.old.ledger) self.old.shelf.now → JoinsExactly K.Kind.numbers (view self.old.ledger) self.old.shelf.now a b vectors sheet.now result }
        ensures alike { Entered K.Kind.numbers (view self.old.ledger) self.old.shelf.now → result ≡ Ok tt → AlikeInBook K.Kind.numbers (view self.old.ledger) self.old.shelf.now a b vectors sheet.now }
        ensures ledger { MatchResult result (λ _. view self.new.ledger ≡ with_merged (view self.old.ledger) a b) (λ _. self.new.ledger ≡ self.old.ledger) }
        ensures shelf { self.new.shelf.now ≡ self.old.shelf.now }
        ensures entries { Entered K.Kind.numbers (view self.old.ledger) self.old.shelf.now → Entered K.Kind.numbers (view self.new.ledger) self.new.shelf.now }
        ensures leads { LeadsOn K.Kind.numbers (at (view self.old.ledger) self.old.shelf.now) (joins a b vectors sheet.now) (is_ok result) (at (view self.new.ledger) self.new.shelf.now) }
    {
        self.reader().check_join(a, b, vectors, sheet)?;
        self.ledger.merge(a, b);
        Ok(())
    }
}
