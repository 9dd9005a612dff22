//! Keeping words that tell tables apart, and handing them out.
ghost use Rattle.std.specs.Prelude.{◌≡◌, length, is_ok, MatchResult};
ghost use Rattle.tables.specs.Strip.{cleared};
ghost use Rattle.ledger.specs.Parts.{word_answer, word_run};
ghost use Rattle.ledger.specs.View.{view};
ghost use Rattle.uses.specs.Calls.{at, part as parts, word as words};
ghost use Rattle.uses.specs.History.{LeadsOn};
ghost use Rattle.uses.specs.Holds.{Entered};
ghost use Rattle.uses.specs.Part.{Apart, PartAnswers, with_kept};

use crate::book::Book;
use crate::reading::Reader;
use kinds::fault::{Fault, Refusal};
use kinds::kind::Kind;
use tables::weighing::clear;
use uses::answers::{Parted, Weights};

impl<'a, K: Kind> Reader<'a, K> {
    /// What a word weighs in two different tables of the book, if it weighs differently in them. A strip of sixteen numbers
    /// is all zero afterwards, any other as it was.
    fn weigh_apart(
        &self,
        a: usize,
        b: usize,
        word: &[u8],
        strip: &mut [K],
    ) -> Result<Weights<K>, Fault>
        ensures answer { Apart K.Kind.numbers (view self.now.ledger.now) self.now.shelf.now a b word.now (length strip.old) result }
        ensures strip { strip.new ≡ cleared K.Kind.numbers strip.old }
    {
        // First, so that the strip is clear however the call ends.
        clear(strip);
        let two = self.ledger.two_tables(a, b)?;
        let first = self.weigh_at(two.first, 1, word, strip)?;
        let second = self.weigh_at(two.second, 2, word, strip)?;
        if first.equal(second) {
            return Err(Fault::of(Refusal::EqualWeights));
        }
        Ok(Weights { first, second })
    }
}

impl<'a, K: Kind> Book<'a, K> {
    /// Keeps a word that weighs differently in two tables, and answers the part's number and both weights, or the first
    /// refusal that holds. The strip is scratch; one of sixteen numbers is all zero afterwards, any other as it was.
    pub fn part(
        &mut self,
        a: usize,
        b: usize,
        word: &[u8],
        strip: &mut [K],
    ) -> Result<Parted<K>, Fault>
        ensures answers { PartAnswers K.Kind.numbers (view self.old.ledger) self.old.shelf.now a b word.now (length strip.old) result (view self.new.ledger) }
        ensures ledger { MatchResult result (λ _. view self.new.ledger ≡ with_kept (view self.old.ledger) a b word.now) (λ _. self.new.ledger ≡ self.old.ledger) }
        ensures shelf { self.new.shelf.now ≡ self.old.shelf.now }
        ensures strip { strip.new ≡ cleared K.Kind.numbers strip.old }
        ensures entries { Entered K.Kind.numbers (view self.old.ledger) self.old.shelf.now → Entered K.Kind.numbers (view self.new.ledger) self.new.shelf.now }
        ensures leads { LeadsOn K.Kind.numbers (at (view self.old.ledger) self.old.shelf.now) (parts a b word.now strip.old) (is_ok result) (at (view self.new.ledger) self.new.shelf.now) }
    {
        let weights = self.reader().weigh_apart(a, b, word, strip)?;
        let part = self.ledger.keep(a, b, word)?;
        Ok(Parted {
            part,
            first: weights.first,
            second: weights.second,
        })
    }

    /// Copies the word of a part to a run of 64 bytes, with zeros behind it, and answers its length, or the first refusal
    /// that holds.
    pub fn word(&self, part: usize, run: &mut [u8]) -> Result<usize, Fault>
        ensures answer { result ≡ word_answer (view self.now.ledger).parts part run.old }
        ensures run { run.new ≡ word_run (view self.now.ledger).parts part run.old }
        ensures leads { LeadsOn K.Kind.numbers (at (view self.now.ledger) self.now.shelf.now) (words part run.old) (is_ok result) (at (view self.now.ledger) self.now.shelf.now) }
    {
        self.ledger.word(part, run)
    }
}
