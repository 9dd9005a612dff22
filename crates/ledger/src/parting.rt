//! Keeping words as parts, and spelling them.
ghost use Rattle.std.specs.Prelude.{◌≡◌, option_map, OnErr};
ghost use Rattle.ledger.specs.Keep.{keep_answer, keep_parts};
ghost use Rattle.ledger.specs.Parts.{PartFound, word_answer, word_run};
ghost use Rattle.ledger.specs.Stored.{meaning};
ghost use Rattle.ledger.specs.View.{view};

use crate::ledger::Ledger;
use crate::part::Part;
use crate::parts::MOST_PARTS;
use kinds::fault::{Fault, Refusal};
use tables::words::{LONGEST_WORD, admit_word};

impl Ledger {
    /// Keeps a word with two tables as one part more, and answers its number; refused where the two are not different
    /// tables of the book, where the word is none of its events, or where as many parts as may be are kept.
    pub fn keep(&mut self, a: usize, b: usize, word: &[u8]) -> Result<usize, Fault>
        ensures answer { result ≡ keep_answer (view self.old).events (view self.old).lines (view self.old).parts a b word.now }
        ensures parts { (view self.new).parts ≡ keep_parts (view self.old).events (view self.old).lines (view self.old).parts a b word.now }
        ensures lines { (view self.new).lines ≡ (view self.old).lines }
        ensures events { self.new.events ≡ self.old.events }
        ensures refused { OnErr result (self.new ≡ self.old) }
    {
        self.two_tables(a, b)?;
        admit_word(self.events, word)?;
        let kept = self.kept;
        if kept >= MOST_PARTS {
            return Err(Fault::of(Refusal::TooManyParts));
        }
        self.parts.write(kept, a, b, word);
        self.kept = kept + 1;
        Ok(kept + 1)
    }

    /// What the ledger keeps of a part, if it has one of that number.
    fn part(&self, part: usize) -> Option<&Part>
        ensures { PartFound (view self.now).parts part (option_map (λ p. meaning p.now) result) }
    {
        let at = part.checked_sub(1)?;
        self.parts.all[..self.kept].get(at)
    }

    /// Spells the word of a part in a run of 64 bytes, with zeros behind it, and answers its length; refused where there
    /// is no such part or the run has another length.
    pub fn word(&self, part: usize, run: &mut [u8]) -> Result<usize, Fault>
        ensures answer { result ≡ word_answer (view self.now).parts part run.old }
        ensures run { run.new ≡ word_run (view self.now).parts part run.old }
    {
        let kept = self.part(part).ok_or(Fault::of(Refusal::NoSuchPart))?;
        if run.len() != LONGEST_WORD {
            return Err(Fault::of(Refusal::WordRunLength));
        }
        Ok(kept.spell(run))
    }
}
