//! Lines that ask about two tables.
ghost use Rattle.std.specs.Prelude.{◌≡◌, map, MatchResult};
ghost use Rattle.tables.specs.Words.{letter_of};
ghost use Rattle.ledger.specs.Ask.{ask_answer};
ghost use Rattle.ledger.specs.Parts.{HasPart, part_of};
ghost use Rattle.ledger.specs.View.{view};
ghost use Rattle.lines.specs.Words.{letters};
ghost use Rattle.serving.specs.Answering.{Tells};

use crate::chaining::Listed;
use book::book::Book;
use kinds::fault::Fault;
use ledger::asking::Comparison;
use lines::replies::Reply;
use lines::words::Word;
use tables::words::LONGEST_WORD;

/// The word of a part that the book keeps.
fn word_of<K: Listed>(book: &Book<'_, K>, part: usize) -> Result<Word, Fault>
    ensures { HasPart (view book.now.ledger).parts part → MatchResult result (λ w. letters w ≡ map letter_of (part_of (view book.now.ledger).parts part).word) (λ _. ⊥) }
{
    let mut letters = [0; LONGEST_WORD];
    let count = book.word(part, &mut letters)?;
    Ok(Word::new(letters, count))
}

/// Answers what is known of two tables.
pub(crate) fn ask<K: Listed>(book: &mut Book<'_, K>, a: usize, b: usize) -> Result<Reply, Fault>
    ensures tells { Tells (view book.old.ledger).parts (ask_answer (view book.old.ledger).lines (view book.old.ledger).parts a b) result }
    ensures ledger { book.new.ledger ≡ book.old.ledger }
    ensures shelf { book.new.shelf.now ≡ book.old.shelf.now }
{
    match book.ask(a, b)? {
        Comparison::Same => Ok(Reply::Same),
        Comparison::Different(part) => {
            let word = word_of(book, part)?;
            Ok(Reply::Different(part, word))
        }
        Comparison::Unknown => Ok(Reply::Unknown),
    }
}
