//! Lines that keep a word.
ghost use Rattle.std.specs.Prelude.{◌≡◌, length};
ghost use Rattle.tables.specs.Strip.{cleared};
ghost use Rattle.ledger.specs.View.{view};
ghost use Rattle.uses.specs.Holds.{Entered};
ghost use Rattle.uses.specs.Part.{part_answer, part_ledger};
ghost use Rattle.serving.specs.Serving.{replied};
ghost use Rattle.serving.specs.Answering.{parted};

use crate::chaining::Listed;
use book::book::Book;
use kinds::fault::Fault;
use lines::replies::Reply;

/// Keeps a word that weighs differently in two tables, and answers the part's number and both weights.
pub(crate) fn part<K: Listed>(
    book: &mut Book<'_, K>,
    a: usize,
    b: usize,
    word: &[u8],
    strip: &mut [K],
) -> Result<Reply, Fault>
    ensures reply { Entered K.Kind.numbers (view book.old.ledger) book.old.shelf.now → result ≡ replied (parted K.Written.shown) (part_answer K.Kind.numbers (view book.old.ledger) book.old.shelf.now a b word.now (length strip.old)) }
    ensures ledger { Entered K.Kind.numbers (view book.old.ledger) book.old.shelf.now → view book.new.ledger ≡ part_ledger K.Kind.numbers (view book.old.ledger) book.old.shelf.now a b word.now (length strip.old) }
    ensures shelf { book.new.shelf.now ≡ book.old.shelf.now }
    ensures strip { strip.new ≡ cleared K.Kind.numbers strip.old }
    ensures entries { Entered K.Kind.numbers (view book.old.ledger) book.old.shelf.now → Entered K.Kind.numbers (view book.new.ledger) book.new.shelf.now }
{
    let kept = book.part(a, b, word, strip)?;
    Ok(Reply::Parted(kept.part, kept.first.to_shown(), kept.second.to_shown()))
}
