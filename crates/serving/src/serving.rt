//! The lines on an open book.
ghost use Rattle.std.specs.Prelude.{◌≡◌, length, Ok};
ghost use Rattle.std.specs.Option.{option_map};
ghost use Rattle.tables.specs.Strip.{cleared};
ghost use Rattle.ledger.specs.View.{view};
ghost use Rattle.uses.specs.Enter.{enter_answer, enter_ledger, enter_shelf};
ghost use Rattle.uses.specs.Holds.{Entered};
ghost use Rattle.uses.specs.Join.{AtScale, join_answer, join_ledger};
ghost use Rattle.uses.specs.Weigh.{weigh_answer};
ghost use Rattle.lines.specs.declared.replies.Reply.TheVariants.{Table, Joined, Weighs};
ghost use Rattle.statements.specs.Statements.{InRun, asked_by, statement_of, statement_run};
ghost use Rattle.serving.specs.Serving.{replied, Served, Replied, shelf_after, strip_after};

use book::book::Book;
use kinds::fault::Fault;
use kinds::kind::Kind;
use lines::replies::Reply;
use statements::statements::{Statement, Written, read_statement};

/// Enters a table, and answers its number.
pub(crate) fn enter<K: Kind + Written>(
    book: &mut Book<'_, K>,
    states: usize,
    run: &[K],
) -> Result<Reply, Fault>
    ensures reply { result ≡ replied Table (enter_answer K.Kind.numbers (view book.old.ledger) book.old.shelf.now states run.now) }
    ensures ledger { view book.new.ledger ≡ enter_ledger K.Kind.numbers (view book.old.ledger) book.old.shelf.now states run.now }
    ensures shelf { book.new.shelf.now ≡ enter_shelf K.Kind.numbers (view book.old.ledger) book.old.shelf.now states run.now }
    ensures entries { Entered K.Kind.numbers (view book.old.ledger) book.old.shelf.now → Entered K.Kind.numbers (view book.new.ledger) book.new.shelf.now }
{
    let table = book.enter(states, run)?;
    Ok(Reply::Table(table))
}

/// Joins two tables by a sheet, and answers that they are.
fn join<K: Kind + Written>(
    book: &mut Book<'_, K>,
    a: usize,
    b: usize,
    vectors: usize,
    sheet: &[K],
) -> Result<Reply, Fault>
    ensures served { Entered K.Kind.numbers (view book.old.ledger) book.old.shelf.now → AtScale K.Kind.numbers (view book.old.ledger) book.old.shelf.now a b vectors sheet.now (λ c. (result ≡ replied (λ _. Joined) (join_answer K.Kind.numbers (view book.old.ledger) book.old.shelf.now a b vectors sheet.now c)) × (view book.new.ledger ≡ join_ledger K.Kind.numbers (view book.old.ledger) book.old.shelf.now a b vectors sheet.now c)) }
    ensures shelf { book.new.shelf.now ≡ book.old.shelf.now }
    ensures entries { Entered K.Kind.numbers (view book.old.ledger) book.old.shelf.now → Entered K.Kind.numbers (view book.new.ledger) book.new.shelf.now }
{
    book.join(a, b, vectors, sheet)?;
    Ok(Reply::Joined)
}

/// Weighs a word, and answers its weight.
fn weigh<K: Kind + Written>(
    book: &Book<'_, K>,
    table: usize,
    word: &[u8],
    strip: &mut [K],
) -> Result<Reply, Fault>
    ensures reply { Entered K.Kind.numbers (view book.now.ledger) book.now.shelf.now → result ≡ replied (λ x. Weighs (K.Written.shown x)) (weigh_answer K.Kind.numbers (view book.now.ledger) book.now.shelf.now table word.now (length strip.old)) }
    ensures strip { strip.new ≡ cleared K.Kind.numbers strip.old }
{
    let weight = book.weigh(table, word, strip)?;
    Ok(Reply::Weighs(weight.to_shown()))
}

/// Does what a statement asks of the book, and answers it. The statement's numbers stand at the front of the run.
pub(crate) fn perform<K: Kind + Written>(
    book: &mut Book<'_, K>,
    run: &[K],
    strip: &mut [K],
    statement: Statement<'_>,
) -> Result<Reply, Fault>
    requires { InRun statement (length run.now) }
    ensures served { Entered K.Kind.numbers (view book.old.ledger) book.old.shelf.now → Served K.Kind.numbers K.Written.shown (view book.old.ledger) book.old.shelf.now (length strip.old) (Ok (asked_by statement.entry run.now)) result (view book.new.ledger) }
    ensures shelf { book.new.shelf.now ≡ shelf_after K.Kind.numbers (view book.old.ledger) book.old.shelf.now (Ok (asked_by statement.entry run.now)) }
    ensures strip { strip.new ≡ strip_after K.Kind.numbers strip.old (Ok (asked_by statement.entry run.now)) }
    ensures entries { Entered K.Kind.numbers (view book.old.ledger) book.old.shelf.now → Entered K.Kind.numbers (view book.new.ledger) book.new.shelf.now }
{
    match statement {
        Statement::Table(states, count) => enter(book, states, &run[0..count]),
        Statement::Join(a, b, vectors, count) => join(book, a, b, vectors, &run[0..count]),
        Statement::Weigh(table, word) => weigh(book, table, word, strip),
    }
}

/// Does what a line asks of the book.
fn serve_line<K: Kind + Written>(
    book: &mut Book<'_, K>,
    run: &mut [K],
    strip: &mut [K],
    line: Option<&[u8]>,
) -> Result<Reply, Fault>
    ensures served { Entered K.Kind.numbers (view book.old.ledger) book.old.shelf.now → Served K.Kind.numbers K.Written.shown (view book.old.ledger) book.old.shelf.now (length strip.old) (statement_of K.Written.meant (length run.old) (option_map (λ x. x.now) line.entry)) result (view book.new.ledger) }
    ensures shelf { book.new.shelf.now ≡ shelf_after K.Kind.numbers (view book.old.ledger) book.old.shelf.now (statement_of K.Written.meant (length run.old) (option_map (λ x. x.now) line.entry)) }
    ensures strip { strip.new ≡ strip_after K.Kind.numbers strip.old (statement_of K.Written.meant (length run.old) (option_map (λ x. x.now) line.entry)) }
    ensures run { run.new ≡ statement_run K.Written.meant run.old (option_map (λ x. x.now) line.entry) }
    ensures entries { Entered K.Kind.numbers (view book.old.ledger) book.old.shelf.now → Entered K.Kind.numbers (view book.new.ledger) book.new.shelf.now }
{
    let statement = read_statement(line, run)?;
    perform(book, run, strip, statement)
}

/// Does what a line asks of the book, and answers it. The run is lent for the numbers of the line, the strip as scratch.
pub fn answer_line<K: Kind + Written>(
    book: &mut Book<'_, K>,
    run: &mut [K],
    strip: &mut [K],
    line: Option<&[u8]>,
) -> Reply
    ensures served { Entered K.Kind.numbers (view book.old.ledger) book.old.shelf.now → Replied K.Kind.numbers K.Written.shown (view book.old.ledger) book.old.shelf.now (length strip.old) (statement_of K.Written.meant (length run.old) (option_map (λ x. x.now) line.entry)) result (view book.new.ledger) }
    ensures shelf { book.new.shelf.now ≡ shelf_after K.Kind.numbers (view book.old.ledger) book.old.shelf.now (statement_of K.Written.meant (length run.old) (option_map (λ x. x.now) line.entry)) }
    ensures strip { strip.new ≡ strip_after K.Kind.numbers strip.old (statement_of K.Written.meant (length run.old) (option_map (λ x. x.now) line.entry)) }
    ensures run { run.new ≡ statement_run K.Written.meant run.old (option_map (λ x. x.now) line.entry) }
    ensures entries { Entered K.Kind.numbers (view book.old.ledger) book.old.shelf.now → Entered K.Kind.numbers (view book.new.ledger) book.new.shelf.now }
{
    serve_line(book, run, strip, line).unwrap_or_else(Reply::Refused)
}
