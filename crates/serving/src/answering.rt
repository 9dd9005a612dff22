//! The lines on an open book, where chains, parts and asking are served beside statements.
ghost use Rattle.std.specs.Prelude.{◌≡◌, length, Ok};
ghost use Rattle.std.specs.Option.{option_map};
ghost use Rattle.kinds.specs.Faults.{or_kept};
ghost use Rattle.ledger.specs.View.{view};
ghost use Rattle.uses.specs.Holds.{Entered};
ghost use Rattle.statements.specs.Requests.{RequestInRun, requested_by, request_of, request_run};
ghost use Rattle.serving.specs.Chaining.{front_after, room_for};
ghost use Rattle.serving.specs.Answering.{RequestServed, RequestReplied, chain_answer, chain_ledger, chain_shelf, request_shelf, request_strip, table_after};

use crate::asking::ask;
use crate::chaining::{Listed, room};
use crate::parting::part;
use crate::serving::{enter, perform};
use book::book::Book;
use chains::chain::MarkovChain;
use kinds::fault::Fault;
use lines::replies::Reply;
use statements::requests::{Request, read_request};

/// Converts a chain in a run and enters its table, and answers its number.
fn enter_chain<K: Listed>(
    book: &mut Book<'_, K>,
    given: MarkovChain<'_, K>,
    table: &mut [K],
) -> Result<Reply, Fault>
    ensures reply { result ≡ chain_answer K.Kind.numbers K.Listed.chains (view book.old.ledger) book.old.shelf.now (length table.old) given.entry.states given.entry.scale given.entry.letters.now given.entry.numbers.now }
    ensures ledger { view book.new.ledger ≡ chain_ledger K.Kind.numbers K.Listed.chains (view book.old.ledger) book.old.shelf.now (length table.old) given.entry.states given.entry.scale given.entry.letters.now given.entry.numbers.now }
    ensures shelf { book.new.shelf.now ≡ chain_shelf K.Kind.numbers K.Listed.chains (view book.old.ledger) book.old.shelf.now (length table.old) given.entry.states given.entry.scale given.entry.letters.now given.entry.numbers.now }
    ensures table { table.new ≡ or_kept (K.Listed.chains.refuses book.old.ledger.events.count given.entry.states given.entry.scale given.entry.letters.now given.entry.numbers.now (length table.old)) table.old (K.Listed.chains.converted book.old.ledger.events.count given.entry.states given.entry.letters.now given.entry.numbers.now) }
    ensures entries { Entered K.Kind.numbers (view book.old.ledger) book.old.shelf.now → Entered K.Kind.numbers (view book.new.ledger) book.new.shelf.now }
{
    K::convert(
        book.events().count(),
        given.states,
        given.scale,
        given.letters,
        given.numbers,
        table,
    )?;
    enter(book, given.states, table)
}

/// Converts a chain at the front of a run and enters its table, and answers its number.
fn chain<K: Listed>(
    book: &mut Book<'_, K>,
    given: MarkovChain<'_, K>,
    table: &mut [K],
) -> Result<Reply, Fault>
    ensures reply { result ≡ chain_answer K.Kind.numbers K.Listed.chains (view book.old.ledger) book.old.shelf.now (room_for given.entry.states book.old.ledger.events.count (length table.old)) given.entry.states given.entry.scale given.entry.letters.now given.entry.numbers.now }
    ensures ledger { view book.new.ledger ≡ chain_ledger K.Kind.numbers K.Listed.chains (view book.old.ledger) book.old.shelf.now (room_for given.entry.states book.old.ledger.events.count (length table.old)) given.entry.states given.entry.scale given.entry.letters.now given.entry.numbers.now }
    ensures shelf { book.new.shelf.now ≡ chain_shelf K.Kind.numbers K.Listed.chains (view book.old.ledger) book.old.shelf.now (room_for given.entry.states book.old.ledger.events.count (length table.old)) given.entry.states given.entry.scale given.entry.letters.now given.entry.numbers.now }
    ensures table { table.new ≡ front_after (K.Listed.chains.refuses book.old.ledger.events.count given.entry.states given.entry.scale given.entry.letters.now given.entry.numbers.now (room_for given.entry.states book.old.ledger.events.count (length table.old))) (room_for given.entry.states book.old.ledger.events.count (length table.old)) table.old (K.Listed.chains.converted book.old.ledger.events.count given.entry.states given.entry.letters.now given.entry.numbers.now) }
    ensures entries { Entered K.Kind.numbers (view book.old.ledger) book.old.shelf.now → Entered K.Kind.numbers (view book.new.ledger) book.new.shelf.now }
{
    let size = room(given.states, book.events(), table.len());
    enter_chain(book, given, &mut table[..size])
}

/// Does what a request asks of the book, and answers it. The request's numbers stand at the front of the run.
fn perform_request<K: Listed>(
    book: &mut Book<'_, K>,
    run: &[K],
    strip: &mut [K],
    table: &mut [K],
    request: Request<'_>,
) -> Result<Reply, Fault>
    requires { RequestInRun request (length run.now) }
    ensures served { Entered K.Kind.numbers (view book.old.ledger) book.old.shelf.now → RequestServed K.Kind.numbers K.Written.shown K.Listed.chains (view book.old.ledger) book.old.shelf.now (length strip.old) (length table.old) (Ok (requested_by request.entry run.now)) result (view book.new.ledger) }
    ensures shelf { book.new.shelf.now ≡ request_shelf K.Kind.numbers K.Written.shown K.Listed.chains (view book.old.ledger) book.old.shelf.now (length strip.old) (length table.old) (Ok (requested_by request.entry run.now)) }
    ensures strip { strip.new ≡ request_strip K.Kind.numbers strip.old (Ok (requested_by request.entry run.now)) }
    ensures table { table.new ≡ table_after K.Listed.chains book.old.ledger.events.count table.old (Ok (requested_by request.entry run.now)) }
    ensures entries { Entered K.Kind.numbers (view book.old.ledger) book.old.shelf.now → Entered K.Kind.numbers (view book.new.ledger) book.new.shelf.now }
{
    match request {
        Request::Plain(statement) => perform(book, run, strip, statement),
        Request::Chain(states, scale, letters, count) => {
            let given = MarkovChain {
                states,
                scale,
                letters,
                numbers: &run[..count],
            };
            chain(book, given, table)
        }
        Request::Part(a, b, word) => part(book, a, b, word, strip),
        Request::Ask(a, b) => ask(book, a, b),
    }
}

/// Does what a line asks of the book.
// Beside `serve_line` (and `answer_request` beside `answer_line`), and no function over both: what is read, what is left and the run for a chain's table differ, and
// each clause of either is about its own. The run, the strip and the table are lent one by one, as a caller has them.
fn serve_request<K: Listed>(
    book: &mut Book<'_, K>,
    run: &mut [K],
    strip: &mut [K],
    table: &mut [K],
    line: Option<&[u8]>,
) -> Result<Reply, Fault>
    ensures served { Entered K.Kind.numbers (view book.old.ledger) book.old.shelf.now → RequestServed K.Kind.numbers K.Written.shown K.Listed.chains (view book.old.ledger) book.old.shelf.now (length strip.old) (length table.old) (request_of K.Written.meant K.Chained.chained (length run.old) (option_map (λ x. x.now) line.entry)) result (view book.new.ledger) }
    ensures shelf { book.new.shelf.now ≡ request_shelf K.Kind.numbers K.Written.shown K.Listed.chains (view book.old.ledger) book.old.shelf.now (length strip.old) (length table.old) (request_of K.Written.meant K.Chained.chained (length run.old) (option_map (λ x. x.now) line.entry)) }
    ensures strip { strip.new ≡ request_strip K.Kind.numbers strip.old (request_of K.Written.meant K.Chained.chained (length run.old) (option_map (λ x. x.now) line.entry)) }
    ensures table { table.new ≡ table_after K.Listed.chains book.old.ledger.events.count table.old (request_of K.Written.meant K.Chained.chained (length run.old) (option_map (λ x. x.now) line.entry)) }
    ensures run { run.new ≡ request_run K.Written.meant K.Chained.chained run.old (option_map (λ x. x.now) line.entry) }
    ensures entries { Entered K.Kind.numbers (view book.old.ledger) book.old.shelf.now → Entered K.Kind.numbers (view book.new.ledger) book.new.shelf.now }
{
    let request = read_request(line, run)?;
    perform_request(book, run, strip, table, request)
}

/// Does what a line asks of the book, and answers it. The run is lent for the numbers of the line, the strip as scratch.
pub fn answer_request<K: Listed>(
    book: &mut Book<'_, K>,
    run: &mut [K],
    strip: &mut [K],
    table: &mut [K],
    line: Option<&[u8]>,
) -> Reply
    ensures served { Entered K.Kind.numbers (view book.old.ledger) book.old.shelf.now → RequestReplied K.Kind.numbers K.Written.shown K.Listed.chains (view book.old.ledger) book.old.shelf.now (length strip.old) (length table.old) (request_of K.Written.meant K.Chained.chained (length run.old) (option_map (λ x. x.now) line.entry)) result (view book.new.ledger) }
    ensures shelf { book.new.shelf.now ≡ request_shelf K.Kind.numbers K.Written.shown K.Listed.chains (view book.old.ledger) book.old.shelf.now (length strip.old) (length table.old) (request_of K.Written.meant K.Chained.chained (length run.old) (option_map (λ x. x.now) line.entry)) }
    ensures strip { strip.new ≡ request_strip K.Kind.numbers strip.old (request_of K.Written.meant K.Chained.chained (length run.old) (option_map (λ x. x.now) line.entry)) }
    ensures table { table.new ≡ table_after K.Listed.chains book.old.ledger.events.count table.old (request_of K.Written.meant K.Chained.chained (length run.old) (option_map (λ x. x.now) line.entry)) }
    ensures run { run.new ≡ request_run K.Written.meant K.Chained.chained run.old (option_map (λ x. x.now) line.entry) }
    ensures entries { Entered K.Kind.numbers (view book.old.ledger) book.old.shelf.now → Entered K.Kind.numbers (view book.new.ledger) book.new.shelf.now }
{
    serve_request(book, run, strip, table, line).unwrap_or_else(Reply::Refused)
}

#[cfg(test)]
mod tests {
    use super::*;
    use kinds::count::Count;
    use statements::statements::Written;
    use tables::shape::Events;

    // the weight of ab in the table that a chain over two events and the scale 2 becomes
    fn weighed(line: &[u8]) -> Option<i64> {
        let Ok(events) = Events::new(2) else {
            return None;
        };
        let mut shelf = [Count(0); 24];
        let mut run = [Count(0); 12];
        let mut strip = [Count(0); 16];
        let mut table = [Count(0); 24];
        let mut book = Book::open(events, &mut shelf);
        answer_request(&mut book, &mut run, &mut strip, &mut table, Some(line));
        match answer_request(
            &mut book,
            &mut run,
            &mut strip,
            &mut table,
            Some(b"weigh,1,ab"),
        ) {
            Reply::Weighs(weight) => weight,
            _ => None,
        }
    }

    #[test]
    fn chains_are_entered_in_a_count_book(rt: HostRuntime) {
        assert_eq!(rt; weighed(b"chain,2,2,ab,2,0,1,1,0,2"), Some(4));
        assert_eq!(rt; weighed(b"chain,3,2,aab,1,1,0,1,0,1,0,1,1,0,0,2"), Some(4));
        assert_eq!(rt; weighed(b"chain,2,2,ab,2,0,1,1,0,1"), None);
    }
}
