//! Lines from standard input, answered on standard output: a line opens a book, and the lines after it work on that book.
#![tactic(auto)]

use book::book::Book;
use kinds::best::Best;
use kinds::count::Count;
use kinds::kind::Kind;
use lines::openings::KindName;
use lines::replies::{Answer, Reply};
use serving::answering::answer_request;
use serving::chaining::Listed;
use serving::opening::{Opened, open_by};
use serving::serving::answer_line;
use statements::statements::MOST_NUMBERS;
use std::io;
use std::io::{BufRead, BufReader, BufWriter, Stdin, Stdout, Write};
use tables::shape::Events;
use tables::weighing::STRIP_SIZE;
use text::input::LineBuffer;

/// No table has more numbers than this.
const MOST_TABLE: usize = 400;

/// A book's shelf has so many numbers.
const SHELF_NUMBERS: usize = 4096;

/// Which lines are answered on an open book.
#[derive(Clone, Copy)]
pub enum Service {
    /// Tables, joins and weighing.
    Statements,
    /// These, and chains, parts and asking.
    Requests,
}

/// Standard input line by line, and the answers to standard output.
#[derive(Drop)]
struct Exchange {
    input: BufReader<Stdin>,
    output: BufWriter<Stdout>,
    line: LineBuffer,
    count: u64,
}

impl Exchange {
    fn new(rt: &HostRuntime) -> io::Result<Exchange> {
        let input = BufReader::new(rt.alloc(), rt.stdin())?;
        let output = BufWriter::new(rt.alloc(), rt.stdout())?;
        Ok(Exchange {
            input,
            output,
            line: LineBuffer::new(rt.alloc()),
            count: 0,
        })
    }

    /// Reads the next line, and answers whether there is one. All answers are out before more input is waited for.
    // Its text is asked for apart, since it may be refused: an option in an option would be no plainer. The loop ends with
    // the input, as the one over lines does.
    fn next_line(&mut self) -> io::Result<bool> {
        self.line.clear();
        self.count = self.count.saturating_add(1);
        for _ in 0..u64::MAX {
            if self.input.buffer().is_empty() {
                self.output.flush()?;
            }
            let piece = self.input.fill_buf()?;
            if piece.is_empty() {
                return Ok(self.line.has_begun());
            }
            let all = piece.len();
            let end = self.line.take(piece)?;
            self.input.consume(end.unwrap_or(all));
            if end.is_some() {
                return Ok(true);
            }
        }
        Ok(false)
    }

    /// Writes the answer to the line that was read.
    fn answer(&mut self, reply: Reply) -> io::Result<()> {
        let answer = Answer {
            line: self.count,
            reply,
        };
        writeln!(self.output, "{answer}")
    }
}

/// Answers the lines to come, each by what `answer` says to it.
// A loop that waits for input has to have an end: no input has so many lines.
fn serve<F: FnMut(Option<&[u8]>) -> Reply>(exchange: &mut Exchange, mut answer: F) -> io::Result<()>
    requires { F.IsAlwaysCallable answer }
{
    for _ in 0..u64::MAX {
        if !exchange.next_line()? {
            break;
        }
        let reply = answer(exchange.line.text());
        exchange.answer(reply)?;
    }
    Ok(())
}

/// Opens a book over a shelf of numbers of a kind, and answers the lines behind the one that opened it. Beside the shelf
/// there are a run for the numbers of a line, and scratch for weighing and for a chain's table.
fn serve_book<K: Listed>(
    rt: &HostRuntime,
    exchange: &mut Exchange,
    service: Service,
    events: Events,
) -> io::Result<()> {
    let mut shelf = vec![in rt.alloc(); K::zero(); SHELF_NUMBERS]?;
    let mut run = vec![in rt.alloc(); K::zero(); MOST_NUMBERS]?;
    let mut strip = [K::zero(); STRIP_SIZE];
    let mut table = [K::zero(); MOST_TABLE];
    let mut book = Book::open(events, shelf.as_mut_slice());
    match service {
        Service::Statements => serve(exchange, |line| {
            answer_line(&mut book, run.as_mut_slice(), &mut strip, line)
        }),
        Service::Requests => serve(exchange, |line| {
            answer_request(&mut book, run.as_mut_slice(), &mut strip, &mut table, line)
        }),
    }
}

/// Answers that a book is open, and then the lines behind the one that opened it.
fn open_and_serve(
    rt: &HostRuntime,
    exchange: &mut Exchange,
    service: Service,
    opened: Opened,
) -> io::Result<()> {
    exchange.answer(Reply::Open)?;
    match opened.kind {
        KindName::Count => serve_book::<Count>(rt, exchange, service, opened.events),
        KindName::Best => serve_book::<Best>(rt, exchange, service, opened.events),
    }
}

/// Answers all lines of standard input, each before more input is waited for. No contract can say what is read or written.
pub fn run(rt: &HostRuntime, service: Service) -> io::Result<()> {
    let mut exchange = Exchange::new(rt)?;
    for _ in 0..u64::MAX {
        if !exchange.next_line()? {
            break;
        }
        match open_by(exchange.line.text()) {
            Ok(opened) => open_and_serve(rt, &mut exchange, service, opened)?,
            Err(fault) => exchange.answer(Reply::Refused(fault))?,
        }
    }
    exchange.output.flush()
}
