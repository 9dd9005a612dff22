//! Requests: statements, and beside them chains, parts and asking.
ghost use Rattle.std.specs.Prelude.{◌≡◌, Bool, true, false, length, IfOk, Ok, Err, MatchResult};
ghost use Rattle.std.specs.Option.{option_map};
ghost use Rattle.text.specs.Split.{left};
ghost use Rattle.statements.specs.Requests.{further_named, chain_of, chain_run, two_tables_and_word, two_tables, request_of, request_run, RequestInRun, Requests};

use crate::statements::{Statement, Written, count_numbers, read_run, read_statement};
use kinds::best::Best;
use kinds::count::Count;
use kinds::fault::{Fault, Refusal};
use lines::verbs::{Named, take_verb};
use text::fields::Fields;
use text::numbers::plain;

/// A verb that is served beside those of statements.
#[derive(Clone, Copy)]
pub enum FurtherVerb {
    Chain,
    Part,
    Ask,
}

impl Named for FurtherVerb {
    ghost named = { further_named };

    fn named_by(word: &[u8]) -> Option<FurtherVerb> {
        match word {
            b"chain" => Some(FurtherVerb::Chain),
            b"part" => Some(FurtherVerb::Part),
            b"ask" => Some(FurtherVerb::Ask),
            _ => None,
        }
    }
}

/// A number that a line can write, and whether chains of such numbers are served.
pub trait Chained: Written {
    /// Whether chains can be entered in a book of such numbers.
    ghost chained: { Bool };

    /// Whether chains can be entered in a book of such numbers.
    fn takes_chains() -> bool
        ensures { result ≡ chained };
}

impl Chained for Count {
    ghost chained = { true };

    fn takes_chains() -> bool {
        true
    }
}

impl Chained for Best {
    ghost chained = { false };

    fn takes_chains() -> bool {
        false
    }
}

/// What a line asks of an open book. Its numbers stand at the front of the run that they were read into.
// It counts them as a statement does.
#[derive(Clone, Copy)]
pub enum Request<'a> {
    /// Do what a statement says.
    Plain(Statement<'a>),
    /// Enter the table of a chain with so many states, a scale, letters and so many numbers.
    Chain(usize, usize, &'a [u8], usize),
    /// Keep a word that weighs differently in two tables.
    Part(usize, usize, &'a [u8]),
    /// Say what is known of two tables.
    Ask(usize, usize),
}

/// The fields of a chain line behind its verb; the letters are any bytes.
fn chain<'a, K: Written>(mut fields: Fields<'a>, run: &mut [K]) -> Result<Request<'a>, Fault>
    ensures value { Requests K.Written.meant (chain_of K.Written.meant (length run.old) (left fields.entry)) run.new result }
    ensures within { IfOk result (λ s. RequestInRun s (length run.new)) }
    ensures run { run.new ≡ chain_run K.Written.meant run.old (left fields.entry) }
{
    let states = fields.fixed_field()?;
    let scale = fields.fixed_field()?;
    let letters = fields.fixed_field()?;
    let count = count_numbers(fields, run.len())?;
    let states = plain(states, 2)?;
    let scale = plain(scale, 3)?;
    read_run(fields, 5, run)?;
    Ok(Request::Chain(states, scale, letters, count))
}

/// Two tables' numbers and a word, which are all fields behind the verb.
fn two_tables_and_word<'a>(mut fields: Fields<'a>) -> Result<(usize, usize, &'a [u8]), Fault>
    ensures { MatchResult result (λ x. two_tables_and_word (left fields.entry) ≡ Ok (x.0, x.1, x.2.now)) (λ f. two_tables_and_word (left fields.entry) ≡ Err f) }
{
    let first = fields.fixed_field()?;
    let second = fields.fixed_field()?;
    let word = fields.fixed_field()?;
    fields.end()?;
    let first = plain(first, 2)?;
    let second = plain(second, 3)?;
    Ok((first, second, word))
}

/// Two tables' numbers, which are all fields behind the verb.
fn two_tables(mut fields: Fields<'_>) -> Result<(usize, usize), Fault>
    ensures { result ≡ two_tables (left fields.entry) }
{
    let first = fields.fixed_field()?;
    let second = fields.fixed_field()?;
    fields.end()?;
    let first = plain(first, 2)?;
    let second = plain(second, 3)?;
    Ok((first, second))
}

/// What a line asks while a book is open; none is a line that lacks its line feed or is too long.
/// A run that is lent for the numbers has room for all that a line may have if it holds `MOST_NUMBERS`.
pub fn read_request<'a, K: Chained>(
    line: Option<&'a [u8]>,
    run: &mut [K],
) -> Result<Request<'a>, Fault>
    ensures value { Requests K.Written.meant (request_of K.Written.meant K.Chained.chained (length run.old) (option_map (λ x. x.now) line.entry)) run.new result }
    ensures within { IfOk result (λ r. RequestInRun r (length run.new)) }
    ensures run { run.new ≡ request_run K.Written.meant K.Chained.chained run.old (option_map (λ x. x.now) line.entry) }
{
    let Some(text) = line else {
        return Err(Fault::of(Refusal::LineBounds));
    };
    let mut fields = Fields::new(text);
    match take_verb(&mut fields) {
        Some(FurtherVerb::Chain) if K::takes_chains() => chain(fields, run),
        Some(FurtherVerb::Chain) => Err(Fault::of(Refusal::VerbNotServed)),
        Some(FurtherVerb::Part) => {
            let (first, second, word) = two_tables_and_word(fields)?;
            Ok(Request::Part(first, second, word))
        }
        Some(FurtherVerb::Ask) => {
            let (first, second) = two_tables(fields)?;
            Ok(Request::Ask(first, second))
        }
        None => {
            let statement = read_statement(line, run)?;
            Ok(Request::Plain(statement))
        }
    }
}
