//! The lines on an open book, and the numbers of a line.
ghost use Rattle.std.specs.Prelude.{◌≡◌, ◌<◌, ◌≤◌, min, length, take, ℤ, IfOk, Some, Ok, Err, Option, MatchResult};
ghost use Rattle.std.specs.Option.{option_map};
ghost use Rattle.kinds.specs.declared.fault.Refusal.TheVariants.{FieldCount};
ghost use Rattle.kinds.specs.Faults.{fault};
ghost use Rattle.text.specs.declared.numbers.Reading.{Reading as Read};
ghost use Rattle.text.specs.Split.{left};
ghost use Rattle.statements.specs.Statements.{most_numbers, count_meant, best_meant, number_in, front, numbers_at, overlaid, table_of, table_run, join_of, join_run, table_and_word, statement_of, statement_run, InRun, Reads};

use kinds::best::Best;
use kinds::count::Count;
use kinds::fault::{Fault, Refusal};
use lines::verbs::{Verb, take_verb};
use text::fields::Fields;
use text::numbers::{Reading, plain, read_number};

/// A line has at most so many numbers.
pub const MOST_NUMBERS: usize = 1809;

/// A number that a line can write.
// No `From` and `TryFrom`: both sides of them are of other crates, and neither says what a field means.
pub trait Written: Copy {
    /// The number that a field means, if it means one.
    ghost meant: { Read → Option Self };

    /// The whole number that a number is shown as, or none for a hyphen.
    ghost shown: { Self → Option ℤ };

    /// The number of a field that reads so.
    fn from_reading(reading: Reading) -> Option<Self>
        ensures { result ≡ meant reading };

    /// What the number is shown as.
    fn to_shown(self) -> Option<i64>
        ensures { result ≡ shown self };
}

impl Written for Count {
    ghost meant = { count_meant };

    ghost shown = { λ x. Some x.0 };

    fn from_reading(reading: Reading) -> Option<Count> {
        match reading {
            Reading::Number(z) => Some(Count(z)),
            Reading::Hyphen => None,
        }
    }

    fn to_shown(self) -> Option<i64> {
        Some(self.0)
    }
}

impl Written for Best {
    ghost meant = { best_meant };

    ghost shown = { λ x. x.0 };

    fn from_reading(reading: Reading) -> Option<Best> {
        match reading {
            Reading::Number(z) => Some(Best(Some(z))),
            Reading::Hyphen => Some(Best(None)),
        }
    }

    fn to_shown(self) -> Option<i64> {
        self.0
    }
}

/// What a line asks of an open book. Its numbers stand at the front of the run that they were read into.
// It counts its numbers and does not hold them: of a run that a result borrows from, no clause could say what is in it afterwards.
#[derive(Clone, Copy)]
pub enum Statement<'a> {
    /// Enter a table with so many states and so many numbers.
    Table(usize, usize),
    /// Join two tables by a sheet of so many vectors and so many numbers.
    Join(usize, usize, usize, usize),
    /// Weigh a word in a table.
    Weigh(usize, &'a [u8]),
}

/// The count of the numbers that are left, unless they are more than a line may have or than there is room for.
pub(crate) fn count_numbers(fields: Fields<'_>, room: usize) -> Result<usize, Fault>
    ensures { MatchResult result (λ n. (n ≡ length (left fields.entry)) × (n ≤ min most_numbers room)) (λ e. (e ≡ fault FieldCount) × (min most_numbers room < length (left fields.entry))) }
{
    let most = MOST_NUMBERS.min(room);
    let count = fields.take(most + 1).count();
    if count > most {
        return Err(Fault::of(Refusal::FieldCount));
    }
    Ok(count)
}

/// The number that a field writes, if it has the form of one.
fn number<K: Written>(field: &[u8]) -> Option<K>
    ensures { result ≡ number_in K.Written.meant field.now }
{
    K::from_reading(read_number(field)?)
}

/// Reads the fields that are left as numbers to the front of the run; the first of them stands at the place `first` of the line.
pub(crate) fn read_run<K: Written>(
    fields: Fields<'_>,
    first: usize,
    run: &mut [K],
) -> Result<(), Fault>
    requires room { length (left fields) ≤ length run.old }
    requires few { length (left fields) ≤ most_numbers }
    requires small { first < 16 }
    ensures value { MatchResult result (λ _. numbers_at K.Written.meant first (left fields.entry) ≡ Ok (take (length (left fields.entry)) run.new)) (λ f. numbers_at K.Written.meant first (left fields.entry) ≡ Err f) }
    ensures run { run.new ≡ overlaid run.old (front K.Written.meant (left fields.entry)) }
{
    for (n, field) in fields.enumerate() {
        run[n] = number(field).ok_or(Fault::at(Refusal::FieldForm, first + n))?;
    }
    Ok(())
}

/// The fields of a table line behind its verb.
fn table<'a, K: Written>(mut fields: Fields<'a>, run: &mut [K]) -> Result<Statement<'a>, Fault>
    ensures value { Reads K.Written.meant (table_of K.Written.meant (length run.old) (left fields.entry)) run.new result }
    ensures within { IfOk result (λ s. InRun s (length run.new)) }
    ensures run { run.new ≡ table_run K.Written.meant run.old (left fields.entry) }
{
    let states = fields.fixed_field()?;
    let count = count_numbers(fields, run.len())?;
    let states = plain(states, 2)?;
    read_run(fields, 3, run)?;
    Ok(Statement::Table(states, count))
}

/// The fields of a join line behind its verb.
fn join<'a, K: Written>(mut fields: Fields<'a>, run: &mut [K]) -> Result<Statement<'a>, Fault>
    ensures value { Reads K.Written.meant (join_of K.Written.meant (length run.old) (left fields.entry)) run.new result }
    ensures within { IfOk result (λ s. InRun s (length run.new)) }
    ensures run { run.new ≡ join_run K.Written.meant run.old (left fields.entry) }
{
    let a = fields.fixed_field()?;
    let b = fields.fixed_field()?;
    let vectors = fields.fixed_field()?;
    let count = count_numbers(fields, run.len())?;
    let a = plain(a, 2)?;
    let b = plain(b, 3)?;
    let vectors = plain(vectors, 4)?;
    read_run(fields, 5, run)?;
    Ok(Statement::Join(a, b, vectors, count))
}

/// A table's number and a word, which are all fields behind the verb.
fn table_and_word<'a>(mut fields: Fields<'a>) -> Result<(usize, &'a [u8]), Fault>
    ensures { MatchResult result (λ x. table_and_word (left fields.entry) ≡ Ok (x.0, x.1.now)) (λ f. table_and_word (left fields.entry) ≡ Err f) }
{
    let table = fields.fixed_field()?;
    let word = fields.fixed_field()?;
    fields.end()?;
    let table = plain(table, 2)?;
    Ok((table, word))
}

/// What a line asks while a book is open; none is a line that lacks its line feed or is too long.
/// A run that is lent for the numbers has room for all that a line may have if it holds `MOST_NUMBERS`.
pub fn read_statement<'a, K: Written>(
    line: Option<&'a [u8]>,
    run: &mut [K],
) -> Result<Statement<'a>, Fault>
    ensures value { Reads K.Written.meant (statement_of K.Written.meant (length run.old) (option_map (λ x. x.now) line.entry)) run.new result }
    ensures within { IfOk result (λ s. InRun s (length run.new)) }
    ensures run { run.new ≡ statement_run K.Written.meant run.old (option_map (λ x. x.now) line.entry) }
{
    let Some(text) = line else {
        return Err(Fault::of(Refusal::LineBounds));
    };
    let mut fields = Fields::new(text);
    match take_verb(&mut fields) {
        Some(Verb::Table) => table(fields, run),
        Some(Verb::Join) => join(fields, run),
        Some(Verb::Weigh) => {
            let (table, word) = table_and_word(fields)?;
            Ok(Statement::Weigh(table, word))
        }
        Some(Verb::Book) | None => Err(Fault::of(Refusal::VerbNotServed)),
    }
}
