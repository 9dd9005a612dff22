//! What words weigh in tables.
ghost use Rattle.std.specs.Prelude.{◌≡◌, ℕ, ◌+◌, ◌*◌, ◌<◌, ◌≤◌, false, length, None, Ok, ◌==◌};
ghost use Rattle.tables.specs.Shape.{most_events, most_states, table_size};
ghost use Rattle.tables.specs.Words.{events_of, Spelled};
ghost use Rattle.tables.specs.Layout.{end_at, number_at, Stored};
ghost use Rattle.tables.specs.Backward.{BackwardSumIsWeight};
ghost use Rattle.tables.specs.Path.{PathIsWeight};
ghost use Rattle.tables.specs.Range.{PathRefusesExactlyWhereItDoesNotFit};
ghost use Rattle.tables.specs.Strip.{strip_size, cleared, DotSays, RowsStand, StepsStand, PathSays};
ghost use Rattle.tables.specs.Weighing.{weigh_fault, path_number, answered, Refused, IsWeight, IsRanged};

use crate::shape::{Events, MOST_STATES, Table};
use crate::words::{admit_word, event_of};
use kinds::fault::{Fault, Refusal};
use kinds::kind::Kind;

/// How many numbers a strip has: two vectors, each with a number for each of the most states.
pub const STRIP_SIZE: usize = 2 * MOST_STATES;

/// The number at a place of a run, or zero past its end.
pub fn number<K: Kind>(run: &[K], place: usize) -> K
    ensures { result ≡ number_at K.Kind.numbers run.now place }
{
    run.get(place).copied().unwrap_or(K::zero())
}

/// Writes zero over a whole strip of sixteen numbers, and leaves any other as it is.
pub fn clear<K: Kind>(strip: &mut [K])
    ensures { strip.new ≡ cleared K.Kind.numbers strip.old }
{
    if strip.len() == STRIP_SIZE {
        strip.copy_from_slice(&[K::zero(); STRIP_SIZE]);
    }
}

/// The sum of products of a vector's numbers and the run's from `at` on.
fn dot<K: Kind>(run: &[K], at: usize, vector: &[K]) -> Result<K, Fault>
    requires near { at ≤ table_size most_states most_events }
    requires few { length vector.now ≤ most_states }
    ensures { DotSays K.Kind.numbers run.now at vector.now result }
{
    let mut sum = K::zero();
    for (j, y) in vector.iter().enumerate() {
        let x = number(run, at + j);
        let product = x.multiply(*y)?;
        sum = sum.add(product)?;
    }
    Ok(sum)
}

/// Writes to `rows` the run's rows from `at` on, each times a vector.
// Slices one by one, and no struct of the vector and the rows: `dot` and `ends` are about one slice alone.
fn fill<K: Kind>(run: &[K], at: usize, vector: &[K], rows: &mut [K]) -> Result<(), Fault>
    requires near { at + most_states * most_states ≤ table_size most_states most_events }
    requires few { length vector.now ≤ most_states }
    requires square { length rows.old ≡ length vector.now }
    ensures { RowsStand K.Kind.numbers run.now at vector.now rows.new result }
{
    for (i, row) in rows.iter_mut().enumerate() {
        let x = dot(run, at + i * vector.len(), vector)?;
        *row = x;
    }
    Ok(())
}

/// Copies a table's ends into a vector with a number for each state.
fn ends<K: Kind>(run: &[K], vector: &mut [K])
    requires { length vector.old ≤ most_states }
    ensures { (j : ℕ) → j < length vector.old → number_at K.Kind.numbers vector.new j ≡ number_at K.Kind.numbers run.now (end_at (length vector.old) j) }
{
    let states = vector.len();
    for (i, x) in vector.iter_mut().enumerate() {
        *x = number(run, states + i);
    }
}

/// Applies the steps of an event to a vector; the rows are scratch of the same length.
fn apply<K: Kind>(run: &[K], event: usize, vector: &mut [K], rows: &mut [K]) -> Result<(), Fault>
    requires event { (1 ≤ event) × (event ≤ most_events) }
    requires few { length vector.old ≤ most_states }
    requires square { length rows.old ≡ length vector.old }
    ensures { StepsStand K.Kind.numbers run.now event vector.old vector.new result }
{
    let states = vector.len();
    let at = 2 * states + (event - 1) * states * states;
    fill(run, at, vector, rows)?;
    vector.copy_from_slice(rows);
    Ok(())
}

/// What the path gives: the ends, times the steps of the word's last event and so on to its first, times the starts.
fn path<K: Kind>(run: &[K], word: &[u8], vector: &mut [K], rows: &mut [K]) -> Result<K, Fault>
    requires spelled { Spelled word.now }
    requires few { length vector.old ≤ most_states }
    requires square { length rows.old ≡ length vector.old }
    ensures { PathSays K.Kind.numbers (length vector.old) run.now (events_of word.now) result }
{
    ends(run, vector);
    for byte in word.iter().rev() {
        apply(run, event_of(*byte), vector, rows)?;
    }
    dot(run, 0, vector)
}

/// Refuses what hangs on no number: the word's length, its first byte that is no event, the strip's length.
fn admit(events: Events, word: &[u8], room: usize) -> Result<(), Fault>
    ensures { result ≡ answered (weigh_fault events.count word.now room) (Ok tt) }
{
    admit_word(events, word)?;
    if room != STRIP_SIZE {
        return Err(Fault::of(Refusal::StripLength));
    }
    Ok(())
}

impl<'a, K: Kind> Table<'a, K> {
    /// What `weigh` answers; the strip is left with what was computed on it.
    fn weighed(self, events: Events, word: &[u8], strip: &mut [K]) -> Result<K, Fault>
        ensures early { Refused (weigh_fault events.count word.now (length strip.old)) result }
        ensures says { weigh_fault events.count word.now (length strip.old) ≡ None → PathSays K.Kind.numbers self.entry.states.count self.entry.run.now (events_of word.now) result }
        ensures kept { (length strip.old == strip_size) ≡ false → strip.new ≡ strip.old }
    {
        admit(events, word, strip.len())?;
        let states = self.states.count();
        let (vector, rows) = strip.split_at_mut(MOST_STATES);
        path(self.run, word, &mut vector[..states], &mut rows[..states])
    }

    /// What a word over the book's events weighs in the table. The strip is scratch for it, and cleared afterwards.
    pub fn weigh(self, events: Events, word: &[u8], strip: &mut [K]) -> Result<K, Fault>
        ensures early { Refused (weigh_fault events.count word.now (length strip.old)) result }
        ensures answer { Stored K.Kind.numbers self.entry.states.count self.entry.run.now (events_of word.now) → result ≡ answered (weigh_fault events.count word.now (length strip.old)) (path_number K.Kind.numbers self.entry.states.count self.entry.run.now word.now) }
        ensures weight { Stored K.Kind.numbers self.entry.states.count self.entry.run.now (events_of word.now) → IsWeight K.Kind.numbers self.entry.states.count self.entry.run.now word.now result }
        ensures range { Stored K.Kind.numbers self.entry.states.count self.entry.run.now (events_of word.now) → weigh_fault events.count word.now (length strip.old) ≡ None → IsRanged K.Kind.numbers self.entry.states.count self.entry.run.now word.now result }
        ensures strip { strip.new ≡ cleared K.Kind.numbers strip.old }
    {
        let weight = self.weighed(events, word, strip);
        clear(strip);
        weight
    }
}

/// The sum from the end is the weight; so the weighing path gives the weight, and it is refused exactly where something on it does not fit. Nothing runs.
pub fn path_laws<K: Kind>()
    ensures backward { BackwardSumIsWeight K.Kind.numbers.exact }
    ensures weight { PathIsWeight K.Kind.numbers }
    ensures range { PathRefusesExactlyWhereItDoesNotFit K.Kind.numbers }
{}

#[cfg(test)]
mod tests {
    use super::*;
    use crate::shape::States;
    use kinds::best::Best;
    use kinds::count::Count;

    // what a word of one event weighs
    fn weighs<K: Kind>(run: &[K], states: usize, word: &[u8], strip: &mut [K]) -> Result<K, Fault> {
        let states = States::new(states)?;
        let events = Events::new(1)?;
        Table { states, run }.weigh(events, word, strip)
    }

    // the same of counts, or the refusal's number
    fn counts(run: &[Count], states: usize, word: &[u8]) -> Result<i64, u8> {
        let mut strip = [Count(7); 16];
        let weight = weighs(run, states, word, &mut strip);
        weight
            .map(|weight| weight.0)
            .map_err(|fault| fault.refusal.number())
    }

    #[test]
    fn one_state(rt: HostRuntime) {
        let run = [Count(1), Count(1), Count(100_000)];
        assert_eq!(rt; counts(&run, 1, b"aaa"), Ok(1_000_000_000_000_000));
        assert_eq!(rt; counts(&run, 1, b"aaaa"), Err(19));
        let run = [Best(Some(0)), Best(Some(0)), Best(Some(5))];
        let mut strip = [Best(None); 16];
        assert_eq!(rt; weighs(&run, 1, b"aaa", &mut strip), Ok(Best(Some(15))));
    }

    #[test]
    fn out_of_range_on_the_way(rt: HostRuntime) {
        let most = Count(4_000_000_000_000_000_000);
        let least = Count(-4_000_000_000_000_000_000);
        let upward = [most, most, least, Count(1), Count(1), Count(1)];
        assert_eq!(rt; counts(&upward, 3, b""), Err(19));
        let unreached = [
            Count(1),
            Count(0),
            Count(1),
            most,
            Count(1),
            Count(0),
            Count(0),
            Count(2),
        ];
        assert_eq!(rt; counts(&unreached, 2, b""), Ok(1));
        assert_eq!(rt; counts(&unreached, 2, b"a"), Err(19));
    }
}
