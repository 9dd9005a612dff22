//! A labeled Markov chain as a table of counts.
ghost use Rattle.std.specs.Prelude.{◌≡◌, ℕ, List, length, pos, OnOk};
ghost use Rattle.kinds.specs.Faults.{or_refused, or_kept};
ghost use Rattle.kinds.specs.Count.{counts};
ghost use Rattle.kinds.specs.Whole.{whole};
ghost use Rattle.tables.specs.Shape.{one_to};
ghost use Rattle.tables.specs.Firsts.{AllPass};
ghost use Rattle.tables.specs.Entries.{AllEntries};
ghost use Rattle.tables.specs.Layout.{value};
ghost use Rattle.chains.specs.Gates.{Weighs};
ghost use Rattle.chains.specs.Chains.{numerator, chain_run};
ghost use Rattle.chains.specs.Refusals.{chain_fault};

use crate::checks::{first_outside, first_uneven};
use crate::steps::LabeledChain;
use kinds::count::Count;
use kinds::fault::{Fault, Refusal};
use tables::shape::{Events, States, table_size};
use tables::words::first_stray;

/// A scale is 1 to this. It is asked once, so it has no type as events and states have.
const LARGEST_SCALE: usize = 100_000;

/// A labeled Markov chain as it is given: so many states, a letter for each, and its probabilities as whole numbers over
/// the scale, the starts and then a row for each state.
#[derive(Clone, Copy)]
pub struct MarkovChain<'a, K> {
    pub states: usize,
    pub scale: usize,
    pub letters: &'a [u8],
    pub numbers: &'a [K],
}

/// Refuses what is no chain of these states, or an output run of another length than its table's.
fn admit(
    events: Events,
    states: States,
    given: MarkovChain<'_, Count>,
    room: usize,
) -> Result<(), Fault>
    ensures { result ≡ or_refused (chain_fault events.count states.count given.entry.scale given.entry.letters.now given.entry.numbers.now room) tt }
{
    let n = states.count();
    if given.scale < 1 || given.scale > LARGEST_SCALE {
        return Err(Fault::of(Refusal::ScaleRange));
    }
    if given.letters.len() != n {
        return Err(Fault::of(Refusal::Letters));
    }
    if let Some(place) = first_stray(events, given.letters) {
        return Err(Fault::at(Refusal::Letters, place));
    }
    if given.numbers.len() != n + n * n {
        return Err(Fault::of(Refusal::NumberCount));
    }
    if let Some(place) = first_outside(given.scale, given.numbers) {
        return Err(Fault::at(Refusal::ProbabilityRange, place));
    }
    if let Some(place) = first_uneven(n, given.scale, given.numbers) {
        return Err(Fault::at(Refusal::RowSum, place));
    }
    if room != table_size(states, events) {
        return Err(Fault::of(Refusal::OutputLength));
    }
    Ok(())
}

/// Writes the table of a chain. A word of m events, m at least 1, weighs there scale to the power m + 1 times its
/// probability, and the empty word the scale. On a refusal the output run is as it was.
pub fn chain(
    events: usize,
    given: MarkovChain<'_, Count>,
    output: &mut [Count],
) -> Result<(), Fault>
    ensures answer { result ≡ or_refused (chain_fault events given.entry.states given.entry.scale given.entry.letters.now given.entry.numbers.now (length output.old)) tt }
    ensures output { output.new ≡ or_kept (chain_fault events given.entry.states given.entry.scale given.entry.letters.now given.entry.numbers.now (length output.old)) output.old (chain_run given.entry.states given.entry.letters.now given.entry.numbers.now events) }
    ensures weighs { OnOk result ((w : List ℕ) → AllPass (one_to events) w → Weighs whole given.entry.states (value counts output.new) (pos given.entry.scale) (numerator given.entry.states given.entry.letters.now given.entry.numbers.now) w) }
    ensures entries { OnOk result (AllEntries counts output.new) }
{
    let events = Events::new(events)?;
    let states = States::new(given.states)?;
    admit(events, states, given, output.len())?;
    let chain = LabeledChain {
        events,
        states,
        letters: given.letters,
        numbers: given.numbers,
    };
    chain.write(output);
    Ok(())
}

#[cfg(test)]
mod tests {
    use super::*;
    use tables::shape::Table;

    // what ab and aab weigh in the table of a chain over the scale 2
    fn weighed(
        states: usize,
        letters: &[u8],
        numbers: &[Count],
        output: &mut [Count],
    ) -> Result<(i64, i64), Fault> {
        let given = MarkovChain {
            states,
            scale: 2,
            letters,
            numbers,
        };
        chain(2, given, output)?;
        let states = States::new(states)?;
        let events = Events::new(2)?;
        let mut strip = [Count(0); 16];
        let table = Table {
            states,
            run: output,
        };
        let ab = table.weigh(events, b"ab", &mut strip)?;
        let aab = table.weigh(events, b"aab", &mut strip)?;
        Ok((ab.0, aab.0))
    }

    #[test]
    fn a_state_parted_in_two_weighs_the_same(rt: HostRuntime) {
        let (zero, one, two) = (Count(0), Count(1), Count(2));
        let mut short = [zero; 12];
        let mut long = [zero; 24];
        let joint = [two, zero, one, one, zero, two];
        let parted = [
            one, one, zero, one, zero, one, zero, one, one, zero, zero, two,
        ];
        assert_eq!(rt; weighed(2, b"ab", &joint, &mut short), Ok((4, 4)));
        assert_eq!(rt; weighed(3, b"aab", &parted, &mut long), Ok((4, 4)));
    }
}
