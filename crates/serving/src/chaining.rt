//! Chains as lines of a book give them, converted to tables where the kind takes chains.
ghost use Rattle.std.specs.Prelude.{◌≡◌, ◌≤◌, [], length, Some};
ghost use Rattle.kinds.specs.declared.fault.Refusal.TheVariants.{VerbNotServed};
ghost use Rattle.kinds.specs.Faults.{fault, or_kept, or_refused};
ghost use Rattle.chains.specs.Chains.{chain_run};
ghost use Rattle.chains.specs.Refusals.{chain_fault};
ghost use Rattle.serving.specs.Chaining.{Converting, room_for};

use chains::chain::{MarkovChain, chain};
use kinds::best::Best;
use kinds::count::Count;
use kinds::fault::{Fault, Refusal};
use kinds::kind::Kind;
use statements::requests::Chained;
use tables::shape::{Events, States, table_size};

/// Numbers of a book that lines work on.
pub trait Listed: Kind + Chained {
    /// How chains of these numbers become tables.
    ghost chains: { Converting Self };

    /// Writes a chain's table to a run that has its size.
    // The chain's parts come one by one: with a struct that borrows them each impl would have to write these clauses again.
    fn convert(
        events: usize,
        states: usize,
        scale: usize,
        letters: &[u8],
        numbers: &[Self],
        output: &mut [Self],
    ) -> Result<(), Fault>
        ensures answer { result ≡ or_refused (chains.refuses events states scale letters.now numbers.now (length output.old)) tt }
        ensures output { output.new ≡ or_kept (chains.refuses events states scale letters.now numbers.now (length output.old)) output.old (chains.converted events states letters.now numbers.now) };
}

impl Listed for Count {
    ghost chains = { record { refuses = chain_fault; converted = λ k n letters numbers. chain_run n letters numbers k } };

    fn convert(
        events: usize,
        states: usize,
        scale: usize,
        letters: &[u8],
        numbers: &[Count],
        output: &mut [Count],
    ) -> Result<(), Fault> {
        let given = MarkovChain {
            states,
            scale,
            letters,
            numbers,
        };
        chain(events, given, output)
    }
}

impl Listed for Best {
    ghost chains = { record { refuses = λ _ _ _ _ _ _. Some (fault VerbNotServed); converted = λ _ _ _ _. [] } };

    fn convert(
        events: usize,
        states: usize,
        scale: usize,
        letters: &[u8],
        numbers: &[Best],
        output: &mut [Best],
    ) -> Result<(), Fault> {
        Err(Fault::of(Refusal::VerbNotServed))
    }
}

/// How many numbers of a run are for the table of so many states: the table's size, as far as the run has them.
pub fn room(states: usize, events: Events, most: usize) -> usize
    ensures value { result ≡ room_for states events.count most }
    ensures within { result ≤ most }
{
    match States::new(states) {
        Ok(states) => table_size(states, events).min(most),
        Err(_) => 0,
    }
}
