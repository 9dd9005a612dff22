//! The run of a chain's table.
ghost use Rattle.std.specs.Prelude.{◌≡◌, ◌<◌, length};
ghost use Rattle.kinds.specs.Count.{counts};
ghost use Rattle.tables.specs.Shape.{table_size};
ghost use Rattle.tables.specs.Layout.{number_at};
ghost use Rattle.chains.specs.Chains.{chain_run};

use kinds::count::Count;
use tables::shape::{Events, States};
use tables::weighing::number;
use tables::words::event_of;

/// A chain in a book of some events: a letter for each state, and its numbers, the starts and then a row for each state.
#[derive(Clone, Copy)]
pub(crate) struct LabeledChain<'l, 'n> {
    pub(crate) events: Events,
    pub(crate) states: States,
    pub(crate) letters: &'l [u8],
    pub(crate) numbers: &'n [Count],
    ghost lettered: { length letters.now ≡ states.count },
}

impl<'l, 'n> LabeledChain<'l, 'n> {
    /// The number at a place of the chain's table: a start, an end of 1, or a step, which is the row's number where the event
    /// is the letter of the row's state, and 0 elsewhere.
    fn table_number(&self, place: usize) -> Count
        requires { place < table_size self.now.states.count self.now.events.count }
        ensures { result ≡ number_at counts (chain_run self.now.states.count self.now.letters.now self.now.numbers.now self.now.events.count) place }
    {
        let n = self.states.count();
        if place < n {
            return number(self.numbers, place);
        }
        if place < 2 * n {
            return Count(1);
        }
        let step = place - 2 * n;
        let event = step / (n * n) + 1;
        let rest = step % (n * n);
        let from = rest / n;
        if event_of(self.letters[from]) == event {
            number(self.numbers, n + rest)
        } else {
            Count(0)
        }
    }

    /// Writes the chain's table over a run of its size.
    pub(crate) fn write(&self, output: &mut [Count])
        requires { length output.old ≡ table_size self.now.states.count self.now.events.count }
        ensures { output.new ≡ chain_run self.now.states.count self.now.letters.now self.now.numbers.now self.now.events.count }
    {
        for (place, x) in output.iter_mut().enumerate() {
            *x = self.table_number(place);
        }
    }
}
