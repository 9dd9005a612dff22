//! How many events a book and how many states a table may have, and how many numbers that makes.
ghost use Rattle.std.specs.Prelude.{◌≡◌, ◌≤◌, true, Ok, Err, MatchResult};
ghost use Rattle.tables.specs.Sizes.{rows_right};
ghost use Rattle.tables.specs.Shape.{most_events, most_states, passed_to, events_answer, states_answer, table_size};

use kinds::fault::{Fault, Refusal};

/// The most events of a book.
pub const MOST_EVENTS: usize = 6;

/// The most states of a table.
pub const MOST_STATES: usize = 8;

/// A count of 1 to a limit.
#[derive(Clone, Copy)]
pub struct OneTo<const MOST: usize> {
    count: usize,
    ghost some: { 1 ≤ count },
    ghost few: { count ≤ MOST },
}

/// The events of a book: 1 to 6.
pub type Events = OneTo<MOST_EVENTS>;

/// The states of a table: 1 to 8.
pub type States = OneTo<MOST_STATES>;

impl<const MOST: usize> OneTo<MOST> {
    /// So many, or the refusal where they are not 1 to the limit.
    fn passed(count: usize, refusal: Refusal) -> Result<OneTo<MOST>, Fault>
        ensures { MatchResult result (λ n. passed_to MOST refusal count ≡ Ok n.count) (λ f. passed_to MOST refusal count ≡ Err f) }
    {
        if count < 1 || count > MOST {
            return Err(Fault::of(refusal));
        }
        Ok(OneTo { count })
    }

    /// How many.
    pub fn count(self) -> usize
        ensures { result ≡ self.entry.count }
    {
        self.count
    }
}

impl OneTo<MOST_EVENTS> {
    /// So many events, or a refusal where they are not 1 to 6.
    pub fn new(count: usize) -> Result<Events, Fault>
        ensures { MatchResult result (λ e. events_answer count ≡ Ok e.count) (λ f. events_answer count ≡ Err f) }
    {
        OneTo::passed(count, Refusal::EventCount)
    }
}

impl OneTo<MOST_STATES> {
    /// So many states, or a refusal where they are not 1 to 8.
    pub fn new(count: usize) -> Result<States, Fault>
        ensures { MatchResult result (λ s. states_answer count ≡ Ok s.count) (λ f. states_answer count ≡ Err f) }
    {
        OneTo::passed(count, Refusal::StateCount)
    }
}

/// A table: its states, and the run of its numbers, which reads as zero past its end.
#[derive(Clone, Copy)]
pub struct Table<'a, K> {
    pub states: States,
    pub run: &'a [K],
}

/// How many numbers a table has: a row for each count of states, and in it a number for each count of events.
const SIZES: [[usize; MOST_EVENTS]; MOST_STATES] = [
    [3, 4, 5, 6, 7, 8],
    [8, 12, 16, 20, 24, 28],
    [15, 24, 33, 42, 51, 60],
    [24, 40, 56, 72, 88, 104],
    [35, 60, 85, 110, 135, 160],
    [48, 84, 120, 156, 192, 228],
    [63, 112, 161, 210, 259, 308],
    [80, 144, 208, 272, 336, 400],
];

/// The size that rows of sizes have for these states and events.
fn size_in(rows: &[[usize; MOST_EVENTS]; MOST_STATES], states: States, events: Events) -> usize
    requires { rows_right rows.now ≡ true }
    ensures is { result ≡ table_size states.count events.count }
    ensures small { result ≤ table_size most_states most_events }
{
    rows[states.count - 1][events.count - 1]
}

/// How many numbers a table with these states has in a book with these events.
pub fn table_size(states: States, events: Events) -> usize
    ensures is { result ≡ table_size states.count events.count }
    ensures small { result ≤ table_size most_states most_events }
{
    size_in(&SIZES, states, events)
}
