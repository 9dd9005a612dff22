//! One part of the ledger.
ghost use Rattle.std.specs.Prelude.{◌≡◌, ℕ, ◌<◌, ◌≤◌, length, take, slice_index};
ghost use Rattle.tables.specs.Shape.{most_events};
ghost use Rattle.tables.specs.Words.{events_of, longest_word, Spelled};
ghost use Rattle.ledger.specs.Parts.{spelled};
ghost use Rattle.ledger.specs.Padded.{padded};

use tables::words::{LONGEST_WORD, event_of, letter_of};

/// What the ledger keeps of a part: two tables, and a word that weighs differently in them, as its events in turn,
/// of which the first `size` count.
// An array and a count, and no `Vec`: a record is copied with the ledger, and takes no memory.
#[derive(Clone, Copy)]
pub struct Part {
    first: usize,
    second: usize,
    size: usize,
    events: [u8; LONGEST_WORD],
    ghost short: { size ≤ longest_word },
    ghost whole: { length events ≡ longest_word },
    ghost few: { (i : ℕ) → i < size → slice_index events i ≤ most_events },
}

/// The events of a word, with zeros behind them.
fn stored(word: &[u8]) -> [u8; LONGEST_WORD]
    requires { length word.now ≤ longest_word }
    ensures { result ≡ padded (events_of word.now) }
{
    let mut events = [0; LONGEST_WORD];
    let spelled = &mut events[..word.len()];
    spelled.copy_from_slice(word);
    for event in spelled.iter_mut() {
        *event = event_of(*event) as u8;
    }
    events
}

impl Part {
    /// A record that stands where no part is kept.
    pub(crate) fn blank() -> Part
        ensures tables { (result.first ≡ 0) × (result.second ≡ 0) }
        ensures word { result.size ≡ 0 }
    {
        Part {
            first: 0,
            second: 0,
            size: 0,
            events: [0; LONGEST_WORD],
        }
    }

    /// The first of the two tables.
    pub(crate) fn first(&self) -> usize
        ensures { result ≡ self.now.first }
    {
        self.first
    }

    /// The second of the two tables.
    pub(crate) fn second(&self) -> usize
        ensures { result ≡ self.now.second }
    {
        self.second
    }

    /// Writes the part: its two tables, and the word that these bytes spell.
    pub(crate) fn write(&mut self, first: usize, second: usize, word: &[u8])
        requires short { length word.now ≤ longest_word }
        requires spelled { Spelled word.now }
        ensures first { self.new.first ≡ first }
        ensures second { self.new.second ≡ second }
        ensures word { take self.new.size self.new.events ≡ events_of word.now }
    {
        self.first = first;
        self.second = second;
        self.size = word.len();
        self.events = stored(word);
    }

    /// Spells the word in a run of 64 bytes, with zeros behind it, and answers its length.
    pub(crate) fn spell(&self, run: &mut [u8]) -> usize
        requires { length run.old ≡ longest_word }
        ensures length { result ≡ length (take self.now.size self.now.events) }
        ensures run { run.new ≡ spelled (take self.now.size self.now.events) }
    {
        let (letters, rest) = run.split_at_mut(self.size);
        letters.copy_from_slice(&self.events[..self.size]);
        for letter in letters.iter_mut() {
            *letter = letter_of(*letter);
        }
        rest.fill(0);
        self.size
    }
}
