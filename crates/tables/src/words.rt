//! Words of a book's events, spelled by bytes.
ghost use Rattle.std.specs.Prelude.{◌≡◌, min, None, MatchOption};
ghost use Rattle.kinds.specs.Faults.{or_refused};
ghost use Rattle.tables.specs.Words.{event_of, letter_of, is_event, AllEvents, FirstStray, first_stray, unless_word};

use crate::shape::Events;
use kinds::fault::{Fault, Refusal};

/// The most events of a word that is weighed or kept.
pub const LONGEST_WORD: usize = 64;

/// The event of a byte: 1 for `a`, 2 for `b` and so on.
pub fn event_of(byte: u8) -> usize
    ensures { result ≡ event_of byte }
{
    (byte as usize).saturating_sub(96)
}

/// The byte of an event; the largest byte for a number that is too large for an event.
pub fn letter_of(event: u8) -> u8
    ensures { result ≡ min (letter_of event) 255 }
{
    event.saturating_add(96)
}

/// Whether a byte is an event of the book.
fn is_event(events: Events, byte: u8) -> bool
    ensures { result ≡ is_event events.count byte }
{
    (1..=events.count()).contains(&event_of(byte))
}

/// The place, counted from 1, of the first byte that is no event of the book.
pub fn first_stray(events: Events, word: &[u8]) -> Option<usize>
    ensures value { result ≡ first_stray events.count 1 word.now }
    ensures first { MatchOption result (AllEvents events.count word.now) (λ p. FirstStray events.count word.now p) }
{
    // Tried as `position` and `map`: the check leaves the goal, that of `position` alone it finds.
    for (i, byte) in word.iter().enumerate() {
        if !is_event(events, *byte) {
            return Some(i + 1);
        }
    }
    None
}

/// Passes a word of at most 64 bytes that are all events of the book.
pub fn admit_word(events: Events, word: &[u8]) -> Result<(), Fault>
    ensures { result ≡ or_refused (unless_word events.count word.now None) tt }
{
    if word.len() > LONGEST_WORD {
        return Err(Fault::of(Refusal::WordLength));
    }
    match first_stray(events, word) {
        Some(place) => Err(Fault::at(Refusal::NotAnEvent, place)),
        None => Ok(()),
    }
}
