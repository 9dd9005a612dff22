//! Every size that a table can have: entered in a book, and written by a chain.
use crate::prices::told;
use book::book::Book;
use chains::chain::{MarkovChain, chain};
use kinds::count::Count;
use kinds::fault::Fault;
use std::process::Abort;
use tables::shape::Events;

// what a book with a shelf of so many numbers says to a table of so many numbers
fn entered(states: usize, events: usize, room: usize, count: usize) -> Result<usize, Fault> {
    let mut shelf = [Count(0); 400];
    let run = [Count(0); 401];
    let events = Events::new(events)?;
    let mut book = Book::open(events, &mut shelf[0..room.min(400)]);
    book.enter(states, front(&run, count))
}

// the front of a run, as far as it goes
fn front(run: &[Count], count: usize) -> &[Count] {
    &run[0..count.min(run.len())]
}

// what is said to a chain whose output run has so many numbers: it begins in its first state and goes back there
fn converted(states: usize, events: usize, room: usize) -> Result<(), Fault> {
    let mut numbers = [Count(0); 72];
    for (place, x) in numbers.iter_mut().enumerate() {
        if place.checked_rem(states) == Some(0) {
            *x = Count(1);
        }
    }
    let letters = [b'a'; 8];
    let count = states.saturating_mul(states).saturating_add(states);
    let mut output = [Count(0); 400];
    let given = MarkovChain {
        states,
        scale: 1,
        letters: &letters[0..states.min(8)],
        numbers: front(&numbers, count),
    };
    chain(events, given, &mut output[0..room.min(400)])
}

// one number too few, just right, one too many, a shelf one short, an output run one short, and one that fits
fn sizes_with(rt: &impl Abort, states: usize) {
    for events in 1..7usize {
        let steps = events.saturating_mul(states).saturating_mul(states);
        let size = steps.saturating_add(states).saturating_add(states);
        let less = size.saturating_sub(1);
        let more = size.saturating_add(1);
        assert_eq!(rt; told(entered(states, events, size, less)), Err((3, 0)));
        assert_eq!(rt; told(entered(states, events, size, size)), Ok(1));
        assert_eq!(rt; told(entered(states, events, size, more)), Err((3, 0)));
        assert_eq!(rt; told(entered(states, events, less, size)), Err((6, 0)));
        assert_eq!(rt; told(converted(states, events, less)), Err((26, 0)));
        assert_eq!(rt; told(converted(states, events, size)), Ok(()));
    }
}

#[test]
fn every_size(rt: HostRuntime) {
    for states in 1..9 {
        sizes_with(&rt, states);
    }
}
