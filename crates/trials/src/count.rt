//! Words whose weights, or sums on the way to them, are at the limit of what fits.
use crate::prices::told;
use book::book::Book;
use kinds::count::Count;
use kinds::fault::Fault;
use tables::shape::Events;

// what a word weighs in the only table of a book with one event
fn weight(states: usize, run: &[Count], word: &[u8]) -> Result<Count, Fault> {
    let events = Events::new(1)?;
    let mut shelf = [Count(0); 16];
    let mut strip = [Count(0); 16];
    let mut book = Book::open(events, &mut shelf);
    book.enter(states, run)?;
    book.weigh(1, word, &mut strip)
}

// three states that keep to themselves, so that aa weighs the sum of 10^15 times each start
fn kept_apart(starts: [i64; 3]) -> [Count; 15] {
    let [first, second, third] = starts.map(Count);
    let end = Count(100_000);
    let kept = Count(100_000);
    let none = Count(0);
    [
        first, second, third, end, end, end, kept, none, none, none, kept, none, none, none, kept,
    ]
}

// 4·10^18 + 4·10^18 is out of range, though from the last state to the first every sum would fit
#[test]
fn sums_are_taken_upward(rt: HostRuntime) {
    assert_eq!(rt;
        told(weight(3, &kept_apart([4000, 4000, -4000]), b"aa")),
        Err((19, 1))
    );
}

#[test]
fn every_sum_on_the_way_fits(rt: HostRuntime) {
    assert_eq!(rt;
        weight(3, &kept_apart([4000, -4000, 4000]), b"aa"),
        Ok(Count(4_000_000_000_000_000_000))
    );
}

// the second state starts with 0, so nothing of it is in a weight
const UNREACHED: [Count; 8] = [
    Count(1),
    Count(0),
    Count(1),
    Count(100_000),
    Count(1),
    Count(0),
    Count(0),
    Count(100_000),
];

#[test]
fn a_state_that_is_not_reached_adds_nothing(rt: HostRuntime) {
    assert_eq!(rt; weight(2, &UNREACHED, b"aa"), Ok(Count(1)));
}

// its row is computed all the same: 10^20 is out of range
#[test]
fn every_row_on_the_way_has_to_fit(rt: HostRuntime) {
    assert_eq!(rt; told(weight(2, &UNREACHED, b"aaa")), Err((19, 1)));
}
