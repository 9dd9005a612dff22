//! Parts, and what refused calls leave, on three tables over one event that were worked out by hand.
use crate::prices::{FIRST, FIVE, NONE, SECOND, THIRD, told};
use book::book::Book;
use chains::chain::{MarkovChain, chain};
use kinds::best::Best;
use kinds::count::Count;
use kinds::fault::Fault;
use tables::shape::Events;

// a strip of fifteen different numbers
const SHORT: [Best; 15] = [
    Best(Some(1)),
    Best(Some(2)),
    Best(Some(3)),
    Best(Some(4)),
    Best(Some(5)),
    Best(Some(6)),
    Best(Some(7)),
    Best(Some(8)),
    Best(Some(9)),
    Best(Some(10)),
    Best(Some(11)),
    Best(Some(12)),
    Best(Some(13)),
    Best(Some(14)),
    Best(Some(15)),
];

// what asking for a word answers, its length or the refusal's number and place
type Length = Result<usize, (u8, usize)>;

// enters the three tables
fn enter(book: &mut Book<'_, Best>) -> Result<(), Fault> {
    book.enter(1, &FIRST)?;
    book.enter(2, &SECOND)?;
    book.enter(2, &THIRD)?;
    Ok(())
}

// weighs a word in the first table
fn weigh(word: &[u8], strip: &mut [Best]) -> Result<Best, Fault> {
    let events = Events::new(1)?;
    let mut shelf = [NONE; 19];
    let mut book = Book::open(events, &mut shelf);
    enter(&mut book)?;
    book.weigh(1, word, strip)
}

// keeps a word for the first and the third table, and answers both weights
fn part(word: &[u8], strip: &mut [Best]) -> Result<(Best, Best), Fault> {
    let events = Events::new(1)?;
    let mut shelf = [NONE; 19];
    let mut book = Book::open(events, &mut shelf);
    enter(&mut book)?;
    let parted = book.part(1, 3, word, strip)?;
    Ok((parted.first, parted.second))
}

// keeps aaaa, and asks for the word of a part, first the open and then the closed book
fn words(part: usize, run: &mut [u8], again: &mut [u8]) -> Result<(Length, Length), Fault> {
    let events = Events::new(1)?;
    let mut shelf = [NONE; 19];
    let mut strip = [NONE; 16];
    let mut book = Book::open(events, &mut shelf);
    enter(&mut book)?;
    book.part(1, 3, b"aaaa", &mut strip)?;
    let open = told(book.word(part, run));
    let closed = book.close();
    Ok((open, told(closed.word(part, again))))
}

#[test]
fn a_word_that_weighs_differently_is_kept(rt: HostRuntime) {
    let mut strip = [FIVE; 16];
    assert_eq!(rt; told(part(b"aaa", &mut strip)), Err((20, 0)));
    assert_eq!(rt;
        part(b"aaaa", &mut strip),
        Ok((Best(Some(20)), Best(Some(19))))
    );
}

#[test]
fn a_kept_word_has_zeros_behind_it(rt: HostRuntime) {
    let mut run = [7; 64];
    let mut again = [7; 64];
    let mut spelled = [0; 64];
    spelled[..4].copy_from_slice(&[97; 4]);
    assert_eq!(rt; words(1, &mut run, &mut again), Ok((Ok(4), Ok(4))));
    assert_eq!(rt; run, spelled);
    assert_eq!(rt; again, spelled);
}

#[test]
fn no_such_part_leaves_the_run(rt: HostRuntime) {
    let mut run = [7; 64];
    let mut again = [7; 64];
    assert_eq!(rt;
        words(2, &mut run, &mut again),
        Ok((Err((27, 0)), Err((27, 0))))
    );
    assert_eq!(rt; run, [7; 64]);
    assert_eq!(rt; again, [7; 64]);
}

#[test]
fn a_short_run_is_left(rt: HostRuntime) {
    let mut run = [7; 63];
    let mut again = [7; 63];
    assert_eq!(rt;
        words(1, &mut run, &mut again),
        Ok((Err((28, 0)), Err((28, 0))))
    );
    assert_eq!(rt; run, [7; 63]);
    assert_eq!(rt; again, [7; 63]);
}

#[test]
fn a_short_strip_is_left(rt: HostRuntime) {
    let mut strip = SHORT;
    assert_eq!(rt; told(weigh(b"aaaa", &mut strip)), Err((18, 0)));
    assert_eq!(rt; strip, SHORT);
    assert_eq!(rt; told(part(b"aaaa", &mut strip)), Err((18, 0)));
    assert_eq!(rt; strip, SHORT);
}

#[test]
fn a_long_word_leaves_zeros(rt: HostRuntime) {
    let mut strip = [FIVE; 16];
    assert_eq!(rt; told(weigh(&[97; 65], &mut strip)), Err((16, 0)));
    assert_eq!(rt; strip, [NONE; 16]);
}

// a chain of one state takes three numbers
#[test]
fn a_short_output_is_left(rt: HostRuntime) {
    let mut output = [Count(7), Count(8)];
    let given = MarkovChain {
        states: 1,
        scale: 2,
        letters: b"a",
        numbers: &[Count(2), Count(2)],
    };
    assert_eq!(rt; told(chain(1, given, &mut output)), Err((26, 0)));
    assert_eq!(rt; output, [Count(7), Count(8)]);
}
