//! Two tables of prices, joined by a sheet.
use crate::prices::{FIRST, FIVE, NONE, SECOND, SEVEN, ZERO, told};
use book::book::Book;
use kinds::best::Best;
use kinds::fault::Fault;
use tables::shape::Events;

// what aaa weighs in both, once they are joined by a sheet of two vectors, of which one coefficient is given
fn joined_by(coefficient: Best) -> Result<(Best, Best), Fault> {
    let events = Events::new(1)?;
    let mut shelf = [NONE; 11];
    let mut strip = [NONE; 16];
    let mut book = Book::open(events, &mut shelf);
    book.enter(1, &FIRST)?;
    book.enter(2, &SECOND)?;
    let sheet = [
        ZERO,
        ZERO,
        ZERO,
        ZERO,
        ZERO,
        ZERO,
        NONE,
        coefficient,
        FIVE,
        NONE,
        FIVE,
        ZERO,
        NONE,
    ];
    book.join(1, 2, 2, &sheet)?;
    let small = book.weigh(1, b"aaa", &mut strip)?;
    let large = book.weigh(2, b"aaa", &mut strip)?;
    Ok((small, large))
}

#[test]
fn joined_tables_weigh_alike(rt: HostRuntime) {
    assert_eq!(rt; joined_by(SEVEN), Ok((Best(Some(15)), Best(Some(15)))));
}

#[test]
fn a_broken_step_is_refused(rt: HostRuntime) {
    assert_eq!(rt; told(joined_by(Best(Some(6)))), Err((14, 1)));
}
