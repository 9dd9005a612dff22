//! A book that is closed is still asked. With the edits of must-not-build/ this does not compile: nothing is entered into
//! a closed book, and the open one is gone.
use book::book::Book;
use kinds::best::Best;
use kinds::fault::Fault;
use ledger::asking::Comparison;
use tables::shape::Events;

// a state whose step costs 5
const TABLE: [Best; 3] = [Best(Some(0)), Best(Some(0)), Best(Some(5))];

// opens a book, enters a table, closes the book, and asks it
fn ask_closed() -> Result<Comparison, Fault> {
    let events = Events::new(1)?;
    let mut shelf = [Best(None); 6];
    let mut book = Book::open(events, &mut shelf);
    book.enter(1, &TABLE)?;
    let closed = book.close();
    closed.ask(1, 1)
}

#[test]
fn a_closed_book_is_asked(rt: HostRuntime) {
    assert!(rt; matches!(ask_closed(), Ok(Comparison::Same)));
}
