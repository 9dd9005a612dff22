//! merge answers the lines of standard input: a line opens a book, and the lines after it work on that book.
#![tactic(auto)]

use exchange::{Service, run};
use std::io;

fn main(rt: HostRuntime) -> io::Result<()> {
    run(&rt, Service::Statements)
}
