//! Lines of all verbs answered, on an input that shows each refusal of a count book.
#![tactic(auto)]

use exchange::{Service, run};
use std::io;

fn main(rt: HostRuntime) -> io::Result<()> {
    run(&rt, Service::Requests)
}
