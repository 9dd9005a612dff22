//! Lines of all verbs answered, on two shops' price tables for a week.
#![tactic(auto)]

use exchange::{Service, run};
use std::io;

fn main(rt: HostRuntime) -> io::Result<()> {
    run(&rt, Service::Requests)
}
