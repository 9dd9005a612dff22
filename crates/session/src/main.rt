//! Lines of all verbs answered, on a session that tells two tables apart.
#![tactic(auto)]

use exchange::{Service, run};
use std::io;

fn main(rt: HostRuntime) -> io::Result<()> {
    run(&rt, Service::Requests)
}
