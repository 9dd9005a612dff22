//! Lines of all verbs answered, on lines of a best book most of which are refused.
#![tactic(auto)]

use exchange::{Service, run};
use std::io;

fn main(rt: HostRuntime) -> io::Result<()> {
    run(&rt, Service::Requests)
}
