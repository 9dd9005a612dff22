//! Runs of numbers, and how they come onto a shelf.
ghost use Rattle.std.specs.Prelude.{◌≡◌, ◌+◌, ◌≤◌, length, None};
ghost use Rattle.kinds.specs.Faults.{or_refused};
ghost use Rattle.uses.specs.Holds.{laid, part};
ghost use Rattle.uses.specs.Enter.{unless_entries};

use kinds::fault::{Fault, Refusal};
use kinds::kind::Kind;
use tables::entries::first_other;

/// Passes a run of the given size that has only entries.
pub(crate) fn check_run<K: Kind>(run: &[K], size: usize) -> Result<(), Fault>
    ensures { result ≡ or_refused (unless_entries K.Kind.numbers run.now size None) tt }
{
    if run.len() != size {
        return Err(Fault::of(Refusal::NumberCount));
    }
    match first_other(run) {
        None => Ok(()),
        Some(place) => Err(Fault::at(Refusal::NotAnEntry, place)),
    }
}

/// Writes a run on the shelf from a place on, counted from 0.
pub(crate) fn lay<K: Copy>(shelf: &mut [K], at: usize, run: &[K])
    requires { at + length run.now ≤ length shelf.old }
    ensures { shelf.new ≡ laid shelf.old at run.now }
{
    shelf[at..at + run.len()].copy_from_slice(run);
}

/// The numbers of a shelf from a place on, counted from 0, so many, or as many of them as there are.
pub(crate) fn part<K: Copy>(shelf: &[K], at: usize, size: usize) -> &[K]
    ensures { result.now ≡ part shelf.now at size }
{
    let rest = &shelf[at.min(shelf.len())..];
    &rest[..size.min(rest.len())]
}
