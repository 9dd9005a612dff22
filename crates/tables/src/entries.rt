//! Runs of numbers.
ghost use Rattle.std.specs.Prelude.{◌≡◌, MatchOption};
ghost use Rattle.tables.specs.Entries.{AllEntries, FirstOther, first_other};

use kinds::kind::Kind;

/// The place, counted from 1, of the first number that is no entry.
pub fn first_other<K: Kind>(run: &[K]) -> Option<usize>
    ensures value { result ≡ first_other K.Kind.numbers 1 run.now }
    ensures first { MatchOption result (AllEntries K.Kind.numbers run.now) (λ p. FirstOther K.Kind.numbers run.now p) }
{
    for (i, x) in run.iter().enumerate() {
        if !x.is_entry() {
            return Some(i + 1);
        }
    }
    None
}
