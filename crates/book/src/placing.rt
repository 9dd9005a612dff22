//! A place for a new table.
ghost use Rattle.std.specs.Prelude.{◌≡◌, ◌+◌, ◌-◌, ◌≤◌, length, IfOk, OnErr};
ghost use Rattle.kinds.specs.Faults.{or_kept, or_refused};
ghost use Rattle.ledger.specs.Lines.{used};
ghost use Rattle.ledger.specs.Model.{with_table};
ghost use Rattle.ledger.specs.View.{view};
ghost use Rattle.uses.specs.Enter.{enter_fault};

use crate::shelf::check_run;
use kinds::fault::Fault;
use kinds::kind::Kind;
use ledger::ledger::{Ledger, Placed};
use tables::shape::{States, table_size};

/// Gives a table of these states and numbers its line in the ledger, where the shelf has so many numbers.
pub(crate) fn place<K: Kind>(
    ledger: &mut Ledger,
    room: usize,
    states: usize,
    run: &[K],
) -> Result<Placed, Fault>
    ensures answer { result ≡ or_refused (enter_fault K.Kind.numbers (view ledger.old) room states run.now) (record { table = length (view ledger.old).lines + 1; place = 1 + used (view ledger.old).events (view ledger.old).lines }) }
    ensures after { view ledger.new ≡ or_kept (enter_fault K.Kind.numbers (view ledger.old) room states run.now) (view ledger.old) (with_table (view ledger.old) states) }
    ensures refused { OnErr result (ledger.new ≡ ledger.old) }
    ensures fits { IfOk result (λ p. p.place - 1 + length run.now ≤ room) }
{
    let states = States::new(states)?;
    check_run(run, table_size(states, ledger.events()))?;
    ledger.append(states, room)
}
