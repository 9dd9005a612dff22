//! What tables made of rows and gates weigh, over every kind of number.
ghost use Rattle.chains.specs.Gates.{GatedTableWeighs};

use kinds::kind::Kind;

/// A table of rows through gates weighs every word as its scale × its numerator. Nothing runs.
pub fn gate_law<K: Kind>()
    ensures { GatedTableWeighs K.Kind.numbers.exact }
{}
