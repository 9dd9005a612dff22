//! Worked examples of the rules, computed where this crate is checked.
ghost use Rattle.trials.specs.Examples.{WorkedExamplesHold};

/// Every row of the worked examples holds by the definitions that the contracts of the calls cite. Nothing runs.
pub fn worked_examples_hold()
    ensures { WorkedExamplesHold }
{}
