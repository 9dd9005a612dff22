//! Sheets: certificates that two tables weigh every word alike, and their check.
#![tactic(auto)]

mod firsts;
mod form;
mod rules;
mod sides;
mod sums;

ghost use Rattle.std.specs.Prelude.{◌≡◌, ◌+◌, Ok};
ghost use Rattle.tables.specs.Entries.{AllEntries};
ghost use Rattle.sheets.specs.Alike.{KeptSheetWeighsEveryWordAlikeFromStarts};
ghost use Rattle.sheets.specs.Promises.{Early, Answers, AcceptsExactly, Alike};

use form::read_page;
use kinds::fault::Fault;
use kinds::kind::Kind;
use sides::{Comparison, Side};
use tables::shape::{Events, Table};

/// A sheet as it is given: how many vectors it is said to have, and its run.
#[derive(Clone, Copy)]
pub struct Sheet<'a, K> {
    pub vectors: usize,
    pub run: &'a [K],
}

/// Whether a sheet shows that two tables weigh every word alike, or the first of refusals 9 to 15.
/// What depends on the tables' numbers is promised where all of these are entries; a run reads as zero past its end.
pub fn check_sheet<'a, K: Kind>(
    events: Events,
    a: Table<'a, K>,
    b: Table<'a, K>,
    sheet: Sheet<'a, K>,
) -> Result<(), Fault>
    ensures early { Early K.Kind.numbers events.count (a.entry.states.count + b.entry.states.count) sheet.entry.vectors sheet.entry.run.now result }
    ensures answer { AllEntries K.Kind.numbers a.entry.run.now → AllEntries K.Kind.numbers b.entry.run.now → Answers K.Kind.numbers events.count a.entry.states.count a.entry.run.now b.entry.states.count b.entry.run.now sheet.entry.vectors sheet.entry.run.now result }
    ensures accepts_exactly { AllEntries K.Kind.numbers a.entry.run.now → AllEntries K.Kind.numbers b.entry.run.now → AcceptsExactly K.Kind.numbers events.count a.entry.states.count a.entry.run.now b.entry.states.count b.entry.run.now sheet.entry.vectors sheet.entry.run.now result }
    ensures alike { AllEntries K.Kind.numbers a.entry.run.now → AllEntries K.Kind.numbers b.entry.run.now → result ≡ Ok tt → Alike K.Kind.numbers events.count a.entry.states.count a.entry.run.now b.entry.states.count b.entry.run.now sheet.entry.vectors sheet.entry.run.now }
    ensures theorem { KeptSheetWeighsEveryWordAlikeFromStarts K.Kind.numbers.exact }
{
    K::sums_of_entry_products_fit();
    let page = read_page(events, a.states, b.states, sheet)?;
    let states = a.states.count();
    let comparison = Comparison {
        a: Side {
            states,
            run: a.run,
            shift: 0,
        },
        b: Side {
            states: b.states.count(),
            run: b.run,
            shift: states,
        },
        page,
    };
    comparison.check_starts(a.run, b.run)?;
    comparison.check_steps_and_ends()
}

#[cfg(test)]
mod tests {
    use super::{Sheet, check_sheet};
    use kinds::best::Best;
    use kinds::fault::Fault;
    use std::test::Fail;
    use tables::shape::{Events, States, Table};

    // What is answered to a sheet of two vectors with a coefficient that the step rule fixes.
    fn answer_at(coefficient: i64) -> Result<(), Fault> {
        let one = Best(Some(0));
        let five = Best(Some(5));
        let none = Best(None);
        let other = Best(Some(coefficient));
        let a = Table {
            states: States::new(1)?,
            run: &[one, one, five],
        };
        let b = Table {
            states: States::new(2)?,
            run: &[one, one, one, one, five, none, none, Best(Some(7))],
        };
        let sheet = Sheet {
            vectors: 2,
            run: &[
                one, one, one, one, one, one, none, other, five, none, five, one, none,
            ],
        };
        check_sheet(Events::new(1)?, a, b, sheet)
    }

    #[test]
    fn a_kept_sheet_is_accepted(rt: HostRuntime) -> Result<(), Fail> {
        assert_eq!(rt; answer_at(7), Ok(()));
        Ok(())
    }

    #[test]
    fn a_broken_step_is_named(rt: HostRuntime) -> Result<(), Fail> {
        let answer = answer_at(6).map_err(|fault| (fault.refusal.number(), fault.place));
        assert_eq!(rt; answer, Err((14, 1)));
        Ok(())
    }
}
