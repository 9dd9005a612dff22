//! The rules of a sheet, tested row by row.
ghost use Rattle.std.specs.Prelude.{◌≡◌, ℕ, ◌*◌, ◌<◌, ◌≤◌, Ok};
ghost use Rattle.kinds.specs.Faults.{or_refused};
ghost use Rattle.tables.specs.Layout.{value};
ghost use Rattle.tables.specs.Entries.{AllEntries};
ghost use Rattle.sheets.specs.Rules.{start_sum, scaled_step, combined};
ghost use Rattle.sheets.specs.Tests.{step_row_kept, step_rows_kept, end_row_kept, end_rows_kept, start_kept, step_kept_at};
ghost use Rattle.sheets.specs.Answer.{starts_in, start_fault, step_fault, end_fault, step_and_end_fault};
ghost use Rattle.sheets.specs.Views.{Gives, Entered, BothEntered, StartsEntered, half_on, on_side, on_sides, on_starts};

use crate::firsts::first_failing;
use crate::sides::{Comparison, Page, Side};
use crate::sums::sum_of_products;
use kinds::fault::{Fault, Refusal};
use kinds::kind::Kind;
use tables::weighing::number;

// A row, an event and a vector are arguments, and which of them there are is asked where they are given; the premise on the
// numbers is said by `Entered`, in each promise that depends on them.
impl<'a, K: Kind> Side<'a, K> {
    /// The sum of starts × the numbers of a vector.
    fn sum_of_starts(&self, page: &Page<K>, starts: &[K], vector: usize) -> Result<K, Fault>
        requires { vector < page.now.vectors }
        ensures { AllEntries K.Kind.numbers starts.now → AllEntries K.Kind.numbers page.now.run.now → result ≡ Ok (K.Kind.numbers.write (start_sum K.Kind.numbers.exact (starts_in K.Kind.numbers starts.now) (half_on K.Kind.numbers page.now self.now) vector)) }
    {
        let (side, page) = (*self, *page);
        sum_of_products(
            side.states,
            |state| number(starts, state),
            |state| page.number(vector, side.shift + state),
        )
    }

    /// The scale × the steps of an event applied to a vector, in one row.
    fn scaled_step(
        &self,
        page: &Page<K>,
        event: usize,
        vector: usize,
        row: usize,
    ) -> Result<K, Fault>
        requires row { row < self.now.states }
        requires event { (1 ≤ event) × (event ≤ page.now.events) }
        requires vector { vector < page.now.vectors }
        ensures { Entered K.Kind.numbers page.now self.now → result ≡ Ok (K.Kind.numbers.write (on_side K.Kind.numbers (scaled_step K.Kind.numbers.exact) page.now self.now event vector row)) }
    {
        K::sums_of_entry_products_fit();
        let (side, page) = (*self, *page);
        let image = sum_of_products(
            side.states,
            |state| side.step(event, row, state),
            |state| page.number(vector, side.shift + state),
        )?;
        page.scale().multiply(image)
    }

    /// The sum over all vectors of coefficient × vector, in one row.
    fn combination<F: Fn(usize) -> K>(
        &self,
        page: &Page<K>,
        coefficient: F,
        row: usize,
    ) -> Result<K, Fault>
        requires row { row < self.now.states }
        requires coefficient { (p : ℕ) → p < page.now.vectors → F.pre coefficient p }
        ensures { (at : ℕ → ℕ) → Gives K.Kind.numbers (F.post coefficient) page.now.vectors page.now.run.now at → Entered K.Kind.numbers page.now self.now → result ≡ Ok (K.Kind.numbers.write (on_side K.Kind.numbers (combined K.Kind.numbers.exact) page.now self.now (λ q. value K.Kind.numbers page.now.run.now (at q)) row)) }
    {
        let (side, page) = (*self, *page);
        sum_of_products(
            page.vectors,
            coefficient,
            |vector| page.number(vector, side.shift + row),
        )
    }

    /// Whether the step rule holds in one row at an event and a vector.
    fn row_holds(
        &self,
        page: &Page<K>,
        event: usize,
        vector: usize,
        row: usize,
    ) -> Result<bool, Fault>
        requires row { row < self.now.states }
        requires event { (1 ≤ event) × (event ≤ page.now.events) }
        requires vector { vector < page.now.vectors }
        ensures { Entered K.Kind.numbers page.now self.now → result ≡ Ok (on_side K.Kind.numbers (step_row_kept K.Kind.numbers) page.now self.now event vector row) }
    {
        K::sums_of_entry_products_fit();
        let page = *page;
        let scaled = self.scaled_step(&page, event, vector, row)?;
        let mixed = self.combination(&page, |other| page.stepping(event, vector, other), row)?;
        Ok(scaled.equal(mixed))
    }

    /// Whether the step rule holds in each row at an event and a vector.
    fn rows_hold(&self, page: &Page<K>, event: usize, vector: usize) -> Result<bool, Fault>
        requires event { (1 ≤ event) × (event ≤ page.now.events) }
        requires vector { vector < page.now.vectors }
        ensures { Entered K.Kind.numbers page.now self.now → result ≡ Ok (on_side K.Kind.numbers (step_rows_kept K.Kind.numbers) page.now self.now event vector) }
    {
        let failing = first_failing(self.states, |row| self.row_holds(page, event, vector, row))?;
        Ok(failing.is_none())
    }

    /// Whether the end rule holds in one row.
    fn end_holds(&self, page: &Page<K>, row: usize) -> Result<bool, Fault>
        requires { row < self.now.states }
        ensures { Entered K.Kind.numbers page.now self.now → result ≡ Ok (on_side K.Kind.numbers (end_row_kept K.Kind.numbers) page.now self.now row) }
    {
        K::sums_of_entry_products_fit();
        let scaled = page.scale().multiply(self.end(row))?;
        let mixed = self.combination(page, |other| page.ending(other), row)?;
        Ok(scaled.equal(mixed))
    }

    /// Whether the end rule holds in each row.
    fn ends_hold(&self, page: &Page<K>) -> Result<bool, Fault>
        ensures { Entered K.Kind.numbers page.now self.now → result ≡ Ok (on_side K.Kind.numbers (end_rows_kept K.Kind.numbers) page.now self.now) }
    {
        let failing = first_failing(self.states, |row| self.end_holds(page, row))?;
        Ok(failing.is_none())
    }
}

impl<'a, K: Kind> Comparison<'a, K> {
    /// Whether the start rule holds at a vector for two rows of starts.
    fn start_holds(&self, a_starts: &[K], b_starts: &[K], vector: usize) -> Result<bool, Fault>
        requires { vector < self.now.page.vectors }
        ensures { StartsEntered K.Kind.numbers self.now.page a_starts.now b_starts.now → result ≡ Ok (on_starts K.Kind.numbers (start_kept K.Kind.numbers) self.now a_starts.now b_starts.now vector) }
    {
        K::sums_of_entry_products_fit();
        let left = self.a.sum_of_starts(&self.page, a_starts, vector)?;
        let right = self.b.sum_of_starts(&self.page, b_starts, vector)?;
        Ok(left.equal(right))
    }

    /// Whether the step rule holds at a place: (event - 1) × vectors + vector.
    fn step_holds(&self, place: usize) -> Result<bool, Fault>
        requires { place < self.now.page.events * self.now.page.vectors }
        ensures { BothEntered K.Kind.numbers self.now → result ≡ Ok (on_sides K.Kind.numbers (step_kept_at K.Kind.numbers) self.now place) }
    {
        let event = place / self.page.vectors + 1;
        let vector = place % self.page.vectors;
        if !self.a.rows_hold(&self.page, event, vector)? {
            return Ok(false);
        }
        self.b.rows_hold(&self.page, event, vector)
    }

    /// Refusal 13 at the first vector where the start rule fails for two rows of starts; a table's stand first in its run.
    // The starts are passed, though they are the tables' own: the rule and the theorem are about any two rows of starts.
    pub(crate) fn check_starts(&self, a_starts: &[K], b_starts: &[K]) -> Result<(), Fault>
        ensures { StartsEntered K.Kind.numbers self.now.page a_starts.now b_starts.now → result ≡ or_refused (on_starts K.Kind.numbers (start_fault K.Kind.numbers) self.now a_starts.now b_starts.now) tt }
    {
        let holds = |vector| self.start_holds(a_starts, b_starts, vector);
        match first_failing(self.page.vectors, holds)? {
            Some(place) => Err(Fault::at(Refusal::StartRuleFails, place)),
            None => Ok(()),
        }
    }

    /// Refusal 14 at the first event and vector where the step rule fails.
    fn check_steps(&self) -> Result<(), Fault>
        ensures { BothEntered K.Kind.numbers self.now → result ≡ or_refused (on_sides K.Kind.numbers (step_fault K.Kind.numbers) self.now self.now.page.events) tt }
    {
        let places = self.page.events * self.page.vectors;
        match first_failing(places, |place| self.step_holds(place))? {
            Some(place) => Err(Fault::at(Refusal::StepRuleFails, place)),
            None => Ok(()),
        }
    }

    /// Refusal 15 where the end rule fails.
    fn check_ends(&self) -> Result<(), Fault>
        ensures { BothEntered K.Kind.numbers self.now → result ≡ or_refused (on_sides K.Kind.numbers (end_fault K.Kind.numbers) self.now) tt }
    {
        if self.a.ends_hold(&self.page)? && self.b.ends_hold(&self.page)? {
            Ok(())
        } else {
            Err(Fault::of(Refusal::EndRuleFails))
        }
    }

    /// Refusals 14 and 15.
    pub(crate) fn check_steps_and_ends(&self) -> Result<(), Fault>
        ensures { BothEntered K.Kind.numbers self.now → result ≡ or_refused (on_sides K.Kind.numbers (step_and_end_fault K.Kind.numbers) self.now self.now.page.events) tt }
    {
        self.check_steps()?;
        self.check_ends()
    }
}
