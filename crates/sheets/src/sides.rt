//! What the check of a sheet holds, and what stands where in it. States and vectors are counted from 0, events from 1.
ghost use Rattle.std.specs.Prelude.{◌≡◌, ◌+◌, ◌<◌, ◌≤◌};
ghost use Rattle.tables.specs.Shape.{most_events, most_states};
ghost use Rattle.tables.specs.Layout.{end_at, step_at, number_at};
ghost use Rattle.sheets.specs.Layout.{most_vectors, most_width, scale_at, vector_at, stepping_at, ending_at};

use kinds::kind::Kind;
use std::alloc::AllocError;
use tables::weighing::number;

/// A table's run, and how many numbers stand before this table's in a vector of the sheet.
// Its states as a number, and no `Table`: every place in a run is computed from that number.
pub(crate) struct Side<'a, K> {
    pub(crate) states: usize,
    pub(crate) run: &'a [K],
    pub(crate) shift: usize,
    ghost few: { states ≤ most_states },
    ghost near: { shift ≤ most_states },
}

/// A sheet's run, for so many events, with so many vectors of so many numbers.
pub(crate) struct Page<'a, K> {
    pub(crate) events: usize,
    pub(crate) width: usize,
    pub(crate) vectors: usize,
    pub(crate) run: &'a [K],
    ghost few_events: { events ≤ most_events },
    ghost narrow: { width ≤ most_width },
    ghost few: { vectors ≤ most_vectors },
}

/// Two tables' sides of a sheet, and its page.
#[derive(Drop)]
pub(crate) struct Comparison<'a, K> {
    pub(crate) a: Side<'a, K>,
    pub(crate) b: Side<'a, K>,
    pub(crate) page: Page<'a, K>,
}

// Sides and pages are copied, so that a sum reads them once and not at each of its turns. By hand, since `Clone` is not
// derived where a field is ghost and the numbers' type is a parameter.
impl<'a, K> Clone for Side<'a, K> {
    fn clone(&self) -> Result<Side<'a, K>, AllocError> {
        Ok(*self)
    }
}

impl<'a, K> Copy for Side<'a, K> {}

impl<'a, K> Clone for Page<'a, K> {
    fn clone(&self) -> Result<Page<'a, K>, AllocError> {
        Ok(*self)
    }
}

impl<'a, K> Copy for Page<'a, K> {}

impl<'a, K: Kind> Side<'a, K> {
    /// The end of a state.
    pub(crate) fn end(&self, state: usize) -> K
        requires { state < self.now.states }
        ensures { result ≡ number_at K.Kind.numbers self.now.run.now (end_at self.now.states state) }
    {
        number(self.run, self.states + state)
    }

    /// The step of an event from one state to another.
    pub(crate) fn step(&self, event: usize, from: usize, to: usize) -> K
        requires event { (1 ≤ event) × (event ≤ most_events) }
        requires states { (from < self.now.states) × (to < self.now.states) }
        ensures { result ≡ number_at K.Kind.numbers self.now.run.now (step_at self.now.states event from to) }
    {
        let n = self.states;
        number(self.run, 2 * n + (event - 1) * n * n + from * n + to)
    }
}

impl<'a, K: Kind> Page<'a, K> {
    /// The scale.
    pub(crate) fn scale(&self) -> K
        ensures { result ≡ number_at K.Kind.numbers self.now.run.now scale_at }
    {
        number(self.run, 0)
    }

    /// The number of a vector at a place.
    pub(crate) fn number(&self, vector: usize, place: usize) -> K
        requires { (vector < self.now.vectors) × (place ≤ most_width) }
        ensures { result ≡ number_at K.Kind.numbers self.now.run.now (vector_at self.now.width vector place) }
    {
        number(self.run, 1 + vector * self.width + place)
    }

    /// The step coefficient of an event and a vector for another.
    pub(crate) fn stepping(&self, event: usize, vector: usize, other: usize) -> K
        requires event { (1 ≤ event) × (event ≤ self.now.events) }
        requires vectors { (vector < self.now.vectors) × (other < self.now.vectors) }
        ensures { result ≡ number_at K.Kind.numbers self.now.run.now (stepping_at self.now.width self.now.vectors event vector other) }
    {
        let count = self.vectors;
        let before = 1 + count * self.width + (event - 1) * count * count;
        number(self.run, before + vector * count + other)
    }

    /// The end coefficient for a vector.
    pub(crate) fn ending(&self, vector: usize) -> K
        requires { vector < self.now.vectors }
        ensures { result ≡ number_at K.Kind.numbers self.now.run.now (ending_at self.now.width self.now.vectors self.now.events vector) }
    {
        let count = self.vectors;
        number(
            self.run,
            1 + count * self.width + self.events * count * count + vector,
        )
    }
}
