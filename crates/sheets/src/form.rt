//! What a sheet is refused for by itself: its vectors, its count, its numbers and its scale.
ghost use Rattle.std.specs.Prelude.{◌+◌, MatchResult, ◌≡◌, None, Some};
ghost use Rattle.sheets.specs.Answer.{form_fault};
ghost use Rattle.sheets.specs.Promises.{AtScaleTest};
ghost use Rattle.sheets.specs.Views.{IsPage};

use crate::Sheet;
use crate::sides::Page;
use kinds::fault::{Fault, Refusal};
use kinds::kind::Kind;
use tables::entries::first_other;
use tables::shape::{Events, States};
use tables::weighing::number;

/// The most vectors of a sheet. They are asked once, so they have no type as events and states have.
const MOST_VECTORS: usize = 16;

/// The page of a sheet for tables with these states, or refusals 9, 10, 11 and 12.
pub(crate) fn read_page<'a, K: Kind>(
    events: Events,
    a: States,
    b: States,
    sheet: Sheet<'a, K>,
) -> Result<Page<'a, K>, Fault>
    ensures { AtScaleTest K.Kind.numbers events.count (a.count + b.count) sheet.entry.vectors sheet.entry.run.now (λ t. MatchResult result (λ page. IsPage page events.count (a.count + b.count) sheet.entry.vectors sheet.entry.run.now × (form_fault K.Kind.numbers events.count (a.count + b.count) sheet.entry.vectors sheet.entry.run.now t ≡ None)) (λ f. form_fault K.Kind.numbers events.count (a.count + b.count) sheet.entry.vectors sheet.entry.run.now t ≡ Some f)) }
{
    let events = events.count();
    let width = a.count() + b.count();
    let Sheet { vectors, run } = sheet;
    if vectors < 1 || vectors > MOST_VECTORS {
        return Err(Fault::of(Refusal::VectorCount));
    }
    let size = 1 + vectors * width + events * vectors * vectors + vectors;
    if run.len() != size {
        return Err(Fault::of(Refusal::SheetCount));
    }
    if let Some(place) = first_other(run) {
        return Err(Fault::at(Refusal::NotASheetEntry, place));
    }
    if number(run, 0).cancels() {
        Ok(Page {
            events,
            width,
            vectors,
            run,
        })
    } else {
        Err(Fault::of(Refusal::ScaleDoesNotCancel))
    }
}
