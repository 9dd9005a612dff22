//! The line that opens a book.
ghost use Rattle.std.specs.Prelude.{◌≡◌};
ghost use Rattle.std.specs.Option.{option_map};
ghost use Rattle.text.specs.Split.{left};
ghost use Rattle.lines.specs.Openings.{kind_named, book_of, opening_of};

use crate::verbs::{Named, Verb, take_verb};
use kinds::fault::{Fault, Refusal};
use text::fields::Fields;
use text::numbers::plain;

/// A kind of number, as a line names it.
#[derive(Clone, Copy)]
pub enum KindName {
    Count,
    Best,
}

/// What a line that opens a book asks for; the events are not judged yet.
#[derive(Clone, Copy)]
pub struct Opening {
    pub kind: KindName,
    pub events: usize,
}

impl Named for KindName {
    ghost named = { kind_named };

    fn named_by(word: &[u8]) -> Option<KindName> {
        match word {
            b"count" => Some(KindName::Count),
            b"best" => Some(KindName::Best),
            _ => None,
        }
    }
}

/// The fields of a book line behind its verb.
fn book(mut fields: Fields<'_>) -> Result<Opening, Fault>
    ensures { result ≡ book_of (left fields.entry) }
{
    let kind = fields.fixed_field()?;
    let events = fields.fixed_field()?;
    fields.end()?;
    let kind = KindName::named_by(kind).ok_or(Fault::at(Refusal::FieldForm, 2))?;
    let events = plain(events, 3)?;
    Ok(Opening { kind, events })
}

/// What a line asks for while no book is open; none is a line that lacks its line feed or is too long.
pub fn read_opening(line: Option<&[u8]>) -> Result<Opening, Fault>
    ensures { result ≡ opening_of (option_map (λ x. x.now) line.entry) }
{
    let Some(text) = line else {
        return Err(Fault::of(Refusal::LineBounds));
    };
    let mut fields = Fields::new(text);
    match take_verb(&mut fields) {
        Some(Verb::Book) => book(fields),
        Some(Verb::Table | Verb::Join | Verb::Weigh) | None => Err(Fault::of(
            Refusal::VerbNotServed,
        )),
    }
}
