//! Opening a book by a line.
ghost use Rattle.std.specs.Prelude.{◌≡◌, Ok, Err, MatchResult};
ghost use Rattle.std.specs.Option.{option_map};
ghost use Rattle.serving.specs.Opening.{opened_by};

use kinds::fault::Fault;
use lines::openings::{KindName, read_opening};
use tables::shape::Events;

/// What is known of a book when it is opened.
// Beside `Opening` of the line, whose events are a number that nobody has judged.
#[derive(Clone, Copy)]
pub struct Opened {
    pub kind: KindName,
    pub events: Events,
}

/// The book that a line opens while none is open, or why it is refused.
pub fn open_by(line: Option<&[u8]>) -> Result<Opened, Fault>
    ensures { MatchResult result (λ o. opened_by (option_map (λ x. x.now) line.entry) ≡ Ok (o.kind, o.events.count)) (λ f. opened_by (option_map (λ x. x.now) line.entry) ≡ Err f) }
{
    let opening = read_opening(line)?;
    let events = Events::new(opening.events)?;
    Ok(Opened {
        kind: opening.kind,
        events,
    })
}
