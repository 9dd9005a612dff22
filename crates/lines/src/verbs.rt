//! The verb of a line.
ghost use Rattle.std.specs.Prelude.{◌≡◌, ℕ, List, Option};
ghost use Rattle.text.specs.Split.{left};
ghost use Rattle.lines.specs.Verbs.{verb_named, named_first, behind_verb};

use text::fields::Fields;

/// The first word of a line, which says what it asks for.
#[derive(Clone, Copy)]
pub enum Verb {
    Book,
    Table,
    Join,
    Weigh,
}

/// What a word of a line can name.
pub trait Named: Copy {
    /// What a word names, if it names one.
    ghost named: { List ℕ → Option Self };

    /// What a word names, if it names one.
    fn named_by(word: &[u8]) -> Option<Self>
        ensures { result ≡ named word.now };
}

impl Named for Verb {
    ghost named = { verb_named };

    fn named_by(word: &[u8]) -> Option<Verb> {
        match word {
            b"book" => Some(Verb::Book),
            b"table" => Some(Verb::Table),
            b"join" => Some(Verb::Join),
            b"weigh" => Some(Verb::Weigh),
            _ => None,
        }
    }
}

/// Takes the verb from a line's fields, if it is one that there is.
pub fn take_verb<V: Named>(fields: &mut Fields<'_>) -> Option<V>
    ensures value { result ≡ named_first V.named (left fields.old) }
    ensures after { left fields.new ≡ behind_verb (left fields.old) }
{
    V::named_by(fields.next_field()?)
}
