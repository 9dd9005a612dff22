//! The law of uses: what is answered at any point of any use of a book is true of all words, and is never withdrawn.
ghost use Rattle.uses.specs.Law.{LawOfUses};

use kinds::kind::Kind;

/// At every point of every use, for every book of this kind: the book holds what was given, `Same` is answered exactly of linked tables, which weigh every word alike, `Different` exactly by the lowest part between the tables, whose word weighs differently in them, and no answer is ever withdrawn. Nothing runs.
pub fn law_of_uses<K: Kind>()
    ensures { LawOfUses K.Kind.numbers }
{}
