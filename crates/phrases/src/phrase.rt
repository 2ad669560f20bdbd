//! Conditions as they are written.
ghost use Rattle.std.specs.Prelude.{◌≡◌};
ghost use Rattle.grammar.specs.Phrases.{both, bracket, either, negated};
ghost use Rattle.conditions.specs.Building.{IsNot, IsBracket, IsAnd, IsOr};
ghost use Rattle.conditions.specs.declared.trees.Formula.{Formula};
ghost use Rattle.phrases.specs.Written.{ByWord, phrase};

use crate::constants::Constant;
use conditions::{Compared, Formula};

// A condition as it stands in a text, with each column by its word.
pub type Phrase<'a> = Formula<Compared<&'a [u8], Constant<'a>>>;

// What is made of phrases says what is made of what they say.
pub fn building_stands()
    ensures not { (k w : Formula ByWord) → IsNot k w → phrase w ≡ negated (phrase k) }
    ensures bracketed { (k w : Formula ByWord) → IsBracket k w → phrase w ≡ bracket (phrase k) }
    ensures and { (k l w : Formula ByWord) → IsAnd k l w → phrase w ≡ both (phrase k) (phrase l) }
    ensures or { (k l w : Formula ByWord) → IsOr k l w → phrase w ≡ either (phrase k) (phrase l) }
{}
