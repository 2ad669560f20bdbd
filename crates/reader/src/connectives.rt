//! Conditions, read by recursion: remaining depth and remaining text fall at each call.
ghost use Rattle.std.specs.Prelude.{◌∷◌};
ghost use Rattle.grammar.specs.Reading.{a_bracket, a_closing, a_condition, a_neg, a_not, an_op, complete, more_and};
ghost use Rattle.reader.specs.Parsing.{Onward, Reads};

use crate::parser::Parser;
use crate::terminals::{comparing, deeper, operand, word};
use cells::Refusal;
use conditions::{Compared, Formula};
use phrases::Phrase;
use signs::Keyword;

impl<'a> Parser<'a> {
    // What is left of a comparison behind its column.
    fn comparison(&mut self, column: &'a [u8]) -> Result<Phrase<'a>, Refusal>
        ensures onward { Onward self.old self.new }
        ensures said { Reads (λ K. an_op column.now ∷ K) self.old result self.new }
    {
        let comparison = self.next(comparing)?;
        let operand = self.next(operand)?;
        Ok(Formula::Atom(Compared {
            column,
            comparison,
            operand,
        }))
    }

    // not neg, or ( condition ), or a comparison
    #[cycle(bracketed_condition_conjunction_negated_negation)]
    fn negation(&mut self, depth: u8) -> Result<Phrase<'a>, Refusal>
        ensures onward { Onward self.old self.new }
        ensures said { Reads (λ K. a_neg depth ∷ K) self.old result self.new }
    {
        if let Some(place) = self.reader.take_key(Keyword::Not) {
            let depth = deeper(depth, place)?;
            return self.negated(depth);
        }
        if let Some(place) = self.reader.take_opening() {
            let depth = deeper(depth, place)?;
            return self.bracketed(depth);
        }
        let column = self.next(word)?;
        self.comparison(column)
    }

    // What a not stands over.
    #[cycle(bracketed_condition_conjunction_negated_negation)]
    fn negated(&mut self, depth: u8) -> Result<Phrase<'a>, Refusal>
        ensures onward { Onward self.old self.new }
        ensures said { Reads (λ K. a_neg depth ∷ complete a_not ∷ K) self.old result self.new }
    {
        let inner = self.negation(depth)?;
        Ok(Phrase::not(self.heap, inner)?)
    }

    // What stands in brackets, and the closing one.
    #[cycle(bracketed_condition_conjunction_negated_negation)]
    fn bracketed(&mut self, depth: u8) -> Result<Phrase<'a>, Refusal>
        ensures onward { Onward self.old self.new }
        ensures said { Reads (λ K. a_condition depth (a_closing ∷ complete a_bracket ∷ K)) self.old result self.new }
    {
        let inner = self.condition(depth)?;
        self.expect(|sign| sign.is_closing())?;
        Ok(Phrase::bracketed(self.heap, inner)?)
    }

    // neg { and neg }: a loop of its own, since part, key and constructor as parameters would be no plainer
    #[cycle(bracketed_condition_conjunction_negated_negation)]
    fn conjunction(&mut self, depth: u8) -> Result<Phrase<'a>, Refusal>
        ensures onward { Onward self.old self.new }
        ensures said { Reads (λ K. a_neg depth ∷ more_and depth ∷ K) self.old result self.new }
    {
        let mut left = self.negation(depth)?;
        while self.reader.take_key(Keyword::And).is_some() {
            let right = self.negation(depth)?;
            left = Phrase::and(self.heap, left, right)?;
        }
        Ok(left)
    }

    // conj { or conj }
    #[cycle(bracketed_condition_conjunction_negated_negation)]
    pub(crate) fn condition(&mut self, depth: u8) -> Result<Phrase<'a>, Refusal>
        ensures onward { Onward self.old self.new }
        ensures said { Reads (λ K. a_condition depth K) self.old result self.new }
    {
        let mut left = self.conjunction(depth)?;
        while self.reader.take_key(Keyword::Or).is_some() {
            let right = self.conjunction(depth)?;
            left = Phrase::or(self.heap, left, right)?;
        }
        Ok(left)
    }
}
