//! Definitions, read by recursion: remaining depth and remaining text fall at each call.
ghost use Rattle.std.specs.Prelude.{◌<◌, ◌∷◌, IfOk, IfSome};
ghost use Rattle.grammar.specs.Reading.{a_closing, a_condition, a_definition, a_select, a_source, complete, drop_column, rename_column};
ghost use Rattle.phrases.specs.Written.{all_placed};
ghost use Rattle.reader.specs.Parsing.{Builds, Continues, Onward, ReadsStep};

use crate::parser::Parser;
use crate::terminals::{constant, deeper, table, word};
use cells::Refusal;
use phrases::{Placed, Step};
use signs::Keyword;

impl<'a> Parser<'a> {
    // What follows a select.
    fn selected(&mut self, depth: u8) -> Result<Step<'a>, Refusal>
        ensures onward { Onward self.old self.new }
        ensures said { ReadsStep (λ p K. a_condition depth (complete (a_select p) ∷ K)) self.old result self.new }
    {
        let phrase = self.condition(depth)?;
        Ok(Step::Select(phrase))
    }

    // What follows a drop.
    fn dropped(&mut self) -> Result<Step<'a>, Refusal>
        ensures onward { Onward self.old self.new }
        ensures said { ReadsStep (λ p K. drop_column p ∷ K) self.old result self.new }
    {
        let column = self.next(word)?;
        self.expect(|sign| sign.is_key(Keyword::Default))?;
        let value = self.next(constant)?;
        Ok(Step::Drop(column, value))
    }

    // What follows a rename.
    fn renamed(&mut self) -> Result<Step<'a>, Refusal>
        ensures onward { Onward self.old self.new }
        ensures said { ReadsStep (λ p K. rename_column p ∷ K) self.old result self.new }
    {
        let column = self.next(word)?;
        self.expect(|sign| sign.is_key(Keyword::As))?;
        let new = self.next(word)?;
        Ok(Step::Rename(column, new))
    }

    // A table, or a definition in brackets.
    #[cycle(definition_nested_source_step)]
    fn source(&mut self, depth: u8, steps: &mut Vec<Placed<'a>>) -> Result<(), Refusal>
        ensures onward { Onward self.old self.new }
        ensures built { Builds (λ K. a_source depth ∷ K) self.old (all_placed steps.old.items) (all_placed steps.new.items) result self.new }
    {
        if let Some(place) = self.reader.take_opening() {
            let depth = deeper(depth, place)?;
            return self.nested(depth, steps);
        }
        let (place, table) = self.next(table)?;
        steps.push(Placed {
            step: Step::Source(table),
            place,
        })?;
        Ok(())
    }

    // What stands in brackets, and the closing one.
    #[cycle(definition_nested_source_step)]
    fn nested(&mut self, depth: u8, steps: &mut Vec<Placed<'a>>) -> Result<(), Refusal>
        ensures onward { Onward self.old self.new }
        ensures built { Builds (λ K. a_definition depth (a_closing ∷ K)) self.old (all_placed steps.old.items) (all_placed steps.new.items) result self.new }
    {
        self.definition(depth, steps)?;
        self.expect(|sign| sign.is_closing())
    }

    // source { step }
    #[cycle(definition_nested_source_step)]
    pub(crate) fn definition(
        &mut self,
        depth: u8,
        steps: &mut Vec<Placed<'a>>,
    ) -> Result<(), Refusal>
        ensures onward { Onward self.old self.new }
        ensures built { Builds (λ K. a_definition depth K) self.old (all_placed steps.old.items) (all_placed steps.new.items) result self.new }
    {
        self.source(depth, steps)?;
        while let Some(placed) = self.step(depth, steps)? {
            steps.push(placed)?;
        }
        Ok(())
    }

    // A further step, if there is one. The steps of what a join takes come before it.
    #[cycle(definition_nested_source_step)]
    fn step(
        &mut self,
        depth: u8,
        steps: &mut Vec<Placed<'a>>,
    ) -> Result<Option<Placed<'a>>, Refusal>
        ensures onward { Onward self.old self.new }
        ensures passed { IfOk result (λ o. IfSome o (λ _. self.old.reader.at < self.new.reader.at)) }
        ensures further { Continues depth self.old (all_placed steps.old.items) (all_placed steps.new.items) result self.new }
    {
        if let Some(place) = self.reader.take_key(Keyword::Join) {
            self.source(depth, steps)?;
            return Ok(Some(Placed {
                step: Step::Join,
                place,
            }));
        }
        if let Some(place) = self.reader.take_key(Keyword::Select) {
            let step = self.selected(depth)?;
            return Ok(Some(Placed { step, place }));
        }
        if let Some(place) = self.reader.take_key(Keyword::Drop) {
            let step = self.dropped()?;
            return Ok(Some(Placed { step, place }));
        }
        if let Some(place) = self.reader.take_key(Keyword::Rename) {
            let step = self.renamed()?;
            return Ok(Some(Placed { step, place }));
        }
        Ok(None)
    }
}
