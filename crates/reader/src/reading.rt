//! Whole texts, read as conditions and as definitions.
ghost use Rattle.std.specs.Prelude.{◌≡◌, [], ◌∷◌, IfOk};
ghost use Rattle.std.specs.Option.{option_map};
ghost use Rattle.cells.specs.Answering.{Answers};
ghost use Rattle.cells.specs.Numbered.{told};
ghost use Rattle.grammar.specs.Reading.{condition_fault, condition_trees, definition_fault, definition_steps, read_definition};
ghost use Rattle.phrases.specs.Written.{all_placed, phrase};
ghost use Rattle.reader.specs.Stepping.{Whole};

use crate::parser::Parser;
use cells::{Fault, Refusal};
use phrases::{Phrase, Placed};
use std::alloc::{AllocError, Global};

const DEEPEST: u8 = 8;

// The condition that a text is.
pub fn read_condition<'a>(heap: Global, text: &'a [u8]) -> Result<Phrase<'a>, Refusal>
    ensures { Answers (condition_fault text.now) (λ k. condition_trees text.now ≡ phrase k ∷ []) result }
{
    let mut parser = Parser::new(heap, text)?;
    let phrase = parser.condition(DEEPEST)?;
    parser.end()?;
    Ok(phrase)
}

// The steps of a definition that are complete, and the fault that stopped reading, if any.
#[derive(Drop)]
pub struct Definition<'a> {
    pub steps: Vec<Placed<'a>>,
    pub fault: Option<Fault>,
}

// A whole definition, step by step.
fn read_steps<'a>(heap: Global, text: &'a [u8], steps: &mut Vec<Placed<'a>>) -> Result<(), Refusal>
    ensures { Whole (read_definition text.now) (all_placed steps.old.items) (all_placed steps.new.items) result }
{
    let mut parser = Parser::new(heap, text)?;
    parser.definition(DEEPEST, steps)?;
    parser.end()
}

// The definition that a text is, as far as it can be read.
pub fn read_definition<'a>(heap: Global, text: &'a [u8]) -> Result<Definition<'a>, AllocError>
    ensures steps { IfOk result (λ d. all_placed d.steps.items ≡ definition_steps text.now) }
    ensures fault { IfOk result (λ d. option_map told d.fault ≡ definition_fault text.now) }
{
    let mut steps = Vec::new(heap);
    let fault = match read_steps(heap, text, &mut steps) {
        Ok(()) => None,
        Err(Refusal::Fault(fault)) => Some(fault),
        Err(Refusal::Memory) => return Err(AllocError),
    };
    Ok(Definition { steps, fault })
}
