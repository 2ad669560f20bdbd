//! Theorems about the grammar of conditions and definitions (crate `grammar`) and about reading them. Each function ensures one.
#![tactic(auto)]

ghost use Rattle.derivations.specs.Accepted.{ConditionAccepted, DefinitionAccepted, OneReading};
ghost use Rattle.derivations.specs.Examples.{Examples};
ghost use Rattle.derivations.specs.Parts.{PartsRule};
ghost use Rattle.derivations.specs.Refused.{RefusedExactly};
ghost use Rattle.derivations.specs.StepsSoFar.{StepsSoFar};

/// A text is read without fault exactly when the grammar derives it, and as what it says.
pub fn conditions_derive()
    ensures { ConditionAccepted }
{}

/// The same for definitions.
pub fn definitions_derive()
    ensures { DefinitionAccepted }
{}

/// No signs have two readings.
pub fn one_reading()
    ensures { OneReading }
{}

/// A text is refused with a fault exactly when the fault is due.
pub fn refusals_due()
    ensures { RefusedExactly }
{}

/// The parts of a condition are the negs of its conj; a condition with an `or` at its top is one part.
pub fn parts_stand()
    ensures { PartsRule }
{}

/// Where reading a definition stops, the steps that it gives are the first of every definition that begins so.
pub fn steps_so_far()
    ensures { StepsSoFar }
{}

/// The worked examples.
pub fn examples_stand()
    ensures { Examples }
{}
