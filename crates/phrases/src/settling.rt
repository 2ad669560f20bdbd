//! Constants as cells, and phrases settled against the columns of a table.
ghost use Rattle.std.specs.Prelude.{◌≡◌, IfOk, Some};
ghost use Rattle.cells.specs.Answering.{Answers};
ghost use Rattle.cells.specs.Held.{value};
ghost use Rattle.conditions.specs.Found.{in_scope};
ghost use Rattle.conditions.specs.Meaning.{meaning};
ghost use Rattle.phrases.specs.Settling.{phrase_fault, phrase_meaning};
ghost use Rattle.phrases.specs.Written.{compared, constant, phrase};

use crate::constants::Constant;
use crate::phrase::Phrase;
use cells::{Cell, Refusal};
use conditions::{Compared, Formula, Operand, Scope, Written};
use std::alloc::{AllocError, Global};

impl<'a> Constant<'a> {
    pub fn cell(self, heap: Global) -> Result<Cell, AllocError>
        ensures { IfOk result (λ c. value c ≡ constant self.entry) }
    {
        match self {
            Constant::Number(n) => Ok(Cell::Num(n)),
            Constant::Text(bytes) => Cell::from_bytes(heap, bytes),
        }
    }
}

fn settle_compared(
    heap: Global,
    said: Compared<&[u8], Constant<'_>>,
    scope: Scope<'_>,
) -> Result<Written, Refusal>
    ensures { Answers (phrase_fault scope.entry.kind scope.entry.place (in_scope scope.entry) (compared said.entry)) (λ w. Some (meaning w) ≡ phrase_meaning (in_scope scope.entry) (compared said.entry)) result }
{
    match said.operand {
        Operand::Column(other) => Written::with_column(scope, said.column, said.comparison, other),
        Operand::Value(constant) => {
            let cell = constant.cell(heap)?;
            Written::with_cell(scope, said.column, said.comparison, cell)
        }
    }
}

// The condition that a phrase means of the columns in scope.
pub fn settle(heap: Global, said: Phrase<'_>, scope: Scope<'_>) -> Result<Written, Refusal>
    ensures { Answers (phrase_fault scope.entry.kind scope.entry.place (in_scope scope.entry) (phrase said.entry)) (λ w. Some (meaning w) ≡ phrase_meaning (in_scope scope.entry) (phrase said.entry)) result }
{
    match said {
        Formula::Atom(compared) => settle_compared(heap, compared, scope),
        Formula::Not(inner) => {
            let inner = settle(heap, Box::into_inner(inner), scope)?;
            Ok(Written::not(heap, inner)?)
        }
        Formula::Bracket(inner) => {
            let inner = settle(heap, Box::into_inner(inner), scope)?;
            Ok(Written::bracketed(heap, inner)?)
        }
        Formula::And(left, right) => {
            let left = settle(heap, Box::into_inner(left), scope)?;
            let right = settle(heap, Box::into_inner(right), scope)?;
            Ok(Written::and(heap, left, right)?)
        }
        Formula::Or(left, right) => {
            let left = settle(heap, Box::into_inner(left), scope)?;
            let right = settle(heap, Box::into_inner(right), scope)?;
            Ok(Written::or(heap, left, right)?)
        }
    }
}
