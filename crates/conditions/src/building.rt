//! Formulas made from others, and written conditions taken apart into their parts.
ghost use Rattle.std.specs.Prelude.{◌≡◌, ◌++◌, map, IfOk, OnOk};
ghost use Rattle.model.specs.Conditions.{admits_row, both, bracket, either, negated, parts_of};
ghost use Rattle.model.specs.Orders.{by_bytes};
ghost use Rattle.model.specs.Sorts.{admitted};
ghost use Rattle.model.specs.Values.{Tuple};
ghost use Rattle.cells.specs.declared.values.Cell.{Cell};
ghost use Rattle.conditions.specs.Building.{IsNot, IsBracket, IsAnd, IsOr};
ghost use Rattle.conditions.specs.Meaning.{meaning, written_part};
ghost use Rattle.conditions.specs.declared.places.Place.{Place};
ghost use Rattle.conditions.specs.declared.trees.Compared.{Compared};
ghost use Rattle.conditions.specs.declared.trees.Formula.{Formula};

use crate::trees::{Formula, Written};
use std::alloc::{AllocError, Global};

impl<T: Drop> Formula<T> {
    pub fn not(heap: Global, inner: Formula<T>) -> Result<Formula<T>, AllocError>
        ensures { IfOk result (IsNot inner) }
    {
        Ok(Formula::Not(Box::new(heap, inner)?))
    }

    pub fn bracketed(heap: Global, inner: Formula<T>) -> Result<Formula<T>, AllocError>
        ensures { IfOk result (IsBracket inner) }
    {
        Ok(Formula::Bracket(Box::new(heap, inner)?))
    }

    pub fn and(heap: Global, left: Formula<T>, right: Formula<T>) -> Result<Formula<T>, AllocError>
        ensures { IfOk result (IsAnd left right) }
    {
        let left = Box::new(heap, left)?;
        let right = Box::new(heap, right)?;
        Ok(Formula::And(left, right))
    }

    pub fn or(heap: Global, left: Formula<T>, right: Formula<T>) -> Result<Formula<T>, AllocError>
        ensures { IfOk result (IsOr left right) }
    {
        let left = Box::new(heap, left)?;
        let right = Box::new(heap, right)?;
        Ok(Formula::Or(left, right))
    }
}

// What is made of written conditions means what is made of their meanings.
pub fn building_stands()
    ensures not { (k w : Formula (Compared Place Cell)) → IsNot k w → meaning w ≡ negated (meaning k) }
    ensures bracketed { (k w : Formula (Compared Place Cell)) → IsBracket k w → meaning w ≡ bracket (meaning k) }
    ensures and { (k l w : Formula (Compared Place Cell)) → IsAnd k l w → meaning w ≡ both (meaning k) (meaning l) }
    ensures or { (k l w : Formula (Compared Place Cell)) → IsOr k l w → meaning w ≡ either (meaning k) (meaning l) }
{}

impl Written {
    // The parts: the members of a conjunction, and anything else as it is. Together they admit what the condition admits.
    pub fn into_parts(self, heap: Global) -> Result<Vec<Written>, AllocError>
        ensures parts { IfOk result (λ v. map written_part v.items ≡ parts_of by_bytes (meaning self)) }
        ensures whole { IfOk result (λ v. (t : Tuple) → admitted (map written_part v.items) t ≡ admits_row by_bytes (meaning self) t) }
    {
        let mut parts = Vec::new(heap);
        self.add_parts(&mut parts)?;
        Ok(parts)
    }

    fn add_parts(self, parts: &mut Vec<Written>) -> Result<(), AllocError>
        ensures { OnOk result (map written_part parts.new.items ≡ map written_part parts.old.items ++ parts_of by_bytes (meaning self)) }
    {
        match self {
            Formula::And(left, right) => {
                Box::into_inner(left).add_parts(parts)?;
                Box::into_inner(right).add_parts(parts)
            }
            part => Ok(parts.push(part)?),
        }
    }
}
