//! Comparisons by word, settled against the columns of a table.
ghost use Rattle.std.specs.Prelude.{◌≡◌, IfErr, IfOk, None, Some, ◌≢◌};
ghost use Rattle.std.specs.Option.{option_map};
ghost use Rattle.model.specs.Sorts.{lookup};
ghost use Rattle.cells.specs.Answering.{Answers};
ghost use Rattle.cells.specs.Held.{kind_of as model_kind, value};
ghost use Rattle.cells.specs.declared.faults.Refusal.TheVariants.{Memory};
ghost use Rattle.conditions.specs.Found.{known_kind, known_place, in_scope, refused_in};
ghost use Rattle.conditions.specs.Meaning.{meaning, sign_of};
ghost use Rattle.conditions.specs.Resolving.{first_eight, kind_named, named, given, kinds_fault, comparison_fault, comparison as comparison_of};

use crate::picking::choosing::kind_of;
use crate::places::Place;
use crate::trees::{Compared, Comparison, Formula, Operand, Written};
use cells::{Cause, Cell, Kind, Refusal, refused};
use columns::{Column, place_of};

// The columns that words are looked for in, and the kind and the place that faults have there.
#[derive(Clone, Copy)]
pub struct Scope<'a> {
    pub columns: &'a [Column],
    pub kind: u8,
    pub place: usize,
}

// The place and the kind of a column that a word names.
#[derive(Clone, Copy)]
pub(crate) struct Known {
    pub(crate) place: Place,
    pub(crate) kind: Kind,
}

// The column with that word among the first eight.
fn find_column(columns: &[Column], word: &[u8]) -> Option<Known>
    ensures place { option_map known_place result ≡ lookup (first_eight columns.now) word.now }
    ensures kind { option_map known_kind result ≡ kind_named (first_eight columns.now) word.now }
{
    let at = place_of(columns, word)?;
    let place = Place::new(at)?;
    Some(Known {
        place,
        kind: columns[at].kind,
    })
}

// That these calls want no memory is a clause: an error of faults alone would need a second word for what refusals promise.
impl Scope<'_> {
    fn refused(&self, cause: Cause) -> Refusal
        ensures { result ≡ refused_in self.now cause }
    {
        refused(cause, self.kind, self.place)
    }

    pub(crate) fn find(&self, word: &[u8]) -> Result<Known, Refusal>
        ensures place { IfOk result (λ k. Some (known_place k) ≡ lookup (in_scope self.now) word.now) }
        ensures kind { IfOk result (λ k. Some (known_kind k) ≡ kind_named (in_scope self.now) word.now) }
        ensures none { IfErr result (λ e. None ≡ kind_named (in_scope self.now) word.now) }
        ensures refused { IfErr result (λ e. e ≡ refused_in self.now Cause.UnknownColumn) }
    {
        find_column(self.columns, word).ok_or(self.refused(Cause::UnknownColumn))
    }

    // The two sides of a comparison have to be of one kind.
    pub(crate) fn match_kinds(&self, left: Kind, right: Kind) -> Result<(), Refusal>
        ensures answers { Answers (kinds_fault self.now.kind self.now.place (Some (model_kind left)) (Some (model_kind right))) (λ u. Unit {0}) result }
        ensures decides { IfErr result (λ e. e ≢ Memory) }
    {
        if left != right {
            return Err(self.refused(Cause::UnlikeKinds));
        }
        Ok(())
    }
}

impl Written {
    // A column compared with another, both by their words.
    pub fn with_column(
        scope: Scope<'_>,
        word: &[u8],
        comparison: Comparison,
        other: &[u8],
    ) -> Result<Written, Refusal>
        ensures answers { Answers (comparison_fault scope.entry.kind scope.entry.place (in_scope scope.entry) word.now (named other.now)) (λ w. Some (meaning w) ≡ comparison_of (in_scope scope.entry) word.now (sign_of comparison) (named other.now)) result }
        ensures decides { IfErr result (λ e. e ≢ Memory) }
    {
        let left = scope.find(word)?;
        let right = scope.find(other)?;
        scope.match_kinds(left.kind, right.kind)?;
        Ok(Formula::Atom(Compared {
            column: left.place,
            comparison,
            operand: Operand::Column(right.place),
        }))
    }

    // A column by its word compared with a cell.
    pub fn with_cell(
        scope: Scope<'_>,
        word: &[u8],
        comparison: Comparison,
        cell: Cell,
    ) -> Result<Written, Refusal>
        ensures answers { Answers (comparison_fault scope.entry.kind scope.entry.place (in_scope scope.entry) word.now (given (value cell))) (λ w. Some (meaning w) ≡ comparison_of (in_scope scope.entry) word.now (sign_of comparison) (given (value cell))) result }
        ensures decides { IfErr result (λ e. e ≢ Memory) }
    {
        let left = scope.find(word)?;
        scope.match_kinds(left.kind, kind_of(&cell))?;
        Ok(Formula::Atom(Compared {
            column: left.place,
            comparison,
            operand: Operand::Value(cell),
        }))
    }
}
