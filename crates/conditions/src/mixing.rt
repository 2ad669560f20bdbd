//! Conditions of two kinds in one list.
ghost use Rattle.either.specs.Either.{either};

use crate::interface::Condition;
use cells::Row;
use columns::ColumnSet;
use either::Either;

impl<A: Condition, B: Condition> Condition for Either<A, B> {
    ghost part = { either A.Condition.part B.Condition.part };

    fn reads(&self) -> ColumnSet {
        match self {
            Either::Left(a) => a.reads(),
            Either::Right(b) => b.reads(),
        }
    }

    fn admits(&self, row: &Row) -> bool {
        match self {
            Either::Left(a) => a.admits(row),
            Either::Right(b) => b.admits(row),
        }
    }
}
