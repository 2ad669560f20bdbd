//! Formulas of comparisons, and written conditions, with each column by its place.
use crate::places::Place;
use cells::Cell;

// The signs = != < <= > >=.
#[derive(Clone, Copy, PartialEq, Eq, Debug)]
pub enum Comparison {
    Equal,
    Unequal,
    Less,
    AtMost,
    Greater,
    AtLeast,
}

// What a column is compared with: another column, or a value.
#[derive(Clone, Copy, Debug, Drop)]
pub enum Operand<C, V> {
    Column(C),
    Value(V),
}

// A comparison of a column, by its place or by its word.
#[derive(Clone, Copy, Debug, Drop)]
pub struct Compared<C, V> {
    pub column: C,
    pub comparison: Comparison,
    pub operand: Operand<C, V>,
}

// Atoms, and what not, brackets, and, or make of them.
#[derive(Debug, Drop)]
pub enum Formula<T> {
    Atom(T),
    Not(Box<Formula<T>>),
    Bracket(Box<Formula<T>>),
    And(Box<Formula<T>>, Box<Formula<T>>),
    Or(Box<Formula<T>>, Box<Formula<T>>),
}

// A condition as it is written.
pub type Written = Formula<Compared<Place, Cell>>;
