//! How a description is sealed, and what a sealed sort is asked.
ghost use Rattle.std.specs.Prelude.{◌≡◌, ◌≤◌, map, length};
ghost use Rattle.model.specs.Sorts.{admitted};
ghost use Rattle.cells.specs.Held.{tuple};
ghost use Rattle.columns.specs.Members.{dependencies};
ghost use Rattle.columns.specs.Named.{named_columns};
ghost use Rattle.sorts.specs.Described.{described};
ghost use Rattle.sorts.specs.Sealed.{narrowed, sealed, sort_of};

use crate::description::Description;
use crate::sort::Sort;
use cells::Row;
use columns::{Column, Dependency};
use conditions::admits_all;

impl Description {
    pub fn seal(self) -> Sort
        ensures { sort_of result ≡ sealed (described self) }
    {
        Sort { description: self }
    }
}

impl Sort {
    // The columns, of which there are at most eight.
    pub fn columns(&self) -> &[Column]
        ensures columns { named_columns result.now ≡ (sort_of self.now).columns }
        ensures few { length result.now ≤ 8 }
    {
        self.description.columns.as_slice()
    }

    // The dependencies, which count below the number of columns.
    pub fn deps(&self) -> &[Dependency]
        ensures { map (narrowed (length (sort_of self.now).columns)) (dependencies result.now) ≡ (sort_of self.now).deps }
    {
        self.description.deps.as_slice()
    }

    // Whether every part of the condition admits the row.
    pub fn admits(&self, row: &Row) -> bool
        ensures { result ≡ admitted (sort_of self.now).parts (tuple row.now) }
    {
        admits_all(&self.description.parts, row)
    }
}
