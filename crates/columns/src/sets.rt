//! What sets of columns have and how they compare.
ghost use Rattle.std.specs.Prelude.{◌≡◌, Bool, true, false, length, set, replicate, slice_set};
ghost use Rattle.model.specs.ColumnSets.{has, within, same, apart, non_empty, union};
ghost use Rattle.columns.specs.Members.{members, near};

use crate::set::ColumnSet;

impl ColumnSet {
    pub fn empty() -> ColumnSet
        ensures { members result ≡ replicate 8 false }
    {
        ColumnSet { places: [false; 8] }
    }

    // The set with the column at a place added; a place past the eighth adds nothing.
    pub fn with(self, place: usize) -> ColumnSet
        ensures { members result ≡ slice_set (members self) place true }
    {
        let mut places = self.places;
        if place < places.len() {
            places[place] = true;
        }
        ColumnSet { places }
    }

    // Whether the column at a place is in the set.
    pub fn has(&self, place: usize) -> bool
        ensures { result ≡ has (members self.now) place }
    {
        self.places.get(place).is_some_and(|is_in| *is_in)
    }

    // Whether some column is in the set.
    pub fn has_some(&self) -> bool
        ensures { result ≡ non_empty (members self.now) }
    {
        self.places.iter().any(|is_in| *is_in)
    }

    // Whether every column of this set is in the other.
    pub fn is_within(&self, other: &ColumnSet) -> bool
        ensures { result ≡ within (members self.now) (members other.now) }
    {
        self.places
            .iter()
            .zip(&other.places)
            .all(|(mine, theirs)| !*mine || *theirs)
    }

    // Whether the two sets have the same columns: the derived `==`, promised in the words of sets.
    pub fn is_same(&self, other: &ColumnSet) -> bool
        ensures { result ≡ same (members self.now) (members other.now) }
    {
        self == other
    }

    // Whether no column is in both sets.
    pub fn is_apart(&self, other: &ColumnSet) -> bool
        ensures { result ≡ apart (members self.now) (members other.now) }
    {
        self.places
            .iter()
            .zip(&other.places)
            .all(|(mine, theirs)| !(*mine && *theirs))
    }

    // Whether the two sets are equal or disjoint.
    pub(crate) fn is_near(&self, other: &ColumnSet) -> bool
        ensures { result ≡ near (members self.now) (members other.now) }
    {
        self.is_same(other) || self.is_apart(other)
    }

    // The columns of either set.
    pub fn union(&self, other: &ColumnSet) -> ColumnSet
        ensures { members result ≡ union (members self.now) (members other.now) }
    {
        let places = std::array::from_fn(|i| self.places[i] || other.places[i]);
        ColumnSet { places }
    }
}
