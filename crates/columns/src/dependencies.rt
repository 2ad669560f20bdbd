//! Functional dependencies: closure, tree form and the order in which they are worked.
ghost use Rattle.std.specs.Prelude.{◌≡◌, ◌<◌, not, ◌&&◌, if◌then◌else◌, length, IfOk};
ghost use Rattle.model.specs.Values.{any, every};
ghost use Rattle.model.specs.ColumnSets.{same, union, within};
ghost use Rattle.model.specs.Closures.{grow, turns, closure};
ghost use Rattle.model.specs.TreeForm.{sets, leads_off, in_order, right_once, arranged, tree_form};
ghost use Rattle.columns.specs.Members.{members, dependency, dependencies, near, Leader};

use crate::set::ColumnSet;
use std::alloc::{AllocError, Global};

// Any two rows that agree on the left set agree on the right set.
#[derive(Clone, Copy, PartialEq, Eq, Debug)]
pub struct Dependency {
    pub left: ColumnSet,
    pub right: ColumnSet,
}

impl Dependency {
    // Whether the two have the same left and the same right set: the derived `==`, promised in the words of sets.
    pub fn is_same(&self, other: &Dependency) -> bool
        ensures { result ≡ (same (members self.now.left) (members other.now.left) && same (members self.now.right) (members other.now.right)) }
    {
        self == other
    }

    // The set, with the right set if it holds the left set.
    fn applied_to(&self, set: ColumnSet) -> ColumnSet
        ensures { members result ≡ (if within (members self.now.left) (members set) then union (members set) (members self.now.right) else members set) }
    {
        if self.left.is_within(&set) {
            set.union(&self.right)
        } else {
            set
        }
    }
}

// The set with the right set of each dependency whose left set it holds, from the last dependency to the first.
fn grow(deps: &[Dependency], set: ColumnSet) -> ColumnSet
    ensures { members result ≡ grow (dependencies deps.now) (members set) }
{
    deps.iter().rev().fold(set, |all, d| d.applied_to(all))
}

// The set after so many turns.
fn after_turns(deps: &[Dependency], count: usize, set: ColumnSet) -> ColumnSet
    ensures { members result ≡ turns count (dependencies deps.now) (members set) }
{
    (0..count).fold(set, |all, _| grow(deps, all))
}

// The least set that holds the given one and, with a whole left set, also its right set. As many turns as there are
// dependencies reach it.
pub fn closure(deps: &[Dependency], set: ColumnSet) -> ColumnSet
    ensures { members result ≡ closure (dependencies deps.now) (members set) }
{
    after_turns(deps, deps.len(), set)
}

// Whether some dependency has x for its right set.
fn has_right(deps: &[Dependency], x: &ColumnSet) -> bool
    ensures { result ≡ any (λ e. same (members x.now) e.right) (dependencies deps.now) }
{
    deps.iter().any(|e| x.is_same(&e.right))
}

// Whether no dependency has the left set of d for its right set.
fn leads_off(deps: &[Dependency], d: &Dependency) -> bool
    ensures { result ≡ leads_off (dependencies deps.now) (dependency d.now) }
{
    !has_right(deps, &d.left)
}

// The place of the first dependency that leads off, or else of the last.
fn leader(deps: &[Dependency]) -> usize
    requires { 0 < length deps.now }
    ensures within { result < length deps.now }
    ensures leads { Leader deps.now result }
{
    deps.iter()
        .position(|d| leads_off(deps, d))
        .unwrap_or(deps.len() - 1)
}

// The dependencies, each after the one whose right set is its left set.
pub fn in_order(heap: Global, deps: &[Dependency]) -> Result<Vec<Dependency>, AllocError>
    ensures { IfOk result (λ v. dependencies v.items ≡ in_order (dependencies deps.now)) }
{
    let mut rest = Vec::from_slice(heap, deps)?;
    let mut ordered = Vec::new(heap);
    while !rest.is_empty() {
        let at = leader(&rest);
        let first = rest.remove(at);
        ordered.push(first)?;
    }
    Ok(ordered)
}

// Whether each set of the dependencies is equal to or disjoint with x.
fn are_all_near(deps: &[Dependency], x: &ColumnSet) -> bool
    ensures { result ≡ every (near (members x.now)) (sets (dependencies deps.now)) }
{
    deps.iter()
        .all(|d| x.is_near(&d.left) && x.is_near(&d.right))
}

// Whether any two sets of the dependencies are equal or disjoint.
fn are_near(deps: &[Dependency]) -> bool
    ensures { result ≡ every (λ X. every (near X) (sets (dependencies deps.now))) (sets (dependencies deps.now)) }
{
    deps.iter().all(|d| are_all_near(deps, &d.left) && are_all_near(deps, &d.right))
}

// Whether no set is the right set of two dependencies.
fn are_rights_once(deps: &[Dependency]) -> bool
    ensures { result ≡ right_once (dependencies deps.now) }
{
    deps.iter()
        .enumerate()
        .all(|(i, d)| !has_right(&deps[i + 1..], &d.right))
}

// Whether no left set is the right set of its own or a later dependency.
fn is_arranged(deps: &[Dependency]) -> bool
    ensures { result ≡ arranged (dependencies deps.now) }
{
    deps.iter()
        .enumerate()
        .all(|(i, d)| leads_off(&deps[i..], d))
}

// Whether the dependencies have tree form: any two sets are equal or disjoint, no set is the right set of two
// dependencies, and following left to right never returns to a set.
pub fn has_tree_form(heap: Global, deps: &[Dependency]) -> Result<bool, AllocError>
    ensures { IfOk result (λ b. b ≡ tree_form (dependencies deps.now)) }
{
    let ordered = in_order(heap, deps)?;
    Ok(are_near(deps) && are_rights_once(deps) && is_arranged(&ordered))
}
