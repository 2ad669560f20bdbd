//! How a sort is described.
ghost use Rattle.std.specs.Prelude.{◌≡◌, [], OnErr};
ghost use Rattle.cells.specs.Answering.{Answers};
ghost use Rattle.model.specs.Conditions.{parts_of};
ghost use Rattle.model.specs.Orders.{by_bytes};
ghost use Rattle.model.specs.Values.{any};
ghost use Rattle.conditions.specs.Meaning.{meaning};
ghost use Rattle.columns.specs.Members.{members, dependency, dependencies};
ghost use Rattle.columns.specs.Named.{named_columns};
ghost use Rattle.sorts.specs.Describing.{column_fault, later_column_fault, with_column, unknown_fault, twice_fault, sizes_fault, named_set, same_dependency, form_fault, named_dependency, dependency_fault, with_dependency, parts_fault, with_parts};
ghost use Rattle.sorts.specs.Described.{described};
ghost use Rattle.sorts.specs.Offered.{words, offered_column};

use crate::description::Description;
use crate::ensuring::ensure;
use crate::offered::NewColumn;
use cells::{Cause, Refusal, Word};
use columns::{Column, ColumnSet, Dependency, has_tree_form, place_of};
use conditions::Written;
use std::alloc::Global;

// One column more: a ninth, or a word that is used already, is refused.
fn check_column(columns: &[Column], column: NewColumn) -> Result<(), Refusal>
    ensures { Answers (column_fault (named_columns columns.now) (offered_column column.entry)) (λ _. Unit {0}) result }
{
    ensure(columns.len() < 8, Cause::Limit)?;
    ensure(place_of(columns, column.word).is_none(), Cause::Repeated)
}

// Every word names a column.
fn check_known(columns: &[Column], names: &[&[u8]]) -> Result<(), Refusal>
    ensures { Answers (unknown_fault (named_columns columns.now) (words names.now)) (λ _. Unit {0}) result }
{
    let known = names.iter().all(|name| place_of(columns, name).is_some());
    ensure(known, Cause::UnknownColumn)
}

// No word stands twice.
fn check_once(names: &[&[u8]]) -> Result<(), Refusal>
    ensures { Answers (twice_fault (words names.now)) (λ _. Unit {0}) result }
{
    let once = names
        .iter()
        .enumerate()
        .all(|(i, name)| !names[i + 1..].contains(name));
    ensure(once, Cause::Repeated)
}

// Neither set is empty, and there are fewer than eight dependencies.
fn check_sizes(deps: &[Dependency], left: &[&[u8]], right: &[&[u8]]) -> Result<(), Refusal>
    ensures { Answers (sizes_fault (dependencies deps.now) (words left.now) (words right.now)) (λ _. Unit {0}) result }
{
    ensure(
        !left.is_empty() && !right.is_empty() && deps.len() < 8,
        Cause::Limit,
    )
}

// The set of the columns that the words name.
fn named_set(columns: &[Column], names: &[&[u8]]) -> ColumnSet
    ensures { members result ≡ named_set (named_columns columns.now) (words names.now) }
{
    names
        .iter()
        .filter_map(|name| place_of(columns, name))
        .fold(ColumnSet::empty(), ColumnSet::with)
}

fn is_repeated(deps: &[Dependency], d: &Dependency) -> bool
    ensures { result ≡ any (same_dependency (dependency d.now)) (dependencies deps.now) }
{
    deps.iter().any(|e| d.is_same(e))
}

// The dependency is a new one, and the list has tree form with it.
fn check_form(heap: Global, deps: &[Dependency], d: Dependency) -> Result<(), Refusal>
    ensures { Answers (form_fault (dependencies deps.now) (dependency d)) (λ _. Unit {0}) result }
{
    ensure(!is_repeated(deps, &d), Cause::NoTreeForm)?;
    let mut all = Vec::from_slice(heap, deps)?;
    all.push(d)?;
    ensure(has_tree_form(heap, &all)?, Cause::NoTreeForm)
}

impl Description {
    pub fn new(heap: Global) -> Description
        ensures { described result ≡ record { columns = []; deps = []; parts = [] } }
    {
        Description {
            columns: Vec::new(heap),
            deps: Vec::new(heap),
            parts: Vec::new(heap),
        }
    }

    // One column more.
    pub fn add_column(&mut self, heap: Global, column: NewColumn) -> Result<(), Refusal>
        ensures answers { Answers (later_column_fault (described self.old).columns (offered_column column.entry)) (λ _. described self.new ≡ with_column (described self.old) (offered_column column.entry)) result }
        ensures kept { OnErr result (described self.new ≡ described self.old) }
    {
        let word = Word::new(heap, column.word)?;
        check_column(&self.columns, column)?;
        let kind = column.kind;
        self.columns.push(Column { word, kind })?;
        Ok(())
    }

    // The dependency that the words name.
    fn dependency<'a>(
        &self,
        heap: Global,
        left: &[&'a [u8]],
        right: &[&'a [u8]],
    ) -> Result<Dependency, Refusal>
        ensures { Answers (dependency_fault (described self.now) (words left.now) (words right.now)) (λ d. dependency d ≡ named_dependency (described self.now).columns (words left.now) (words right.now)) result }
    {
        let mut all = Vec::from_slice(heap, left)?;
        all.extend_from_slice(right)?;
        check_known(&self.columns, &all)?;
        check_once(&all)?;
        check_sizes(&self.deps, left, right)?;
        let d = Dependency {
            left: named_set(&self.columns, left),
            right: named_set(&self.columns, right),
        };
        check_form(heap, &self.deps, d)?;
        Ok(d)
    }

    // One dependency more. Its two sides are names lent for the call: a struct of them would be taken apart at once.
    pub fn add_dependency<'a>(
        &mut self,
        heap: Global,
        left: &[&'a [u8]],
        right: &[&'a [u8]],
    ) -> Result<(), Refusal>
        ensures answers { Answers (dependency_fault (described self.old) (words left.now) (words right.now)) (λ _. described self.new ≡ with_dependency (described self.old) (named_dependency (described self.old).columns (words left.now) (words right.now))) result }
        ensures kept { OnErr result (described self.new ≡ described self.old) }
    {
        let d = self.dependency(heap, left, right)?;
        self.deps.push(d)?;
        Ok(())
    }

    // The parts of a condition more.
    pub fn add_condition(&mut self, heap: Global, condition: Written) -> Result<(), Refusal>
        ensures answers { Answers (parts_fault (described self.old) (parts_of by_bytes (meaning condition))) (λ _. described self.new ≡ with_parts (described self.old) (parts_of by_bytes (meaning condition))) result }
        ensures kept { OnErr result (described self.new ≡ described self.old) }
    {
        let mut parts = condition.into_parts(heap)?;
        let count = self.parts.len().saturating_add(parts.len());
        ensure(count <= 8, Cause::Limit)?;
        self.parts.append(&mut parts)?;
        Ok(())
    }
}
