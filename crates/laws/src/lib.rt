//! The laws of relational lenses. Each function ensures a theorem of the subject's definitions (crate `model`), for every
//! total order of values.
#![tactic(auto)]

ghost use Rattle.laws.specs.Closures.{ArmstrongSound, ClosureDerives, ClosureIsLeast, TreeTest};
ghost use Rattle.laws.specs.Conditions.{ComparisonsExact, PartEqual, PartsWhole, PickExact, ReadsExact};
ghost use Rattle.laws.specs.Examples.{Examples, OneViewShown, ViewsShown};
ghost use Rattle.laws.specs.Faults.{FaultsExact, FaultsPassUp, JudgeDue, ShowExact};
ghost use Rattle.laws.specs.Layers.{AdmittedBelow, DropLawful, JoinLawful, RenameLawful, SelectLawful, StoredLawful};
ghost use Rattle.laws.specs.Opening.{OpeningExact};
ghost use Rattle.laws.specs.Orders.{ByBytesTotal, EqualityTest, RelationExact, RelationSame, RelationUnique, TuplesTotal};
ghost use Rattle.laws.specs.Promise.{EmptyBegins, EveryPoint, PromiseKept, Recording};
ghost use Rattle.laws.specs.Puts.{DropExact, JoinExact, PairsAscending, SelectExact};
ghost use Rattle.laws.specs.Revision.{RevisionCharacterised, RevisionUnique};
ghost use Rattle.laws.specs.Sorts.{LookupRight, MeetsTest, SetsTest};
ghost use Rattle.laws.specs.Views.{OneViewAlike, OneViewEquivalence, ViewsStand};

/// The order of the rules is total, and tuples are totally ordered where values are.
pub fn orders_stand()
    ensures { ByBytesTotal × TuplesTotal }
{}

/// The relation of some tuples is the one ascending relation with just these.
pub fn relations_stand()
    ensures { RelationExact × RelationUnique × RelationSame }
{}

/// The tests of equality, of column sets and of meeting a sort say what they test.
pub fn tests_stand()
    ensures { EqualityTest × SetsTest × MeetsTest }
{}

/// A column asked for by its word is answered by its place, or by none.
pub fn lookup_stands()
    ensures { LookupRight }
{}

/// The closure is the least closed set, and what Armstrong's axioms derive, which are sound.
pub fn closure_stands()
    ensures { ClosureIsLeast × ClosureDerives × ArmstrongSound }
{}

/// The test of tree form.
pub fn tree_form_stands()
    ensures { TreeTest }
{}

/// A written condition compares by the order, reads what it names and is its parts together; a pick admits what is picked.
pub fn conditions_stand()
    ensures { ComparisonsExact × ReadsExact × PartsWhole × PickExact × PartEqual }
{}

/// Revision is what it is said to be, whatever the order of work, and there is one such tuple.
pub fn revision_stands()
    ensures { RevisionCharacterised × RevisionUnique }
{}

/// A stored table is lawful.
pub fn stored_stands()
    ensures { StoredLawful }
{}

/// Select on a lawful table is lawful, and a put through it leaves exactly the rows that it is said to.
pub fn select_stands()
    ensures { SelectLawful × SelectExact }
{}

/// Drop on a lawful table is lawful, and a put through it leaves exactly the rows that it is said to.
pub fn drop_stands()
    ensures { DropLawful × DropExact }
{}

/// Rename on a lawful table is lawful.
pub fn rename_stands()
    ensures { RenameLawful }
{}

/// Join of lawful tables is lawful, and a put through it leaves exactly the rows that it is said to.
pub fn join_stands()
    ensures { JoinLawful × JoinExact × PairsAscending }
{}

/// Every view is lawful on its tables, and openings of one view are alike.
pub fn views_stand()
    ensures { ViewsStand × OneViewEquivalence × OneViewAlike }
{}

/// The fault judged is the one that is due, none is where rows and rooms are right, and a fault below passes up.
pub fn faults_stand()
    ensures { FaultsExact × JudgeDue × ShowExact × FaultsPassUp }
{}

/// A history whose every answer is the one due keeps the promise.
pub fn promise_stands()
    ensures { PromiseKept × EveryPoint × EmptyBegins × Recording }
{}

/// The worked examples, computed; views that they speak of; and openings that are of one view.
pub fn examples_stand()
    ensures { Examples × ViewsShown × OneViewShown }
{}

/// A layer opens exactly when its premises hold, and the limits.
pub fn opening_stands()
    ensures { OpeningExact }
{}

/// Whether a layer's sort admits a tuple can be asked of the sorts below.
pub fn layer_parts_stand()
    ensures { AdmittedBelow }
{}
