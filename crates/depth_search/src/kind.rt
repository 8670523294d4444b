//! A kind of question: what may be found in a zone, and what a search comes to.

ghost use Rattle.std.specs.Prelude.{◌≡◌, List, IfOk};
ghost use Rattle.league_core.specs.declared.zone.Literal.{Literal};
ghost use Rattle.league_core.specs.declared.zone.Test.{Test};
ghost use Rattle.depth_search.specs.inside.Searches.{FitHalves, IsFoundBy};

use league_core::{Literal, OutOfMemory, Test};

/// A node of a tree of cases. A tree is listed from its root on, the half where a test is true
/// before the other.
#[derive(Drop)]
pub enum CaseNode<R> {
    Split(Test),
    Refuted(R),
    Open,
}

/// What is found in a zone.
#[derive(Drop)]
pub enum ZoneLook<E, R> {
    /// An example of what is asked.
    Won(E),
    /// Why the zone has none.
    Refuted(R),
    /// A test that splits the zone.
    Split(Test),
}

/// What a search came to.
#[derive(Drop)]
pub enum SearchEnd<E, R> {
    Won(E),
    /// The nodes of a tree without an open leaf.
    Refuted(Vec<CaseNode<R>>),
    /// The nodes of a tree with as many splits and refuted leaves as the budget has units, and then
    /// an open leaf for each zone that was not looked at.
    Spent(Vec<CaseNode<R>>),
}

/// Finds an example, a reason or a split in a zone: one kind of question about one season, say.
pub trait Kind {
    type Reason: Drop;

    type Example: Drop;

    // What is asked, which no look changes.
    ghost Subject: { Type 0 };

    ghost subject: { Self → Subject };

    // In which zones it can look.
    ghost fits: { Subject → List Literal → Type 0 };

    // What an example shows; what a reason says of a zone; by which tests a zone may be split.
    ghost shows: { Subject → Self.Example → Type 0 };

    ghost refutes: { Subject → List Literal → Self.Reason → Type 0 };

    ghost splits: { Subject → List Literal → Test → Type 0 };

    /// Finds one of the three in a zone, after so many units. What it keeps for itself may change.
    fn look(
        &mut self,
        zone: &[Literal],
        spent: u32,
    ) -> Result<ZoneLook<Self::Example, Self::Reason>, OutOfMemory>
        requires { fits (subject self.old) zone.now }
        ensures found { IfOk result (IsFoundBy (shows (subject self.old))
            (refutes (subject self.old) zone.now) (splits (subject self.old) zone.now)) }
        ensures halves { IfOk result (FitHalves (fits (subject self.old)) zone.now) }
        ensures same { subject self.new ≡ subject self.old };
}
