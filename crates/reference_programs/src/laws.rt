//! The law of reaches: a function that does nothing, with the law as contract.

ghost use Rattle.reference_programs.specs.inside.Laws.{ClinchedByTheWorst, LostByTheBest};
ghost use Rattle.reference_programs.specs.inside.Laws.{BestShowsInside};
ghost use Rattle.reference_programs.specs.inside.Laws.{WorstShowsOutside};

/// The reach of a club decides its verdict for every line, and if both sides are possible it has a
/// finish that shows each.
pub fn reaches_decide()
    ensures clinched { ClinchedByTheWorst }
    ensures lost { LostByTheBest }
    ensures inside { BestShowsInside }
    ensures outside { WorstShowsOutside }
{}
