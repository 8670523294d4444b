//! The laws of qualification scores: functions that do nothing.

ghost use Rattle.qual_scores.specs.inside.ScoreLaws.{PossibleScoresAreThere};
ghost use Rattle.qual_scores.specs.inside.ScoreLaws.{GuaranteedScoresAreThere, HalvingIsByTheScore};
ghost use Rattle.qual_scores.specs.inside.ScoreLaws.{EachSeasonHasScores};

/// Each club has its two scores for each line, and ranges on the way to a score are halved by it.
pub fn scores_are_there()
    ensures possible { PossibleScoresAreThere }
    ensures guaranteed { GuaranteedScoresAreThere }
    ensures halving { HalvingIsByTheScore }
{}

/// Each season has the scores of each line and club.
pub fn each_season_has_scores()
    ensures { EachSeasonHasScores }
{}
