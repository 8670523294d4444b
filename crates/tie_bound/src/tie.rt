//! The reason that rests on the sure order: if each match has one outcome, points and criteria put
//! too many rivals on the other side of the club, or a rival where the zone says that it is not.

ghost use Rattle.std.specs.Prelude.{◌≡◌, IsTrue, IfSome};
ghost use Rattle.std.specs.List.{list_any};
ghost use Rattle.league_core.specs.declared.zone.Reason.TheVariants.{Tie};
ghost use Rattle.league_core.specs.game.Sums.{has_club};
ghost use Rattle.league_core.specs.game.ClubSets.{clubs_in};
ghost use Rattle.league_core.specs.search.Zones.{rivals_of};
ghost use Rattle.league_core.specs.search.Options.{has_finish};
ghost use Rattle.league_core.specs.search.Reasons.{has_reason};
ghost use Rattle.tie_bound.specs.inside.Answers.{AreByPoints};
ghost use Rattle.tie_bound.specs.inside.Boxes.{have_one_outcome};
ghost use Rattle.tie_bound.specs.inside.Rivals.{AreRivalsIn, are_too_many_with, is_wrong_with};
ghost use Rattle.tie_bound.specs.inside.Rivals.{refutes_with, refutes_surely};

use crate::against::{answers_against, answers_on_points};
use crate::answer_sets::Answers;
use crate::apart::Apart;
use crate::outcomes::has_one_outcome;
use crate::rivals::Rivals;
use league_core::{Claim, Question};
use score_box::ZoneBox;

/// The question holds nowhere in the zone by points and criteria: the reason `Tie`. Nothing is
/// looked at if an outcome is open, and the criteria only if points alone leave it open.
pub fn tie_reason(zone_box: &ZoneBox, question: &Question) -> bool
    requires { IsTrue (has_finish zone_box.now.sheet zone_box.now.season zone_box.now.zone) }
    ensures { result
        ≡ has_reason zone_box.now.sheet zone_box.now.season question.now zone_box.now.zone Tie }
{
    has_one_outcome(zone_box) && is_refuted(zone_box, question)
}

fn is_refuted(zone_box: &ZoneBox, question: &Question) -> bool
    requires { IsTrue (have_one_outcome zone_box.now) }
    ensures { result ≡ refutes_surely zone_box.now question.now }
{
    let rivals = Rivals::of(zone_box, question.club);
    let points = answers_on_points(zone_box, question.club);
    match by_points(zone_box, question, &rivals, points) {
        Some(refuted) => refuted,
        None => by_criteria(zone_box, question, &rivals, points),
    }
}

// What points alone say: whether the question is refuted whoever the criteria put ahead, or not
// refuted at all.
fn by_points(
    zone_box: &ZoneBox,
    question: &Question,
    rivals: &Rivals,
    points: Answers,
) -> Option<bool>
    requires rivals { AreRivalsIn zone_box.now question.now.club rivals.now }
    requires points { AreByPoints zone_box.now question.now.club points }
    ensures { IfSome result (λ refuted. refuted ≡ refutes_surely zone_box.now question.now) }
{
    let clubs = zone_box.sheet().clubs.len() as u8;
    let apart = Apart::by(points);
    if refutes(zone_box, question, rivals, apart) {
        return Some(true);
    }
    if refutes(zone_box, question, rivals, apart.widened(clubs)) {
        return None;
    }
    Some(false)
}

fn by_criteria(zone_box: &ZoneBox, question: &Question, rivals: &Rivals, points: Answers) -> bool
    requires outcomes { IsTrue (have_one_outcome zone_box.now) }
    requires rivals { AreRivalsIn zone_box.now question.now.club rivals.now }
    requires points { AreByPoints zone_box.now question.now.club points }
    ensures { result ≡ refutes_surely zone_box.now question.now }
{
    let answers = answers_against(zone_box, points, rivals.all, question.club);
    refutes(zone_box, question, rivals, Apart::by(answers))
}

// Who is above and who is below refutes the question.
fn refutes(zone_box: &ZoneBox, question: &Question, rivals: &Rivals, apart: Apart) -> bool
    requires { AreRivalsIn zone_box.now question.now.club rivals.now }
    ensures { result ≡ refutes_with zone_box.now question.now (has_club (clubs_in apart.above))
        (has_club (clubs_in apart.below)) }
{
    are_too_many(zone_box, question, rivals, apart)
        || is_one_wrong(zone_box, question, rivals, apart)
}

// Too many rivals are marked, or stand, on the other side.
fn are_too_many(zone_box: &ZoneBox, question: &Question, rivals: &Rivals, apart: Apart) -> bool
    requires { AreRivalsIn zone_box.now question.now.club rivals.now }
    ensures { result ≡ are_too_many_with zone_box.now question.now
        (has_club (clubs_in apart.above)) (has_club (clubs_in apart.below)) }
{
    match question.claim {
        Claim::Inside => {
            let front = rivals.all.intersection(rivals.before.union(apart.above));
            question.line <= front.len()
        }
        Claim::Outside => {
            let back = rivals.all.intersection(rivals.after.union(apart.below));
            let clubs = zone_box.sheet().clubs.len() as u8;
            clubs.saturating_sub(question.line) <= back.len()
        }
    }
}

// A rival stands where the zone says that it does not.
fn is_one_wrong(zone_box: &ZoneBox, question: &Question, rivals: &Rivals, apart: Apart) -> bool
    requires { AreRivalsIn zone_box.now question.now.club rivals.now }
    ensures { result ≡ list_any (is_wrong_with zone_box.now (has_club (clubs_in apart.above))
        (has_club (clubs_in apart.below))) (rivals_of zone_box.now.sheet question.now.club) }
{
    let ahead = rivals.after.intersection(apart.above);
    let behind = rivals.before.intersection(apart.below);
    !rivals.all.intersection(ahead.union(behind)).is_empty()
}
