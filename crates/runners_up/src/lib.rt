//! How a cup ends, put together from its groups.
//!
//! From an end of each group a joint finish of the cup is made at which a club qualifies, or at
//! which it misses; and a group is asked for an end that helps. The meaning is
//! `specs/inside/JointEnds.antt`, over the words of cup_sheet.
#![tactic(auto)]

mod any_end;
mod finding;
mod joint;
mod laws;
mod others;
mod place;
mod results;
mod side;
mod survey;

pub use any_end::any_ends;
pub use finding::{ClubFinding, OpenSide, SideRefutation};
pub use joint::{JointFinish, joint_finish};
pub use laws::{joint_ends_show, open_groups_leave_sides_open, refuted_sides_are_refuted};
pub use others::{GroupAsked, SpentQuestion, ask_group};
pub use place::{SideByPlace, side_by_place};
pub use results::have_results;
pub use side::{SideAtKey, side_at_key};
pub use survey::{EmptyGroup, FarSide, GroupSurvey, OpenGroup, survey_groups};
