//! Trees that outlive a run: saved texts, read and believed in nothing.
//!
//! What a saved text is stands in `specs/SavedTexts.antt`; what one that is read line by line
//! gives, in `specs/SavedReadings.antt`. Read them in this order.
#![tactic(auto)]

mod item;
mod laws;
mod reader;
mod rivals;
mod row;
mod saving;
mod so_far;
mod stop;
mod taken;
mod taking_up;
mod unspent_laws;

pub use item::{item_lines, item_row};
pub use laws::{
    nearly_refuted_questions_are_not_spent, saved_texts_are_read_back, written_texts_are_read_back,
};
pub use reader::read_saved;
pub use saving::put_saved;
pub use so_far::SavedSoFar;
pub use stop::SaveStop;
pub use taken::Taken;
pub use taking_up::take_up;
pub use unspent_laws::{
    nearly_saved_questions_are_not_shown_spent, nearly_saved_questions_stay_so,
    unspent_verdicts_are_items,
};
