//! Reads a sheet from lines of csv, up to and with its record `season`: a league's, or one of
//! another kind by `SheetSoFar`.
//!
//!     line  ── fields ──>  record  ── sheet so far ──>  sheet so far, or the sheet, or a refusal
//!
//! What a record is stands in `specs/Fields.antt`; what an input gives, whatever sheet its records
//! make, in `specs/Readings.antt`; what each makes of a league's sheet so far, in
//! `specs/Records.antt`. Read them in this order.
#![tactic(auto)]

mod club_number;
mod draft;
mod fault;
mod fields;
mod laws;
mod name;
mod number;
mod plain_line;
mod progress;
mod reader;
mod record;

pub use club_number::club_named;
pub use draft::Draft;
pub use fault::{FieldsStop, ReadingStop, RecordStop, SheetFault, SheetStop};
pub use fields::{Fields, fields_of};
pub use laws::a_line_is_one_record;
pub use name::name_of;
pub use number::{number_within, number_written};
pub use progress::{Progress, SheetSoFar, so_far, take_content, take_record};
pub use reader::{read_records, read_sheet};
