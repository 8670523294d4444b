//! Zones worked by hand, in which the two orders of the criteria differ; the reason in one zone;
//! and drawn zones beside a plain program.

mod asked;
mod drawn;
mod leagues;
mod orders;
mod plain;
mod zones;
