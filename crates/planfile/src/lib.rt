// Plan files: a plan's stations and links as bytes, both ways, in three layers: field, record and file.
// Rests on the file kinds, the cost kinds and the refusals.
// Accounts and tables are made of what it reads.
#![tactic(auto)]

mod counts;
mod field;
mod fields;
mod header;
mod pairs;
mod reading;
mod record;
mod worked;
mod writing;

pub use counts::Counts;
pub use fields::{Fields, links_have_fields};
pub use header::read_counts;
pub use reading::read;
pub use worked::worked_file;
pub use writing::write;
