// File kinds: what a plan file has of a cost kind, a kind byte, a word and a range of link costs.
// Rests on the cost kinds.
// Plan files, and the programs that read them, are written for any file kind.
#![tactic(auto)]

mod kind;
mod named;
mod range;

pub use kind::FileKind;
pub use named::{Kind, UnknownKind, bytes_name_one};
pub use range::LinkRange;
