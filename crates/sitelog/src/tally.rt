// How many lines were answered, and how.
use super::reply::Reply;
use std::fmt;

// The numbers of answers.
#[derive(Clone, Copy)]
pub struct Tally {
    entries: u64,
    accepted: u64,
    refused: u64,
    not_understood: u64,
}

impl Tally {
    // None yet.
    pub fn new() -> Tally {
        Tally {
            entries: 0,
            accepted: 0,
            refused: 0,
            not_understood: 0,
        }
    }

    // Counts an answer. A log has not so many lines that a count could stop at its end.
    pub fn count<K>(&mut self, reply: &Reply<K>) {
        let of_its_sort = match reply {
            Reply::Refused(_) => &mut self.refused,
            Reply::NotUnderstood => &mut self.not_understood,
            _ => &mut self.accepted,
        };
        *of_its_sort = of_its_sort.saturating_add(1);
        self.entries = self.entries.saturating_add(1);
    }
}

impl fmt::Display for Tally {
    fn fmt<W: fmt::Write>(&self, f: &mut fmt::Formatter<W>) -> fmt::Result {
        let Tally {
            entries,
            accepted,
            refused,
            not_understood,
        } = *self;
        write!(
            f,
            "entries {entries}, accepted {accepted}, refused {refused}, not understood {not_understood}"
        )
    }
}
