// Answers, as a line goes on with them.
use super::commissioning::{Begun, Commissioning};
use cost::Cost;
use listing::CostWord;
use refusal::Refusal;
use std::fmt;

// The answer to a line.
#[derive(Drop)]
pub enum Reply<K> {
    Accepted,
    Begun(Begun),
    Written(usize),
    Taken(u16),
    Cost(CostWord<K>),
    Route(Vec<u16>),
    Passed,
    Table(String),
    Refused(Refusal),
    NotUnderstood,
}

impl<K> Reply<K> {
    // The reply to a commissioning that is accepted: to that of a file, with what it has.
    pub fn commissioned(commissioning: &Commissioning, begun: Begun) -> Reply<K> {
        match commissioning {
            Commissioning::Read { .. } => Reply::Begun(begun),
            _ => Reply::Accepted,
        }
    }
}

impl<K: Cost> fmt::Display for Reply<K> {
    fn fmt<W: fmt::Write>(&self, f: &mut fmt::Formatter<W>) -> fmt::Result {
        match self {
            Reply::Accepted | Reply::Table(_) => f.write_str("accepted"),
            Reply::Begun(Begun { word, counts }) => write!(f, "accepted {word} {counts}"),
            Reply::Written(bytes) => write!(f, "accepted {bytes}"),
            Reply::Taken(taken) => write!(f, "accepted, taken {taken}"),
            Reply::Cost(cost) => write!(f, "{cost}"),
            Reply::Route(stations) => write_stations(f, stations),
            Reply::Passed => f.write_str("passed"),
            Reply::Refused(refusal) => {
                let code = refusal.code();
                write!(f, "refused {code}")
            }
            Reply::NotUnderstood => f.write_str("not understood"),
        }
    }
}

// Stations, divided by blanks.
fn write_stations<W: fmt::Write>(f: &mut fmt::Formatter<W>, stations: &[u16]) -> fmt::Result {
    for (place, station) in stations.iter().enumerate() {
        if place > 0 {
            f.write_str(" ")?;
        }
        write!(f, "{station}")?;
    }
    Ok(())
}
