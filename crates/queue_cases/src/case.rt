// Cases, as the lines of the table tell them.
use anyhow::{Context, Result, bail};
use std::alloc::Global;

// What a line asks for.
#[derive(Clone, Copy)]
pub enum Case {
    Comment,
    Call(Call),
}

// A call of a queue, or several at once.
#[derive(Clone, Copy)]
pub enum Call {
    Reset { stations: u16 },
    Put { station: u16, rank: u64 },
    Take,
    Waits { station: u16 },
    Taken,
    Drain { places: usize },
    Repeat { times: u32, station: u16, rank: u64 },
}

// Cases by their lines.
impl Case {
    // The case that a line tells.
    pub fn parse(alloc: Global, line: &str) -> Result<Case> {
        let words: Vec<&str> = line.split(' ').collect(alloc)?;
        match words.as_slice() {
            ["#", ..] => Ok(Case::Comment),
            words => {
                let call = Call::parse(words).context(format_args!("in the line {line}"))?;
                Ok(Case::Call(call))
            }
        }
    }
}

// Calls by their words.
impl Call {
    // The call that a line's words tell.
    fn parse(words: &[&str]) -> Result<Call> {
        match words {
            ["reset", stations] => Ok(Call::Reset {
                stations: stations.parse()?,
            }),
            ["put", station, rank] => Ok(Call::Put {
                station: station.parse()?,
                rank: rank.parse()?,
            }),
            ["take"] => Ok(Call::Take),
            ["waits", station] => Ok(Call::Waits {
                station: station.parse()?,
            }),
            ["taken"] => Ok(Call::Taken),
            ["drain", places] => Ok(Call::Drain {
                places: places.parse()?,
            }),
            ["repeat", times, station, rank] => Ok(Call::Repeat {
                times: times.parse()?,
                station: station.parse()?,
                rank: rank.parse()?,
            }),
            _ => bail!("no call of a queue"),
        }
    }
}
