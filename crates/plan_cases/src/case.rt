// Cases, as the lines of the table tell them.
use super::memory::Sizes;
use anyhow::{Result, bail};
use cost::Sum;
use replay::Entry;
use routes::Method;
use std::alloc::Global;

// What a line asks for.
#[derive(Drop)]
pub enum Case {
    Comment,
    Account { bytes: Vec<u8> },
    Report { bytes: Vec<u8> },
    Campuses { heap: bool },
    Plan { sizes: Sizes, steps: Vec<Step> },
    Memory { sizes: Sizes, steps: Vec<Step> },
}

// A call on the plan of a line.
#[derive(Drop)]
pub enum Step {
    Make { stations: u16 },
    Read { bytes: Vec<u8> },
    Write { room: usize },
    Replay(Log),
    Counts,
    Rows,
}

// Entries, and how many places there are for their answers and for their routes.
#[derive(Drop)]
pub struct Log {
    pub answers: usize,
    pub pool: usize,
    pub entries: Vec<Entry<'static, Sum>>,
}

// Cases by their lines.
impl Case {
    // The case that a line tells.
    pub fn parse(alloc: Global, line: &str) -> Result<Case> {
        let parts: Vec<&str> = line.split("; ").collect(alloc)?;
        let [head, steps @ ..] = parts.as_slice() else {
            bail!("no case");
        };
        let words: Vec<&str> = head.split(' ').collect(alloc)?;
        match words.as_slice() {
            ["#", ..] => Ok(Case::Comment),
            ["account", file] => Ok(Case::Account {
                bytes: hex::decode(alloc, *file)?,
            }),
            ["report", file] => Ok(Case::Report {
                bytes: hex::decode(alloc, *file)?,
            }),
            ["campuses", "shelf"] => Ok(Case::Campuses { heap: false }),
            ["campuses", "heap"] => Ok(Case::Campuses { heap: true }),
            ["plan", sizes @ ..] => Ok(Case::Plan {
                sizes: sizes_told(sizes)?,
                steps: steps_told(alloc, steps)?,
            }),
            ["memory", sizes @ ..] => Ok(Case::Memory {
                sizes: sizes_told(sizes)?,
                steps: steps_told(alloc, steps)?,
            }),
            _ => bail!("no case"),
        }
    }
}

// The sizes that words tell.
fn sizes_told(words: &[&str]) -> Result<Sizes> {
    match words {
        [places, costs, predecessors] => Ok(Sizes {
            places: places.parse()?,
            costs: costs.parse()?,
            predecessors: predecessors.parse()?,
        }),
        _ => bail!("no sizes"),
    }
}

// The steps that words tell.
fn steps_told(alloc: Global, texts: &[&str]) -> Result<Vec<Step>> {
    texts
        .iter()
        .map(|text| Step::parse(alloc, text))
        .try_collect(alloc)
}

// Steps by their words.
impl Step {
    // The step that words tell.
    fn parse(alloc: Global, text: &str) -> Result<Step> {
        let words: Vec<&str> = text.split(' ').collect(alloc)?;
        match words.as_slice() {
            ["make", stations] => Ok(Step::Make {
                stations: stations.parse()?,
            }),
            ["read", file] => Ok(Step::Read {
                bytes: hex::decode(alloc, *file)?,
            }),
            ["write", room] => Ok(Step::Write {
                room: room.parse()?,
            }),
            ["counts"] => Ok(Step::Counts),
            ["rows"] => Ok(Step::Rows),
            _ => Ok(Step::Replay(Log::parse(alloc, text)?)),
        }
    }
}

// Logs by their words.
impl Log {
    // The log that words tell.
    fn parse(alloc: Global, text: &str) -> Result<Log> {
        let parts: Vec<&str> = text.split(", ").collect(alloc)?;
        let [head, entries @ ..] = parts.as_slice() else {
            bail!("no step");
        };
        let words: Vec<&str> = head.split(' ').collect(alloc)?;
        match words.as_slice() {
            ["replay", answers, pool] => Ok(Log {
                answers: answers.parse()?,
                pool: pool.parse()?,
                entries: entries
                    .iter()
                    .map(|text| entry(alloc, text))
                    .try_collect(alloc)?,
            }),
            _ => bail!("no step: {text}"),
        }
    }
}

// The entry that words tell; a row that is tested has no place.
fn entry(alloc: Global, text: &str) -> Result<Entry<'static, Sum>> {
    let words: Vec<&str> = text.split(' ').collect(alloc)?;
    match words.as_slice() {
        ["lay", from, to, cost] => Ok(Entry::Lay {
            from: from.parse()?,
            to: to.parse()?,
            cost: Sum {
                picoseconds: cost.parse()?,
            },
        }),
        ["lift", from, to] => Ok(Entry::Lift {
            from: from.parse()?,
            to: to.parse()?,
        }),
        ["work", source, method] => Ok(Entry::Work {
            source: source.parse()?,
            method: method_named(method)?,
        }),
        words => question(words),
    }
}

// The entry that asks for a cost or a route, or has a row tested.
fn question(words: &[&str]) -> Result<Entry<'static, Sum>> {
    match words {
        ["cost", from, to] => Ok(Entry::Cost {
            from: from.parse()?,
            to: to.parse()?,
        }),
        ["route", from, to, places] => Ok(Entry::Route {
            from: from.parse()?,
            to: to.parse()?,
            places: places.parse()?,
        }),
        ["check", source] => Ok(Entry::Check {
            source: source.parse()?,
            costs: &[],
            predecessors: &[],
        }),
        _ => bail!("no entry"),
    }
}

// The method of a name.
fn method_named(name: &str) -> Result<Method> {
    match name {
        "plain" => Ok(Method::Plain),
        "reuse" => Ok(Method::Reuse),
        "prune" => Ok(Method::Prune),
        _ => bail!("no method: {name}"),
    }
}
