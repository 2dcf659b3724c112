// Commands, as the lines of a site log tell them.
use super::fields;
use super::fields::QueueName;
use filekind::Kind;
use routes::Method;
use std::alloc::{AllocError, Global};
use std::num::ParseIntError;
use std::str::Utf8Error;

// What a line asks for.
#[derive(Drop)]
pub enum Command<'a> {
    Make {
        kind: Kind,
        stations: u16,
        places: u16,
    },
    Read {
        path: &'a str,
    },
    Write {
        path: &'a str,
    },
    Table {
        method: Method,
        queue: QueueName,
    },
    Call(Call),
}

// A call on a plan. Its costs are numbers, as they are stored.
#[derive(Drop)]
pub enum Call {
    Lay {
        from: u16,
        to: u16,
        cost: u64,
    },
    Lift {
        from: u16,
        to: u16,
    },
    Work {
        source: u16,
        method: Method,
        queue: QueueName,
    },
    Cost {
        from: u16,
        to: u16,
    },
    Route {
        from: u16,
        to: u16,
        places: Option<u16>,
    },
    Check {
        source: u16,
        costs: Vec<u64>,
        predecessors: Vec<u16>,
    },
}

// Why a line tells no command.
#[derive(Clone, Copy, Debug)]
pub enum NoCommand {
    NotUnderstood,
    OutOfMemory,
}

impl From<AllocError> for NoCommand {
    fn from(_: AllocError) -> NoCommand {
        NoCommand::OutOfMemory
    }
}

impl From<ParseIntError> for NoCommand {
    fn from(_: ParseIntError) -> NoCommand {
        NoCommand::NotUnderstood
    }
}

impl From<Utf8Error> for NoCommand {
    fn from(_: Utf8Error) -> NoCommand {
        NoCommand::NotUnderstood
    }
}

// Whether a line asks for nothing: a blank one, with no byte but white space of ASCII, or one that begins with the sign #.
pub fn asks_nothing(line: &[u8]) -> bool {
    line.starts_with(b"#") || line.trim_ascii().is_empty()
}

impl<'a> Command<'a> {
    // The command of a line, which has to be text in UTF-8.
    pub fn parse(alloc: Global, line: &'a [u8]) -> Result<Command<'a>, NoCommand> {
        let words: Vec<&str> = str::from_utf8(line)?.split(' ').collect(alloc)?;
        match words.as_slice() {
            ["make", kind, stations, places] => Ok(Command::Make {
                kind: fields::kind(kind)?,
                stations: fields::count(stations)?,
                places: fields::count(places)?,
            }),
            ["read", path] => Ok(Command::Read { path }),
            ["write", path] => Ok(Command::Write { path }),
            ["table", method, queue] => Ok(Command::Table {
                method: fields::method(method)?,
                queue: fields::queue(queue)?,
            }),
            words => Ok(Command::Call(Call::parse(alloc, words)?)),
        }
    }
}

impl Call {
    // The call that a line's fields tell.
    fn parse(alloc: Global, words: &[&str]) -> Result<Call, NoCommand> {
        match words {
            ["lay", from, to, cost] => Ok(Call::Lay {
                from: fields::count(from)?,
                to: fields::count(to)?,
                cost: fields::cost(cost)?,
            }),
            ["lift", from, to] => Ok(Call::Lift {
                from: fields::count(from)?,
                to: fields::count(to)?,
            }),
            ["work", source, method, queue] => Ok(Call::Work {
                source: fields::count(source)?,
                method: fields::method(method)?,
                queue: fields::queue(queue)?,
            }),
            ["check", source, cells @ ..] => Call::check(alloc, fields::count(source)?, cells),
            words => Call::question(words),
        }
    }

    // The call that asks for a cost or a route.
    fn question(words: &[&str]) -> Result<Call, NoCommand> {
        match words {
            ["cost", from, to] => Ok(Call::Cost {
                from: fields::count(from)?,
                to: fields::count(to)?,
            }),
            ["route", from, to] => Ok(Call::Route {
                from: fields::count(from)?,
                to: fields::count(to)?,
                places: None,
            }),
            ["route", from, to, places] => Ok(Call::Route {
                from: fields::count(from)?,
                to: fields::count(to)?,
                places: Some(fields::count(places)?),
            }),
            _ => Err(NoCommand::NotUnderstood),
        }
    }

    // The call that tests a row; each field tells a station's cost and predecessor.
    fn check(alloc: Global, source: u16, cells: &[&str]) -> Result<Call, NoCommand> {
        let mut costs = Vec::new(alloc);
        let mut predecessors = Vec::new(alloc);
        for cell in cells {
            let (cost, predecessor) = cell.split_once(':').ok_or(NoCommand::NotUnderstood)?;
            costs.push(fields::cost(cost)?).map_err(AllocError::from)?;
            predecessors
                .push(fields::predecessor(predecessor)?)
                .map_err(AllocError::from)?;
        }
        Ok(Call::Check {
            source,
            costs,
            predecessors,
        })
    }
}
