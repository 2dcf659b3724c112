// The fields of a line.
use super::command::NoCommand;
use filekind::Kind;
use routes::Method;

// The queue that a row is worked with.
#[derive(Clone, Copy)]
pub enum QueueName {
    Heap,
    Shelf,
}

// What is stored for the cost FAR.
const FAR: u64 = u64::MAX;

// What is stored for a missing predecessor.
const NO_STATION: u16 = u16::MAX;

// A station, or a number of stations or places.
pub fn count(field: &str) -> Result<u16, NoCommand> {
    Ok(digits(field)?.parse()?)
}

// A stored cost.
pub fn cost(field: &str) -> Result<u64, NoCommand> {
    match field {
        "far" => Ok(FAR),
        field => Ok(digits(field)?.parse()?),
    }
}

// A stored predecessor.
pub fn predecessor(field: &str) -> Result<u16, NoCommand> {
    match field {
        "-" => Ok(NO_STATION),
        field => count(field),
    }
}

// A kind.
pub fn kind(field: &str) -> Result<Kind, NoCommand> {
    match field {
        "sum" => Ok(Kind::Sum),
        "split" => Ok(Kind::Split),
        _ => Err(NoCommand::NotUnderstood),
    }
}

// A method.
pub fn method(field: &str) -> Result<Method, NoCommand> {
    match field {
        "plain" => Ok(Method::Plain),
        "reuse" => Ok(Method::Reuse),
        "prune" => Ok(Method::Prune),
        _ => Err(NoCommand::NotUnderstood),
    }
}

// A queue.
pub fn queue(field: &str) -> Result<QueueName, NoCommand> {
    match field {
        "heap" => Ok(QueueName::Heap),
        "shelf" => Ok(QueueName::Shelf),
        _ => Err(NoCommand::NotUnderstood),
    }
}

// A field that has digits alone; no sign, which a number that is parsed may have.
fn digits(field: &str) -> Result<&str, NoCommand> {
    if field.bytes().all(|byte| byte.is_ascii_digit()) {
        Ok(field)
    } else {
        Err(NoCommand::NotUnderstood)
    }
}
