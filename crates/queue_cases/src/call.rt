// Calls of a queue, and what they answer.
use super::case::Call;
use queue::{Queue, drain};
use refusal::Refusal;
use std::alloc::{AllocError, Global};
use std::fmt::Display;

// What fills a list before stations are written to it; no station has this number.
const OLD: u16 = 9999;

// Makes a call of the queue, and tells its answer.
pub fn answer<Q: Queue>(alloc: Global, queue: &mut Q, call: Call) -> Result<String, AllocError> {
    match call {
        Call::Reset { stations } => done(alloc, queue.reset(stations)),
        Call::Put { station, rank } => done(alloc, queue.put(station, rank)),
        Call::Take => station_or_none(alloc, queue.take()),
        Call::Waits { station } => told(alloc, queue.waits(station)),
        Call::Taken => queue.taken().to_string(alloc),
        Call::Drain { places } => drained(alloc, queue, places),
        Call::Repeat {
            times,
            station,
            rank,
        } => told(alloc, repeated(queue, times, station, rank)),
    }
}

// The text of a value, or of the refusal that stands in its place.
fn told<T: Display + Drop>(alloc: Global, value: Result<T, Refusal>) -> Result<String, AllocError> {
    match value {
        Ok(value) => value.to_string(alloc),
        Err(refusal) => {
            let code = refusal.code();
            format!(in alloc; "refused {code}")
        }
    }
}

// The text of a call that answers no value.
fn done(alloc: Global, value: Result<(), Refusal>) -> Result<String, AllocError> {
    told(alloc, value.map(|()| "ok"))
}

// The text of a station that was taken.
fn station_or_none(alloc: Global, station: Option<u16>) -> Result<String, AllocError> {
    match station {
        Some(station) => station.to_string(alloc),
        None => String::from_str(alloc, "none"),
    }
}

// Drains the queue into a list of so many places, and tells how many were taken and what the list then holds.
fn drained<Q: Queue>(alloc: Global, queue: &mut Q, places: usize) -> Result<String, AllocError> {
    let mut list = vec![in alloc; OLD; places]?;
    let mut text = drain(queue, &mut list).to_string(alloc)?;
    for station in &list {
        write!(text, " {station}")?;
    }
    Ok(text)
}

// Puts the station and takes one, so many times, and answers the number taken.
fn repeated<Q: Queue>(queue: &mut Q, times: u32, station: u16, rank: u64) -> Result<u16, Refusal> {
    for _ in 0..times {
        queue.put(station, rank)?;
        queue.take();
    }
    Ok(queue.taken())
}
