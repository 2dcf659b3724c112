// Calls of the library, and what they answer.
use super::case::Call;
use cost::{Cost, Link};
use filekind::FileKind;
use planfile::{read, write};
use refusal::{Facts, Refusal};
use std::alloc::{AllocError, AllocFailed, Global};
use std::num::ParseIntError;

// What fills a buffer before it is written to.
const OLD: u8 = 238;

// Why a call has no value: the library refuses it, or something else fails, such as reading a number.
#[derive(Drop)]
enum Stop {
    Refused(Refusal),
    Failed(anyhow::Error),
}

// A refusal by the library. By hand, since a derive would want a message for each case.
impl From<Refusal> for Stop {
    fn from(refusal: Refusal) -> Stop {
        Stop::Refused(refusal)
    }
}

// A word that is no number.
impl From<ParseIntError> for Stop {
    fn from(error: ParseIntError) -> Stop {
        Stop::Failed(error.into())
    }
}

// A lack of memory for a value.
impl<T: Drop> From<AllocFailed<T>> for Stop {
    fn from(failed: AllocFailed<T>) -> Stop {
        Stop::Failed(failed.into())
    }
}

// A lack of memory.
impl From<AllocError> for Stop {
    fn from(error: AllocError) -> Stop {
        Stop::Failed(error.into())
    }
}

// The answer to a call for one kind.
pub fn answer<K: FileKind>(heap: Global, call: &Call) -> anyhow::Result<String> {
    match call {
        Call::Read { places, bytes } => told(heap, read_back::<K>(heap, *places, bytes)),
        Call::Write {
            stations,
            room,
            links,
        } => told(heap, write_out::<K>(heap, *stations, *room, links)),
        Call::Form { number } => told(heap, form::<K>(heap, *number)),
    }
}

// The text of a value, or the line of the refusal that stands in its place.
fn told(heap: Global, value: Result<String, Stop>) -> anyhow::Result<String> {
    match value {
        Ok(text) => Ok(text),
        Err(Stop::Refused(refusal)) => Ok(refused(heap, refusal)?),
        Err(Stop::Failed(error)) => Err(error),
    }
}

// A refusal's number and facts, and for a faulty record the layer of the fault.
fn refused(heap: Global, refusal: Refusal) -> Result<String, AllocError> {
    let code = refusal.code();
    match code.facts {
        Facts::Below { layer, .. } => format!(in heap; "refused {code} {layer}"),
        _ => format!(in heap; "refused {code}"),
    }
}

// Reads a file into a list of so many places, and says whether writing gives the file again and no byte more.
fn read_back<K: FileKind>(heap: Global, places: usize, bytes: &[u8]) -> Result<String, Stop> {
    let nowhere = Link {
        from: 9,
        to: 9,
        cost: K::far(),
    };
    let mut list = vec![in heap; nowhere; places]?;
    let counts = read::<K>(bytes, &mut list)?;
    list.truncate(counts.links as usize);
    let mut buffer = vec![in heap; OLD; bytes.len() + 1]?;
    let back = write::<K>(counts.stations, &list, &mut buffer)?;
    let tail = buffer.pop();
    let same = back == bytes.len() && tail == Some(OLD) && buffer.as_slice() == bytes;
    Ok(format!(in heap; "ok {counts} {same}")?)
}

// Writes links into a buffer of so many bytes, and says how long their file is and what the buffer then holds.
fn write_out<K: FileKind>(
    heap: Global,
    stations: u16,
    room: usize,
    links: &str,
) -> Result<String, Stop> {
    let links = links_listed::<K>(heap, links)?;
    let mut buffer = vec![in heap; OLD; room]?;
    let answer = match write::<K>(stations, &links, &mut buffer) {
        Ok(len) => format!(in heap; "ok {len}")?,
        Err(refusal) => refused(heap, refusal)?,
    };
    let held = hex::encode(heap, buffer.as_slice())?;
    Ok(format!(in heap; "{answer} {held}")?)
}

// The links of a text such as `0-1-7,1-2-9`, or why the first one that has no value has none; the word `none` stands for no link.
fn links_listed<K: FileKind>(heap: Global, text: &str) -> Result<Vec<Link<K>>, Stop> {
    let mut links = Vec::new(heap);
    if text != "none" {
        for item in text.split(',') {
            let mut words = item.split('-');
            let from = words.next().unwrap_or("").parse()?;
            let to = words.next().unwrap_or("").parse()?;
            let number = words.next().unwrap_or("").parse()?;
            let cost = K::form(number)?;
            links.push(Link { from, to, cost })?;
        }
    }
    Ok(links)
}

// Forms a cost, and says its rank and whether it is FAR.
fn form<K: FileKind>(heap: Global, number: u64) -> Result<String, Stop> {
    let rank = K::form(number)?.rank();
    let far = rank == K::far().rank();
    Ok(format!(in heap; "ok {rank} {far}")?)
}
