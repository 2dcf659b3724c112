// Texts of answers.
use cost::Sum;
use listing::CostWord;
use refusal::Refusal;
use replay::Answer;
use std::alloc::{AllocError, Global};

// What stands where nothing was written to a place; no station has this number.
pub const NO_STATION: u16 = u16::MAX;

// What stands where no answer was written; no call takes so many stations.
pub const NO_ANSWER: Answer<Sum> = Answer::Work(Ok(NO_STATION));

// The most lines that are told in full.
const MOST_LINES: usize = 40;

// Lines; of many the first and the last, and how many there are.
pub fn lines_text(alloc: Global, text: &str) -> Result<String, AllocError> {
    let lines: Vec<&str> = text.lines().collect(alloc)?;
    match (lines.get(..MOST_LINES), lines.get(MOST_LINES..)) {
        (Some(first), Some([.., last])) => {
            let count = lines.len();
            let first = first.join(alloc, " | ")?;
            format!(in alloc; "{first} | .. {last}, {count} lines")
        }
        _ => lines.join(alloc, " | "),
    }
}

// Whether a call that answers no value was accepted.
pub fn accepted_text(alloc: Global, value: Result<(), Refusal>) -> Result<String, AllocError> {
    match value {
        Ok(()) => String::from_str(alloc, "accepted"),
        Err(refusal) => refused_text(alloc, refusal),
    }
}

// A refusal, with what it names.
pub fn refused_text(alloc: Global, refusal: Refusal) -> Result<String, AllocError> {
    let code = refusal.code();
    format!(in alloc; "refused {code}")
}

// Answers of a log.
pub fn log_text(alloc: Global, answers: &[Answer<Sum>]) -> Result<String, AllocError> {
    let texts: Vec<String> = answers
        .iter()
        .map(|answer| answer_text(alloc, *answer))
        .try_collect(alloc)?;
    texts.join(alloc, ", ")
}

// An answer of a log.
fn answer_text(alloc: Global, answer: Answer<Sum>) -> Result<String, AllocError> {
    match answer {
        Answer::Work(Ok(NO_STATION)) => String::from_str(alloc, "-"),
        Answer::Work(Ok(taken)) => format!(in alloc; "taken {taken}"),
        Answer::Cost(Ok(cost)) => CostWord(cost).to_string(alloc),
        Answer::Route(Ok(stations)) => format!(in alloc; "stations {stations}"),
        Answer::Lay(done) | Answer::Lift(done) | Answer::Check(done) => accepted_text(alloc, done),
        Answer::Work(Err(refusal)) | Answer::Cost(Err(refusal)) | Answer::Route(Err(refusal)) => {
            refused_text(alloc, refusal)
        }
    }
}

// The cost of a rank.
pub fn cost_text(alloc: Global, rank: u64) -> Result<String, AllocError> {
    CostWord(Sum { picoseconds: rank }).to_string(alloc)
}

// Stations, or none, in a list of places.
pub fn places_text(alloc: Global, places: &[u16]) -> Result<String, AllocError> {
    let texts: Vec<String> = places
        .iter()
        .map(|place| place_text(alloc, *place))
        .try_collect(alloc)?;
    texts.join(alloc, " ")
}

// The station in a place, if there is one.
fn place_text(alloc: Global, place: u16) -> Result<String, AllocError> {
    match place {
        NO_STATION => String::from_str(alloc, "-"),
        station => station.to_string(alloc),
    }
}
