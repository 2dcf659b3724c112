// The worked campuses.
use super::text::{cost_text, log_text, places_text, refused_text};
use campuses::worked_campuses;
use queue::Queue;
use std::alloc::{AllocError, Global};

// Works both campuses with a queue of that kind, and tells the answers, what is left in the places for routes, and the joins.
pub fn campuses_text<Q: Queue + Drop>(alloc: Global) -> Result<String, AllocError> {
    match worked_campuses::<Q>() {
        Ok(answers) => {
            let h = log_text(alloc, &answers.h)?;
            let routes = places_text(alloc, &answers.routes)?;
            let j = log_text(alloc, &answers.j)?;
            let joins: Vec<String> = answers
                .joins
                .iter()
                .map(|rank| cost_text(alloc, *rank))
                .try_collect(alloc)?;
            let joins = joins.join(alloc, " ")?;
            format!(in alloc; "[{h}] [{routes}] [{j}] [{joins}]")
        }
        Err(refusal) => refused_text(alloc, refusal),
    }
}
