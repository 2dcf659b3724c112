// Memory that a plan is lent.
use super::text::places_text;
use cost::{Link, Sum};
use listing::CostWord;
use plan::Plan;
use std::alloc::{AllocError, Global};

// What fills the memory before a plan is commissioned in it.
const OLD: u16 = 9;

// How many places a list has, and how many cells two tables have.
#[derive(Clone, Copy)]
pub struct Sizes {
    pub places: usize,
    pub costs: usize,
    pub predecessors: usize,
}

// A list of links, and two tables.
#[derive(Drop)]
pub struct Memory {
    list: Vec<Link<Sum>>,
    costs: Vec<Sum>,
    predecessors: Vec<u16>,
}

impl Memory {
    // Memory of just so many places and cells.
    pub fn new(alloc: Global, sizes: Sizes) -> Result<Memory, AllocError> {
        let cost = Sum {
            picoseconds: OLD as u64,
        };
        let link = Link {
            from: OLD,
            to: OLD,
            cost,
        };
        Ok(Memory {
            list: vec![in alloc; link; sizes.places]?,
            costs: vec![in alloc; cost; sizes.costs]?,
            predecessors: vec![in alloc; OLD; sizes.predecessors]?,
        })
    }

    // A new plan in this memory.
    pub fn lend(&mut self) -> Plan<'_, Sum> {
        Plan::new(&mut self.list, &mut self.costs, &mut self.predecessors)
    }

    // What the list and both tables hold.
    pub fn text(&self, alloc: Global) -> Result<String, AllocError> {
        let links: Vec<String> = self
            .list
            .iter()
            .map(|link| link.to_string(alloc))
            .try_collect(alloc)?;
        let links = links.join(alloc, ", ")?;
        let costs: Vec<String> = self
            .costs
            .iter()
            .map(|cost| CostWord(*cost).to_string(alloc))
            .try_collect(alloc)?;
        let costs = costs.join(alloc, " ")?;
        let predecessors = places_text(alloc, &self.predecessors)?;
        format!(in alloc; "[{links}] [{costs}] [{predecessors}]")
    }
}
