// How a plan is commissioned, and in what memory.
use cost::{Cost, Link};
use filekind::{FileKind, Kind};
use plan::Plan;
use planfile::Counts;
use refusal::Refusal;
use std::alloc::{AllocError, Global};

// The most stations of a plan.
const MOST_STATIONS: u16 = 256;

// The most links of a plan.
const MOST_LINKS: u16 = 4096;

// What a plan begins with; at first there is none.
#[derive(Drop)]
pub enum Commissioning {
    None,
    Make {
        kind: Kind,
        stations: u16,
        places: u16,
    },
    Read {
        bytes: Vec<u8>,
    },
}

// What a plan has when it was commissioned.
#[derive(Clone, Copy)]
pub struct Begun {
    pub word: &'static str,
    pub counts: Counts,
}

impl Commissioning {
    // The kind of the plan.
    pub fn kind(&self) -> Kind {
        match self {
            Commissioning::None => Kind::Sum,
            Commissioning::Make { kind, .. } => *kind,
            Commissioning::Read { bytes } => Kind::of_file(bytes),
        }
    }

    // Memory for the plan: just what is asked for, or for a file's plan, what any may have.
    pub fn memory<K: Cost>(&self, alloc: Global) -> Result<Memory<K>, AllocError> {
        match self {
            Commissioning::None => Memory::new(alloc, 0, 0),
            Commissioning::Make {
                stations,
                places,
                ..
            } => Memory::new(alloc, *stations, *places),
            Commissioning::Read { .. } => Memory::new(alloc, MOST_STATIONS, MOST_LINKS),
        }
    }

    // Commissions the plan.
    pub fn apply<K: FileKind>(&self, plan: &mut Plan<K>) -> Result<(), Refusal> {
        match self {
            Commissioning::None => Ok(()),
            Commissioning::Make { stations, .. } => plan.make(*stations),
            Commissioning::Read { bytes } => plan.read(bytes),
        }
    }

    // Commissions a plan in memory that is given up again, and tells what it has.
    pub fn trial<K: FileKind>(&self, alloc: Global) -> Result<Result<Begun, Refusal>, AllocError> {
        let mut memory = self.memory::<K>(alloc)?;
        let mut plan = memory.lend();
        let begun = self.apply(&mut plan).map(|()| Begun {
            word: K::word(),
            counts: plan.counts(),
        });
        Ok(begun)
    }
}

// Memory for a plan.
#[derive(Drop)]
pub struct Memory<K> {
    list: Vec<Link<K>>,
    costs: Vec<K>,
    predecessors: Vec<u16>,
}

impl<K: Cost> Memory<K> {
    // A list of so many places, and tables of a cell for each two stations; of none for more stations than a plan may have.
    fn new(alloc: Global, stations: u16, places: u16) -> Result<Memory<K>, AllocError> {
        let side = if stations > MOST_STATIONS {
            0
        } else {
            stations as usize
        };
        let nowhere = Link {
            from: 0,
            to: 0,
            cost: K::far(),
        };
        Ok(Memory {
            list: vec![in alloc; nowhere; places as usize]?,
            costs: vec![in alloc; K::far(); side * side]?,
            predecessors: vec![in alloc; u16::MAX; side * side]?,
        })
    }

    // A plan in this memory.
    pub fn lend(&mut self) -> Plan<'_, K> {
        Plan::new(&mut self.list, &mut self.costs, &mut self.predecessors)
    }
}
