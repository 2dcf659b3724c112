// A site log as it is run.
use super::calls::Queues;
use super::command::{Command, NoCommand, asks_nothing};
use super::commissioning::Commissioning;
use super::fields::QueueName;
use super::files::{read_file, write_file};
use super::reply::Reply;
use super::stored::StoredKind;
use super::tally::Tally;
use anyhow::{Result, bail, ensure};
use cost::{Split, Sum};
use filekind::Kind;
use listing::{table_lines, work_all};
use plan::Plan;
use routes::Method;
use std::alloc::{AllocError, Global};

// What lasts from one line to the next: how many were read, a commissioning that was accepted and waits for its turn, the queues, and how
// lines were answered.
#[derive(Drop)]
pub struct Session {
    read: usize,
    accepted: Option<Commissioning>,
    queues: Queues,
    tally: Tally,
}

impl Session {
    // A session before its first line.
    pub fn new() -> Session {
        Session {
            read: 0,
            accepted: None,
            queues: Queues::new(),
            tally: Tally::new(),
        }
    }

    // How many lines were answered, and how.
    pub fn tally(&self) -> Tally {
        self.tally
    }

    // Answers the lines that were not read yet on a plan, until another is accepted: that one, or none at the end of the log.
    pub fn serve(
        &mut self,
        rt: &HostRuntime,
        begin: &Commissioning,
        lines: &[&[u8]],
    ) -> Result<Option<Commissioning>> {
        match begin.kind() {
            Kind::Sum => self.serve_kind::<Sum>(rt, begin, lines),
            Kind::Split => self.serve_kind::<Split>(rt, begin, lines),
        }
    }

    // The same on a plan of one kind.
    fn serve_kind<K: StoredKind>(
        &mut self,
        rt: &HostRuntime,
        begin: &Commissioning,
        lines: &[&[u8]],
    ) -> Result<Option<Commissioning>> {
        let mut memory = begin.memory::<K>(rt.alloc())?;
        let mut plan = memory.lend();
        ensure!(
            begin.apply(&mut plan).is_ok(),
            "a plan was accepted in spare memory alone"
        );
        for line in lines.iter().skip(self.read) {
            self.read = self.read.saturating_add(1);
            self.answer_line(rt, &mut plan, line)?;
            if let Some(accepted) = self.accepted.take() {
                return Ok(Some(accepted));
            }
        }
        Ok(None)
    }

    // Answers a line, whose bytes are written again as they are.
    fn answer_line<K: StoredKind>(
        &mut self,
        rt: &HostRuntime,
        plan: &mut Plan<K>,
        line: &[u8],
    ) -> Result<()> {
        if asks_nothing(line) {
            rt.write_all(line)?;
            println!(rt)?;
            return Ok(());
        }
        let reply = match Command::parse(rt.alloc(), line) {
            Ok(command) => self.obey(rt, plan, command)?,
            Err(NoCommand::NotUnderstood) => Reply::NotUnderstood,
            Err(NoCommand::OutOfMemory) => bail!("out of memory"),
        };
        self.tally.count(&reply);
        rt.write_all(line)?;
        println!(rt; " -> {reply}")?;
        if let Reply::Table(lines) = &reply {
            rt.print(lines)?;
        }
        Ok(())
    }

    // Does what a command says.
    fn obey<K: StoredKind>(
        &mut self,
        rt: &HostRuntime,
        plan: &mut Plan<K>,
        command: Command<'_>,
    ) -> Result<Reply<K>, AllocError> {
        match command {
            Command::Make {
                kind,
                stations,
                places,
            } => self.commission(
                rt.alloc(),
                Commissioning::Make {
                    kind,
                    stations,
                    places,
                },
            ),
            Command::Read { path } => match read_file(rt, path) {
                Ok(bytes) => self.commission(rt.alloc(), Commissioning::Read { bytes }),
                Err(_) => Ok(Reply::NotUnderstood),
            },
            Command::Write { path } => write_file(rt, plan, path),
            Command::Table { method, queue } => self.table(rt.alloc(), plan, method, queue),
            Command::Call(call) => call.answer(rt.alloc(), plan, &mut self.queues),
        }
    }

    // Tries a commissioning, which waits for its turn where it is accepted.
    fn commission<K: StoredKind>(
        &mut self,
        alloc: Global,
        commissioning: Commissioning,
    ) -> Result<Reply<K>, AllocError> {
        let trial = match commissioning.kind() {
            Kind::Sum => commissioning.trial::<Sum>(alloc)?,
            Kind::Split => commissioning.trial::<Split>(alloc)?,
        };
        match trial {
            Ok(begun) => {
                let reply = Reply::commissioned(&commissioning, begun);
                self.accepted = Some(commissioning);
                Ok(reply)
            }
            Err(refusal) => Ok(Reply::Refused(refusal)),
        }
    }

    // Works all rows, and tells their costs.
    fn table<K: StoredKind>(
        &mut self,
        alloc: Global,
        plan: &mut Plan<K>,
        method: Method,
        queue: QueueName,
    ) -> Result<Reply<K>, AllocError> {
        match queue {
            QueueName::Heap => work_all(plan, method, &mut self.queues.heap),
            QueueName::Shelf => work_all(plan, method, &mut self.queues.shelf),
        }
        Ok(Reply::Table(table_lines(alloc, plan)?))
    }
}
