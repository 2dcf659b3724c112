// Usage: how a program makes plans, works rows and asks for routes, as examples to copy.
// Rests on plans, on both queues and on plan files.
// Nothing rests on it: each example is a test, which the gate proves and runs, or has a contract of its own.
#![tactic(auto)]

mod lent;

#[cfg(test)]
mod tests {
    use super::lent::work_row_of_file;
    use cost::{Cost, Link, Split, Sum};
    use heap::Heap;
    use plan::Plan;
    use queue::Queue;
    use refusal::{Failing, Refusal};
    use routes::Method;
    use shelf::Shelf;
    use std::test::Fail;

    // A link in memory that holds none yet.
    const NO_LINK: Link<Sum> = Link {
        from: 0,
        to: 0,
        cost: Sum { picoseconds: 0 },
    };

    // A plan is made in memory that its caller lends. Links are laid, the row of a source is worked, and then it answers least costs and routes.
    #[test]
    fn links_are_laid_and_a_route_is_asked_for(rt: HostRuntime) -> Result<(), Fail> {
        let mut list = [NO_LINK; 16];
        let mut costs = [Sum { picoseconds: 0 }; 9];
        let mut predecessors = [0; 9];
        let mut plan = Plan::new(&mut list, &mut costs, &mut predecessors);
        plan.make(3)?;
        plan.lay(0, 1, Sum { picoseconds: 40 })?;
        plan.lay(0, 2, Sum { picoseconds: 10 })?;
        plan.lay(2, 1, Sum { picoseconds: 20 })?;
        plan.work(0, Method::Plain, &mut Heap::new())?;
        assert_eq!(rt; plan.cost(0, 1)?.rank(), 30);

        let mut route = [0; 3];
        assert_eq!(rt; plan.route(0, 1, &mut route)?, 3);
        assert_eq!(rt; route, [0, 2, 1]);
        Ok(())
    }

    // What is not reached is at FAR, and has no route; a row that tells of links which have moved since is not asked any more.
    #[test]
    fn a_link_that_is_lifted_makes_every_row_unworked(rt: HostRuntime) -> Result<(), Fail> {
        let mut list = [NO_LINK; 16];
        let mut costs = [Sum { picoseconds: 0 }; 4];
        let mut predecessors = [0; 4];
        let mut plan = Plan::new(&mut list, &mut costs, &mut predecessors);
        let mut queue = Heap::new();
        plan.make(2)?;
        plan.lay(0, 1, Sum { picoseconds: 7 })?;
        plan.work(0, Method::Plain, &mut queue)?;
        plan.lift(0, 1)?;
        assert!(rt; plan.cost(0, 1).err() == Some(Refusal::Unworked));

        plan.work(0, Method::Plain, &mut queue)?;
        assert_eq!(rt; plan.cost(0, 1)?.rank(), u64::MAX);
        assert_eq!(rt; plan.route(0, 1, &mut [0; 2]), Err(Refusal::Far));
        Ok(())
    }

    // A plan file is read into a plan, and is written back byte for byte.
    #[test]
    fn a_file_is_read_and_written_back(rt: HostRuntime) -> Result<(), Fail> {
        let file = [
            67, 80, 76, 0, 1, 0, 0, 2, 0, 1, 0, 0, 0, 1, 0, 0, 0, 0, 0, 0, 0, 7,
        ];
        let mut list = [NO_LINK; 16];
        let mut costs = [Sum { picoseconds: 0 }; 4];
        let mut predecessors = [0; 4];
        let mut plan = Plan::new(&mut list, &mut costs, &mut predecessors);
        plan.read(&file)?;
        assert_eq!(rt; plan.counts().stations, 2);
        assert_eq!(rt; plan.links().len(), 1);

        let mut buffer = [0; 22];
        assert_eq!(rt; plan.write(&mut buffer)?, 22);
        assert_eq!(rt; buffer, file);
        Ok(())
    }

    // When a plan is gone its lender has the memory again: the row that was worked stands there, as the contract of the function says.
    #[test]
    fn a_row_stands_in_lent_memory_when_its_plan_is_gone(rt: HostRuntime) -> Result<(), Fail> {
        let file = [
            67, 80, 76, 0, 1, 0, 0, 2, 0, 1, 0, 0, 0, 1, 0, 0, 0, 0, 0, 0, 0, 7,
        ];
        let mut list = [NO_LINK; 1];
        let mut costs = [Sum { picoseconds: 0 }; 4];
        let mut predecessors = [0; 4];
        work_row_of_file(
            &file,
            0,
            &mut list,
            &mut costs,
            &mut predecessors,
            &mut Heap::new(),
        )?;
        assert_eq!(rt; costs[1].rank(), 7);
        assert_eq!(rt; predecessors, [u16::MAX, 0, u16::MAX, u16::MAX]);
        Ok(())
    }

    // A row that a supplier hands in is passed exactly if it is right; else the call names a station that fails, and why.
    #[test]
    fn a_suppliers_row_is_tested(rt: HostRuntime) -> Result<(), Fail> {
        let mut list = [NO_LINK; 16];
        let mut costs = [Sum { picoseconds: 0 }; 9];
        let mut predecessors = [0; 9];
        let mut plan = Plan::new(&mut list, &mut costs, &mut predecessors);
        plan.make(3)?;
        plan.lay(0, 1, Sum { picoseconds: 40 })?;
        plan.lay(0, 2, Sum { picoseconds: 10 })?;
        plan.lay(2, 1, Sum { picoseconds: 20 })?;

        let right = [0, 30, 10].map(|picoseconds| Sum { picoseconds });
        assert_eq!(rt; plan.check(0, &right, &[u16::MAX, 2, 0]), Ok(()));
        // station 1 is reached for less by 2: a cheaper walk was overlooked, which is cause 5
        let dear = [0, 40, 10].map(|picoseconds| Sum { picoseconds });
        let failing = Failing {
            station: 1,
            cause: 5,
        };
        assert_eq!(rt;
            plan.check(0, &dear, &[u16::MAX, 0, 0]),
            Err(Refusal::Row(failing))
        );
        Ok(())
    }

    // The least cost from station 0 to the last of four, by a method, with a queue; row 1 is there to be read. Outlet counts multiply.
    fn outlets_to_the_last<Q: Queue + Drop>(method: Method) -> Result<u64, Refusal> {
        let mut list = [Link {
            from: 0,
            to: 0,
            cost: Split { outlets: 2 },
        }; 8];
        let mut costs = [Split { outlets: 1 }; 16];
        let mut predecessors = [0; 16];
        let mut plan = Plan::new(&mut list, &mut costs, &mut predecessors);
        let mut queue = Q::new();
        plan.make(4)?;
        plan.lay(0, 1, Split { outlets: 4 })?;
        plan.lay(1, 2, Split { outlets: 8 })?;
        plan.lay(2, 3, Split { outlets: 2 })?;
        plan.lay(1, 3, Split { outlets: 32 })?;
        plan.work(1, Method::Plain, &mut queue)?;
        plan.work(0, method, &mut queue)?;
        Ok(plan.cost(0, 3)?.rank())
    }

    // Each method gives a right row, and so does either queue: they differ in the time that they take.
    #[test]
    fn either_queue_and_each_method_give_the_same_costs(rt: HostRuntime) -> Result<(), Fail> {
        for method in [Method::Plain, Method::Reuse, Method::Prune] {
            assert_eq!(rt; outlets_to_the_last::<Heap>(method)?, 64);
            assert_eq!(rt; outlets_to_the_last::<Shelf>(method)?, 64);
        }
        Ok(())
    }
}
