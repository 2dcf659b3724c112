// Memory that a call is lent while it runs.

// Lends a call its memory, as much as the largest plan needs: a list of links, and tables of costs and of predecessors.
macro_rules! lend {
    ($kind:ident, $call:path, $($argument:expr),*) => {{
        let nowhere = Link {
            from: 0,
            to: 0,
            cost: $kind::far(),
        };
        let mut list = [nowhere; 4096];
        let mut cells = [$kind::far(); 65536];
        let mut befores = [u16::MAX; 65536];
        $call(&mut list, &mut cells, &mut befores, $($argument),*)
    }};
}

pub(crate) use lend;
