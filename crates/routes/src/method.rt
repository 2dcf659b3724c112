// The methods.

// How a row is worked: over all links, which is Dijkstra's method; along rows that are worked; or over links that are tight in them.
#[derive(Clone, Copy, PartialEq, Eq, Debug)]
pub enum Method {
    Plain,
    Reuse,
    Prune,
}
