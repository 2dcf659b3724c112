// What the tree of a heap is made of.

// All stations at the places of a tree, each with a rank; fixed memory, of which the first `len` places count. Place 0 is
// the root, and below place p are the places 2p + 1 and 2p + 2.
#[derive(Drop)]
pub(crate) struct Tree {
    pub(crate) stations: [u8; 256],
    pub(crate) ranks: [u64; 256],
    pub(crate) places: [u8; 256],
    pub(crate) len: usize,
}
