// The root order of a table: its last root block, and all its operations written as order records. The table is one
// that steps have left; nothing here changes it.
#![tactic(auto)]

pub mod list;
pub mod roots;

// What the order records of one list have in common: the kind of the operations and the root block that they stand in.
#[derive(Clone, Copy)]
pub struct Listing {
    pub kind: tree::Kind,
    pub block: u32,
}

// A node and its height, which is 0 for a leaf.
#[derive(Clone, Copy)]
pub struct Subtree {
    pub node: u32,
    pub height: usize,
}
