// The work table: the tree of a call, where each node's part stands, and blocks by node number. This crate knows nothing
// of steps. The table and the heads are lent beside a layout and not kept in it: a named step changes one of them and
// only reads the other, and its contract says so of each.
#![tactic(auto)]

pub mod access;
pub mod layout;
