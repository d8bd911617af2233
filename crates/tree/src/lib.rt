// The ordering tree: its shape, where each node's blocks stand in the work table, and what a block opens to. This crate
// knows nothing of steps.
#![tactic(auto)]

// The words of a block in the work table, and the place of each among them.
pub const BLOCK_WORDS: usize = 7;

pub const PUTS_WORD: usize = 0;

pub const TAKES_WORD: usize = 1;

pub const SUPER_WORD: usize = 2;

pub const LEFT_WORD: usize = 3;

pub const RIGHT_WORD: usize = 4;

pub const SIZE_WORD: usize = 5;

pub const NUMBER_WORD: usize = 6;

// A block of a node, as words of the work table. `superblock` is the paper's super. `left` and `right` are the ends in
// the children; in a leaf, `left` holds the put's value. `number` is that of the record that wrote it.
#[derive(Clone, Copy)]
pub struct Block {
    pub puts: u32,
    pub takes: u32,
    pub superblock: u32,
    pub left: u32,
    pub right: u32,
    pub size: u32,
    pub number: u32,
}

// A block's puts and takes.
#[derive(Clone, Copy)]
pub struct Totals {
    pub puts: u32,
    pub takes: u32,
}

// The two kinds of operations.
#[derive(Clone, Copy)]
pub enum Kind {
    Puts,
    Takes,
}
