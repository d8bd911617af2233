// Blocks by node number.
ghost use Rattle.std.specs.Prelude.{◌≡◌, true, ◌*◌, ◌≤◌, ◌<◌, length, if◌then◌else◌};
ghost use Rattle.tree.specs.Shape.{processes};
ghost use Rattle.tree.specs.Layout.{words_needed};
ghost use Rattle.tree.specs.Blocks.{block_at, with_block_at, absent as absent_of};
ghost use Rattle.tree.specs.Memory.{with_super};
ghost use Rattle.tree.specs.Clauses.Access.{HasPart, HasPlace, totals_of};

use crate::layout::Layout;
use node_parts::blocks;
use tree::{Block, Totals};

impl Layout {
    // Node v's block at place i, which it has.
    pub fn block_at(&self, table: &[u32], v: u32, i: u32) -> Block
        requires { HasPlace self.now table.now v i }
        ensures { result ≡ block_at self.now table.now v i }
    {
        blocks::block_in(self.part(table, v), i as usize)
    }

    // The totals of node v's block at place i, which it has. No other word of it is read.
    pub fn totals_at(&self, table: &[u32], v: u32, i: u32) -> Totals
        requires { HasPlace self.now table.now v i }
        ensures { result ≡ totals_of (block_at self.now table.now v i) }
    {
        blocks::totals_in(self.part(table, v), i as usize)
    }

    // The size of the root's block at place i. Blocks of other nodes have none.
    pub fn size_at_root(&self, table: &[u32], i: u32) -> u32
        requires { HasPlace self.now table.now 1 i }
        ensures { result ≡ (block_at self.now table.now 1 i).size }
    {
        blocks::size_in(self.part(table, 1), i as usize)
    }

    // Whether node v's block at place i is absent. One past the last place it is: there a child is looked at whose
    // places are all filled. A node that the tree lacks has no block, if the table has the words needed.
    pub fn absent_at(&self, table: &[u32], v: u32, i: u32) -> bool
        requires low { v < 16 }
        requires node { v < 2 * processes self.now → HasPart self.now table.now v }
        requires lacking { 2 * processes self.now ≤ v → words_needed self.now ≤ length table.now }
        ensures value { v < 2 * processes self.now → result ≡ absent_of (block_at self.now table.now v i) }
        ensures lacking { 2 * processes self.now ≤ v → result ≡ true }
    {
        let (from, to) = self.span(v);
        blocks::absent_in(&table[from..to], i)
    }

    // Block b at place i of node v.
    pub fn write_at(&self, table: &mut [u32], v: u32, i: u32, b: Block)
        requires { HasPlace self.now table.old v i }
        ensures { table.new ≡ with_block_at self.now table.old v i b }
    {
        let (from, to) = self.span(v);
        blocks::write_block(&mut table[from..to], i as usize, b);
    }

    // Super of node v's block at place i set to x, if it is 0.
    pub fn set_super_at(&self, table: &mut [u32], v: u32, i: u32, x: u32)
        requires { HasPlace self.now table.old v i }
        ensures { table.new ≡ with_block_at self.now table.old v i (with_super (block_at self.now table.old v i) x) }
    {
        let (from, to) = self.span(v);
        blocks::set_super(&mut table[from..to], i as usize, x);
    }

    // Block b at place i of node v, if none is there: the first of several processes to come here writes. Whether this
    // one did.
    pub fn write_if_absent(&self, table: &mut [u32], v: u32, i: u32, b: Block) -> bool
        requires { HasPlace self.now table.old v i }
        ensures value { result ≡ absent_of (block_at self.now table.old v i) }
        ensures words_after { table.new ≡ (if result then with_block_at self.now table.old v i b else table.old) }
    {
        let empty = blocks::absent(self.block_at(table, v, i));
        if empty {
            self.write_at(table, v, i, b);
        }
        empty
    }
}
