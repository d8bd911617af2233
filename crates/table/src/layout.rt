// The tree of a call, and where its nodes' parts stand in the work table: a tree of height 1 to 3 (2 to 8 processes) with
// at most 500 operations of one process. In a clause a `Tree` and a `Layout` are the shape that the definitions speak of.
ghost use Rattle.std.specs.Prelude.{◌≡◌, ◌++◌, ◌+◌, ◌*◌, ◌^◌, ◌≤◌, ◌<◌, length, drop, replicate};
ghost use Rattle.tree.specs.Shape.{Shape, height_for, shape_for, processes, leaf_of, height_in, last_place};
ghost use Rattle.tree.specs.Layout.{block_words, part_words, part_start, part_of, words_needed};
ghost use Rattle.tree.specs.Clauses.Access.{HasPart};

use std::marker::Model;
use tree::BLOCK_WORDS;

// The height for p processes.
fn height_for(p: u32) -> usize
    ensures { (result ≡ height_for p) × (1 ≤ result) × (result ≤ 3) }
{
    if p == 2 {
        1
    } else if p == 4 {
        2
    } else {
        3
    }
}

// The height of node v in a tree of height h. The nodes above the leaves are those of a tree one lower.
pub fn height_in(h: usize, v: usize) -> usize
    requires { h ≤ 3 }
    ensures { (result ≡ height_in h v) × (result ≤ h) }
{
    if h == 0 {
        0
    } else if v < 1 << h {
        height_in(h - 1, v) + 1
    } else {
        0
    }
}

// The height of the tree and the most operations of one process.
#[derive(Clone, Copy)]
pub struct Tree {
    height: usize,
    most: usize,
}

impl Model for Tree {
    ghost use Rattle.std.specs.Prelude.{◌≤◌};
    ghost use Rattle.tree.specs.Shape.{Shape};

    ghost Value = { Shape };

    ghost view = { λ t. record { height = t.height; most = t.most } };

    ghost invariant = { λ t. (1 ≤ t.height) × (t.height ≤ 3) × (t.most ≤ 500) };

    ghost inverse = { λ s. record { height = s.height; most = s.most } };
}

impl Tree {
    // The tree of a call with p processes of at most l operations.
    pub fn new(p: u32, l: u32) -> Self
        requires { l ≤ 500 }
        ensures { result ≡ shape_for p l }
    {
        Tree {
            height: height_for(p),
            most: l as usize,
        }
    }

    pub fn height(self) -> usize
        ensures { (result ≡ self.height) × (1 ≤ result) × (result ≤ 3) }
    {
        self.height
    }

    // L, the most operations of one process.
    pub fn most(self) -> usize
        ensures { (result ≡ self.most) × (result ≤ 500) }
    {
        self.most
    }

    // p, the number of processes.
    pub fn processes(self) -> usize
        ensures { (result ≡ processes self) × (2 ≤ result) × (result ≤ 8) }
    {
        1 << self.height
    }

    // The last place of node v.
    pub fn last_place(self, v: usize) -> usize
        ensures { (result ≡ last_place self v) × (result ≤ 4000) }
    {
        self.most << height_in(self.height, v)
    }

    // The words of node v's part. There is no node 0, so it has none.
    pub fn part_words(self, v: usize) -> usize
        ensures { (result ≡ part_words self v) × (result ≤ block_words * 4001) }
    {
        if v == 0 {
            return 0;
        }
        BLOCK_WORDS * (self.last_place(v) + 1)
    }

    // The words that the table must have.
    pub fn words_needed(self) -> usize
        ensures { (result ≡ words_needed self) × (result ≤ block_words * 16015) }
    {
        let p = self.processes();
        BLOCK_WORDS * ((self.height + 1) * p * self.most + (2 * p - 1))
    }
}

// A tree, and the first word of each node's part: node v's part is from starts[v] to starts[v + 1]. Past the last node
// each entry is the words needed, so that nothing is left for a node that the tree does not have. There are at most 15
// nodes, and the library has no heap.
#[derive(Drop)]
pub struct Layout {
    tree: Tree,
    starts: [usize; 17],
}

impl Model for Layout {
    ghost use Rattle.tree.specs.Shape.{Shape};
    ghost use Rattle.table.specs.Starts.{StartsOf};

    ghost Value = { Shape };

    ghost view = { λ a. a.tree };

    ghost invariant = { λ a. StartsOf a.tree a.starts };
}

impl Layout {
    // A node's part begins where that of the node before it ends.
    pub fn new(tree: Tree) -> Self
        ensures { result ≡ tree }
    {
        let nodes = 2 * tree.processes();
        let mut starts = [tree.words_needed(); 17];
        starts[0] = 0;
        for v in 0..nodes {
            starts[v + 1] = starts[v] + tree.part_words(v);
        }
        Layout { tree, starts }
    }

    pub fn height(&self) -> usize
        ensures { (result ≡ self.now.height) × (1 ≤ result) × (result ≤ 3) }
    {
        self.tree.height()
    }

    pub fn most(&self) -> usize
        ensures { (result ≡ self.now.most) × (result ≤ 500) }
    {
        self.tree.most()
    }

    pub fn processes(&self) -> usize
        ensures { (result ≡ processes self.now) × (2 ≤ result) × (result ≤ 8) }
    {
        self.tree.processes()
    }

    // The leaf of process k.
    pub fn leaf_of(&self, k: u32) -> u32
        requires { k < processes self.now }
        ensures { (result ≡ leaf_of self.now k) × (result < 16) }
    {
        self.processes() as u32 + k
    }

    // The first word of node v's part, and the word after its last. Of a node that the tree lacks both are the words
    // needed.
    pub fn span(&self, v: u32) -> (usize, usize)
        requires { v < 16 }
        ensures start { v < 2 * processes self.now → result.0 ≡ part_start self.now v }
        ensures end { v < 2 * processes self.now → result.1 ≡ part_start self.now v + part_words self.now v }
        ensures lacking { 2 * processes self.now ≤ v → (result.0 ≡ words_needed self.now) × (result.1 ≡ words_needed self.now) }
    {
        let v = v as usize;
        (self.starts[v], self.starts[v + 1])
    }

    // Node v's part.
    pub fn part<'a>(&self, table: &'a [u32], v: u32) -> &'a [u32]
        requires { HasPart self.now table.now v }
        ensures part { result.now ≡ part_of self.now table.now v }
        ensures words { length result.now ≡ part_words self.now v }
    {
        let (from, to) = self.span(v);
        &table[from..to]
    }
}
