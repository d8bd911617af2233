// Blocks in a node's part alone: read, tested and written.
ghost use Rattle.std.specs.Prelude.{◌≡◌, ◌+◌, ◌*◌, ◌≤◌, length, get_or};
ghost use Rattle.tree.specs.Layout.{block_words};
ghost use Rattle.tree.specs.Blocks.{block_in, with_block, absent as absent_of};
ghost use Rattle.tree.specs.Memory.{with_super};
ghost use Rattle.tree.specs.Order.{total as total_of};
ghost use Rattle.tree.specs.Clauses.Access.{totals_of};

use tree::{
    BLOCK_WORDS, Block, Kind, LEFT_WORD, NUMBER_WORD, PUTS_WORD, RIGHT_WORD, SIZE_WORD, SUPER_WORD,
    TAKES_WORD, Totals,
};

// The block at place i, whose words the part has.
pub fn block_in(part: &[u32], i: usize) -> Block
    requires { block_words * i + block_words ≤ length part.now }
    ensures { result ≡ block_in part.now i }
{
    let at = BLOCK_WORDS * i;
    Block {
        puts: part[at + PUTS_WORD],
        takes: part[at + TAKES_WORD],
        superblock: part[at + SUPER_WORD],
        left: part[at + LEFT_WORD],
        right: part[at + RIGHT_WORD],
        size: part[at + SIZE_WORD],
        number: part[at + NUMBER_WORD],
    }
}

// The totals of the block at place i, whose words the part has, so that no test is needed. No other word of it is read.
pub fn totals_in(part: &[u32], i: usize) -> Totals
    requires { block_words * i + block_words ≤ length part.now }
    ensures { result ≡ totals_of (block_in part.now i) }
{
    let at = BLOCK_WORDS * i;
    let puts = part[at + PUTS_WORD];
    let takes = part[at + TAKES_WORD];
    Totals { puts, takes }
}

// The size of the block at place i, whose words the part has. Blocks of the root alone have one.
pub fn size_in(part: &[u32], i: usize) -> u32
    requires { block_words * i + block_words ≤ length part.now }
    ensures { result ≡ (block_in part.now i).size }
{
    part[BLOCK_WORDS * i + SIZE_WORD]
}

// One word of a part. Past the end it is 0, so that no reader has to know where a part ends.
pub fn word_or_zero(part: &[u32], at: usize) -> u32
    ensures { result ≡ get_or part.now at 0 }
{
    part.get(at).copied().unwrap_or(0)
}

// A block with no puts and no takes is absent. Both words are compared: their sum could wrap.
pub fn absent(b: Block) -> bool
    ensures { result ≡ absent_of b }
{
    b.puts == 0 && b.takes == 0
}

// Whether the block at place i is absent, also past the end, where each word is 0. Takes are read only if puts are 0.
pub fn absent_in(part: &[u32], i: u32) -> bool
    ensures { result ≡ absent_of (block_in part.now i) }
{
    let at = BLOCK_WORDS * i as usize;
    word_or_zero(part, at + PUTS_WORD) == 0 && word_or_zero(part, at + TAKES_WORD) == 0
}

// A block's total of a kind.
pub fn total(kind: Kind, b: Block) -> u32
    ensures { result ≡ total_of kind b }
{
    match kind {
        Kind::Puts => b.puts,
        Kind::Takes => b.takes,
    }
}

// Block b at place i, whose words the part has. No other word changes.
pub fn write_block(part: &mut [u32], i: usize, b: Block)
    requires { block_words * i + block_words ≤ length part.old }
    ensures { part.new ≡ with_block part.old i b }
{
    let at = BLOCK_WORDS * i;
    part[at + PUTS_WORD] = b.puts;
    part[at + TAKES_WORD] = b.takes;
    part[at + SUPER_WORD] = b.superblock;
    part[at + LEFT_WORD] = b.left;
    part[at + RIGHT_WORD] = b.right;
    part[at + SIZE_WORD] = b.size;
    part[at + NUMBER_WORD] = b.number;
}

// Super of the block at place i set to x, if it is 0. Only that word is touched.
pub fn set_super(part: &mut [u32], i: usize, x: u32)
    requires { block_words * i + block_words ≤ length part.old }
    ensures { part.new ≡ with_block part.old i (with_super (block_in part.old i) x) }
{
    let at = BLOCK_WORDS * i + SUPER_WORD;
    if part[at] == 0 {
        part[at] = x;
    }
}
