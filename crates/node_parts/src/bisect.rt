// Search of a node's blocks for the first whose total reaches a number. A binary search: totals do not fall from place
// to place.
ghost use Rattle.std.specs.Prelude.{ℕ, ◌+◌, ◌*◌, ◌≤◌, ◌<◌, length};
ghost use Rattle.tree.specs.Layout.{block_words};
ghost use Rattle.tree.specs.Blocks.{word_in};

use tree::BLOCK_WORDS;

// The first place from 1 to `last` whose word `word` is x or more. That word does not fall with the place, and at
// `last` it is x or more, so there is such a place.
pub fn first_reaching(part: &[u32], word: usize, last: usize, x: u32) -> usize
    requires reached { (word < block_words) × (1 ≤ last) × (block_words * last + block_words ≤ length part.now) × (x ≤ word_in part.now last word) }
    requires rising { (i j : ℕ) → 1 ≤ i → i ≤ j → j ≤ last → word_in part.now i word ≤ word_in part.now j word }
    ensures reaches { (1 ≤ result) × (result ≤ last) × (x ≤ word_in part.now result word) }
    ensures first { (i : ℕ) → 1 ≤ i → i < result → word_in part.now i word < x }
{
    let blocks = part.as_chunks::<BLOCK_WORDS>().0;
    1 + blocks[1..last].partition_point(|block| block[word] < x)
}
