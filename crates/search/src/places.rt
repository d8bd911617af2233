// Search of a node's places for the first whose word reaches a number, in its part alone.
ghost use Rattle.std.specs.Prelude.{◌≡◌, true, ◌+◌, ◌*◌, ◌≤◌, ◌<◌, length};
ghost use Rattle.tree.specs.Layout.{block_words};
ghost use Rattle.search.specs.Clauses.Searched.{Reaches, First};

use node_parts::bisect;
use tree::BLOCK_WORDS;

// Whether place i is the first that reaches x: the one before it does not. Only these two places are looked at.
fn is_first(part: &[u32], word: usize, last: usize, x: u32, i: usize) -> bool
    requires { (word < block_words) × (block_words * last + block_words ≤ length part.now) }
    ensures is { result ≡ true → First part.now word last x i }
    ensures only { First part.now word last x i → result ≡ true }
{
    if i == 0 {
        return false;
    }
    if last < i {
        return false;
    }
    if part[BLOCK_WORDS * i + word] < x {
        return false;
    }
    part[BLOCK_WORDS * (i - 1) + word] < x
}

// The first place of a part. The guess and the place after it are tried first, since mostly one of them is right. The
// search by halving finds the place whatever the guess.
fn first_in(part: &[u32], word: usize, last: usize, x: u32, guess: u32) -> usize
    requires { Reaches part.now word last x }
    ensures { First part.now word last x result }
{
    let i = guess as usize;
    if is_first(part, word, last, x, i) {
        return i;
    }
    if is_first(part, word, last, x, i + 1) {
        return i + 1;
    }
    bisect::first_reaching(part, word, last, x)
}

// The same, with the last place and the place found as a block has them.
pub fn first_place(part: &[u32], word: usize, last: u32, x: u32, guess: u32) -> u32
    requires { Reaches part.now word last x }
    ensures { First part.now word last x result }
{
    first_in(part, word, last as usize, x, guess) as u32
}
