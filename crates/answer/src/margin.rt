// The margin of a take, a signed number.
ghost use Rattle.std.specs.Prelude.{◌≡◌, pos, ◌+ℤ◌, ◌-ℤ◌};

// The margin of the i-th take of a root block: the size before it, plus the block's own puts, minus i. Below 0 the
// queue is empty when this take comes; at 0 it has one value.
pub fn margin(size: u32, puts: u32, i: u32) -> i64
    ensures { result ≡ pos size +ℤ pos puts -ℤ pos i }
{
    (size as i64) + (puts as i64) - (i as i64)
}
