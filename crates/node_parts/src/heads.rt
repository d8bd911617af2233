// The heads of the nodes: read, and raised.
ghost use Rattle.std.specs.Prelude.{◌≡◌, [], ◌<◌, length, get_or};
ghost use Rattle.tree.specs.Memory.{raise as raise_of, head_is, memory_of};

// The head of v.
pub fn head_of(heads: &[u32], v: u32) -> u32
    requires { v < length heads.now }
    ensures { result ≡ get_or heads.now v 1 }
{
    heads[v as usize]
}

// The head of v raised from h to h + 1, and whether it moved. If it is no longer h, another process has raised it
// already, and it stays.
pub fn raise(heads: &mut [u32], v: u32, h: u32) -> bool
    requires { (v < length heads.old) × (h < 65536) }
    ensures head { heads.new ≡ (raise_of (memory_of [] heads.old) v h).heads }
    ensures told { result ≡ head_is (memory_of [] heads.old) v h }
{
    if head_of(heads, v) == h {
        heads[v as usize] = h + 1;
        return true;
    }
    false
}
