// Terms as their bytes.
ghost use Rattle.std.specs.Prelude.{◌≡◌, ◌++◌, ◌*◌, ◌≤◌, length, drop};
ghost use Rattle.desk_rules.specs.Entries.{term_size, term_bytes};

// Stores terms from the first output byte on. Bytes past them keep their content.
pub fn send(terms: &[u32], output: &mut [u8])
    requires { term_size * length terms.now ≤ length output.old }
    ensures { output.new ≡ term_bytes terms.now ++ drop (term_size * length terms.now) output.old }
{
    // By index: of chunks lent to be written, Rust's contracts do not say what the slice ends as.
    for (i, term) in terms.iter().enumerate() {
        output[4 * i..4 * i + 4].copy_from_slice(&term.to_le_bytes());
    }
}
