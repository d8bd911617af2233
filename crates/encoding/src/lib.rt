// The number in four bytes that stand among others, low byte first. Numbers of their own bytes are read and written by
// Rust's from_le_bytes and to_le_bytes; proofs/LittleEndian says what these have to do with the definitions. This crate
// knows nothing of what the numbers mean.
#![tactic(auto)]

ghost use Rattle.std.specs.Prelude.{◌≡◌, ◌+◌, ◌≤◌, length, take, drop};
ghost use Rattle.encoding.specs.Bytes.{number_of};

// The number in the four bytes from an index on.
pub fn word_at(bytes: &[u8], at: usize) -> u32
    requires { at + 4 ≤ length bytes.now }
    ensures { result ≡ number_of (take 4 (drop at bytes.now)) }
{
    u32::from_le_bytes([bytes[at], bytes[at + 1], bytes[at + 2], bytes[at + 3]])
}
