// Prints a run: step records from standard input, the answers and how the run ended to standard output.
#![tactic(auto)]

ghost use Rattle.std.specs.Prelude.{◌≡◌, List, [], ◌++◌, ℕ, ◌<◌, ◌≤◌, length};
ghost use Rattle.print.specs.Printed.{print_run, ReadFrom};

use arrayvec::ArrayString;
use print::page::put_printed;
use queue::run::run;
use std::io;
use std::io::{Read, Stdin, Write};

// The text of every input of which this was read: `records`, the bytes that the record buffer holds, and `next`, the
// byte after them, if there is one. The longest text has room: 96 lines of at most 50 bytes each, and a last line of at
// most 36. The arrays are of the size that p = 4 and L = 24 need, so that nothing can run out of memory.
fn print_input(records: &[u8], next: &[u8]) -> ArrayString<4836>
    requires { ReadFrom (records.now ++ next.now) records.now next.now }
    ensures { (input : List ℕ) → ReadFrom input records.now next.now → result.bytes ≡ print_run input }
{
    let mut page = ArrayString::new();
    if next.len() != 0 {
        page.push_str("long\n");
        return page;
    }
    let mut table = [0u32; 2065];
    let mut answers = [0u8; 1536];
    let ran = run(4, 24, records, &mut table, &mut answers);
    let number = ran.refusal_number();
    put_printed(&answers, ran.answers, number, ran.taken, &mut page);
    page
}

// Reads until `buf` is full, the input ends or a read fails, and returns what was read. Of std's methods `read_to_end`
// allocates, and `read_exact` does not tell how much there was of an input that ends first.
fn read_full<'a>(input: &mut Stdin, buf: &'a mut [u8]) -> &'a [u8]
    ensures { length result.now ≤ length buf.old }
{
    let mut done = 0;
    while done < buf.len() {
        let n = input.read(&mut buf[done..]).unwrap_or(0);
        if n == 0 {
            break;
        }
        done += n;
    }
    &buf[..done]
}

// Reads the byte after the record buffer, where that is full: one byte more is enough to know that the input is longer.
// Returns how many bytes it put at the start of `next`, and no slice of it: beside a slice that is lent on, no clause
// can say that `next` stays as it was.
fn read_next(got: usize, input: &mut Stdin, next: &mut [u8]) -> usize
    ensures prefix_len { result ≤ length next.new }
    ensures value { got < 65536 → (result ≡ 0) × (next.new ≡ next.old) }
{
    if got < 65536 {
        return 0;
    }
    read_full(input, next).len()
}

// Only reads and writes; the text is made by print_input. No contract of the library says which bytes come from
// standard input or reach standard output, so main promises nothing of them. A read that fails counts as the end of
// the input; a write that fails ends main with the error.
fn main(rt: HostRuntime) -> io::Result<()> {
    let mut records = [0u8; 65536];
    let mut next = [0u8; 1];
    let mut input = rt.stdin();
    let first = read_full(&mut input, &mut records);
    let more = read_next(first.len(), &mut input, &mut next);
    let text = print_input(first, &next[..more]);
    rt.stdout().write_all(text.as_bytes())
}
