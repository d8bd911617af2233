// Prints the table of node starts: a line a row, one space between numbers. It prints the library's constants and
// computes no start.
#![tactic(auto)]

ghost use Rattle.std.specs.Prelude.{◌≡◌, ◌+◌, ◌++◌, ◌≤◌, length};
ghost use Rattle.node_starts.specs.NodeStarts.{node_starts};
ghost use Rattle.print_nodes.specs.NodesText.{spaced, row_line, table_text};

use arrayvec::ArrayString;
use node_starts::node_starts;
use std::io;
use std::io::Write;
use text::{put_decimal, put_number};

// Numbers, one space between two.
fn put_spaced<const N: usize>(numbers: &[u32], page: &mut ArrayString<N>)
    requires { length page.old.bytes + length (spaced numbers.now) ≤ N }
    ensures { page.new.bytes ≡ page.old.bytes ++ spaced numbers.now }
{
    let Some((first, others)) = numbers.split_first() else {
        return;
    };
    put_decimal(*first as usize, page);
    for x in others {
        put_number(*x as usize, page);
    }
}

// A row's line.
fn put_row<const N: usize>(row: &[u32], page: &mut ArrayString<N>)
    requires { length page.old.bytes + length (row_line row.now) ≤ N }
    ensures { page.new.bytes ≡ page.old.bytes ++ row_line row.now }
{
    put_spaced(row, page);
    page.push_str("\n");
}

// The text of the table.
fn table_text() -> ArrayString<153>
    ensures { result.bytes ≡ table_text node_starts }
{
    let table = node_starts();
    let mut page = ArrayString::new();
    for row in &table {
        put_row(row, &mut page);
    }
    page
}

// Only writes; the text is made by table_text. No contract of the library says which bytes reach standard output, so
// main promises nothing of them. A write that fails ends it with the error.
fn main(rt: HostRuntime) -> io::Result<()> {
    rt.stdout().write_all(table_text().as_bytes())
}
