// Numbers in decimal, appended to a page: a text in an array, with room for N bytes.
//
// What prints here is no `impl Display`: by its contract `write!` may fail at any writer, also at one whose `write_str`
// never does, and these functions do not fail. A `requires` says that the page has room, and `push_str` appends.
#![tactic(auto)]

ghost use Rattle.std.specs.Prelude.{◌≡◌, ◌+◌, ◌++◌, ◌≤◌, length};
ghost use Rattle.text.specs.Decimal.{decimal, number_field};

use arrayvec::ArrayString;
use itoa::Buffer;

// A number in decimal.
pub fn put_decimal<const N: usize>(x: usize, page: &mut ArrayString<N>)
    requires { length page.old.bytes + length (decimal x) ≤ N }
    ensures { page.new.bytes ≡ page.old.bytes ++ decimal x }
{
    let mut digits = Buffer::new();
    page.push_str(digits.format(x));
}

// A space and a number.
pub fn put_number<const N: usize>(x: usize, page: &mut ArrayString<N>)
    requires { length page.old.bytes + length (number_field x) ≤ N }
    ensures { page.new.bytes ≡ page.old.bytes ++ number_field x }
{
    page.push_str(" ");
    put_decimal(x, page);
}
