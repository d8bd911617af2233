// The number of a record in the whole list, from 1.
ghost use Rattle.std.specs.Prelude.{◌≡◌, ◌+◌, ◌≤◌};

// The number of the record that follows so many others. No run takes so many records that it is no word.
pub fn number_after(records: usize) -> u32
    requires { records + 1 ≤ 4294967295 }
    ensures { result ≡ records + 1 }
{
    (records + 1) as u32
}
