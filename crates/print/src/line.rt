// The lines of the text. They are no `impl Display`, for the reason that crate text gives.
ghost use Rattle.std.specs.Prelude.{◌≡◌, ◌+◌, ◌++◌, ◌≤◌, length};
ghost use Rattle.text.specs.Decimal.{number_field};
ghost use Rattle.print.specs.Lines.{operation_name, reply_field, answer_line, last_line};

use arrayvec::ArrayString;
use record::{AnswerRecord, Reply};
use text::put_number;

// Put or take.
fn operation_name(reply: Reply) -> &'static str
    ensures { result.now ≡ operation_name reply }
{
    match reply {
        Reply::Done => "put",
        Reply::Value(_) | Reply::Nothing => "take",
    }
}

// Process, serial, steps, helps and root block.
fn put_numbers<const N: usize>(
    process: u32,
    serial: u32,
    steps: u32,
    helps: u32,
    block: u32,
    page: &mut ArrayString<N>,
)
    requires { length page.old.bytes + length (number_field process ++ number_field serial ++ number_field steps ++
        number_field helps ++ number_field block) ≤ N }
    ensures { page.new.bytes ≡ page.old.bytes ++ number_field process ++ number_field serial ++ number_field steps ++
        number_field helps ++ number_field block }
{
    put_number(process as usize, page);
    put_number(serial as usize, page);
    put_number(steps as usize, page);
    put_number(helps as usize, page);
    put_number(block as usize, page);
}

// What a take answers; a put has no such field.
fn put_reply<const N: usize>(reply: Reply, page: &mut ArrayString<N>)
    requires { length page.old.bytes + length (reply_field reply) ≤ N }
    ensures { page.new.bytes ≡ page.old.bytes ++ reply_field reply }
{
    match reply {
        Reply::Done => {}
        Reply::Value(x) => put_number(x as usize, page),
        Reply::Nothing => page.push_str(" none"),
    }
}

// The line of an answer by its fields, also with numbers that no record holds.
pub fn put_fields<const N: usize>(
    reply: Reply,
    process: u32,
    serial: u32,
    steps: u32,
    helps: u32,
    block: u32,
    page: &mut ArrayString<N>,
)
    requires { length page.old.bytes + length (answer_line (record {
      process = process;
      reply = reply;
      steps = steps;
      helps = helps;
      serial = serial;
      block = block;
    })) ≤ N }
    ensures { page.new.bytes ≡ page.old.bytes ++ answer_line (record {
      process = process;
      reply = reply;
      steps = steps;
      helps = helps;
      serial = serial;
      block = block;
    }) }
{
    page.push_str(operation_name(reply));
    put_numbers(process, serial, steps, helps, block, page);
    put_reply(reply, page);
    page.push_str("\n");
}

// The line of an answer.
pub fn put_line<const N: usize>(a: AnswerRecord, page: &mut ArrayString<N>)
    requires { length page.old.bytes + length (answer_line a) ≤ N }
    ensures { page.new.bytes ≡ page.old.bytes ++ answer_line a }
{
    put_fields(
        a.reply,
        a.process as u32,
        a.serial,
        a.steps as u32,
        a.helps as u32,
        a.block,
        page,
    );
}

// The last line.
pub fn put_last<const N: usize>(refusal: u32, taken: usize, page: &mut ArrayString<N>)
    requires { length page.old.bytes + length (last_line refusal taken) ≤ N }
    ensures { page.new.bytes ≡ page.old.bytes ++ last_line refusal taken }
{
    page.push_str("end");
    put_number(refusal as usize, page);
    put_number(taken, page);
    page.push_str("\n");
}
