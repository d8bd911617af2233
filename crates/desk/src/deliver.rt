// What the desk does: it plays a list by the calls of the queue and delivers what its finished takes received.
ghost use Rattle.std.specs.Prelude.{◌≡◌, ◌≢◌, false, List, ◌++◌, ℕ, length, MatchResult};
ghost use Rattle.record.specs.StepRecords.{step_size};
ghost use Rattle.calls.specs.Refusals.{torn};
ghost use Rattle.desk_rules.specs.declared.DeskRefusal.TheVariants.{Queue};
ghost use Rattle.desk_rules.specs.Desk.{desk};
ghost use Rattle.desk_listed.specs.Left.{desk_left};
ghost use Rattle.desk.specs.Clauses.Deliverable.{Allowed, Plain, EndsForeign};

use desk_listed::listed::deliver_listed;
use desk_rules::DeskRefusal;
use desk_terms::entries::before_foreign;
use queue::exports::{otq_forecast, otq_list_order};

// What a call of the queue comes to, by the number that it returns, 0 for none: the desk knows the queue's calls as C has
// them.
fn accepted(number: u32) -> Result<(), DeskRefusal>
    ensures { MatchResult result (λ _. number ≡ 0) (λ why. (number ≢ 0) × (why ≡ Queue number)) }
{
    if number != 0 {
        return Err(DeskRefusal::Queue(number));
    }
    Ok(())
}

// Plays a list without foreign entries and delivers its terms. The order list, of at most 4,000 operations, has a fixed
// buffer: the library has no heap.
fn deliver_plain(
    p: u32,
    l: u32,
    licensed: u32,
    records: &[u8],
    table: &mut [u32],
    output: &mut [u8],
) -> Result<usize, DeskRefusal>
    requires { Allowed p l licensed × Plain licensed records.now }
    ensures { desk_left result table.new output.new ≡ desk p l licensed records.now table.old output.old }
{
    let mut order = [0u8; 32000];
    let listed = otq_list_order(p, l, records, table, &mut order);
    accepted(listed.refusal)?;
    let length = listed.length as usize;
    deliver_listed(p, l, records, table, &order[..length], output)
}

// Plays a list whose last record is a foreign entry: 14, unless the queue refuses it or one before it. Whatever follows
// it in the whole list plays no part. List the order plays without answers, so that none is refused for want of room,
// and its list always fits. A function for this call and that of deliver_plain would be longer than either.
fn refuse_foreign(
    p: u32,
    l: u32,
    licensed: u32,
    records: &[u8],
    table: &mut [u32],
) -> Result<usize, DeskRefusal>
    requires { Allowed p l licensed × EndsForeign licensed records.now }
    ensures { (more output : List ℕ) → torn step_size (length (records.now ++ more)) ≡ false
        → desk_left result table.new output ≡ desk p l licensed (records.now ++ more) table.old output }
{
    let mut order = [0u8; 32000];
    let listed = otq_list_order(p, l, records, table, &mut order);
    accepted(listed.refusal)?;
    Err(DeskRefusal::ForeignEntry)
}

// Delivers the terms that finished takes received, and returns how many. What it returns and all that it leaves in the table and in the
// output is what the rules of the desk say.
pub fn deliver(
    p: u32,
    l: u32,
    licensed: u32,
    records: &[u8],
    table: &mut [u32],
    output: &mut [u8],
) -> Result<usize, DeskRefusal>
    ensures { desk_left result table.new output.new ≡ desk p l licensed records.now table.old output.old }
{
    // without begins only p and l are tested
    let settings = otq_forecast(p, l, &records[..0]);
    accepted(settings.refusal)?;
    if p <= licensed {
        return Err(DeskRefusal::Licence);
    }
    let before = before_foreign(licensed, records);
    if records.len() % 8 != 0 || before == records.len() / 8 {
        return deliver_plain(p, l, licensed, records, table, output);
    }
    refuse_foreign(p, l, licensed, &records[..8 * before + 8], table)
}
