// Dictionary entries, and those that another than the licensed process puts.
ghost use Rattle.std.specs.Prelude.{◌≡◌, position};
ghost use Rattle.record.specs.StepRecords.{step_record, step_records};
ghost use Rattle.desk_rules.specs.Entries.{is_entry, is_foreign};
ghost use Rattle.desk_terms.specs.Clauses.Foreign.{before_foreign};

use record::StepRecord;

pub fn is_entry(value: u32) -> bool
    ensures { result ≡ is_entry value }
{
    2147483648 <= value
}

// Whether a record begins a put of an entry by another than the licensed process.
#[tactic(auto, unfolding(desk_rules::specs::Entries::is_foreign))]
fn is_foreign(licensed: u32, x: StepRecord) -> bool
    ensures { result ≡ is_foreign licensed x }
{
    x.is_begin_put() && is_entry(x.value) && x.process as u32 != licensed
}

// The place of the first such record.
fn first_foreign(licensed: u32, records: &[[u8; 8]]) -> Option<usize>
    ensures { result ≡ position (λ bytes. is_foreign licensed (step_record bytes)) records.now }
{
    records
        .iter()
        .position(|bytes| is_foreign(licensed, StepRecord::from(*bytes)))
}

// How many records stand before it; all of them where there is none.
pub fn before_foreign(licensed: u32, records: &[u8]) -> usize
    ensures { result ≡ before_foreign licensed (step_records records.now) }
{
    let (records, _) = records.as_chunks::<8>();
    first_foreign(licensed, records).unwrap_or(records.len())
}
