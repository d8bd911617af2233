// The queue's four calls, as a static library for programs in C and Rust: those of crate queue.
#![tactic(auto)]

ghost use Rattle.std.specs.Prelude.{◌≡◌, true, ◌*◌, length, take};
ghost use Rattle.record.specs.StepRecords.{step_records};
ghost use Rattle.record.specs.AnswerRecords.{answer_size};
ghost use Rattle.tree.specs.Layout.{words_needed};
ghost use Rattle.calls.specs.Refusals.{accepted, call_refusal};
ghost use Rattle.tree.specs.Shape.{shape_for};
ghost use Rattle.calls.specs.Run.{run as run_of};
ghost use Rattle.calls.specs.ListOrder.{list_order};
ghost use Rattle.calls.specs.CheckLog.{check_log};
ghost use Rattle.calls.specs.LogVerdict.{Judges};
ghost use Rattle.calls.specs.Demand3.{Demand3};
ghost use Rattle.calls.specs.Forecast.{forecast as forecast_of, Forecasts};
ghost use Rattle.superblocks.specs.Supers.{SupersNear};
ghost use Rattle.block_numbers.specs.BlockNumbers.{NumbersTell};
ghost use Rattle.queue.specs.Exported.{run_exported, list_exported, check_exported, forecast_exported};

use queue::{OtqCheck, OtqForecast, OtqList, OtqRun};

// Run.
#[unsafe(no_mangle)]
pub extern "C" fn otq_run(
    p: u32,
    l: u32,
    records: &[u8],
    table: &mut [u32],
    answers: &mut [u8],
) -> OtqRun
    ensures rules { run_exported result table.new answers.new ≡ run_of p l records.now table.old answers.old }
    ensures demand3 { accepted (call_refusal p l (length table.old) (length records.now)) ≡ true →
        Demand3 p l (take result.taken (step_records records.now)) (take (answer_size * result.answers) answers.new) (take (words_needed (shape_for p l)) table.new) }
    ensures supers { accepted (call_refusal p l (length table.old) (length records.now)) ≡ true →
        SupersNear (shape_for p l) (take (words_needed (shape_for p l)) table.new) }
    ensures numbers { accepted (call_refusal p l (length table.old) (length records.now)) ≡ true →
        NumbersTell (shape_for p l) (take result.taken (step_records records.now)) (take (words_needed (shape_for p l)) table.new) }
{
    queue::exports::otq_run(p, l, records, table, answers)
}

// List the order.
#[unsafe(no_mangle)]
pub extern "C" fn otq_list_order(
    p: u32,
    l: u32,
    records: &[u8],
    table: &mut [u32],
    output: &mut [u8],
) -> OtqList
    ensures { list_exported result table.new output.new ≡ list_order p l records.now table.old output.old }
{
    queue::exports::otq_list_order(p, l, records, table, output)
}

// Check a log.
#[unsafe(no_mangle)]
pub extern "C" fn otq_check_log(
    p: u32,
    l: u32,
    records: &[u8],
    log: &[u8],
    table: &mut [u32],
) -> OtqCheck
    ensures rules { check_exported result table.new ≡ check_log p l records.now log.now table.old }
    ensures judges { Judges p l (length table.old) records.now log.now result.verdict result.index }
{
    queue::exports::otq_check_log(p, l, records, log, table)
}

// Forecast.
#[unsafe(no_mangle)]
pub extern "C" fn otq_forecast(p: u32, l: u32, begins: &[u8]) -> OtqForecast
    ensures rules { forecast_exported result ≡ forecast_of p l begins.now }
    ensures runs { Forecasts p l begins.now (forecast_exported result) }
{
    queue::exports::otq_forecast(p, l, begins)
}
