// The calls as programs in C and Rust have them: crate queue_c exports them. A refusal is its number, a verdict 0 same,
// 1 differs, 2 refused.
ghost use Rattle.std.specs.Prelude.{◌≡◌, true, List, ℕ, ◌*◌, length, take};
ghost use Rattle.record.specs.StepRecords.{step_records};
ghost use Rattle.record.specs.AnswerRecords.{answer_size};
ghost use Rattle.tree.specs.Layout.{words_needed};
ghost use Rattle.calls.specs.Refusals.{accepted, call_refusal};
ghost use Rattle.tree.specs.Shape.{shape_for};
ghost use Rattle.calls.specs.Run.{run as run_of};
ghost use Rattle.calls.specs.ListOrder.{list_order};
ghost use Rattle.calls.specs.CheckLog.{check_log};
ghost use Rattle.calls.specs.LogVerdict.{Judges};
ghost use Rattle.calls.specs.Demand3.{Demand3};
ghost use Rattle.calls.specs.Forecast.{forecast as forecast_of, Forecasts};
ghost use Rattle.superblocks.specs.Supers.{SupersNear};
ghost use Rattle.block_numbers.specs.BlockNumbers.{NumbersTell};
ghost use Rattle.forecast.specs.Returned.{returned};
ghost use Rattle.queue.specs.Left.{run_left, list_left, check_left};
ghost use Rattle.queue.specs.Exported.{run_exported, list_exported, check_exported, forecast_exported};

use crate::check_log::check_log;
use crate::list_order::list_order;
use crate::run::run;
use crate::{OtqCheck, OtqForecast, OtqList, OtqRun, Ran};
use calls::{Refusal, Verdict};
use forecast::Forecast;
use forecast::call::forecast;

impl From<Ran> for OtqRun {
    ghost from_gives = { λ r x. (table answers : List ℕ) → run_exported x table answers ≡ run_left r table answers };

    #[tactic(auto, unfolding(crate::specs::Exported::run_exported, crate::specs::Left::run_left))]
    fn from(r: Ran) -> OtqRun {
        OtqRun {
            refusal: r.refusal_number(),
            taken: r.taken as u64,
            answers: r.answers as u64,
        }
    }
}

impl From<Result<usize, Refusal>> for OtqList {
    ghost from_gives = { λ r x. (table output : List ℕ) → list_exported x table output ≡ list_left r table output };

    #[tactic(auto, unfolding(crate::specs::Exported::list_exported, crate::specs::Left::list_left))]
    fn from(r: Result<usize, Refusal>) -> OtqList {
        match r {
            Ok(length) => OtqList {
                refusal: 0,
                length: length as u64,
            },
            Err(why) => OtqList {
                refusal: u32::from(why),
                length: 0,
            },
        }
    }
}

impl From<Result<Verdict, Refusal>> for OtqCheck {
    ghost from_gives = { λ r x. (table : List ℕ) → check_exported x table ≡ check_left r table };

    #[tactic(auto, unfolding(crate::specs::Exported::check_exported, crate::specs::Left::check_left, calls::specs::CheckLog::checked, calls::specs::CheckLog::verdict_refusal, calls::specs::CheckLog::verdict_number, calls::specs::CheckLog::verdict_index))]
    fn from(r: Result<Verdict, Refusal>) -> OtqCheck {
        match r {
            Ok(Verdict::Same) => OtqCheck {
                refusal: 0,
                verdict: 0,
                index: 0,
            },
            Ok(Verdict::Differs(i)) => OtqCheck {
                refusal: 0,
                verdict: 1,
                index: i,
            },
            Err(why) => OtqCheck {
                refusal: u32::from(why),
                verdict: 2,
                index: 0,
            },
        }
    }
}

impl From<Result<Forecast, Refusal>> for OtqForecast {
    ghost from_gives = { λ r x. forecast_exported x ≡ returned r };

    #[tactic(auto, unfolding(crate::specs::Exported::forecast_exported, forecast::specs::Returned::returned))]
    fn from(r: Result<Forecast, Refusal>) -> OtqForecast {
        match r {
            Ok(f) => OtqForecast {
                refusal: 0,
                words: f.words as u64,
                answer_bytes: f.answer_bytes as u64,
                records: f.records as u64,
            },
            Err(why) => OtqForecast {
                refusal: u32::from(why),
                words: 0,
                answer_bytes: 0,
                records: 0,
            },
        }
    }
}

// Run.
pub fn otq_run(p: u32, l: u32, records: &[u8], table: &mut [u32], answers: &mut [u8]) -> OtqRun
    ensures rules { run_exported result table.new answers.new ≡ run_of p l records.now table.old answers.old }
    ensures demand3 { accepted (call_refusal p l (length table.old) (length records.now)) ≡ true →
        Demand3 p l (take result.taken (step_records records.now)) (take (answer_size * result.answers) answers.new) (take (words_needed (shape_for p l)) table.new) }
    ensures supers { accepted (call_refusal p l (length table.old) (length records.now)) ≡ true →
        SupersNear (shape_for p l) (take (words_needed (shape_for p l)) table.new) }
    ensures numbers { accepted (call_refusal p l (length table.old) (length records.now)) ≡ true →
        NumbersTell (shape_for p l) (take result.taken (step_records records.now)) (take (words_needed (shape_for p l)) table.new) }
{
    OtqRun::from(run(p, l, records, table, answers))
}

// List the order.
pub fn otq_list_order(
    p: u32,
    l: u32,
    records: &[u8],
    table: &mut [u32],
    output: &mut [u8],
) -> OtqList
    ensures { list_exported result table.new output.new ≡ list_order p l records.now table.old output.old }
{
    OtqList::from(list_order(p, l, records, table, output))
}

// Check a log.
pub fn otq_check_log(p: u32, l: u32, records: &[u8], log: &[u8], table: &mut [u32]) -> OtqCheck
    ensures rules { check_exported result table.new ≡ check_log p l records.now log.now table.old }
    ensures judges { Judges p l (length table.old) records.now log.now result.verdict result.index }
{
    OtqCheck::from(check_log(p, l, records, log, table))
}

// Forecast.
pub fn otq_forecast(p: u32, l: u32, begins: &[u8]) -> OtqForecast
    ensures rules { forecast_exported result ≡ forecast_of p l begins.now }
    ensures runs { Forecasts p l begins.now (forecast_exported result) }
{
    OtqForecast::from(forecast(p, l, begins))
}
