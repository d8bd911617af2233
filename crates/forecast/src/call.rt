// The forecast: what a list with some begins will need.
ghost use Rattle.std.specs.Prelude.{◌≡◌, ◌≤◌};
ghost use Rattle.calls.specs.Forecast.{record_limit, forecast_refusal, forecast as forecast_of, Forecasts};
ghost use Rattle.forecast.specs.Returned.{returned};

use crate::Forecast;
use crate::begins::begins_refusal;
use calls::Refusal;
use refusals::before::{of_bytes, settings};
use table::layout::Tree;

// Why the call is refused: 1, 2, 4, then the tests of the records.
#[tactic(auto, unfolding(calls::specs::Forecast::forecast_refusal, calls::specs::Refusals::first_refusal, calls::specs::Refusals::accepted))]
fn refusal_of(p: u32, l: u32, begins: &[u8]) -> Result<(), Refusal>
    ensures { result ≡ forecast_refusal p l begins.now }
{
    settings(p, l)?;
    of_bytes(begins.len())?;
    begins_refusal(p, l, begins)
}

// The most records of an operation: its begin and its own steps.
fn record_limit(tree: Tree) -> usize
    ensures { result ≡ record_limit tree }
{
    40 * tree.height() + 2
}

// What p, l and begin records alone tell of every run of them. It returns what the rules say; and of a forecast without
// refusal, every list with these begins in this order stays within it.
pub fn forecast(p: u32, l: u32, begins: &[u8]) -> Result<Forecast, Refusal>
    ensures rules { returned result ≡ forecast_of p l begins.now }
    ensures runs { Forecasts p l begins.now (returned result) }
{
    refusal_of(p, l, begins)?;
    let tree = Tree::new(p, l);
    let n = begins.len() / 8;
    Ok(Forecast {
        words: tree.words_needed(),
        answer_bytes: 16 * n,
        records: n * record_limit(tree),
    })
}
