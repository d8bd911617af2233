// The tests of begin records, one by one.
ghost use Rattle.std.specs.Prelude.{◌≡◌, true, [], length, get_or};
ghost use Rattle.record.specs.StepRecords.{step_records};
ghost use Rattle.tree.specs.Shape.{shape_for};
ghost use Rattle.calls.specs.Refusals.{accepted, settings_refusal};
ghost use Rattle.calls.specs.Forecast.{planned_refusal, begins_refusal};

use calls::Refusal;
use record::StepRecord;

// A record, where `begun` has how many operations each process begins before it: 5, 12, 8.
fn planned_refusal(p: u32, l: u32, begun: &[u32], x: StepRecord) -> Result<(), Refusal>
    requires { (accepted (settings_refusal p l) ≡ true) × (length begun.now ≡ 8) }
    ensures { result ≡ planned_refusal (shape_for p l) (get_or begun.now x.process 0) x }
{
    let ill = x.is_ill_formed(p);
    let step = x.kind == 0;
    if ill {
        return Err(Refusal::IllFormed);
    }
    if step {
        return Err(Refusal::StepAmongBegins);
    }
    if l <= begun[x.process as usize] {
        return Err(Refusal::BegunAll);
    }
    Ok(())
}

// The first refusal of the records. There are at most 8 processes, and the library has no heap.
pub fn begins_refusal(p: u32, l: u32, begins: &[u8]) -> Result<(), Refusal>
    requires { accepted (settings_refusal p l) ≡ true }
    ensures { result ≡ begins_refusal (shape_for p l) [] (step_records begins.now) }
{
    let mut begun = [0u32; 8];
    for bytes in begins.as_chunks::<8>().0 {
        let x = StepRecord::from(*bytes);
        planned_refusal(p, l, &begun, x)?;
        let k = x.process as usize;
        begun[k] = begun[k] + 1;
    }
    Ok(())
}
