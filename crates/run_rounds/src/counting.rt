// The rounds one after another, and what is reported of them.
ghost use Rattle.std.specs.Prelude.{◌≡◌};
ghost use Rattle.semantics.specs.Operations.{open_asked};
ghost use Rattle.model_rounds.specs.Rounds.{rounds_asked};
ghost use Rattle.run_rounds.specs.Reports.{reported, TabledAs};
ghost use Rattle.run_rounds.specs.Looking.{TallyOf};

use crate::looking::round_calls;
use crate::{ALL_WORKERS, MOST_ROUNDS, REPORTS, Rounded, RoundsRefusal, RoundsTable, Tally};
use runtime::{OpenRefusal, Run};

// The rounds from a run on until no task is left, at most MOST_ROUNDS: a run that came from open has none left by then.
fn tally(mut run: Run, workers: usize) -> Tally
    ensures { TallyOf run workers result }
{
    let mut calls = 0;
    for rounds in 0..MOST_ROUNDS {
        if run.order.left == 0 {
            return Tally { rounds, calls };
        }
        let batch = round_calls(run, workers);
        let count = usize::from(batch.count);
        run = sequence::all_called(run, &batch.kinds[..count], &batch.tasks[..count]);
        calls += u32::from(batch.count);
    }
    Tally {
        rounds: MOST_ROUNDS,
        calls,
    }
}

// The rounds that a publication takes with so many workers: 24 workers not 1 to 16, then as open.
pub fn publication_rounds(
    workers: u32,
    list: &[u8],
    memory: &[u32],
    weights: &[u16],
) -> Result<Rounded, RoundsRefusal>
    ensures { reported result ≡ rounds_asked workers list.now memory.now weights.now }
{
    let Ok(workers @ 1..=REPORTS) = usize::try_from(workers) else {
        return Err(RoundsRefusal::Workers);
    };
    let fresh = fresh::open(list, memory, weights)?;
    let asked = tally(fresh, workers);
    let whole = tally(fresh, ALL_WORKERS);
    Ok(Rounded {
        rounds: asked.rounds,
        calls: asked.calls,
        span: whole.rounds,
    })
}

// The reports with 1 to 16 workers, by one open and one count of the span: as open.
pub fn rounds_table(
    list: &[u8],
    memory: &[u32],
    weights: &[u16],
) -> Result<RoundsTable, OpenRefusal>
    ensures { TabledAs list.now memory.now weights.now (open_asked list.now memory.now weights.now) result }
{
    let run = fresh::open(list, memory, weights)?;
    let mut reports = [Tally {
        rounds: 0,
        calls: 0,
    }; REPORTS];
    for (place, report) in reports.iter_mut().enumerate() {
        *report = tally(run, place + 1);
    }
    let span = tally(run, ALL_WORKERS);
    Ok(RoundsTable {
        span: span.rounds,
        reports,
    })
}
