// Opening a run.
ghost use Rattle.std.specs.Prelude.{◌≡◌};
ghost use Rattle.semantics.specs.Run.{fixed_weights, is_weight};
ghost use Rattle.semantics.specs.Access.{every};
ghost use Rattle.semantics.specs.Operations.{open_asked};
ghost use Rattle.runtime.specs.Asked.{OpenedAs};

use crate::state::initial;
use runtime::{OpenRefusal, Run};

// The weights that hold where no others are asked for.
#[tactic(auto, unfolding(semantics::specs::Run::fixed_weights))]
pub fn todays_weights() -> [u16; 15]
    ensures { result ≡ fixed_weights }
{
    [5, 2, 1, 1, 1, 1, 3, 4, 1, 8, 1, 8, 4, 1, 1]
}

// Whether each number is in 1 to 1000.
#[tactic(auto, unfolding(semantics::specs::Run::is_weight))]
fn all_weights(numbers: &[u16]) -> bool
    ensures { result ≡ every is_weight numbers.now }
{
    numbers.iter().all(|number| (1..=1000).contains(number))
}

// Opens a run of a job list with a memory of as many numbers as it has locations, and a table of weights: as check, then 8,
// 21, 22.
// Kept: list, memory and weights side by side. Whoever calls has three slices, and open takes them apart in its first lines: a
// struct of them would be built at each call for that alone.
pub fn open(list: &[u8], memory: &[u32], weights: &[u16]) -> Result<Run, OpenRefusal>
    ensures { OpenedAs list.now weights.now (open_asked list.now memory.now weights.now) result }
{
    let tables = reader::read(list)?;
    let locations = usize::from(tables.locations);
    if memory.len() != locations {
        return Err(OpenRefusal::Length);
    }
    let table = <[u16; 15]>::try_from(weights).map_err(|_| OpenRefusal::Table)?;
    if !all_weights(&table) {
        return Err(OpenRefusal::Weight);
    }
    Ok(initial(tables, memory, table))
}
