// The fresh run, and the record of a task that was never made.
ghost use Rattle.std.specs.Prelude.{◌-◌, ◌≤◌, ◌≡◌, ◌++◌, length, take, replicate};
ghost use Rattle.plans.specs.View.{blank_record};
ghost use Rattle.runtime.specs.Parts.{InitialOf};

use arrays::Order;
use runtime::Run;
use semantics::Record;
use tasklist::Tables;

// The record of a task that was never made.
#[tactic(auto, unfolding(plans::specs::View::blank_record))]
pub fn blank_record() -> Record
    ensures { result ≡ blank_record }
{
    Record {
        state: 0,
        body: 0,
        pc: 0,
        registers: [0u32; 4],
        steps: 0,
        fault: 0,
        weight: 0,
    }
}

// The memory of a run: these numbers, then zeros.
pub fn memory_of(numbers: &[u32]) -> [u32; 64]
    requires { length numbers.now ≤ 64 }
    ensures { take (length numbers.now) result ≡ numbers.now }
{
    let mut memory = [0u32; 64];
    memory[..numbers.len()].copy_from_slice(numbers);
    memory
}

// The modes of a fresh run: task 0 writes each location, and no other task is made.
pub fn root_modes(locations: usize) -> [u8; 8192]
    requires { locations ≤ 64 }
    ensures { result ≡ replicate locations 2 ++ replicate (8192 - locations) 0 }
{
    let mut modes = [0u8; 8192];
    modes[..locations].fill(2);
    modes
}

// The fresh run of a list and a memory that fits it, under these weights.
pub fn initial(tables: Tables, numbers: &[u32], weights: [u16; 15]) -> Run
    requires { (length numbers.now ≡ tables.locations) × (tables.locations ≤ 64) }
    ensures { InitialOf tables numbers.now weights result }
{
    let memory = memory_of(numbers);
    let modes = root_modes(numbers.len());
    let blank = blank_record();
    let mut records = [blank; 128];
    records[0] = Record { state: 1, ..blank };
    Run {
        tables,
        memory,
        records,
        modes,
        order: Order {
            places: [0u8; 128],
            left: 1,
        },
        calls: 0,
        weight: 0,
        weights,
    }
}
