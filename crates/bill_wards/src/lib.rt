// The server's bill, shared among the wards of a run that is done: request 114. A layer above the runtime, knowing only its
// promises: it reads a run by what may be asked of one (crate `inspect`). The numbers alone stand in the crate `bill_shares`.
#![tactic(auto)]

ghost use Rattle.std.specs.Prelude.{◌≡◌, ◌≤◌, ◌%◌, ◌^◌, length, take, drop};
ghost use Rattle.std.proofs.lemmas.List.Edits.{sets};
ghost use Rattle.tasklist.specs.TaskList.{total};
ghost use Rattle.semantics.specs.Sound.{weighs};
ghost use Rattle.runtime.specs.View.{model};
ghost use Rattle.bill_wards.specs.Answers.{bill_refusal_number, refusal_of};
ghost use Rattle.bill_wards.specs.Promises.{Room, Turned, WardsOf, BilledAs};

use bill_shares::PLACES;
use runtime::Run;

// How many records a run has, one for each number that a task can have.
const RECORDS: u8 = 128;

// The state of a record whose task was never made.
const NEVER_MADE: u8 = 0;

// Why a bill is not shared.
#[derive(Clone, Copy, Debug, PartialEq, Eq)]
pub enum BillRefusal {
    // 28: a job is left in the run
    Left,
    // 29: there is no ward
    NoWard,
    // 17: the lent slice is too short
    Short,
}

// The number of request 114.
impl From<BillRefusal> for u8 {
    ghost from_gives = { λ refusal number. number ≡ bill_refusal_number refusal };

    fn from(refusal: BillRefusal) -> u8 {
        match refusal {
            BillRefusal::Left => 28,
            BillRefusal::NoWard => 29,
            BillRefusal::Short => 17,
        }
    }
}

// What was answered, as the number of request 114: 0 where the bill is shared.
pub fn billed_number(answer: Result<usize, BillRefusal>) -> u32
    ensures number { result ≡ refusal_of answer }
    ensures most { result ≤ 29 }
{
    match answer {
        Ok(_) => 0,
        Err(refusal) => u32::from(u8::from(refusal)),
    }
}

// The wards of a run, by rising number: so many numbers and weights at the front, zeros behind.
// Kept: two arrays beside a count, since a bill is shared by weights alone: an array of wards would be taken apart first.
#[derive(Clone, Copy)]
pub struct Wards {
    pub count: usize,
    pub numbers: [u8; PLACES],
    pub weights: [u32; PLACES],
}

// A walk over the records: the wards found so far, and the first number behind the last one's block.
#[derive(Clone, Copy)]
pub struct Walk {
    pub found: Wards,
    pub until: usize,
}

// The weight of task `n`, 0 above 127.
fn task_weight(run: Run, n: u32) -> u32
    ensures { result ≡ total weighs (take 1 (drop n (model run).tasks)) }
{
    inspect::task_record(run, n).map_or(0, |told| told.task.weight)
}

// The weight of `size` tasks from number `n` on, as many as there are.
fn block_weight(run: Run, n: u8, size: usize) -> u32
    ensures { result ≡ total weighs (take size (drop n (model run).tasks)) % 2 ^ 32 }
{
    let block = (u32::from(n)..u32::from(RECORDS)).take(size);
    block.fold(0, |sum, task| sum.wrapping_add(task_weight(run, task)))
}

// One number on: the first task made behind the last ward's block is a ward.
fn turned(run: Run, walk: Walk, n: u8) -> Walk
    requires { Room walk n }
    ensures { Turned run walk n result }
{
    if usize::from(n) < walk.until {
        return walk;
    }
    let Ok(told) = inspect::task_record(run, u32::from(n)) else {
        return walk;
    };
    let own = told.task;
    if own.state == NEVER_MADE {
        return walk;
    }
    let size = inspect::block_size(run, own.body);
    let mut found = walk.found;
    found.numbers[found.count] = n;
    found.weights[found.count] = block_weight(run, n, size);
    found.count += 1;
    Walk {
        found,
        until: usize::from(n) + size,
    }
}

// The wards of a run, jobs left or not.
pub fn wards_of(run: Run) -> Wards
    ensures { WardsOf run result }
{
    let none = Wards {
        count: 0,
        numbers: [0; PLACES],
        weights: [0; PLACES],
    };
    let mut walk = Walk {
        found: none,
        until: 1,
    };
    for n in 1..RECORDS {
        walk = turned(run, walk, n);
    }
    walk.found
}

// Shares a bill in pence among the wards, into the first places of `out`, by rising job number: 28 a job is left, 29 no ward, 17
// `out` too short.
pub fn shares(run: Run, bill: u32, out: &mut [u32]) -> Result<usize, BillRefusal>
    ensures { BilledAs run bill out.old out.new result }
{
    let left = inspect::tasks_left(run);
    if 0 < left {
        return Err(BillRefusal::Left);
    }
    let wards = wards_of(run);
    let count = wards.count;
    if count == 0 {
        return Err(BillRefusal::NoWard);
    }
    if out.len() < count {
        return Err(BillRefusal::Short);
    }
    let given = bill_shares::shares_of(bill, wards.weights, count);
    out[..count].copy_from_slice(&given[..count]);
    Ok(count)
}
