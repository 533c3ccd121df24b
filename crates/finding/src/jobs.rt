// The tasks that a list can make, found by their blocks of numbers.
ghost use Rattle.std.specs.Prelude.{◌+◌, ◌-◌, ◌≤◌, ◌<◌, ◌≡◌, get_or};
ghost use Rattle.finding.specs.Jobs.{child_of, fanned, made, holder, numbered};

use crate::Job;
use listing::{body_instructions, task_count};
use tasklist::{Instruction, Tables, added};

// Where an instruction makes tasks: the task that it belongs to, its place in that one's body, the first number that it
// gives, and how many tasks stand above those that it makes.
#[derive(Clone, Copy)]
struct Spot {
    job: Job,
    place: usize,
    first: usize,
    depth: usize,
}

impl Spot {
    // The child that a spawn makes here, or the first one of a fan of so many children.
    fn child(self, body: u8, footprint: u8, children: u8) -> Job
        ensures { result ≡ child_of self.job self.place self.first self.depth body footprint children }
    {
        Job {
            number: self.first,
            body: usize::from(body),
            footprint: usize::from(footprint),
            spawner: self.job.number,
            place: self.place,
            child: 0,
            children: usize::from(children),
            depth: self.depth,
        }
    }
    // The task whose block holds `k` that an instruction makes here; the one that it belongs to where it is no spawn and no
    // fan.
    #[tactic(auto, unfolding(crate::specs::Jobs::made))]
    fn made_by(self, tables: &Tables, k: usize, instruction: Instruction) -> Job
        ensures { result ≡ made tables.now self.job self.place self.first k self.depth instruction }
    {
        match instruction {
            Instruction::Spawn { body, footprint } => self.child(body, footprint, 0),
            Instruction::Fan {
                body,
                footprint,
                children,
            } => fanned_to(tables, k, self.child(body, footprint, children)),
            _ => self.job,
        }
    }
}

// The child of a fan whose block holds number `k`, from the fan's first child. Blocks of no numbers hold none.
#[tactic(auto, unfolding(crate::specs::Jobs::fanned))]
fn fanned_to(tables: &Tables, k: usize, first: Job) -> Job
    ensures { result ≡ fanned tables.now k first }
{
    let count = usize::from(task_count(tables, first.body));
    let above = k.saturating_sub(first.number);
    let ahead = above.checked_div(count).unwrap_or(0);
    Job {
        number: first.number + ahead * count,
        child: ahead,
        ..first
    }
}

// The child of `job` whose block holds number `k`, above the task's own; `job` itself where there is none.
fn holder_of(tables: &Tables, job: Job, k: usize, depth: usize) -> Job
    requires number_lt_k { job.number < k }
    requires k_bound { k < 128 }
    ensures { result ≡ holder tables.now job k depth }
{
    let mut number = job.number + 1;
    let instructions = body_instructions(tables, job.body);
    for (place, instruction) in instructions.iter().enumerate() {
        let next = number + added(*instruction, &tables.counts);
        if k < next {
            let spot = Spot {
                job,
                place,
                first: number,
                depth,
            };
            return spot.made_by(tables, k, *instruction);
        }
        number = next;
    }
    job
}

// The task of number `k`, from the first one (body 0, made by none) down to the blocks that hold it. A spawn names a higher
// body, so there are fewer than 32 tasks above it.
pub fn job_of(tables: &Tables, k: usize) -> Job
    requires { k < 128 }
    ensures { result ≡ numbered tables.now k }
{
    let mut job = Job::default();
    for depth in 0..32 {
        if k <= job.number {
            return job;
        }
        job = holder_of(tables, job, k, depth + 1);
    }
    job
}

// The last number of the block of the task that has number `n` and runs a body.
pub fn last_of(tables: &Tables, n: usize, body: usize) -> usize
    requires { n < 128 }
    ensures { result ≡ n + get_or tables.now.counts body 1 - 1 }
{
    (n + usize::from(task_count(tables, body))).saturating_sub(1)
}
