// How a change is put into a run.
// Kept: a u32 becomes a usize by `as`, since there is no `From`.
ghost use Rattle.std.specs.Prelude.{◌≡◌, ◌<◌, ◌≤◌, MatchResult};
ghost use Rattle.semantics.specs.declared.CallRefusal.TheVariants.{Number};
ghost use Rattle.looks.specs.Looks.{BodySize};
ghost use Rattle.changes.specs.Changes.{put};
ghost use Rattle.steps.specs.Stepping.{with_children, Fits};
ghost use Rattle.runtime.specs.View.{parts_of};
ghost use Rattle.runtime.specs.Parts.{record_of};

use crate::Run;
use changes::{Change, Made};
use records::child_record;
use semantics::{CallRefusal, Record};

impl Run {
    // A task's record: 9 number above 127.
    pub(crate) fn record(&self, task: u32) -> Result<Record, CallRefusal>
        ensures { MatchResult result (λ own. (task < 128) × (record_of self.now task ≡ own)) (λ k. (127 < task) × (k ≡ Number)) }
    {
        self.records
            .get(task as usize)
            .copied()
            .ok_or(CallRefusal::Number)
    }

    // How many instructions the body of a record has.
    // Kept: counted here, though `listing::body_size` counts so too: that one promises no bound.
    pub fn body_size(&self, own: Record) -> usize
        ensures size { BodySize result own (parts_of self.now) }
        ensures small { result ≤ 32 }
    {
        listing::body_instructions(&self.tables, usize::from(own.body)).len()
    }

    // What a call of a task changes: the task's record, and what is counted.
    pub(crate) fn put(&mut self, task: u32, change: &Change)
        ensures { parts_of self.new ≡ put task change.now (parts_of self.old) }
    {
        let task = task as usize;
        if task < self.records.len() {
            self.records[task] = change.own;
        }
        self.calls = self.calls.wrapping_add(1);
        self.weight = self.weight.wrapping_add(change.weight);
    }
}

// The records of the tasks made, the last first.
pub(crate) fn put_made(records: &mut [Record; 128], made: &Made)
    requires { Fits made.now }
    ensures { records.new ≡ with_children made.now.block.first made.now.block.apart made.now.record made.now.block.children records.old }
{
    let block = made.block;
    for i in (0..block.children).rev() {
        records[block.number(i)] = child_record(made.record, u32::from(i));
    }
}
