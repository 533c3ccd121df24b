// The step on a run: what it changes is put into it, then the records of the tasks made.
ghost use Rattle.semantics.specs.Plan.{step};
ghost use Rattle.runtime.specs.Calls.{SteppedAs, CalledAs};

use crate::put::put_made;
use crate::{Called, Run};
use semantics::CallRefusal;
use steps::step_change;
use tables::Block;

impl Run {
    // One instruction, and the tasks that it makes, if it makes some: 9 number above 127, 10 not in the order, 13 not started, 14
    // at its end, 19 and 20 held back.
    pub fn try_step(&mut self, task: u32) -> Result<Option<Block>, CallRefusal>
        ensures { SteppedAs self.old task result self.new }
    {
        let own = self.record(task)?;
        let change = step_change(
            &self.tables,
            &mut self.memory,
            &mut self.modes,
            &mut self.order,
            own,
            task,
            self.weights,
        )?;
        self.put(task, &change);
        let Some(made) = change.made else {
            return Ok(None);
        };
        put_made(&mut self.records, &made);
        Ok(Some(made.block))
    }

    // The same of a run by value.
    pub fn step(mut self, task: u32) -> Called
        ensures { CalledAs step self task result }
    {
        let answer = self.try_step(task).map(|_| ());
        Called { answer, run: self }
    }
}
