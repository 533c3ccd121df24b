// Start and end on a run.
ghost use Rattle.semantics.specs.Plan.{start, «end»};
ghost use Rattle.runtime.specs.Calls.{MadeAs, CalledAs};

use crate::{Called, Run};
use changes::{end_change, start_change};
use semantics::CallRefusal;

impl Run {
    // Starts a task: 9 number above 127, 10 not in the order, 11 already started, 19 and 20 held back.
    pub fn try_start(&mut self, task: u32) -> Result<(), CallRefusal>
        ensures { MadeAs start self.old task result self.new }
    {
        let own = self.record(task)?;
        let change = start_change(&self.order, &self.modes, own, task, self.weights)?;
        self.put(task, &change);
        Ok(())
    }

    // Ends a task: 9 number above 127, 10 not in the order, 13 not started, 15 not at its end.
    pub fn try_end(&mut self, task: u32) -> Result<(), CallRefusal>
        ensures { MadeAs «end» self.old task result self.new }
    {
        let own = self.record(task)?;
        let size = self.body_size(own);
        let change = end_change(&mut self.order, own, size, task, self.weights)?;
        self.put(task, &change);
        Ok(())
    }

    // The same of a run by value.
    pub fn start(mut self, task: u32) -> Called
        ensures { CalledAs start self task result }
    {
        let answer = self.try_start(task);
        Called { answer, run: self }
    }

    pub fn end(mut self, task: u32) -> Called
        ensures { CalledAs «end» self task result }
    {
        let answer = self.try_end(task);
        Called { answer, run: self }
    }
}
