// What is asked of a run: how many tasks are left, a task's record, how many numbers a body's block has, a location's queue, a
// task's search, the accepted list's bytes.
// Kept: a u32 becomes a usize by `as`, since there is no `From`.
#![tactic(auto)]

ghost use Rattle.std.specs.Prelude.{◌<◌, ◌≡◌, [], ◌∷◌, length, MatchOption, MatchResult};
ghost use Rattle.semantics.specs.declared.CallRefusal.TheVariants.{Number};
ghost use Rattle.tasklist.specs.Encode.{encode};
ghost use Rattle.tasklist.specs.TaskList.{task_count};
ghost use Rattle.tasklist.specs.Tables.{list_of, capped};
ghost use Rattle.tasklist.specs.Answers.{written, write_answer, write_places};
ghost use Rattle.semantics.specs.Operations.{record_asked, queue_asked, search_asked};
ghost use Rattle.ahead.specs.Ahead.{accesses_of};
ghost use Rattle.runtime.specs.View.{model, context_of, SoundRun};
ghost use Rattle.runtime.specs.Asked.{recorded, QueuedAs};
ghost use Rattle.runtime.specs.Parts.{shown, all_shown};
ghost use Rattle.inspect.specs.Told.{told};

use ahead::{Access, Searched};
use runtime::{Recorded, Run};
use semantics::CallRefusal;
use std::marker::Model;
use tasklist::Short;

// A task's number: 9 number above 127.
// Kept: `looks::place_of` reads a number so too, but promises the refusal and the place of sound runs alone; a record and a search
// are promised of every run.
fn number_of(task: u32) -> Result<u8, CallRefusal>
    ensures { MatchResult result (λ n. (n ≡ task) × (n < 128)) (λ k. (k ≡ Number) × (127 < task)) }
{
    match u8::try_from(task) {
        Ok(number @ 0..=127) => Ok(number),
        _ => Err(CallRefusal::Number),
    }
}

// What a queue shows of a task with this mode: number + 256 * mode, nothing where the mode is 0.
#[tactic(auto, unfolding(runtime::specs::Parts::shown))]
fn shown(task: u8, mode: u8) -> Option<u16>
    ensures { MatchOption result (shown task mode ≡ []) (λ place. shown task mode ≡ place ∷ []) }
{
    (mode != 0).then_some(u16::from(task) + 256 * u16::from(mode))
}

// The places of a location's queue, from the front, at most 128.
// Kept: an array and a count, since there is no heap.
#[derive(Drop)]
struct Queue {
    count: usize,
    places: [u16; 128],
}

// Clauses see the places.
impl Model for Queue {
    ghost use Rattle.std.specs.Prelude.{ℕ, ◌≤◌, List, take};

    ghost Value = { List ℕ };

    ghost view = { λ q. take q.count q.places };

    ghost invariant = { λ q. q.count ≤ 128 };
}

impl Queue {
    fn of(run: &Run, location: usize) -> Queue
        ensures { result ≡ all_shown run.now location }
    {
        let mut places = [0; 128];
        let mut count = 0;
        for &task in run.order.as_slice() {
            let mode = arrays::mode_at(&run.modes, usize::from(task), location);
            if let Some(place) = shown(task, mode) {
                places[count] = place;
                count += 1;
            }
        }
        Queue { count, places }
    }

    fn as_slice(&self) -> &[u16]
        ensures { result.now ≡ self.now }
    {
        &self.places[..self.count]
    }
}

// How many tasks are left: those of the order.
#[tactic(auto, unfolding(plans::specs::View::model))]
pub fn tasks_left(run: Run) -> usize
    ensures { result ≡ length (model run).order }
{
    run.order.as_slice().len()
}

// How many numbers the block of a task of this body has, its own and those of all that come of it; 129 stands for more than
// 128.
pub fn block_size(run: Run, body: u8) -> usize
    ensures sound { SoundRun run → result ≡ capped (task_count (context_of run).list body) }
    ensures most { result < 256 }
{
    usize::from(listing::task_count(&run.tables, usize::from(body)))
}

// One task's record with its 64 modes: 9 number above 127.
pub fn task_record(run: Run, task: u32) -> Result<Recorded, CallRefusal>
    ensures { recorded result ≡ record_asked (model run) task }
{
    let n = usize::from(number_of(task)?);
    Ok(Recorded {
        task: run.records[n],
        modes: arrays::row_of(&run.modes, n),
    })
}

// Writes a location's queue, number + 256 * mode for each task from the front: 16 location not below C, 17 `out` too
// short.
pub fn location_queue(run: Run, location: u32, out: &mut [u16]) -> Result<usize, CallRefusal>
    ensures { QueuedAs (queue_asked (context_of run) (model run) location (length out.old)) out.old out.new result }
{
    if u32::from(run.tables.locations) <= location {
        return Err(CallRefusal::Location);
    }
    let queue = Queue::of(&run, location as usize);
    let places = queue.as_slice();
    if out.len() < places.len() {
        return Err(CallRefusal::Short);
    }
    out[..places.len()].copy_from_slice(places);
    Ok(places.len())
}

// The search of a task for what holds these accesses back, those of its start (`ahead::wanted_of`) or the one of its step
// (`ahead::wanted_at`): 9 number above 127, 10 not in the order.
pub fn task_search(run: Run, task: u32, wanted: &[Access]) -> Result<Searched, CallRefusal>
    ensures { told result ≡ search_asked (model run) task (accesses_of wanted.now) }
{
    let number = number_of(task)?;
    let at = run.order.position(number).ok_or(CallRefusal::Absent)?;
    Ok(ahead::search_ahead(run.order.front(at), &run.modes, wanted))
}

// Writes the accepted list's records, its own bytes but for a file of none: 17 `out` too short.
pub fn list_bytes(run: Run, out: &mut [u8]) -> Result<usize, Short>
    ensures { (written result ≡ write_answer (encode (list_of run.tables)) out.old) × (out.new ≡ write_places (encode (list_of run.tables)) out.old) }
{
    writer::write(&run.tables, out)
}
