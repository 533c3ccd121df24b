// A run that is lent: start, step and end on a run behind a `&mut`; and the lender, which holds one run and lends it to each
// call of a piece of input.
#![tactic(auto)]

ghost use Rattle.std.specs.Prelude.{◌≤◌, ◌<◌, ◌≡◌, ◌∷◌, [], length};
ghost use Rattle.semantics.specs.Plan.{start, step, «end»};
ghost use Rattle.runtime.specs.View.{model, context_of, SoundRun};
ghost use Rattle.runtime.specs.Calls.{CallsMade};
ghost use Rattle.lent.specs.Handed.{CalledIn};
ghost use Rattle.lent.specs.Lines.{calls_in, line_number, line_refusal_number, lines};
ghost use Rattle.lent.specs.Pieces.{LentOf};

use runtime::{Called, Run};
use semantics::CallRefusal;

// The bytes of an input that the lender takes at once.
pub const PIECE: usize = 512;

// Its calls at most, of two bytes each; the last one may be half a call.
const CALLS: usize = PIECE / 2;

// What the lender hands back: the run after the calls, how many calls it answered, and their numbers.
#[derive(Clone, Copy)]
pub struct Lent {
    pub run: Run,
    pub calls: usize,
    pub answers: [u8; CALLS],
}

// Makes a call on the run that is lent, and leaves there the run that it hands back.
// Kept: "calling the by-value methods and storing the result", as the project's rule has it.
fn called_in<F: FnOnce(Run) -> Called>(run: &mut Run, call: F) -> Result<(), CallRefusal>
    requires { F.pre call run.old }
    ensures { F.post call run.old (record { answer = result; run = run.new }) }
{
    let called = call(*run);
    *run = called.run;
    called.answer
}

// Starts a task of the run that is lent.
pub fn start_in(run: &mut Run, task: u32) -> Result<(), CallRefusal>
    ensures { CalledIn start run.old task result run.new }
{
    called_in(run, |run| run.start(task))
}

// Does one step of a task of the run that is lent.
pub fn step_in(run: &mut Run, task: u32) -> Result<(), CallRefusal>
    ensures { CalledIn step run.old task result run.new }
{
    called_in(run, |run| run.step(task))
}

// Ends a task of the run that is lent.
pub fn end_in(run: &mut Run, task: u32) -> Result<(), CallRefusal>
    ensures { CalledIn «end» run.old task result run.new }
{
    called_in(run, |run| run.end(task))
}

// Why a line of the input tells a refusal.
#[derive(Clone, Copy, Debug, PartialEq, Eq)]
enum LineRefusal {
    // 18: another kind, or half a call.
    NoCall,
    // The call is refused.
    Call(CallRefusal),
}

// 18, or the number of the call's refusal.
impl From<LineRefusal> for u8 {
    ghost from_gives = { λ k n. n ≡ line_refusal_number k };

    fn from(refusal: LineRefusal) -> u8 {
        match refusal {
            LineRefusal::NoCall => 18,
            LineRefusal::Call(k) => u8::from(k),
        }
    }
}

// Makes the call of these two bytes: 0 start, 1 step, 2 end, then the task.
// Kept: a match over the byte of the kind: the input hands bytes, and any byte may come.
fn line_of(run: &mut Run, call: &[u8]) -> Result<(), LineRefusal>
    requires some { 0 < length call.now }
    requires one { length call.now ≤ 2 }
    ensures made { CallsMade (calls_in call.now) run.old run.new }
    ensures line { SoundRun run.old → line_number result ∷ [] ≡ lines (context_of run.old) (model run.old) call.now }
{
    let [kind, task] = *call else {
        return Err(LineRefusal::NoCall);
    };
    let task = u32::from(task);
    let answer = match kind {
        0 => start_in(run, task),
        1 => step_in(run, task),
        2 => end_in(run, task),
        _ => return Err(LineRefusal::NoCall),
    };
    answer.map_err(LineRefusal::Call)
}

// Makes the calls of the first PIECE bytes of an input on a run.
pub fn lend(mut run: Run, input: &[u8]) -> Lent
    ensures { LentOf input.now run result }
{
    let piece = &input[..input.len().min(PIECE)];
    let mut answers = [0; CALLS];
    // Kept: an index: with a zip of `iter_mut` the proof did not close, since nothing is known of what is written.
    for (turn, call) in piece.chunks(2).enumerate() {
        answers[turn] = line_of(&mut run, call).err().map_or(0, u8::from);
    }
    Lent {
        run,
        calls: piece.len().div_ceil(2),
        answers,
    }
}
