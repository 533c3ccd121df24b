// The number of what a call answered.
ghost use Rattle.std.specs.Prelude.{◌≡◌};
ghost use Rattle.semantics.specs.Answers.{answer_number};

use semantics::CallRefusal;

// 0, or the refusal's number.
pub fn answer_number(answer: Result<(), CallRefusal>) -> u8
    ensures { result ≡ answer_number answer }
{
    match answer {
        Ok(()) => 0,
        Err(refusal) => u8::from(refusal),
    }
}
