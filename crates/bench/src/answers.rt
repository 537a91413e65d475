// What the answers of the calls carry.
ghost use Rattle.std.specs.Prelude.{◌≡◌};
ghost use Rattle.sheet.specs.Refusals.{carried};

use sheet::Refusal;

// The refusal, or 0 in each of its numbers where a call was accepted.
pub fn carried(answer: Result<(), Refusal>) -> Refusal
    ensures { result ≡ carried answer }
{
    answer.err().unwrap_or(sheet::refuse(0, 0))
}

pub fn number_of(answer: Result<(), Refusal>) -> u32
    ensures { result ≡ (carried answer).number }
{
    u32::from(carried(answer).number)
}
