// Reads a policy text into its record, or refuses it by document 01's number and line.
#![tactic(auto)]

ghost use Rattle.std.specs.Prelude.{◌≡◌};
ghost use Rattle.policy.specs.Limits.{single};
ghost use Rattle.policy.specs.Read.{read_of};
ghost use Rattle.policy.specs.Record.{answer_of};

use policy::{Policy, Refusal, TEXT};
use readlines::read_lines;

// For every text: the record, or the first refusal in document 01's order.
pub fn read(text: &[u8]) -> Result<Policy, Refusal>
    ensures { answer_of result ≡ read_of single text.now }
{
    if TEXT < text.len() {
        return Err(Refusal::TooLong);
    }
    read_lines(text)
}
