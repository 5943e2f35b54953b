// The sheet of a record.
ghost use Rattle.std.specs.Prelude.{◌≡◌};
ghost use Rattle.calls.specs.Under.{under_policy};
ghost use Rattle.sheet.specs.Answer.{sheet_answer};

use crate::Sheet;
use crate::longest::longest_silences;
use crate::own::round_of;
use policy::{NoAnswer, Policy};
use validate::passes_test;

pub fn sheet_of(policy: &Policy) -> Result<Sheet, NoAnswer>
    ensures { result ≡ sheet_answer (under_policy policy.now) }
{
    if !passes_test(policy) {
        return Err(NoAnswer::Unsound);
    }
    let round = round_of(policy);
    let silence = longest_silences(policy, round);
    let ticks = round.own;
    Ok(Sheet { ticks, silence })
}
