// The question whether one segment can reach another.
ghost use Rattle.std.specs.Prelude.{◌≡◌};
ghost use Rattle.calls.specs.Under.{under_policy};
ghost use Rattle.reach.specs.Answers.{can_reach_answer};

use crate::search::leads;
use policy::{NoAnswer, Policy};
use validate::passes_test;

pub fn can_reach(policy: &Policy, from: u32, to: u32) -> Result<bool, NoAnswer>
    ensures { result ≡ can_reach_answer (under_policy policy.now) from to }
{
    if !passes_test(policy) {
        return Err(NoAnswer::Unsound);
    }
    let segments = u32::from(policy.segments);
    if (segments <= from) | (segments <= to) {
        return Err(NoAnswer::NoSegment);
    }
    Ok(leads(&policy.sources, policy.segments, from as u8, to as u8))
}
