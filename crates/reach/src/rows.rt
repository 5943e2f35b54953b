// The report.
ghost use Rattle.std.specs.Prelude.{◌≡◌};
ghost use Rattle.calls.specs.Under.{under_policy};
ghost use Rattle.reach.specs.Answers.{reach_answer};

use crate::spread::spread_all;
use policy::{NoAnswer, Policy};
use validate::passes_test;

// Bit s of row t: a chain leads from s to t. All 0 past the segments.
pub fn reach(policy: &Policy) -> Result<[u32; 32], NoAnswer>
    ensures { result ≡ reach_answer (under_policy policy.now) }
{
    if !passes_test(policy) {
        return Err(NoAnswer::Unsound);
    }
    let mut rows = policy.sources;
    spread_all(&mut rows, policy.segments);
    Ok(rows)
}
