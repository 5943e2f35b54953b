// The tests that all three operations begin with.
ghost use Rattle.std.specs.Prelude.{◌≡◌};
ghost use Rattle.calls.specs.Under.{under_policy};
ghost use Rattle.calls.specs.Start.{start_outcome};

use calls::Refused;
use policy::{MEMORY, Policy};
use validate::passes_test;

// Refusals 9 and 10, in that order; Start has no others.
pub(crate) fn tested(policy: &Policy, memory: &[u8]) -> Result<(), Refused>
    ensures { result ≡ start_outcome (under_policy policy.now) memory.now }
{
    if memory.len() != MEMORY {
        return Err(Refused::WrongMemory);
    }
    if !passes_test(policy) {
        return Err(Refused::Unsound);
    }
    Ok(())
}
