// Whether a record is sound: whether some accepted text gives it.
#![tactic(auto)]

ghost use Rattle.std.specs.Prelude.{◌≡◌};
ghost use Rattle.policy.specs.Limits.{single};
ghost use Rattle.policy.specs.Record.{tables_of};
ghost use Rattle.policy.specs.Sound.{sound_of};
ghost use Rattle.sound.specs.Decides.{Decides};

use policy::Policy;

// Decides it for every value that the record can have, out-of-range counts and stray bits included.
pub fn sound(policy: &Policy) -> bool
    ensures is { result ≡ sound_of single (tables_of policy.now) }
    ensures decides { Decides (tables_of policy.now) result }
{
    validate::passes_test(policy)
}
