// Where a partition's save segment stands.
ghost use Rattle.std.specs.Prelude.{◌≡◌, ◌+◌, ◌≤◌, ◌<◌, true, slice_index};
ghost use Rattle.policy.specs.Limits.{single, save_size};
ghost use Rattle.policy.specs.Record.{tables_of};
ghost use Rattle.policy.specs.Sound.{sound_of};

use policy::Policy;

// Its first byte; all of its bytes are in memory.
pub(crate) fn save_from(policy: &Policy, partition: usize) -> usize
    requires sound { sound_of single (tables_of policy.now) ≡ true }
    requires there { partition < policy.now.partitions }
    ensures base { result ≡ slice_index policy.now.base (slice_index policy.now.save partition) }
    ensures inside { result + save_size ≤ single.memory }
{
    let save = policy.save[partition];
    usize::from(policy.base[usize::from(save)])
}
