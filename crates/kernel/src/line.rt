// Pend: one bit of one save segment is set.
ghost use Rattle.std.specs.Prelude.{◌≡◌};
ghost use Rattle.calls.specs.Under.{under_policy};
ghost use Rattle.calls.specs.Pend.{pend_outcome, after_pend};

use crate::save::save_from;
use crate::tested::tested;
use calls::Refused;
use machine::LAST_LINE;
use policy::Policy;
use savearea::layout::PENDED;

pub fn pend(policy: &Policy, memory: &mut [u8], partition: u32, line: u32) -> Result<(), Refused>
    ensures outcome { result ≡ pend_outcome (under_policy policy.now) memory.old partition line }
    ensures memory_after { memory.new ≡ after_pend (under_policy policy.now) memory.old partition line }
{
    tested(policy, memory)?;
    if u32::from(policy.partitions) <= partition {
        return Err(Refused::NoPartition);
    }
    if LAST_LINE < line {
        return Err(Refused::NoLine);
    }
    let at = save_from(policy, partition as usize) + PENDED;
    memory[at] |= 1u8 << line;
    Ok(())
}
