// Rules 6 and 7, and the four in their order.
ghost use Rattle.std.specs.Prelude.{◌≤◌, ◌≡◌};
ghost use Rattle.bits.specs.Masks.{AllUnder};
ghost use Rattle.policy.specs.Read.{whole_refusal};
ghost use Rattle.policy.specs.Record.{tables_of};
ghost use Rattle.policy.specs.Tables.{view_of};
ghost use Rattle.policy.specs.Whole.{code_unreadable};
ghost use Rattle.wholerules.specs.Parts.{view_of_parts};

use crate::parts::Parts;
use bits::{bit_at, widened};
use policy::{Policy, Refusal};

impl Parts<'_> {
    fn code_unreadable(&self) -> bool
        ensures { result ≡ code_unreadable (view_of_parts self.now) }
    {
        for p in 0..self.partitions as usize {
            if !bit_at(self.reads[p], self.code[p]) {
                return true;
            }
        }
        false
    }
}

// The first of the rules that refuses.
pub fn lent_refusal(parts: &Parts) -> Result<(), Refusal>
    ensures { result ≡ whole_refusal (view_of_parts parts.now) }
{
    if (parts.segments == 0) | (parts.partitions == 0) | (parts.slots == 0) {
        return Err(Refusal::Incomplete);
    }
    if parts.code_unreadable() {
        return Err(Refusal::CodeUnreadable);
    }
    let flows = parts.flows();
    if flows.missing {
        return Err(Refusal::FlowMissing);
    }
    if flows.stray {
        return Err(Refusal::StraySource);
    }
    Ok(())
}

// The same of a record, whose masks of 32 bits are the same numbers as masks of 64. In place in both callers, since a call
// costs as much as widening. `narrow` hands on from `widened` what the types of the masks say.
#[inline(always)]
pub fn record_refusal(policy: &Policy) -> Result<(), Refusal>
    requires { (policy.now.segments ≤ 32) × (policy.now.partitions ≤ 8) }
    ensures refusal { result ≡ whole_refusal (view_of (tables_of policy.now)) }
    ensures narrow { AllUnder 32 policy.now.reads × AllUnder 32 policy.now.writes × AllUnder 32 policy.now.sources }
{
    let reads = widened(&policy.reads);
    let writes = widened(&policy.writes);
    let sources = widened(&policy.sources);
    lent_refusal(&Parts {
        segments: policy.segments,
        partitions: policy.partitions,
        slots: policy.slots,
        code: &policy.code,
        save: &policy.save,
        reads: &reads,
        writes: &writes,
        sources: &sources,
    })
}
