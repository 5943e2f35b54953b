// The test of a whole record.
ghost use Rattle.std.specs.Prelude.{◌≡◌};
ghost use Rattle.policy.specs.Limits.{single};
ghost use Rattle.policy.specs.Record.{tables_of};
ghost use Rattle.policy.specs.Sound.{sound_of};
ghost use Rattle.validate.specs.Parts.{entries_hold};

use crate::counted::Counted;
use policy::{PARTITIONS, Policy, SEGMENTS, SLOTS};
use wholerules::record_refusal;

impl Counted<'_> {
    // Whether each entry stands where a line that rules 4 and 5 let pass would put it, and those past the counts are 0, as
    // is the byte after the counts.
    fn entries_hold(&self) -> bool
        ensures { result ≡ entries_hold (tables_of self.now.policy.now) }
    {
        self.tables_hold()
            & self.partitions_unused()
            & (self.policy.unused == 0)
            & self.segments_good()
            & self.partitions_good()
            & self.rights_good()
            & self.flows_good()
    }
}

// Whether some accepted text gives the record.
pub fn passes_test(policy: &Policy) -> bool
    ensures { result ≡ sound_of single (tables_of policy.now) }
{
    let fit = (policy.segments <= SEGMENTS)
        & (policy.partitions <= PARTITIONS)
        & (policy.slots <= SLOTS);
    if !fit {
        return false;
    }
    let refusal = record_refusal(policy);
    let counted = Counted { policy };
    counted.entries_hold() & refusal.is_ok()
}
