// Rules 4 and 5 for the rights and the flow lines of a record, all masks at once.
ghost use Rattle.std.specs.Prelude.{◌≡◌, cond, eqb};
ghost use Rattle.std.specs.Int.Bits.{bit_and, bit_or};
ghost use Rattle.policy.specs.Below.{each_below};
ghost use Rattle.policy.specs.Limits.{single};
ghost use Rattle.policy.specs.Record.{tables_of};
ghost use Rattle.policy.specs.Sound.{good_flow, good_right};
ghost use Rattle.policy.specs.Tables.{view_of};

use crate::counted::Counted;
use bits::{bit_of, bits_below, within};

// The sources that the target of one bit may not have: what is not there and itself, or all if it is not there. A value and
// no branch, so that the compiler looks at many targets at once.
fn barred(there: u32, beyond: u32, bit: u32) -> u32
    ensures { result ≡ cond (eqb (bit_and there bit) 0) 4294967295 (bit_or beyond bit) }
{
    if there & bit == 0 {
        u32::MAX
    } else {
        beyond | bit
    }
}

impl Counted<'_> {
    // A right is one on a segment that is there and no save segment.
    pub(crate) fn rights_good(&self) -> bool
        ensures { let v = view_of (tables_of self.now.policy.now) in
            result ≡ each_below v.partitions (λ p. each_below 32 (good_right single v p)) }
    {
        let policy = self.policy;
        let there = bits_below(policy.segments);
        let mut saves: u64 = 0;
        let mut held: u32 = 0;
        for p in 0..policy.partitions as usize {
            saves |= bit_of(policy.save[p]);
            held |= policy.reads[p] | policy.writes[p];
        }
        let held = held as u64;
        within(held, there) & ((held & saves) == 0)
    }

    // A flow is one between two segments that are there.
    pub(crate) fn flows_good(&self) -> bool
        ensures { let v = view_of (tables_of self.now.policy.now) in
            result ≡ each_below 32 (λ s. each_below 32 (good_flow single v s)) }
    {
        let there = bits_below(self.policy.segments) as u32;
        let beyond = !there;
        let mut stray: u32 = 0;
        for t in 0..32u32 {
            stray |= self.policy.sources[t as usize] & barred(there, beyond, 1u32 << t);
        }
        stray == 0
    }
}
