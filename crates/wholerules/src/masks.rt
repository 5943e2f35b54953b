// What partitions reach, and what rules 8 and 16 ask, as masks of segments.
ghost use Rattle.std.specs.Prelude.{ℕ, ◌≤◌, ◌<◌, ◌≡◌, ◌&&◌, cond, false, not, eqb, get_or};
ghost use Rattle.std.specs.Int.Bits.{bit_and};
ghost use Rattle.bits.specs.Masks.{has};
ghost use Rattle.policy.specs.Below.{some_below};
ghost use Rattle.policy.specs.ByTarget.{partition_lacks};
ghost use Rattle.policy.specs.Whole.{stray_flow};
ghost use Rattle.wholerules.specs.Masks.{AreReached, asked_into, joined};
ghost use Rattle.wholerules.specs.Parts.{view_of_parts};

use crate::parts::Parts;
use crate::reach::{Gathered, Reach};
use bits::{bit_of, bits_below, has_bit, within};
use octets::entry_or;

// A value and no branch, so that the compiler looks at many partitions at once.
fn picked(take: bool, mask: u64) -> u64
    ensures { result ≡ cond take mask 0 }
{
    if take { mask } else { 0 }
}

impl Parts<'_> {
    // What each partition reaches by the read masks and by the write masks: its masks with its save segment, of the
    // segments that are there. What it reaches is held against the sources of its save segment while it is at hand.
    pub(crate) fn reach_all(&self, reached: &mut [u64; 12], written: &mut [u64; 12]) -> Gathered
        ensures are_reached { AreReached self.now.save.now self.now.reads.now self.now.segments self.now.partitions reached.new }
        ensures are_written { AreReached self.now.save.now self.now.writes.now self.now.segments self.now.partitions written.new }
        ensures reached_joined { result.reached ≡ joined reached.new self.now.partitions }
        ensures given_joined { result.given ≡ joined self.now.writes.now self.now.partitions }
        ensures lackers_found { (t : ℕ) → t < self.now.segments →
            has result.lackers t
            ≡ some_below self.now.partitions
            (λ p. eqb t (get_or self.now.save.now p 0) && partition_lacks (view_of_parts self.now) t p) }
        ensures stray_found { result.stray ≡ stray_flow (view_of_parts self.now) }
    {
        let there = bits_below(self.segments);
        let mut any_reached: u64 = 0;
        let mut given: u64 = 0;
        let mut lackers: u64 = 0;
        let mut stray = false;
        for p in 0..self.partitions as usize {
            let s = self.save[p];
            let own = bit_of(s);
            let reach = (own | self.reads[p]) & there;
            let gives = self.writes[p];
            let write = (own | gives) & there;
            let into = entry_or(self.sources, s as usize, 0) & there;
            stray |= !within(into, reach);
            lackers |= picked(!within(reach, into | own), own);
            reached[p] = reach;
            written[p] = write;
            any_reached |= reach;
            given |= gives;
        }
        Gathered {
            reached: any_reached,
            given,
            lackers,
            stray,
        }
    }
}

impl Reach<'_> {
    // The sources that rule 8 asks for into t: what the partitions reach that may write it. No exit inside.
    fn asked_into(&self, t: u8) -> u64
        requires { t < 64 }
        ensures { result ≡ asked_into self.now.reached.now self.now.written.now t self.now.partitions }
    {
        let mut asked: u64 = 0;
        for p in 0..self.partitions as usize {
            let write = has_bit(self.written[p], t as u32);
            asked |= picked(write, self.reached[p]);
        }
        asked
    }

    // Whether some source that rule 8 asks for into t is not allowed. Where no write mask gives t, as in a sound record
    // none gives a save segment, that has been found with the partitions; where all that is reached is allowed, none is.
    // Then the partitions need not be asked one by one.
    pub(crate) fn target_lacks(&self, t: u8, allowed: u64) -> bool
        requires in_width { t < 64 }
        requires lackers_tell { let asked = asked_into self.now.reached.now self.now.written.now t self.now.partitions in
            has self.now.all.given t ≡ false → has self.now.all.lackers t ≡ not (eqb (bit_and asked allowed) asked) }
        ensures { let asked = asked_into self.now.reached.now self.now.written.now t self.now.partitions in
            result ≡ not (eqb (bit_and asked allowed) asked) }
    {
        if !has_bit(self.all.given, t as u32) {
            return has_bit(self.all.lackers, t as u32);
        }
        if within(self.all.reached, allowed) {
            return false;
        }
        !within(self.asked_into(t), allowed)
    }
}
