// The question, backwards from its target: what flows into it, then what flows into that, until the source is found.
ghost use Rattle.std.specs.Prelude.{◌≤◌, ◌<◌, ◌≡◌, length};
ghost use Rattle.bits.specs.Masks.{AllUnder};
ghost use Rattle.reach.specs.Spread.{flow_in};
ghost use Rattle.reach.specs.Via.{via};

use bits::{has_bit, with_low_bit};

// Each segment that is found is looked at once, for what flows into it.
pub(crate) fn leads(sources: &[u32], segments: u8, from: u8, to: u8) -> bool
    requires { (from < segments) × (to < segments) × (segments ≤ 32) × (segments ≤ length sources.now) × AllUnder segments sources.now }
    ensures { result ≡ via (flow_in sources.now) segments from to }
{
    let mut found = sources[to as usize];
    let mut looked: u32 = 0;
    // By hand, since it is a work list: which segment is looked at next hangs on what was found.
    while !has_bit(found as u64, from as u32) {
        let left = found ^ looked;
        if left == 0 {
            return false;
        }
        let k = u32::trailing_zeros(left);
        looked = with_low_bit(looked, k);
        found |= sources[k as usize];
    }
    true
}
