// The entries of a policy record's arrays, and whether the current partition reaches a segment.
ghost use Rattle.std.specs.Prelude.{◌≡◌, ◌≤◌, ◌<◌, get_or, length};
ghost use Rattle.bits.specs.Masks.{has};
ghost use Rattle.machine.specs.Tick.{reaches};

use bits::has_bit;

pub(crate) fn entry<'a>(table: &'a [u16], s: u32) -> usize
    requires { s < length table.now }
    ensures { result ≡ get_or table.now s 0 }
{
    let i = s as usize;
    usize::from(table[i])
}

// The mask has the segments on which a line gives the right that is asked for.
pub(crate) fn may(mask: u64, segments: u8, c: u32) -> bool
    requires { segments ≤ 64 }
    ensures { result ≡ reaches segments (has mask c) c }
{
    if c < segments as u32 {
        return has_bit(mask, c);
    }
    false
}
