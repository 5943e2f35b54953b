// Which partitions may read or write a segment, as a mask: bit p is worth 2 to the power p.
ghost use Rattle.std.specs.Prelude.{◌≡◌, ◌||◌, ◌≤◌, ◌<◌, eqb, get_or};
ghost use Rattle.bits.specs.Masks.{has, mask_of};

use bits::has_bit;

// The partitions whose save segment is s, or whose mask has it.
pub(crate) fn users_of(save: &[u8; 8], masks: &[u32; 8], partitions: u8, s: u8) -> u32
    requires { (partitions ≤ 8) × (s < 32) }
    ensures { result ≡ mask_of partitions (λ p. eqb s (get_or save.now p 0) || has (get_or masks.now p 0) s) }
{
    let mut users = 0;
    for p in 0..partitions as usize {
        if (s == save[p]) | has_bit(masks[p] as u64, s as u32) {
            users += 1u32 << p;
        }
    }
    users
}
