// What rules 6, 7, 8 and 16 read of a policy.
ghost use Rattle.std.specs.Prelude.{◌≤◌, length};
ghost use Rattle.wholerules.specs.Masks.{HasPartitions};

// Lent, with masks of 64 bits, so that one code serves every width; each array has an entry for all that are there.
#[derive(Clone, Copy)]
pub struct Parts<'a> {
    pub segments: u8,
    pub partitions: u8,
    pub slots: u8,
    pub code: &'a [u8],
    pub save: &'a [u8],
    pub reads: &'a [u64],
    pub writes: &'a [u64],
    pub sources: &'a [u64],
    pub ghost few: { (segments ≤ 64) × (partitions ≤ 12) },
    pub ghost has_segments: { segments ≤ length sources.now },
    pub ghost has_codes: { partitions ≤ length code.now },
    pub ghost has_partitions: { HasPartitions partitions save.now reads.now writes.now },
}
