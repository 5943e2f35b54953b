// What the partitions of a policy reach.
ghost use Rattle.std.specs.Prelude.{◌≤◌, ◌≡◌, length};
ghost use Rattle.wholerules.specs.Masks.{joined};

// What is gathered of all partitions.
#[derive(Clone, Copy)]
pub(crate) struct Gathered {
    // What some partition reaches by the read masks.
    pub(crate) reached: u64,
    // What some write mask gives.
    pub(crate) given: u64,
    // The save segments into which a line from what their partition reaches is missing (rule 8).
    pub(crate) lackers: u64,
    // Whether a save segment has a source that its partition does not reach (rule 16).
    pub(crate) stray: bool,
}

// Beside that, what each partition reaches by the read masks and by the write masks: lent, since within the struct both arrays
// are copied once more.
#[derive(Clone, Copy)]
pub(crate) struct Reach<'a> {
    pub(crate) partitions: u8,
    pub(crate) reached: &'a [u64],
    pub(crate) written: &'a [u64],
    pub(crate) all: Gathered,
    ghost has_partitions: { (partitions ≤ length reached.now) × (partitions ≤ length written.now) },
    ghost all_joined: { all.reached ≡ joined reached.now partitions },
}
