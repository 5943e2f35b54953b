// What stays as it is for a stretch of ticks of one partition.
ghost use Rattle.std.specs.Prelude.{◌+◌, ◌≤◌};
ghost use Rattle.policy.specs.Limits.{save_size};
ghost use Rattle.tick.specs.Seat.{Inside};

// The arrays of a policy record; the masks of the segments on which a line gives the partition r and w; where its save bytes
// and its code stand; and how long memory is, inside which all of this lies.
#[derive(Clone, Copy)]
pub struct Seat<'a> {
    pub base: &'a [u16],
    pub size: &'a [u16],
    pub segments: u8,
    pub reads: u64,
    pub writes: u64,
    pub from: usize,
    pub start: usize,
    pub room: usize,
    pub whole: usize,
    pub ghost segments_inside: { Inside base.now size.now segments whole },
    pub ghost save_inside: { from + save_size ≤ whole },
    pub ghost code_inside: { start + room ≤ whole },
}
