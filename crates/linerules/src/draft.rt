// The draft: the record that the lines so far have made.
ghost use Rattle.std.specs.Prelude.{◌≤◌};
ghost use Rattle.policy.specs.Limits.{single};
ghost use Rattle.linerules.specs.Parts.{Barred, EndedBy};

use policy::{Key, Policy};

#[derive(Clone, Copy)]
pub struct Draft {
    pub policy: Policy,
    // The key of the last line.
    pub before: Key,
    // The save segments so far, and where the segments so far have ended: a line is tested against these at once.
    pub barred: u32,
    pub ended: u32,
    pub ghost few_segments: { policy.segments ≤ single.segments },
    pub ghost saves_barred: { Barred policy.save policy.partitions barred },
    pub ghost segments_ended: { EndedBy policy.base policy.size policy.segments ended },
}

impl Draft {
    ghost use Rattle.std.specs.Prelude.{◌≡◌};
    ghost use Rattle.policy.specs.Draft.{begun};
    ghost use Rattle.linerules.specs.Drafted.{draft_of};

    pub fn new() -> Draft
        ensures { draft_of result ≡ begun single }
    {
        Draft {
            policy: Policy::zeros(),
            before: Key {
                kind: 0,
                first: 0,
                second: 0,
            },
            barred: 0,
            ended: 0,
        }
    }
}
