// Rule 8 by target, the targets ascending and the partitions inside that; and rule 16.
ghost use Rattle.std.specs.Prelude.{◌≤◌, ◌≡◌};
ghost use Rattle.policy.specs.ByTarget.{found_after};
ghost use Rattle.policy.specs.Whole.{flow_missing, stray_flow};
ghost use Rattle.wholerules.specs.Parts.{view_of_parts};

use crate::parts::Parts;
use crate::reach::Reach;
use bits::worth;

// Whether a line that rule 8 asks for is missing, and whether a line into a save segment has a stray source.
#[derive(Clone, Copy)]
pub(crate) struct Flows {
    pub(crate) missing: bool,
    pub(crate) stray: bool,
}

impl Parts<'_> {
    // Whether a line has been found missing after the first `targets` targets. The loop goes on after a finding, so that
    // there is an answer after each target. Rule 16 goes by partition and has its answer before the first target.
    fn missing_after(&self, targets: u8) -> Flows
        requires { targets ≤ self.now.segments }
        ensures missing { result.missing ≡ found_after (view_of_parts self.now) targets }
        ensures stray { result.stray ≡ stray_flow (view_of_parts self.now) }
    {
        // Room for the most partitions, since there is no heap (a).
        let mut reached = [0; 12];
        let mut written = [0; 12];
        let all = self.reach_all(&mut reached, &mut written);
        let reach = Reach {
            partitions: self.partitions,
            reached: &reached,
            written: &written,
            all,
        };
        let mut missing = false;
        for t in 0..targets {
            let allowed = self.sources[t as usize] | worth(t as u32);
            missing |= reach.target_lacks(t, allowed);
        }
        Flows {
            missing,
            stray: all.stray,
        }
    }

    // Rule 8: a line is missing if one has been found so after all targets. Rule 16 beside it.
    pub(crate) fn flows(&self) -> Flows
        ensures missing { result.missing ≡ flow_missing (view_of_parts self.now) }
        ensures stray { result.stray ≡ stray_flow (view_of_parts self.now) }
    {
        self.missing_after(self.segments)
    }
}
