// The first of refusals 2 to 5 that a line meets.
ghost use Rattle.std.specs.Prelude.{◌≡◌};
ghost use Rattle.policy.specs.Limits.{single};
ghost use Rattle.policy.specs.Read.{is_bad, line_refusal};
ghost use Rattle.linerules.specs.Drafted.{view_in};

use crate::draft::Draft;
use policy::Refusal;
use text::Line;

fn is_bad(line: Line) -> bool
    ensures { result ≡ is_bad line }
{
    matches!(line, Line::Bad)
}

impl Draft {
    // The answer for the n-th line after those in the draft.
    #[tactic(auto, unfolding(policy::specs::Read::line_refusal))]
    pub fn check(&self, line: Line, n: u32) -> Result<(), Refusal>
        ensures { result ≡ line_refusal single n self.now.before (view_in self.now) line }
    {
        if is_bad(line) {
            return Err(Refusal::Malformed(n));
        }
        if self.out_of_order(line) {
            return Err(Refusal::OutOfOrder(n));
        }
        if self.out_of_range(line) {
            return Err(Refusal::OutOfRange(n));
        }
        if self.clashes(line) {
            return Err(Refusal::Clash(n));
        }
        Ok(())
    }
}
