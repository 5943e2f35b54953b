// Refusal 3: "kind, id or pair out of order".
ghost use Rattle.std.specs.Prelude.{◌≡◌};
ghost use Rattle.policy.specs.Order.{key_of, out_of_order};
ghost use Rattle.linerules.specs.Drafted.{view_in};

use crate::draft::Draft;
use policy::Key;
use text::Line;

// What the next line is compared with.
pub fn key_of(line: Line) -> Key
    ensures { result ≡ key_of line }
{
    match line {
        Line::Bad => Key {
            kind: 0,
            first: 0,
            second: 0,
        },
        Line::Segment { id, .. } => Key {
            kind: 0,
            first: id,
            second: 0,
        },
        Line::Partition { id, .. } => Key {
            kind: 1,
            first: id,
            second: 0,
        },
        Line::Right {
            partition,
            segment,
            ..
        } => Key {
            kind: 2,
            first: partition,
            second: segment,
        },
        Line::Flow { from, to } => Key {
            kind: 3,
            first: from,
            second: to,
        },
        Line::Slot { .. } => Key {
            kind: 4,
            first: 0,
            second: 0,
        },
    }
}

impl Draft {
    #[tactic(auto, unfolding(policy::specs::Order::out_of_order))]
    pub(crate) fn out_of_order(&self, line: Line) -> bool
        ensures { result ≡ out_of_order self.now.before (view_in self.now) line }
    {
        let key = key_of(line);
        let before = self.before;
        let falls = key.kind < before.kind;
        match line {
            Line::Bad => falls,
            Line::Segment { id, .. } => falls | (id != self.policy.segments as u32),
            Line::Partition { id, .. } => falls | (id != self.policy.partitions as u32),
            Line::Right { .. } => key <= before,
            Line::Flow { .. } => key <= before,
            Line::Slot { .. } => falls,
        }
    }
}
