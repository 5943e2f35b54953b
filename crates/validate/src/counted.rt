// A record that the tests of its entries can be asked of.
ghost use Rattle.policy.proofs.Entries.{Counts, Fit, Lengths};
ghost use Rattle.policy.specs.Limits.{single};
ghost use Rattle.policy.specs.Record.{tables_of};
ghost use Rattle.policy.specs.Tables.{view_of};

use policy::Policy;

// Its counts are within the limits; its arrays are as long, and its masks as narrow, as their types say.
#[derive(Clone, Copy)]
pub(crate) struct Counted<'a> {
    pub(crate) policy: &'a Policy,
    ghost counts: { Counts single (view_of (tables_of policy.now)) },
    ghost lengths: { Lengths single (tables_of policy.now) },
    ghost fit: { Fit single (tables_of policy.now) },
}
