ghost use Rattle.std.specs.Prelude.{◌≡◌, fold, OnOk};
ghost use Rattle.ad_locality.specs.Signature.{of_range};

use crate::collect::{Collect, take_named};
use crate::lists::take_literals;
use ad_base::Memory;
use ad_tree::{EntityKind, Range};

// Hands on what occurs in a data range.
#[tactic(auto, unfolding(ad_locality::specs::Signature::of_range))]
pub(crate) fn take_range<C: Collect>(range: &Range, into: &mut C) -> Result<(), Memory>
    ensures { OnOk result (into.new ≡ fold C.after into.old (of_range range.now)) }
{
    match range {
        Range::Named(datatype) => take_named(EntityKind::Datatype, datatype, into),
        Range::And(operands) => {
            'intersection: for operand in operands.as_slice() {
                take_range(operand, into)?;
            }
            Ok(())
        }
        Range::Or(operands) => {
            'union: for operand in operands.as_slice() {
                take_range(operand, into)?;
            }
            Ok(())
        }
        Range::Not(operand) => take_range(operand.get(), into),
        Range::OneOf(values) => take_literals(values.as_slice(), into),
        Range::Restriction(datatype, _) => take_named(EntityKind::Datatype, datatype, into),
    }
}
