ghost use Rattle.std.specs.Prelude.{◌≡◌, ◌≤◌, ℕ, IsTrue, length, vec_capacity};
ghost use Rattle.ad_bits.specs.Rows.{has, union};
ghost use Rattle.ad_extract.specs.Waiting.{IsWaiting, settled};
ghost use Rattle.ad_theory.specs.Sweep.{HasAlso};

use crate::whole::Whole;
use ad_bits::Row;
use ad_extract::begin;

// Joins a module that was found before. Of the symbols that were reached those that aren't among its symbols wait again,
// since an axiom may be needed for one of them and one of its symbols together.
pub(crate) fn join(
    whole: &Whole,
    pending: &mut Vec<u32>,
    out: &mut Row,
    reached: &mut Row,
    left: &mut Row,
)
    requires row { length whole.now.row ≡ length out.old }
    requires closure { length whole.now.closure ≡ length reached.old }
    requires left { length left.old ≡ length reached.old }
    requires room { length reached.old ≤ vec_capacity pending.old }
    ensures waiting { IsWaiting pending.new.items reached.new }
    ensures out { out.new ≡ union out.old whole.now.row }
    ensures also { HasAlso (has reached.old) (has whole.now.closure) (has reached.new) }
    ensures settled { (s : ℕ) → IsTrue (settled pending.new.items reached.new s) → IsTrue (has whole.now.closure s) }
    ensures room { vec_capacity pending.new ≡ vec_capacity pending.old }
    ensures out_size { length out.new ≡ length out.old }
    ensures reached_size { length reached.new ≡ length reached.old }
    ensures left_size { length left.new ≡ length left.old }
{
    out.union_with(&whole.row);
    left.copy_from(reached);
    left.minus_with(&whole.closure);
    begin(pending, reached, left);
    reached.union_with(&whole.closure);
}
