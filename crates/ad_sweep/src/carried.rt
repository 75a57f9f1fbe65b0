ghost use Rattle.std.specs.Prelude.{◌≡◌, length, map, vec_len};
ghost use Rattle.ad_names.specs.Names.{is_member};
ghost use Rattle.ad_sweep.specs.Swept.{AreMarkedToo};

use ad_names::Names;
use ad_syntax_laws::goes_with;
use ad_tree::Lent;

// Marks the carried axioms that go with the named entities, too.
pub(crate) fn mark_carried<A: Lent>(owners: &[A], names: &Names, marks: &mut Vec<bool>)
    requires { vec_len marks.old ≡ length owners.now }
    ensures long { vec_len marks.new ≡ length owners.now }
    ensures too { AreMarkedToo (is_member names.now) (map A.lent owners.now) marks.old.items marks.new.items }
{
    for k in 0..owners.len() {
        if goes_with(owners[k].noted(), names) {
            marks[k] = true;
        }
    }
}
