ghost use Rattle.std.specs.Prelude.{◌≡◌, ◌<◌, suc, length, map, vec_len, IsTrue, IsFalse, IfOk, OnOk};
ghost use Rattle.ad_locality.specs.Locality.{local};
ghost use Rattle.ad_theory.specs.Sweep.{IsSettledBelow, unmarked};
ghost use Rattle.ad_syntax_laws.specs.OntologyLogic.{axiom_logic};
ghost use Rattle.ad_names.specs.Names.{is_member};
ghost use Rattle.ad_sweep.specs.Marks.{KeepsSweeping, IsSettledAt};

use ad_base::{Memory, Side};
use ad_bottom::local_bottom;
use ad_names::{Names, take_axiom};
use ad_top::local_top;
use ad_tree::{Lent, Noted};

// One round over the axioms: each that isn't marked and isn't local for the names seen so far is marked, and
// its names are seen from then on. Whether some axiom was marked.
pub(crate) fn round<A: Lent>(
    side: Side,
    owners: &[A],
    marks: &mut Vec<bool>,
    names: &mut Names,
) -> Result<bool, Memory>
    requires { vec_len marks.old ≡ length owners.now }
    ensures long { vec_len marks.new ≡ length owners.now }
    ensures sweeping { OnOk result (KeepsSweeping side (map A.lent owners.now) marks.old.items (is_member names.old) marks.new.items (is_member names.new)) }
    ensures settled { IfOk result (λ more. IsFalse more → IsSettledBelow (axiom_logic side) (map A.lent owners.now) marks.new.items (is_member names.new) (length owners.now)) }
    ensures fewer { IfOk result (λ more. IsTrue more → unmarked marks.new.items < unmarked marks.old.items) }
{
    let mut more = false;
    for k in 0..owners.len() {
        let marked = visit(side, owners, k, marks, names)?;
        more = more || marked;
    }
    Ok(more)
}

// Marks the k-th axiom and sees its names, unless it is marked or local for the names seen so far. Whether
// it did.
fn visit<A: Lent>(
    side: Side,
    owners: &[A],
    k: usize,
    marks: &mut Vec<bool>,
    names: &mut Names,
) -> Result<bool, Memory>
    requires within { k < length owners.now }
    requires long { vec_len marks.old ≡ length owners.now }
    ensures long { vec_len marks.new ≡ length owners.now }
    ensures sweeping { OnOk result (KeepsSweeping side (map A.lent owners.now) marks.old.items (is_member names.old) marks.new.items (is_member names.new)) }
    ensures same { IfOk result (λ marked. IsFalse marked → (marks.new ≡ marks.old) × (names.new ≡ names.old)) }
    ensures settled { IfOk result (λ marked. IsFalse marked → IsSettledAt side (map A.lent owners.now) marks.new.items (is_member names.new) k) }
    ensures fewer { IfOk result (λ marked. IsTrue marked → suc (unmarked marks.new.items) ≡ unmarked marks.old.items) }
{
    let noted = owners[k].noted();
    let is_marked = marks[k];
    if is_marked || is_settled(side, noted, names) {
        return Ok(false);
    }
    take_axiom(&noted.axiom, names)?;
    marks[k] = true;
    Ok(true)
}

// Whether the axiom is a carried one or local for the seen names.
fn is_settled(side: Side, noted: &Noted, names: &Names) -> bool
    ensures { result ≡ local side (is_member names.now) noted.now.axiom }
{
    if !noted.is_logical() {
        return true;
    }
    match side {
        Side::Bottom => local_bottom(&noted.axiom, names),
        Side::Top => local_top(&noted.axiom, names),
    }
}
