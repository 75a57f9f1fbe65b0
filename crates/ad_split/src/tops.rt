//! The atoms on which no other depends, by their numbers.
ghost use Rattle.std.specs.Prelude.{◌≡◌, ◌<◌, ◌++◌, ◌∷◌, [], cond, IfOk, OnOk, length};
ghost use Rattle.std.specs.List.{filter, range_with_len};
ghost use Rattle.ad_bits.specs.Rows.{has};
ghost use Rattle.ad_decompose.specs.Decomposed.{genuine_of};
ghost use Rattle.ad_numbered.specs.Numbered.{order_of};
ghost use Rattle.ad_split.specs.Parts.{ArePartsOf};
ghost use Rattle.ad_split.specs.Tops.{top_atoms};

use ad_base::{Kind, Memory};
use ad_depend::Covers;
use ad_edition::Edition;
use ad_ontology_atoms::rows_are_genuine;
use std::alloc::Global;

/// The atoms of this kind on which no other atom depends, rising.
pub fn parts(alloc: Global, edition: &Edition, kind: Kind) -> Result<Vec<u32>, Memory>
    ensures parts { IfOk result (λ parts. ArePartsOf kind edition.now.shown.axioms parts.items) }
    ensures numbers { IfOk result (λ parts. parts.items ≡ top_atoms (genuine_of edition.now.found kind) (order_of edition.now.numbered)) }
{
    edition.laws();
    rows_are_genuine();
    tops_of(alloc, edition.covers(kind), edition.atoms(kind).count())
}

// Puts the atom at the end, if no other depends on it.
fn push_top(parts: &mut Vec<u32>, covers: &Covers, atom: u32) -> Result<(), Memory>
    requires { atom < length covers.now.rows }
    ensures { OnOk result (parts.new.items ≡ parts.old.items ++ cond (has covers.now.tops atom) (atom ∷ []) []) }
{
    if covers.is_top(atom) {
        parts.push(atom)?;
    }
    Ok(())
}

// The numbers of the atoms, of so many, on which no other depends, rising.
fn tops_of(alloc: Global, covers: &Covers, count: u32) -> Result<Vec<u32>, Memory>
    requires { count ≡ length covers.now.rows }
    ensures { IfOk result (λ parts. parts.items ≡ filter (has covers.now.tops) (range_with_len 0 count)) }
{
    let mut parts = Vec::new(alloc);
    for atom in 0..count {
        push_top(&mut parts, covers, atom)?;
    }
    Ok(parts)
}
