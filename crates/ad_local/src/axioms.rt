ghost use Rattle.std.specs.Prelude.{◌≡◌};
ghost use Rattle.ad_locality.specs.Locality as table;
ghost use Rattle.ad_tree.specs.declared.axioms.Axiom.TheVariants as axioms;

use crate::names::name_surely;
use crate::operands::{
    Operand, all_empty, any_empty, are_disjoint, are_equivalent, both_or_neither, is_below,
    one_is_whole,
};
use crate::ranges::range_surely;
use ad_base::{Side, Word};
use ad_tree::{Axiom, Classes, EntityKind, Range, Seen};

/// Whether an axiom is local for the seen names, on a side. Of a carried axiom nothing is asked.
pub fn is_local<S: Seen>(side: Side, axiom: &Axiom, seen: &S) -> bool
    ensures { result ≡ table.local side (S.member seen.now) axiom.now }
{
    match axiom {
        Axiom::SubClassOf(c, d) => is_below(side, seen, c, d),
        Axiom::EquivalentClasses(cs) => are_equivalent(side, seen, cs.as_slice()),
        Axiom::DisjointClasses(cs) => are_disjoint(side, seen, cs.as_slice()),
        Axiom::DisjointUnion(a, cs) => disjoint_union_is_local(side, seen, a, cs),
        Axiom::SubObjectPropertyOf(r, s) => is_below(side, seen, r, s),
        Axiom::SubObjectPropertyChainOf(chain, s) => {
            any_empty(side, seen, chain.as_slice()) || s.surely(side, seen).whole
        }
        Axiom::EquivalentObjectProperties(rs) => are_equivalent(side, seen, rs.as_slice()),
        Axiom::DisjointObjectProperties(rs) => are_disjoint(side, seen, rs.as_slice()),
        Axiom::InverseObjectProperties(r, s) => {
            both_or_neither(r.surely(side, seen), s.surely(side, seen))
        }
        Axiom::ObjectPropertyDomain(r, c) | Axiom::ObjectPropertyRange(r, c) => {
            is_below(side, seen, r, c)
        }
        Axiom::FunctionalObjectProperty(r)
        | Axiom::InverseFunctionalObjectProperty(r)
        | Axiom::IrreflexiveObjectProperty(r)
        | Axiom::AsymmetricObjectProperty(r)
        | Axiom::NegativeObjectPropertyAssertion(r, _, _) => r.surely(side, seen).empty,
        Axiom::ReflexiveObjectProperty(r) | Axiom::ObjectPropertyAssertion(r, _, _) => {
            r.surely(side, seen).whole
        }
        Axiom::SymmetricObjectProperty(r) | Axiom::TransitiveObjectProperty(r) => {
            is_below(side, seen, r, r)
        }
        Axiom::SubDataPropertyOf(r, s) => is_below(side, seen, r, s),
        Axiom::EquivalentDataProperties(rs) => are_equivalent(side, seen, rs.as_slice()),
        Axiom::DisjointDataProperties(rs) => are_disjoint(side, seen, rs.as_slice()),
        Axiom::DataPropertyDomain(r, c) => is_below(side, seen, r, c),
        Axiom::DataPropertyRange(r, d) => is_below(side, seen, r, d),
        Axiom::FunctionalDataProperty(r) | Axiom::NegativeDataPropertyAssertion(r, _, _) => {
            r.surely(side, seen).empty
        }
        Axiom::DataPropertyAssertion(r, _, _) => r.surely(side, seen).whole,
        Axiom::DatatypeDefinition(d, e) => datatype_definition_is_local(side, seen, d, e),
        Axiom::HasKey(c, rs, us) => {
            c.surely(side, seen).empty
                || any_empty(side, seen, rs.as_slice())
                || any_empty(side, seen, us.as_slice())
        }
        Axiom::SameIndividual(individuals) | Axiom::DifferentIndividuals(individuals) => {
            individuals.as_slice().len() == 1
        }
        Axiom::ClassAssertion(c, _) => c.surely(side, seen).whole,
        Axiom::Declaration(_)
        | Axiom::AnnotationAssertion(_, _, _)
        | Axiom::SubAnnotationPropertyOf(_, _)
        | Axiom::AnnotationPropertyDomain(_, _)
        | Axiom::AnnotationPropertyRange(_, _) => true,
    }
}

// The class and its parts are all empty, or it and one part are everything and all other parts empty.
#[tactic(auto, using(crate::proofs::OperandLemmas::all_empty_map))]
fn disjoint_union_is_local<S: Seen>(side: Side, seen: &S, class: &Word, parts: &Classes) -> bool
    ensures { result ≡ table.local side (S.member seen.now) (axioms.DisjointUnion class.now parts.now) }
{
    let whole = name_surely(side, seen, EntityKind::Class, class);
    whole.empty && all_empty(side, seen, parts.as_slice())
        || whole.whole && one_is_whole(side, seen, parts.as_slice())
}

// The datatype and the range are both empty or both everything.
fn datatype_definition_is_local<S: Seen>(
    side: Side,
    seen: &S,
    datatype: &Word,
    range: &Range,
) -> bool
    ensures { result ≡ table.local side (S.member seen.now) (axioms.DatatypeDefinition datatype.now range.now) }
{
    both_or_neither(
        name_surely(side, seen, EntityKind::Datatype, datatype),
        range_surely(side, seen, range),
    )
}
