ghost use Rattle.std.specs.Prelude.{◌≡◌, ◌<◌, ◌≤◌, ◌↔◌, ◌++◌, [], ◌∷◌, None, length, is_some, slice_get, slice_index_or, Some, IfOk, OnOk, IsFalse};
ghost use Rattle.ad_entity.specs.declared.entities.Entity.{Entity};
ghost use Rattle.ad_tree.specs.declared.axioms.Noted.{Noted};
ghost use Rattle.ad_syntax_laws.specs.OntologyModule.{is_logical_axiom, logical, values};
ghost use Rattle.ad_flat.specs.Trees.{in_signatures};
ghost use Rattle.ad_flat.specs.Universes.{held_in, most_in, symbols_in};
ghost use Rattle.ad_numbered.specs.Numbered.{IsNumbered, entities_of, given, number_of, order_of};

use ad_base::{Memory, Word};
use ad_flat::FlatUniverse;
use ad_signature::Symbols;
use ad_tree::{Entity, EntityKind, Naming, Noted};
use std::alloc::Global;
use std::hash::RandomState;
use std::marker::Model;
use std::sync::Arc;

/// An ontology with its logical axioms in numbered slots, and with numbers for the entities in their signatures.
#[derive(Drop)]
pub struct NumberedOntology {
    pub(crate) keys: RandomState,
    pub(crate) axioms: Vec<Arc<Noted>>,
    // for each axiom the slot in which it is
    pub(crate) slots: Vec<Option<u32>>,
    pub(crate) names: Symbols,
    pub(crate) universe: FlatUniverse,
}

impl Model for NumberedOntology {
    ghost use Rattle.ad_syntax_laws.specs.OntologyModule.{values};
    ghost use Rattle.ad_numbered.specs.Numbered.{InSlots, in_slots_code, in_slots, IsNumbered};

    ghost Value = { InSlots };

    ghost coded = { in_slots_code };

    ghost view = { λ o. in_slots (values o.axioms.items) o.slots.items o.names.names o.universe };

    ghost invariant = { λ o. IsNumbered (in_slots (values o.axioms.items) o.slots.items o.names.names o.universe) };
}

impl NumberedOntology {
    /// A law: what holds of every numbered ontology.
    pub fn laws(&self)
        ensures { IsNumbered self.now }
    {
        let _axioms = &self.axioms;
    }

    /// The axioms, in the order in which they were put in.
    pub fn axioms(&self) -> &[Arc<Noted>]
        ensures { values result.now ≡ self.now.axioms }
    {
        self.axioms.as_slice()
    }

    /// The slot of the axiom at this place; None exactly for a carried axiom.
    pub fn slot(&self, i: u32) -> Option<u32>
        requires { i < length self.now.axioms }
        ensures slot { result ≡ slice_index_or self.now.slots i None }
        ensures logical { (a : Noted) → slice_get self.now.axioms i ≡ Some a → is_some result ≡ is_logical_axiom a }
    {
        self.slots[i as usize]
    }

    /// The slot of each axiom, in the ontology's order; None exactly for carried axioms.
    pub fn slots(&self) -> &[Option<u32>]
        ensures { result.now ≡ self.now.slots }
    {
        self.slots.as_slice()
    }

    /// The slots of the logical axioms, in the ontology's order.
    pub fn order(&self, alloc: Global) -> Result<Vec<u32>, Memory>
        ensures { IfOk result (λ order. order.items ≡ order_of self.now) }
    {
        given_slots(alloc, self.slots.as_slice())
    }

    /// The number of an entity; None exactly where it is in the signature of no logical axiom.
    pub fn number_of(&self, entity: &Entity) -> Option<u32>
        ensures number { result ≡ number_of self.now entity.now }
        ensures none { (result ≡ None) ↔ IsFalse (in_signatures (logical self.now.axioms) entity.now) }
    {
        self.names.number(entity.kind, &entity.name)
    }

    /// How many entities are in the signatures of the logical axioms.
    pub fn entity_count(&self) -> u32
        ensures count { result ≡ length (entities_of (logical self.now.axioms)) }
        ensures within { result ≤ self.now.symbols }
    {
        self.names.len()
    }

    /// The numbered axioms and entities.
    pub fn universe(&self) -> &FlatUniverse
        ensures held { held_in result.now ≡ self.now.held }
        ensures most { most_in result.now ≡ self.now.most }
        ensures symbols { symbols_in result.now ≡ self.now.symbols }
    {
        &self.universe
    }

    /// The keys with which names are hashed.
    pub fn keys(&self) -> RandomState {
        self.keys
    }
}

// The slots that there are in a list, in order.
fn given_slots(alloc: Global, slots: &[Option<u32>]) -> Result<Vec<u32>, Memory>
    ensures { IfOk result (λ order. order.items ≡ given slots.now) }
{
    let mut order = Vec::new(alloc);
    for slot in slots {
        push_given(&mut order, *slot)?;
    }
    Ok(order)
}

// Puts a slot, if there is one, at the end.
fn push_given(order: &mut Vec<u32>, slot: Option<u32>) -> Result<(), Memory>
    ensures { OnOk result (order.new.items ≡ order.old.items ++ given (slot ∷ [])) }
{
    if let Some(slot) = slot {
        order.push(slot)?;
    }
    Ok(())
}

impl Naming for NumberedOntology {
    ghost number_of = { number_of };

    fn number(&self, kind: EntityKind, name: &Word) -> Option<u32> {
        self.names.number(kind, name)
    }
}
