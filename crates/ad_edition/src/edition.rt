ghost use Rattle.std.specs.Prelude.{◌≡◌, ◌+◌, ◌<◌, ◌≤◌, ◌↔◌, IsFalse, IsTrue, [], is_some, length, slice_get, slice_index_or, Some, None, IfOk, IfErr, IsOk};
ghost use Rattle.std.specs.List.{IsDistinct};
ghost use Rattle.ad_base.specs.Limits.{AreWithinStandard};
ghost use Rattle.ad_tree.specs.declared.axioms.Noted.{Noted};
ghost use Rattle.ad_write.specs.Canonical.{canon_document};
ghost use Rattle.ad_apply.specs.Same.{same_axiom};
ghost use Rattle.ad_decompose.specs.Decomposed.{atomic_of};
ghost use Rattle.ad_flat.specs.Trees.{in_signatures};
ghost use Rattle.ad_flat.specs.Universes.{held_in, most_in, symbols_in};
ghost use Rattle.ad_numbered.specs.Numbered.{entities_of, number_of};

use crate::decomposed::empty_decomposition;
use crate::draft::Draft;
use crate::next::next_ontology;
use crate::receipts::Refused;
use ad_apply::{apply_steps, steps_of};
use ad_base::{Kind, Limits, Memory, Word};
use ad_decompose::Decomposition;
use ad_depend::Covers;
use ad_flat::FlatUniverse;
use ad_numbered::NumberedOntology;
use ad_tables::{Atoms, Rows};
use ad_tree::{Batch, Entity, EntityKind, Naming, Noted};
use ad_write::EMPTY_DOCUMENT;
use std::alloc::Global;
use std::hash::RandomState;
use std::marker::Model;
use std::sync::Arc;

/// The ontology after some accepted edits, with its decomposition. It never changes. It shares its axioms with the
/// editions before and after it.
#[derive(Drop)]
pub struct Edition {
    pub(crate) number: u32,
    pub(crate) limits: Limits,
    pub(crate) ontology: NumberedOntology,
    pub(crate) found: Decomposition,
    // how many of the axioms are logical ones
    pub(crate) count: u32,
    // how many bytes the document of the axioms has
    pub(crate) bytes: u64,
}

impl Model for Edition {
    ghost use Rattle.ad_edition.specs.Edition.{FitsLimits, IsDecompositionOf, IsSound, Whole, limited_edition, whole, whole_code};

    ghost Value = { Whole };

    ghost coded = { whole_code };

    ghost view = { λ e. whole e.number e.limits e.ontology e.found };

    ghost invariant = { λ e. IsSound (limited_edition e.number e.ontology.axioms e.limits) e.count e.bytes × FitsLimits e.limits e.ontology
        × IsDecompositionOf e.ontology e.found };
}

impl Edition {
    ghost use Rattle.ad_syntax_laws.specs.OntologyModule.{is_logical_axiom, logical, values};
    ghost use Rattle.ad_edition.specs.Edition.{drafted, first_of_all, limited_of, passed_by, IsEdition, IsRefusal};
    ghost use Rattle.ad_edition.specs.Limit.{IsRefusedBy, is_moved};

    /// The first edition: number 0, without axioms. Names are hashed with these keys, in this and the later editions.
    pub fn empty(alloc: Global, keys: RandomState, limits: Limits) -> Result<Edition, Memory>
        requires { AreWithinStandard limits }
        ensures { IfOk result (λ edition. limited_of edition ≡ first_of_all limits) }
    {
        let ontology = match NumberedOntology::of(alloc, keys, &limits, Vec::new(alloc)) {
            Ok(ontology) => ontology,
            Err(_) => return Err(Memory),
        };
        match empty_decomposition(alloc, &ontology) {
            Ok(found) => Ok(Edition {
                number: 0,
                limits,
                ontology,
                found,
                count: 0,
                bytes: EMPTY_DOCUMENT,
            }),
            Err(Memory) => {
                drop(ontology);
                Err(Memory)
            }
        }
    }

    /// A law: what holds of every edition. Its decomposition is exactly that of its axioms.
    pub fn laws(&self)
        ensures { IsEdition self.now }
    {
        self.ontology.laws();
    }

    /// How many edits led to this edition.
    pub fn number(&self) -> u32
        ensures { result ≡ self.now.shown.number }
    {
        self.number
    }

    /// The limits that this edition and its successors keep to.
    pub fn limits(&self) -> Limits
        ensures limits { result ≡ self.now.limits }
        ensures standard { AreWithinStandard self.now.limits }
    {
        self.limits
    }

    /// How many axioms there are, logical and carried.
    pub fn len(&self) -> u32
        ensures { result ≡ length self.now.shown.axioms }
    {
        self.axioms().len() as u32
    }

    /// Whether there is no axiom.
    pub fn is_empty(&self) -> bool
        ensures { IsTrue result ↔ (self.now.shown.axioms ≡ []) }
    {
        self.axioms().is_empty()
    }

    /// The axiom at this place.
    pub fn noted(&self, i: u32) -> &Noted
        requires { i < length self.now.shown.axioms }
        ensures { slice_get self.now.shown.axioms i ≡ Some result.now }
    {
        &self.axioms()[i as usize]
    }

    /// The axioms, in the order in which they were put in.
    pub fn axioms(&self) -> &[Arc<Noted>]
        ensures axioms { values result.now ≡ self.now.shown.axioms }
        ensures distinct { IsDistinct same_axiom self.now.shown.axioms }
        ensures few { length result.now ≤ 4294967295 }
    {
        self.ontology.axioms()
    }

    /// How many axioms are logical.
    pub fn axiom_count(&self) -> u32
        ensures count { result ≡ length (logical self.now.shown.axioms) }
        ensures within { result ≤ self.now.limits.axioms }
    {
        self.count
    }

    /// How many axioms are carried: declarations, and those on annotations.
    pub fn carried_count(&self) -> u32
        ensures { result + length (logical self.now.shown.axioms) ≡ length self.now.shown.axioms }
    {
        self.len() - self.count
    }

    /// How many entities, not built in, are in the signatures of the logical axioms.
    pub fn entity_count(&self) -> u32
        ensures count { result ≡ length (entities_of (logical self.now.shown.axioms)) }
        ensures within { result ≤ self.now.limits.entities }
    {
        self.laws();
        self.ontology.entity_count()
    }

    /// How many bytes the canonical document of the axioms has.
    pub fn bytes(&self) -> u64
        ensures { result ≡ length (canon_document self.now.shown.axioms) }
    {
        self.bytes
    }

    /// The slot of the axiom at this place; None exactly for a carried axiom.
    pub fn slot(&self, i: u32) -> Option<u32>
        requires { i < length self.now.shown.axioms }
        ensures slot { result ≡ slice_index_or self.now.numbered.slots i None }
        ensures logical { (a : Noted) → slice_get self.now.shown.axioms i ≡ Some a → is_some result ≡ is_logical_axiom a }
    {
        self.ontology.slot(i)
    }

    /// The number of an entity; None exactly where it is in the signature of no logical axiom.
    pub fn number_of(&self, entity: &Entity) -> Option<u32>
        ensures number { result ≡ number_of self.now.numbered entity.now }
        ensures none { (result ≡ None) ↔ IsFalse (in_signatures (logical self.now.shown.axioms) entity.now) }
    {
        self.ontology.number_of(entity)
    }

    /// The axioms in numbered slots.
    pub fn ontology(&self) -> &NumberedOntology
        ensures { result.now ≡ self.now.numbered }
    {
        &self.ontology
    }

    /// The numbered axioms and entities.
    pub fn universe(&self) -> &FlatUniverse
        ensures held { held_in result.now ≡ self.now.numbered.held }
        ensures most { most_in result.now ≡ self.now.numbered.most }
        ensures symbols { symbols_in result.now ≡ self.now.numbered.symbols }
    {
        self.ontology.universe()
    }

    /// The genuine modules of the logical axioms, of all three kinds, in slots.
    pub fn rows(&self) -> &Rows
        ensures { result.now ≡ self.now.found.tables }
    {
        self.found.rows()
    }

    /// The atoms of a kind.
    pub fn atoms(&self, kind: Kind) -> &Atoms
        ensures { result.now ≡ (atomic_of self.now.found kind).atoms }
    {
        self.found.atoms(kind)
    }

    /// The covers between the atoms of a kind.
    pub fn covers(&self, kind: Kind) -> &Covers
        ensures { result.now ≡ (atomic_of self.now.found kind).covers }
    {
        self.found.covers(kind)
    }

    /// The next edition by this batch, to be finished, if this edition or none is expected and no limit is passed. Limits
    /// are looked at in the order axioms, entities, bytes, editions.
    pub fn begin(
        &self,
        alloc: Global,
        batch: &Batch,
        expected: Option<u64>,
    ) -> Result<Draft, Refused>
        ensures draft { IfOk result (λ draft. draft ≡ drafted (limited_of self.now) batch.now) }
        ensures expected { IsOk result → IsFalse (is_moved expected self.now.shown.number) }
        ensures within { IsOk result → passed_by (limited_of self.now) batch.now ≡ None }
        ensures refused { IfErr result (IsRefusal (limited_of self.now) expected batch.now) }
    {
        if self.is_moved(expected) {
            return Err(Refused::Moved {
                edition: self.number,
            });
        }
        self.begin_unmoved(alloc, batch)
    }

    // Whether an edition is expected, and it isn't this one.
    fn is_moved(&self, expected: Option<u64>) -> bool
        ensures { result ≡ is_moved expected self.now.shown.number }
    {
        match expected {
            Some(expected) => expected != u64::from(self.number),
            None => false,
        }
    }

    // The next edition by this batch, to be finished, if no limit is passed.
    fn begin_unmoved(&self, alloc: Global, batch: &Batch) -> Result<Draft, Refused>
        ensures draft { IfOk result (λ draft. draft ≡ drafted (limited_of self.now) batch.now) }
        ensures within { IsOk result → passed_by (limited_of self.now) batch.now ≡ None }
        ensures refused { IfErr result (IsRefusedBy (passed_by (limited_of self.now) batch.now) self.now.shown.number) }
    {
        let steps = steps_of(alloc, batch.ops())?;
        let outcome = apply_steps(alloc, self.axioms(), steps.as_slice())?;
        let next = next_ontology(
            alloc,
            self.limits,
            self.number,
            self.ontology.keys(),
            outcome.axioms,
        )?;
        Ok(Draft {
            number: self.number + 1,
            limits: self.limits,
            next,
            done: outcome.done,
            steps,
        })
    }
}

impl Naming for Edition {
    ghost number_of = { λ edition. number_of edition.numbered };

    fn number(&self, kind: EntityKind, name: &Word) -> Option<u32> {
        self.ontology.number(kind, name)
    }
}
