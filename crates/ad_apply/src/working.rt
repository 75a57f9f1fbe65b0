ghost use Rattle.std.specs.Prelude.{◌≡◌, ◌<◌, ◌≤◌, ◌+◌, ◌^◌, ℕ, ◌++◌, ◌∷◌, [], List, OnOk, IfOk, length, cond, Some, is_some, ◌&&◌};
ghost use Rattle.std.specs.List.{IsDistinct};
ghost use Rattle.std.specs.Arc.{arc_value};
ghost use Rattle.ad_apply.specs.Same.{same_axiom};
ghost use Rattle.ad_tree.specs.declared.axioms.Noted.{Noted};
ghost use Rattle.ad_apply.specs.Apply.{applied, counts_from};
ghost use Rattle.ad_syntax_laws.specs.OntologyModule.{values};
ghost use Rattle.ad_apply.specs.Places.{place_in, is_here, here_from, Sits};
ghost use Rattle.ad_apply.specs.Steps.{batch_in};
ghost use Rattle.ad_apply.specs.Working.{counts_in, total_of, is_at, place_now, ComesTo, AddsOne, TakesOne, Does, AreNamed, StayNamed, IsUnsettled};

use crate::places::{Index, Place, place_of, put, stands_at};
use crate::steps::Step;
use ad_base::Memory;
use ad_tree::{Noted, Sign};
use std::alloc::Global;
use std::collections::HashMap;
use std::sync::Arc;

/// What operations did: how many added an axiom, found it there already, took it out, or found it absent.
#[derive(Clone, Copy)]
pub struct Done {
    pub added: u32,
    pub already: u32,
    pub removed: u32,
    pub absent: u32,
}

// A batch that is being applied to `base` axioms.
#[derive(Drop)]
pub(crate) struct Working<'a> {
    pub(crate) index: Index<'a>,
    pub(crate) base: u32,
    pub(crate) added: Vec<Arc<Noted>>,
    pub(crate) done: Done,
}

// The axioms of the batch, none of which stands anywhere yet.
pub(crate) fn named<'a>(alloc: Global, steps: &'a [Step]) -> Result<Index<'a>, Memory>
    ensures unsettled { IfOk result (λ index. IsUnsettled (place_in index)) }
    ensures named { IfOk result (λ index. AreNamed (place_in index) steps.now (length steps.now)) }
{
    let mut index = HashMap::new(alloc);
    for step in steps {
        put(&mut index, &step.noted, Place::Absent)?;
    }
    Ok(index)
}

// An axiom of the edition before stands in its place, if the batch names it.
fn seat<'a>(index: &mut Index<'a>, noted: &'a Noted, at: usize) -> Result<(), Memory>
    ensures { OnOk result ((a : Noted) → place_in index.new a ≡ cond (is_some (place_in index.old noted.now) && same_axiom noted.now a) (Some (Place.At at)) (place_in index.old a)) }
{
    if place_of(index, noted).is_some() {
        put(index, noted, Place::At(at))?;
    }
    Ok(())
}

// The axioms of the edition before stand in their places.
pub(crate) fn seat_all<'a>(index: &mut Index<'a>, old: &'a [Arc<Noted>]) -> Result<(), Memory>
    requires distinct { IsDistinct same_axiom (values old.now) }
    requires unsettled { IsUnsettled (place_in index.old) }
    ensures sits { OnOk result (Sits same_axiom (place_in index.new) (values old.now)) }
    ensures stands { OnOk result (here_from (place_in index.new) 0 (values old.now) ≡ values old.now) }
    ensures named { OnOk result (StayNamed (place_in index.old) (place_in index.new)) }
{
    for (i, noted) in old.iter().enumerate() {
        seat(index, noted, i)?;
    }
    Ok(())
}

fn stands(index: &Index, noted: &Noted) -> bool
    ensures { result ≡ is_at (place_in index.now noted.now) }
{
    matches!(place_of(index, noted), Some(Place::At(_)))
}

fn add<'a>(working: &mut Working<'a>, noted: &'a Arc<Noted>) -> Result<(), Memory>
    requires { working.old.done.added < 4294967295 }
    ensures { OnOk result (AddsOne working.old working.new (arc_value noted.now)) }
{
    let at = working.base as usize + working.done.added as usize;
    working.added.push(Arc::try_clone(noted)?)?;
    put(&mut working.index, noted, Place::At(at))?;
    working.done.added += 1;
    Ok(())
}

fn take_out<'a>(working: &mut Working<'a>, noted: &'a Noted) -> Result<(), Memory>
    requires { working.old.done.removed < 4294967295 }
    ensures { OnOk result (TakesOne working.old working.new noted.now) }
{
    put(&mut working.index, noted, Place::Absent)?;
    working.done.removed += 1;
    Ok(())
}

// Does one operation.
fn take_step<'a>(working: &mut Working<'a>, step: &'a Step) -> Result<(), Memory>
    requires { total_of (counts_in working.old.done) < 4294967295 }
    ensures { OnOk result (Does step.now.sign (is_at (place_now working.old (arc_value step.now.noted))) working.old working.new (arc_value step.now.noted)) }
{
    match (step.sign, stands(&working.index, &step.noted)) {
        (Sign::Add, false) => add(working, &step.noted)?,
        (Sign::Add, true) => working.done.already += 1,
        (Sign::Remove, true) => take_out(working, &step.noted)?,
        (Sign::Remove, false) => working.done.absent += 1,
    }
    Ok(())
}

// Does the operations, one after another.
pub(crate) fn take_steps<'a>(working: &mut Working<'a>, steps: &'a [Step]) -> Result<(), Memory>
    requires few { length steps.now ≤ 4294967295 }
    requires named { AreNamed (place_now working.old) steps.now (length steps.now) }
    requires fresh { total_of (counts_in working.old.done) ≡ 0 }
    ensures comes_to { OnOk result ((old ontology : List Noted) → ComesTo old working.old ontology → ComesTo old working.new (applied ontology (batch_in steps.now))) }
    ensures counts { OnOk result ((old ontology : List Noted) → ComesTo old working.old ontology → counts_in working.new.done ≡ counts_from (counts_in working.old.done) ontology (batch_in steps.now)) }
{
    for step in steps {
        take_step(working, step)?;
    }
    Ok(())
}

// An axiom is put at the end if it stands in this place.
fn keep_one(
    kept: &mut Vec<Arc<Noted>>,
    index: &Index,
    noted: &Arc<Noted>,
    at: usize,
) -> Result<(), Memory>
    ensures { OnOk result (values kept.new.items ≡ values kept.old.items ++ cond (is_here (place_in index.now (arc_value noted.now)) at) (arc_value noted.now ∷ []) []) }
{
    if stands_at(place_of(index, noted), at) {
        kept.push(Arc::try_clone(noted)?)?;
    }
    Ok(())
}

// The axioms that stand in their places, of these in the places from `first` on, are put at the end.
pub(crate) fn keep(
    kept: &mut Vec<Arc<Noted>>,
    index: &Index,
    first: u32,
    all: &[Arc<Noted>],
) -> Result<(), Memory>
    requires { length all.now < 2 ^ 63 }
    ensures { OnOk result (values kept.new.items ≡ values kept.old.items ++ here_from (place_in index.now) first (values all.now)) }
{
    for (i, noted) in all.iter().enumerate() {
        keep_one(kept, index, noted, first as usize + i)?;
    }
    Ok(())
}
