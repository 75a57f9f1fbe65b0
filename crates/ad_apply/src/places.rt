ghost use Rattle.std.specs.Prelude.{◌≡◌, ◌<◌, Some, None, OnOk, cond};
ghost use Rattle.ad_apply.specs.Same.{same_axiom};
ghost use Rattle.ad_tree.specs.declared.axioms.Noted.{Noted};
ghost use Rattle.ad_apply.specs.Places.{place_in, is_here};

use ad_base::Memory;
use ad_tree::Noted;
use std::collections::HashMap;

// Where an axiom of a batch stands while the batch is applied.
#[derive(Clone, Copy)]
pub(crate) enum Place {
    Absent,
    At(usize),
}

// The axioms of a batch, with their places.
pub(crate) type Index<'a> = HashMap<&'a Noted, Place>;

pub(crate) fn place_of(index: &Index, noted: &Noted) -> Option<Place>
    ensures { result ≡ place_in index.now noted.now }
{
    index.get(&noted).copied()
}

pub(crate) fn put<'a>(index: &mut Index<'a>, noted: &'a Noted, place: Place) -> Result<(), Memory>
    ensures { OnOk result ((a : Noted) → place_in index.new a ≡ cond (same_axiom noted.now a) (Some place) (place_in index.old a)) }
{
    index.insert(noted, place)?;
    Ok(())
}

pub(crate) fn stands_at(place: Option<Place>, at: usize) -> bool
    ensures { result ≡ is_here place at }
{
    match place {
        None => true,
        Some(Place::Absent) => false,
        Some(Place::At(i)) => i == at,
    }
}
