//! What a summary counts of an edition.
ghost use Rattle.std.specs.Prelude.{◌≡◌, length};
ghost use Rattle.ad_base.specs.declared.limits.Kind.TheVariants as kinds;
ghost use Rattle.ad_reply.specs.Atoms.{shape_in};
ghost use Rattle.ad_reply.specs.Bodies.{carried_count};
ghost use Rattle.ad_summary.specs.Summary.{cover_count};

use ad_base::Kind;
use ad_edition::Edition;

// How many axioms are carried.
pub(crate) fn carried_count(edition: &Edition) -> u64
    ensures { result ≡ carried_count edition.now.shown.axioms }
{
    u64::from(edition.carried_count())
}

// How many axioms are in no module.
pub(crate) fn tautology_count(edition: &Edition) -> u64
    ensures { result ≡ (shape_in kinds.Bottom edition.now).tautologies }
{
    edition.laws();
    u64::from(edition.atoms(Kind::Bottom).tautologies())
}

// How many atoms of this kind there are.
pub(crate) fn atom_count(edition: &Edition, kind: Kind) -> u64
    ensures { result ≡ length (shape_in kind edition.now).sizes }
{
    edition.laws();
    u64::from(edition.atoms(kind).count())
}

// How many pairs of an atom of this kind and another that it covers there are.
pub(crate) fn cover_count(edition: &Edition, kind: Kind) -> u64
    ensures { result ≡ cover_count (shape_in kind edition.now) }
{
    edition.laws();
    edition.covers(kind).count()
}
