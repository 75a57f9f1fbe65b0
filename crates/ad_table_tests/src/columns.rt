//! What the table says of an expression or an axiom that is read from a text.
ghost use Rattle.std.specs.Prelude.{true};

use ad_base::{Limits, Side, Word};
use ad_local::{class_surely, is_local, range_surely};
use ad_locality::Surely;
use ad_read::{read_axiom, read_seed};
use ad_tree::{Axiom, Class, EntityKind, Noted, Range, Seed, Seen};
use std::alloc::Global;
use std::test::Fail;

// An expression, and what is sure of it: on the bottom side and on the top side where none of its names is seen, and on
// both where all are. B is surely empty, T surely everything, N surely not empty, and - nothing.
pub(crate) type Row = (&'static str, &'static str, &'static str, &'static str);

// An expression, some of its names, and what is sure on the bottom side and on the top side where these are seen.
pub(crate) type SeenRow = (&'static str, &'static str, &'static str, &'static str);

// An axiom, and the sides on which it is local where none of its names is seen, and where all are.
pub(crate) type AxiomRow = (&'static str, &'static str, &'static str);

// An axiom, some of its names, and the sides on which it is local where these are seen.
pub(crate) type SeenAxiomRow = (&'static str, &'static str, &'static str);

// All names.
#[derive(Clone, Copy)]
struct AllNames {}

impl Seen for AllNames {
    ghost member = { λ all e. true };

    fn has(&self, _kind: EntityKind, _name: &Word) -> bool {
        true
    }
}

// The axiom that a text of fewer than 1000 bytes spells.
fn axiom(alloc: Global, text: &str) -> Option<Noted> {
    if text.len() >= 1_000 {
        return None;
    }
    read_axiom(alloc, text.as_bytes(), &Limits::standard()).ok()
}

// The seed that a text of fewer than 1000 bytes spells.
fn seed(alloc: Global, text: &str) -> Option<Seed> {
    if text.len() >= 1_000 {
        return None;
    }
    read_seed(alloc, text.as_bytes(), &Limits::standard()).ok()
}

// The assertion that an individual is of this class.
fn asserted(alloc: Global, class: &str) -> Result<Noted, Fail> {
    let text = format!(in alloc; "ClassAssertion({class} <u:i>)")?;
    Ok(axiom(alloc, text.as_str()).ok_or("no class")?)
}

// The axiom that a property has this range.
fn ranged(alloc: Global, range: &str) -> Result<Noted, Fail> {
    let text = format!(in alloc; "DataPropertyRange(<u:p> {range})")?;
    Ok(axiom(alloc, text.as_str()).ok_or("no range")?)
}

// The letters of the columns.
pub(crate) fn letters(surely: Surely) -> &'static str {
    match (surely.empty, surely.whole, surely.nonempty) {
        (true, false, false) => "B",
        (false, true, true) => "TN",
        (false, false, true) => "N",
        (false, false, false) => "-",
        _ => "?",
    }
}

// The columns of the asserted class.
pub(crate) fn of_class<S: Seen>(side: Side, seen: &S, noted: &Noted) -> &'static str {
    match &noted.axiom {
        Axiom::ClassAssertion(class, _) => letters(class_surely(side, seen, class)),
        _ => "no class",
    }
}

// The columns of the range.
pub(crate) fn of_range<S: Seen>(side: Side, seen: &S, noted: &Noted) -> &'static str {
    match &noted.axiom {
        Axiom::DataPropertyRange(_, range) => letters(range_surely(side, seen, range)),
        _ => "no range",
    }
}

// The sides on which an axiom is local.
fn sides<S: Seen>(seen: &S, noted: &Noted) -> &'static str {
    let bottom = is_local(Side::Bottom, &noted.axiom, seen);
    let top = is_local(Side::Top, &noted.axiom, seen);
    match (bottom, top) {
        (true, true) => "both",
        (true, false) => "bottom",
        (false, true) => "top",
        (false, false) => "neither",
    }
}

fn is_class_row(alloc: Global, row: Row) -> Result<bool, Fail> {
    let (text, bottom, top, seen) = row;
    let noted = asserted(alloc, text)?;
    let none = Seed::new(alloc);
    Ok(
        of_class(Side::Bottom, &none, &noted) == bottom
            && of_class(Side::Top, &none, &noted) == top
            && of_class(Side::Bottom, &AllNames {}, &noted) == seen
            && of_class(Side::Top, &AllNames {}, &noted) == seen,
    )
}

fn is_range_row(alloc: Global, row: Row) -> Result<bool, Fail> {
    let (text, bottom, top, seen) = row;
    let noted = ranged(alloc, text)?;
    let none = Seed::new(alloc);
    Ok(
        of_range(Side::Bottom, &none, &noted) == bottom
            && of_range(Side::Top, &none, &noted) == top
            && of_range(Side::Bottom, &AllNames {}, &noted) == seen
            && of_range(Side::Top, &AllNames {}, &noted) == seen,
    )
}

fn is_seen_row(alloc: Global, row: SeenRow) -> Result<bool, Fail> {
    let (text, names, bottom, top) = row;
    let noted = asserted(alloc, text)?;
    let seen = seed(alloc, names).ok_or("no seed")?;
    Ok(of_class(Side::Bottom, &seen, &noted) == bottom && of_class(Side::Top, &seen, &noted) == top)
}

fn is_axiom_row(alloc: Global, row: AxiomRow) -> Result<bool, Fail> {
    let (text, none, all) = row;
    let noted = axiom(alloc, text).ok_or("no axiom")?;
    Ok(sides(&Seed::new(alloc), &noted) == none && sides(&AllNames {}, &noted) == all)
}

fn is_seen_axiom_row(alloc: Global, row: SeenAxiomRow) -> Result<bool, Fail> {
    let (text, names, local) = row;
    let noted = axiom(alloc, text).ok_or("no axiom")?;
    let seen = seed(alloc, names).ok_or("no seed")?;
    Ok(sides(&seen, &noted) == local)
}

// The first class expression of which the table says something else, or nothing.
pub(crate) fn wrong_class(alloc: Global, rows: &[Row]) -> Result<&'static str, Fail> {
    for row in rows.iter().copied() {
        if !is_class_row(alloc, row)? {
            return Ok(row.0);
        }
    }
    Ok("")
}

// The first data range of which the table says something else, or nothing.
pub(crate) fn wrong_range(alloc: Global, rows: &[Row]) -> Result<&'static str, Fail> {
    for row in rows.iter().copied() {
        if !is_range_row(alloc, row)? {
            return Ok(row.0);
        }
    }
    Ok("")
}

// The first class expression of which the table says something else for these names, or nothing.
pub(crate) fn wrong_seen(alloc: Global, rows: &[SeenRow]) -> Result<&'static str, Fail> {
    for row in rows.iter().copied() {
        if !is_seen_row(alloc, row)? {
            return Ok(row.0);
        }
    }
    Ok("")
}

// The first axiom of which the table says something else, or nothing.
pub(crate) fn wrong_axiom(alloc: Global, rows: &[AxiomRow]) -> Result<&'static str, Fail> {
    for row in rows.iter().copied() {
        if !is_axiom_row(alloc, row)? {
            return Ok(row.0);
        }
    }
    Ok("")
}

// The first axiom of which the table says something else for these names, or nothing.
pub(crate) fn wrong_seen_axiom(alloc: Global, rows: &[SeenAxiomRow]) -> Result<&'static str, Fail> {
    for row in rows.iter().copied() {
        if !is_seen_axiom_row(alloc, row)? {
            return Ok(row.0);
        }
    }
    Ok("")
}
