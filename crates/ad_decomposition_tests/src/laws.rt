use crate::loose::Loose;
use ad_decomposition::{atoms_are_classes, covers_are_between, nested_depends, rows_nest};
use ad_theory::laws;

#[test]
fn laws_of_modules() {
    laws::literal::<u32, u32>();
    laws::once::<u32, u32>();
    laws::grows::<u32, u32>();
    laws::own::<u32, u32>();
    laws::star_once::<u32, u32>();
    laws::alternation::<u32, u32>();
    laws::nested::<u32, u32>();
}

#[test]
fn laws_of_change() {
    laws::side_kept::<u32, u32>();
    laws::star_kept::<u32, u32>();
}

#[test]
fn laws_of_universes() {
    laws::numbered::<Loose>();
    laws::genuine_nested::<Loose>();
    laws::tautologies::<Loose>();
}

#[test]
fn laws_of_atoms() {
    rows_nest::<Loose>();
    atoms_are_classes::<u32>();
    nested_depends::<u32>();
    covers_are_between::<u32>();
}
