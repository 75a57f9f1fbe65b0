//! The batch that adds a generated ontology.
ghost use Rattle.std.specs.Prelude.{◌≡◌, ◌∷◌, ◌++◌, ◌<◌, ◌≤◌, [], IfOk, OnOk, length, map};
ghost use Rattle.ad_gen.specs.Generated.{added, axioms_of_class, axioms_of_classes, below_everything, declarations, equal_to_twin, generated, where_divided};

use crate::axioms::{below_everything, below_half, declaration, equal_to_twin};
use ad_base::Memory;
use ad_tree::{Batch, Noted, Op, Sign};
use std::alloc::Global;

/// The additions of the generated ontology of this size, at most 10,000.
pub fn generate(alloc: Global, size: u32) -> Result<Batch, Memory>
    requires { size ≤ 10000 }
    ensures { IfOk result (λ batch. batch ≡ map added (generated size)) }
{
    let mut batch = declarations(alloc, size)?;
    add_all(alloc, size, &mut batch)?;
    Ok(batch)
}

// The additions of the declarations of all classes.
fn declarations(alloc: Global, size: u32) -> Result<Batch, Memory>
    requires { size ≤ 10000 }
    ensures { IfOk result (λ batch. batch ≡ map added (declarations size)) }
{
    let mut batch = Batch::new(alloc);
    for number in 0..size + 1 {
        add(&mut batch, declaration(alloc, number)?)?;
    }
    Ok(batch)
}

// Adds the axioms of all classes, from the one with the number 1 on.
fn add_all(alloc: Global, size: u32, batch: &mut Batch) -> Result<(), Memory>
    requires size { size ≤ 10000 }
    requires room { length batch.old ≤ 10001 }
    ensures { OnOk result (batch.new ≡ batch.old ++ map added (axioms_of_classes size)) }
{
    for before in 0..size {
        add_axioms(alloc, before + 1, batch)?;
    }
    Ok(())
}

// Adds the axioms of the class with this number.
fn add_axioms(alloc: Global, number: u32, batch: &mut Batch) -> Result<(), Memory>
    requires { length batch.old ≤ 50000 }
    ensures { OnOk result (batch.new ≡ batch.old ++ map added (axioms_of_class number)) }
{
    add(batch, below_half(alloc, number)?)?;
    add_twin(alloc, number, batch)?;
    add_below_everything(alloc, number, batch)
}

// Adds that the class with this number is equivalent to its twin, where 10 divides the number.
fn add_twin(alloc: Global, number: u32, batch: &mut Batch) -> Result<(), Memory>
    requires { length batch.old ≤ 50001 }
    ensures { OnOk result (batch.new ≡ batch.old ++ map added (where_divided 10 number (equal_to_twin number))) }
{
    if number % 10 == 0 {
        return add(batch, equal_to_twin(alloc, number)?);
    }
    Ok(())
}

// Adds that the class with this number is below the class of everything, where 100 divides the number.
fn add_below_everything(alloc: Global, number: u32, batch: &mut Batch) -> Result<(), Memory>
    requires { length batch.old ≤ 50002 }
    ensures { OnOk result (batch.new ≡ batch.old ++ map added (where_divided 100 number (below_everything number))) }
{
    if number % 100 == 0 {
        return add(batch, below_everything(alloc, number)?);
    }
    Ok(())
}

// Adds the addition of an axiom.
fn add(batch: &mut Batch, noted: Noted) -> Result<(), Memory>
    requires { length batch.old < 4294967295 }
    ensures { OnOk result (batch.new ≡ batch.old ++ added noted ∷ []) }
{
    batch.push(Op {
        sign: Sign::Add,
        noted,
    })
}
