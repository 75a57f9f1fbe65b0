//! The numbers of a seed's entities.
ghost use Rattle.std.specs.Prelude.{◌≡◌, ◌||◌, ◌&&◌, not, ℕ, Some, length};
ghost use Rattle.ad_bits.specs.Rows.{has};
ghost use Rattle.ad_entity.specs.Builtin.{is_builtin};
ghost use Rattle.ad_entity.specs.Entities.{same_entity};
ghost use Rattle.ad_entity.specs.declared.entities.Entity.{Entity};
ghost use Rattle.ad_numbered.specs.Numbered.{number_of};
ghost use Rattle.ad_module_document.specs.Documents.{AreSeedNumbers};

use ad_bits::Row;
use ad_numbered::NumberedOntology;
use ad_tree::{Entity, Seed};

// Makes the numbers of the seed's entities the members of the row.
pub(crate) fn mark_seed(ontology: &NumberedOntology, seed: &Seed, row: &mut Row)
    requires { length row.old ≡ ontology.now.symbols }
    ensures numbers { AreSeedNumbers ontology.now seed.now (has row.new) }
    ensures size { length row.new ≡ length row.old }
{
    row.clear();
    let entities = seed.entities();
    for entity in entities {
        mark(ontology, entity, row);
    }
}

// Makes the number of an entity of the seed, where it has one, a member of the row. A built-in entity has no effect.
fn mark(ontology: &NumberedOntology, entity: &Entity, row: &mut Row)
    requires { length row.old ≡ ontology.now.symbols }
    ensures marked { (e : Entity) (n : ℕ) → number_of ontology.now e ≡ Some n → has row.new n ≡ (has row.old n || (same_entity entity.now e && not (is_builtin e))) }
    ensures size { length row.new ≡ length row.old }
{
    if !entity.is_builtin() {
        set_number(ontology, entity, row);
    }
}

// Makes the number of an entity, where it has one, a member of the row.
fn set_number(ontology: &NumberedOntology, entity: &Entity, row: &mut Row)
    requires { length row.old ≡ ontology.now.symbols }
    ensures marked { (e : Entity) (n : ℕ) → number_of ontology.now e ≡ Some n → has row.new n ≡ (has row.old n || same_entity entity.now e) }
    ensures size { length row.new ≡ length row.old }
{
    ontology.laws();
    if let Some(number) = ontology.number_of(entity) {
        row.set(number);
    }
}
