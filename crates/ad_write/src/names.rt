ghost use Rattle.std.specs.Prelude.{◌≡◌};
ghost use Rattle.ad_write.specs.Canonical.{canon_anonymous, canon_entity, canon_individual, canon_property, canon_subject, entity_kind_word};

use crate::keywords;
use crate::shapes::one;
use crate::spelled::Spelled;
use ad_base::Word;
use ad_lines::Pen;
use ad_tree::{Entity, EntityKind, Individual, ObjProp, Subject};

// An object property, or the inverse of a named one.
impl Spelled for ObjProp {
    ghost spelling = { canon_property };

    fn write<P: Pen>(&self, pen: &mut P) {
        match self {
            ObjProp::Named(name) => name.write(pen),
            ObjProp::Inverse(name) => one(pen, keywords::OBJECT_INVERSE_OF, &[], name),
        }
    }
}

// An individual, named or anonymous.
impl Spelled for Individual {
    ghost spelling = { canon_individual };

    fn write<P: Pen>(&self, pen: &mut P) {
        match self {
            Individual::Named(name) => name.write(pen),
            Individual::Anonymous(label) => write_anonymous(pen, label),
        }
    }
}

// The subject of an annotation assertion.
impl Spelled for Subject {
    ghost spelling = { canon_subject };

    fn write<P: Pen>(&self, pen: &mut P) {
        match self {
            Subject::Iri(iri) => iri.write(pen),
            Subject::Anonymous(label) => write_anonymous(pen, label),
        }
    }
}

// An entity is its kind and, between parentheses, its IRI.
impl Spelled for Entity {
    ghost spelling = { canon_entity };

    fn write<P: Pen>(&self, pen: &mut P) {
        one(pen, keyword(self.kind), &[], &self.name);
    }
}

/// Writes an anonymous individual: its label behind `_:`.
pub fn write_anonymous<P: Pen>(pen: &mut P, label: &Word)
    ensures { P.writes pen.old pen.new (canon_anonymous label.now) }
{
    pen.put(b"_:");
    pen.put(label.as_bytes());
}

// The word of a kind of entity.
fn keyword(kind: EntityKind) -> &'static str
    ensures { result.now ≡ entity_kind_word kind }
{
    match kind {
        EntityKind::Class => keywords::CLASS,
        EntityKind::Datatype => keywords::DATATYPE,
        EntityKind::ObjectProperty => keywords::OBJECT_PROPERTY,
        EntityKind::DataProperty => keywords::DATA_PROPERTY,
        EntityKind::AnnotationProperty => keywords::ANNOTATION_PROPERTY,
        EntityKind::NamedIndividual => keywords::NAMED_INDIVIDUAL,
    }
}
