ghost use Rattle.std.specs.Prelude.{◌≡◌};
ghost use Rattle.ad_terms.specs.Items.{as_name, as_number, as_literal, as_property, as_individual, as_range, as_class, as_entity, as_subject, as_value, as_lower, as_axiom, as_sign};

use crate::item::StackItem;
use ad_base::Word;
use ad_tree::{
    Class, Entity, Individual, Literal, Noted, ObjProp, ObjProps, Range, Sign, Subject, Value,
};

/// What an item can be read as where a phrase of this kind is asked for.
pub trait ReadsAs: Sized + Drop {
    ghost use Rattle.std.specs.Prelude.{Option};
    ghost use Rattle.ad_terms.specs.declared.item.StackItem.{StackItem};

    ghost as_item: { StackItem → Option Self };

    /// The phrase that the item is, if it is one of this kind.
    fn read(item: StackItem) -> Option<Self>
        ensures { result ≡ as_item item };
}

/// The lower side of an axiom between object properties.
#[derive(Drop)]
pub enum Lower {
    Property(ObjProp),
    Chain(ObjProps),
}

impl ReadsAs for Word {
    ghost as_item = { as_name };

    fn read(item: StackItem) -> Option<Word> {
        match item {
            StackItem::Name(name) => Some(name),
            _other => None,
        }
    }
}

impl ReadsAs for u32 {
    ghost as_item = { as_number };

    fn read(item: StackItem) -> Option<u32> {
        match item {
            StackItem::Number(number) => Some(number),
            _other => None,
        }
    }
}

impl ReadsAs for Literal {
    ghost as_item = { as_literal };

    fn read(item: StackItem) -> Option<Literal> {
        match item {
            StackItem::Literal(literal) => Some(literal),
            _other => None,
        }
    }
}

impl ReadsAs for ObjProp {
    ghost as_item = { as_property };

    fn read(item: StackItem) -> Option<ObjProp> {
        match item {
            StackItem::Name(name) => Some(ObjProp::Named(name)),
            StackItem::Inverse(name) => Some(ObjProp::Inverse(name)),
            _other => None,
        }
    }
}

impl ReadsAs for Lower {
    ghost as_item = { as_lower };

    fn read(item: StackItem) -> Option<Lower> {
        match item {
            StackItem::Name(name) => Some(Lower::Property(ObjProp::Named(name))),
            StackItem::Inverse(name) => Some(Lower::Property(ObjProp::Inverse(name))),
            StackItem::Chain(chain) => Some(Lower::Chain(chain)),
            _other => None,
        }
    }
}

impl ReadsAs for Individual {
    ghost as_item = { as_individual };

    fn read(item: StackItem) -> Option<Individual> {
        match item {
            StackItem::Name(name) => Some(Individual::Named(name)),
            StackItem::Label(label) => Some(Individual::Anonymous(label)),
            _other => None,
        }
    }
}

impl ReadsAs for Range {
    ghost as_item = { as_range };

    fn read(item: StackItem) -> Option<Range> {
        match item {
            StackItem::Name(name) => Some(Range::Named(name)),
            StackItem::Range(range) => Some(range),
            _other => None,
        }
    }
}

impl ReadsAs for Class {
    ghost as_item = { as_class };

    fn read(item: StackItem) -> Option<Class> {
        match item {
            StackItem::Name(name) => Some(Class::Named(name)),
            StackItem::Class(class) => Some(class),
            _other => None,
        }
    }
}

impl ReadsAs for Entity {
    ghost as_item = { as_entity };

    fn read(item: StackItem) -> Option<Entity> {
        match item {
            StackItem::Entity(entity) => Some(entity),
            _other => None,
        }
    }
}

impl ReadsAs for Noted {
    ghost as_item = { as_axiom };

    fn read(item: StackItem) -> Option<Noted> {
        match item {
            StackItem::Axiom(noted) => Some(noted),
            _other => None,
        }
    }
}

impl ReadsAs for Subject {
    ghost as_item = { as_subject };

    fn read(item: StackItem) -> Option<Subject> {
        match item {
            StackItem::Name(name) => Some(Subject::Iri(name)),
            StackItem::Label(label) => Some(Subject::Anonymous(label)),
            _other => None,
        }
    }
}

impl ReadsAs for Value {
    ghost as_item = { as_value };

    fn read(item: StackItem) -> Option<Value> {
        match item {
            StackItem::Name(name) => Some(Value::Iri(name)),
            StackItem::Label(label) => Some(Value::Anonymous(label)),
            StackItem::Literal(literal) => Some(Value::Literal(literal)),
            _other => None,
        }
    }
}

impl ReadsAs for Sign {
    ghost as_item = { as_sign };

    fn read(item: StackItem) -> Option<Sign> {
        match item {
            StackItem::Signed(sign) => Some(sign),
            _other => None,
        }
    }
}
