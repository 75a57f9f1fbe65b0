use ad_tree::EntityKind;

/// The keywords that stand before parentheses within a document.
#[derive(Clone, Copy)]
pub enum Keyword {
    Annotation,
    Inverse,
    Chain,
    Entity(EntityKind),
    Range(RangeWord),
    Class(ClassWord),
    Axiom(AxiomWord),
}

/// The keywords of data ranges, by what they take.
#[derive(Clone, Copy)]
pub enum RangeWord {
    /// Data ranges.
    Join(JoinWord),
    /// A data range.
    Complement,
    /// Literals.
    OneOf,
    /// A datatype, and facets of it.
    Restriction,
}

/// The keywords of class expressions, by what they take.
#[derive(Clone, Copy)]
pub enum ClassWord {
    /// Classes.
    Join(JoinWord),
    /// A class.
    Complement,
    /// Individuals.
    OneOf,
    /// An object property and a class.
    ObjectFiller(FillerWord),
    /// An object property and an individual.
    ObjectValue,
    /// An object property.
    ObjectSelf,
    /// A number, an object property, and a class that may be absent.
    ObjectCount(CountWord),
    /// A data property and a data range.
    DataFiller(FillerWord),
    /// A data property and a literal.
    DataValue,
    /// A number, a data property, and a data range that may be absent.
    DataCount(CountWord),
}

/// The keywords of axioms, by what they take behind the annotations.
#[derive(Clone, Copy)]
pub enum AxiomWord {
    /// Two classes.
    SubClassOf,
    /// Classes.
    Classes(SetWord),
    /// The name of a class, and classes.
    DisjointUnion,
    /// An object property or a chain of them, and an object property.
    SubObjectPropertyOf,
    /// Object properties.
    Properties(SetWord),
    /// Two object properties.
    Inverse,
    /// An object property and a class.
    PropertyEnd(EndWord),
    /// An object property.
    Trait(TraitWord),
    /// Two names.
    Names(NamesWord),
    /// Names of data properties.
    DataProperties(SetWord),
    /// The name of a data property and a class.
    DataPropertyDomain,
    /// The name of a data property and a data range.
    DataPropertyRange,
    /// The name of a data property.
    FunctionalDataProperty,
    /// The name of a datatype and a data range.
    DatatypeDefinition,
    /// A class, and between parentheses object properties and names of data properties.
    HasKey,
    /// Individuals.
    Individuals(SetWord),
    /// A class and an individual.
    ClassAssertion,
    /// An object property and two individuals.
    PropertyFact(FactWord),
    /// The name of a data property, an individual and a literal.
    DataFact(FactWord),
    /// An entity.
    Declaration,
    /// The name of an annotation property, a subject and a value.
    AnnotationAssertion,
}

/// What is joined is the intersection or the union.
#[derive(Clone, Copy)]
pub enum JoinWord {
    Intersection,
    Union,
}

/// What a property leads to is in part or in all of the filler.
#[derive(Clone, Copy)]
pub enum FillerWord {
    Some,
    All,
}

/// The bounds of a number.
#[derive(Clone, Copy)]
pub enum CountWord {
    Min,
    Max,
    Exact,
}

/// The members of a list are all the same, or no two of them are.
#[derive(Clone, Copy)]
pub enum SetWord {
    Same,
    Different,
}

/// The two ends of a property.
#[derive(Clone, Copy)]
pub enum EndWord {
    Domain,
    Range,
}

/// What an object property may be.
#[derive(Clone, Copy)]
pub enum TraitWord {
    Functional,
    InverseFunctional,
    Reflexive,
    Irreflexive,
    Symmetric,
    Asymmetric,
    Transitive,
}

/// The axioms on two names.
#[derive(Clone, Copy)]
pub enum NamesWord {
    SubDataPropertyOf,
    SubAnnotationPropertyOf,
    AnnotationPropertyDomain,
    AnnotationPropertyRange,
}

/// What is said to hold, or not to hold.
#[derive(Clone, Copy)]
pub enum FactWord {
    Holds,
    Fails,
}
