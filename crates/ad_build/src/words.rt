ghost use Rattle.std.specs.Prelude.{◌≡◌, map};
ghost use Rattle.ad_build.specs.Words.{keyword_of, keyword_among};

use ad_terms::{
    AxiomWord, ClassWord, CountWord, EndWord, FactWord, FillerWord, JoinWord, Keyword, NamesWord,
    RangeWord, SetWord, TraitWord,
};
use ad_tree::EntityKind;
use ad_write::keywords;

// All keywords, each with how it is spelled.
static KEYWORDS: [(&str, Keyword); 68] = [
    (keywords::ANNOTATION, Keyword::Annotation),
    (keywords::OBJECT_INVERSE_OF, Keyword::Inverse),
    (keywords::OBJECT_PROPERTY_CHAIN, Keyword::Chain),
    (keywords::CLASS, Keyword::Entity(EntityKind::Class)),
    (keywords::DATATYPE, Keyword::Entity(EntityKind::Datatype)),
    (
        keywords::OBJECT_PROPERTY,
        Keyword::Entity(EntityKind::ObjectProperty),
    ),
    (
        keywords::DATA_PROPERTY,
        Keyword::Entity(EntityKind::DataProperty),
    ),
    (
        keywords::ANNOTATION_PROPERTY,
        Keyword::Entity(EntityKind::AnnotationProperty),
    ),
    (
        keywords::NAMED_INDIVIDUAL,
        Keyword::Entity(EntityKind::NamedIndividual),
    ),
    (
        keywords::DATA_INTERSECTION_OF,
        Keyword::Range(RangeWord::Join(JoinWord::Intersection)),
    ),
    (
        keywords::DATA_UNION_OF,
        Keyword::Range(RangeWord::Join(JoinWord::Union)),
    ),
    (
        keywords::DATA_COMPLEMENT_OF,
        Keyword::Range(RangeWord::Complement),
    ),
    (keywords::DATA_ONE_OF, Keyword::Range(RangeWord::OneOf)),
    (
        keywords::DATATYPE_RESTRICTION,
        Keyword::Range(RangeWord::Restriction),
    ),
    (
        keywords::OBJECT_INTERSECTION_OF,
        Keyword::Class(ClassWord::Join(JoinWord::Intersection)),
    ),
    (
        keywords::OBJECT_UNION_OF,
        Keyword::Class(ClassWord::Join(JoinWord::Union)),
    ),
    (
        keywords::OBJECT_COMPLEMENT_OF,
        Keyword::Class(ClassWord::Complement),
    ),
    (keywords::OBJECT_ONE_OF, Keyword::Class(ClassWord::OneOf)),
    (
        keywords::OBJECT_SOME_VALUES_FROM,
        Keyword::Class(ClassWord::ObjectFiller(FillerWord::Some)),
    ),
    (
        keywords::OBJECT_ALL_VALUES_FROM,
        Keyword::Class(ClassWord::ObjectFiller(FillerWord::All)),
    ),
    (
        keywords::OBJECT_HAS_VALUE,
        Keyword::Class(ClassWord::ObjectValue),
    ),
    (
        keywords::OBJECT_HAS_SELF,
        Keyword::Class(ClassWord::ObjectSelf),
    ),
    (
        keywords::OBJECT_MIN_CARDINALITY,
        Keyword::Class(ClassWord::ObjectCount(CountWord::Min)),
    ),
    (
        keywords::OBJECT_MAX_CARDINALITY,
        Keyword::Class(ClassWord::ObjectCount(CountWord::Max)),
    ),
    (
        keywords::OBJECT_EXACT_CARDINALITY,
        Keyword::Class(ClassWord::ObjectCount(CountWord::Exact)),
    ),
    (
        keywords::DATA_SOME_VALUES_FROM,
        Keyword::Class(ClassWord::DataFiller(FillerWord::Some)),
    ),
    (
        keywords::DATA_ALL_VALUES_FROM,
        Keyword::Class(ClassWord::DataFiller(FillerWord::All)),
    ),
    (
        keywords::DATA_HAS_VALUE,
        Keyword::Class(ClassWord::DataValue),
    ),
    (
        keywords::DATA_MIN_CARDINALITY,
        Keyword::Class(ClassWord::DataCount(CountWord::Min)),
    ),
    (
        keywords::DATA_MAX_CARDINALITY,
        Keyword::Class(ClassWord::DataCount(CountWord::Max)),
    ),
    (
        keywords::DATA_EXACT_CARDINALITY,
        Keyword::Class(ClassWord::DataCount(CountWord::Exact)),
    ),
    (
        keywords::SUB_CLASS_OF,
        Keyword::Axiom(AxiomWord::SubClassOf),
    ),
    (
        keywords::EQUIVALENT_CLASSES,
        Keyword::Axiom(AxiomWord::Classes(SetWord::Same)),
    ),
    (
        keywords::DISJOINT_CLASSES,
        Keyword::Axiom(AxiomWord::Classes(SetWord::Different)),
    ),
    (
        keywords::DISJOINT_UNION,
        Keyword::Axiom(AxiomWord::DisjointUnion),
    ),
    (
        keywords::SUB_OBJECT_PROPERTY_OF,
        Keyword::Axiom(AxiomWord::SubObjectPropertyOf),
    ),
    (
        keywords::EQUIVALENT_OBJECT_PROPERTIES,
        Keyword::Axiom(AxiomWord::Properties(SetWord::Same)),
    ),
    (
        keywords::DISJOINT_OBJECT_PROPERTIES,
        Keyword::Axiom(AxiomWord::Properties(SetWord::Different)),
    ),
    (
        keywords::INVERSE_OBJECT_PROPERTIES,
        Keyword::Axiom(AxiomWord::Inverse),
    ),
    (
        keywords::OBJECT_PROPERTY_DOMAIN,
        Keyword::Axiom(AxiomWord::PropertyEnd(EndWord::Domain)),
    ),
    (
        keywords::OBJECT_PROPERTY_RANGE,
        Keyword::Axiom(AxiomWord::PropertyEnd(EndWord::Range)),
    ),
    (
        keywords::FUNCTIONAL_OBJECT_PROPERTY,
        Keyword::Axiom(AxiomWord::Trait(TraitWord::Functional)),
    ),
    (
        keywords::INVERSE_FUNCTIONAL_OBJECT_PROPERTY,
        Keyword::Axiom(AxiomWord::Trait(TraitWord::InverseFunctional)),
    ),
    (
        keywords::REFLEXIVE_OBJECT_PROPERTY,
        Keyword::Axiom(AxiomWord::Trait(TraitWord::Reflexive)),
    ),
    (
        keywords::IRREFLEXIVE_OBJECT_PROPERTY,
        Keyword::Axiom(AxiomWord::Trait(TraitWord::Irreflexive)),
    ),
    (
        keywords::SYMMETRIC_OBJECT_PROPERTY,
        Keyword::Axiom(AxiomWord::Trait(TraitWord::Symmetric)),
    ),
    (
        keywords::ASYMMETRIC_OBJECT_PROPERTY,
        Keyword::Axiom(AxiomWord::Trait(TraitWord::Asymmetric)),
    ),
    (
        keywords::TRANSITIVE_OBJECT_PROPERTY,
        Keyword::Axiom(AxiomWord::Trait(TraitWord::Transitive)),
    ),
    (
        keywords::SUB_DATA_PROPERTY_OF,
        Keyword::Axiom(AxiomWord::Names(NamesWord::SubDataPropertyOf)),
    ),
    (
        keywords::EQUIVALENT_DATA_PROPERTIES,
        Keyword::Axiom(AxiomWord::DataProperties(SetWord::Same)),
    ),
    (
        keywords::DISJOINT_DATA_PROPERTIES,
        Keyword::Axiom(AxiomWord::DataProperties(SetWord::Different)),
    ),
    (
        keywords::DATA_PROPERTY_DOMAIN,
        Keyword::Axiom(AxiomWord::DataPropertyDomain),
    ),
    (
        keywords::DATA_PROPERTY_RANGE,
        Keyword::Axiom(AxiomWord::DataPropertyRange),
    ),
    (
        keywords::FUNCTIONAL_DATA_PROPERTY,
        Keyword::Axiom(AxiomWord::FunctionalDataProperty),
    ),
    (
        keywords::DATATYPE_DEFINITION,
        Keyword::Axiom(AxiomWord::DatatypeDefinition),
    ),
    (keywords::HAS_KEY, Keyword::Axiom(AxiomWord::HasKey)),
    (
        keywords::SAME_INDIVIDUAL,
        Keyword::Axiom(AxiomWord::Individuals(SetWord::Same)),
    ),
    (
        keywords::DIFFERENT_INDIVIDUALS,
        Keyword::Axiom(AxiomWord::Individuals(SetWord::Different)),
    ),
    (
        keywords::CLASS_ASSERTION,
        Keyword::Axiom(AxiomWord::ClassAssertion),
    ),
    (
        keywords::OBJECT_PROPERTY_ASSERTION,
        Keyword::Axiom(AxiomWord::PropertyFact(FactWord::Holds)),
    ),
    (
        keywords::NEGATIVE_OBJECT_PROPERTY_ASSERTION,
        Keyword::Axiom(AxiomWord::PropertyFact(FactWord::Fails)),
    ),
    (
        keywords::DATA_PROPERTY_ASSERTION,
        Keyword::Axiom(AxiomWord::DataFact(FactWord::Holds)),
    ),
    (
        keywords::NEGATIVE_DATA_PROPERTY_ASSERTION,
        Keyword::Axiom(AxiomWord::DataFact(FactWord::Fails)),
    ),
    (
        keywords::DECLARATION,
        Keyword::Axiom(AxiomWord::Declaration),
    ),
    (
        keywords::ANNOTATION_ASSERTION,
        Keyword::Axiom(AxiomWord::AnnotationAssertion),
    ),
    (
        keywords::SUB_ANNOTATION_PROPERTY_OF,
        Keyword::Axiom(AxiomWord::Names(NamesWord::SubAnnotationPropertyOf)),
    ),
    (
        keywords::ANNOTATION_PROPERTY_DOMAIN,
        Keyword::Axiom(AxiomWord::Names(NamesWord::AnnotationPropertyDomain)),
    ),
    (
        keywords::ANNOTATION_PROPERTY_RANGE,
        Keyword::Axiom(AxiomWord::Names(NamesWord::AnnotationPropertyRange)),
    ),
];

/// The keyword that a word is, if it is one.
pub fn keyword_of(word: &str) -> Option<Keyword>
    ensures { result ≡ keyword_of word.now }
{
    keyword_among(&KEYWORDS, word)
}

// The first of these keywords that is spelled so.
fn keyword_among(keywords: &[(&str, Keyword)], word: &str) -> Option<Keyword>
    ensures { result ≡ keyword_among (map (λ k. (k.0.now, k.1)) keywords.now) word.now }
{
    for keyword in keywords {
        if keyword.0 == word {
            return Some(keyword.1);
        }
    }
    None
}
