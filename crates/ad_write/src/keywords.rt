ghost use Rattle.std.specs.Prelude.{◌≡◌};
ghost use Rattle.ad_write.specs.Keywords as word;

// A document
/// An ontology: a whole document.
pub const ONTOLOGY: &str = "Ontology";

// Annotations
/// An annotation.
pub const ANNOTATION: &str = "Annotation";

// Entities
/// A class, as an entity.
pub const CLASS: &str = "Class";
/// A datatype, as an entity.
pub const DATATYPE: &str = "Datatype";
/// An object property, as an entity.
pub const OBJECT_PROPERTY: &str = "ObjectProperty";
/// A data property, as an entity.
pub const DATA_PROPERTY: &str = "DataProperty";
/// An annotation property, as an entity.
pub const ANNOTATION_PROPERTY: &str = "AnnotationProperty";
/// An individual with a name, as an entity.
pub const NAMED_INDIVIDUAL: &str = "NamedIndividual";

// Object property expressions and chains
/// The inverse of an object property.
pub const OBJECT_INVERSE_OF: &str = "ObjectInverseOf";
/// Object properties one after the other.
pub const OBJECT_PROPERTY_CHAIN: &str = "ObjectPropertyChain";

// Data ranges
/// The values that are in each data range.
pub const DATA_INTERSECTION_OF: &str = "DataIntersectionOf";
/// The values that are in any data range.
pub const DATA_UNION_OF: &str = "DataUnionOf";
/// The values that are not in a data range.
pub const DATA_COMPLEMENT_OF: &str = "DataComplementOf";
/// The values of a list.
pub const DATA_ONE_OF: &str = "DataOneOf";
/// The values of a datatype within facets.
pub const DATATYPE_RESTRICTION: &str = "DatatypeRestriction";

// Class expressions on objects
/// What is in each class.
pub const OBJECT_INTERSECTION_OF: &str = "ObjectIntersectionOf";
/// What is in any class.
pub const OBJECT_UNION_OF: &str = "ObjectUnionOf";
/// What is not in a class.
pub const OBJECT_COMPLEMENT_OF: &str = "ObjectComplementOf";
/// The individuals of a list.
pub const OBJECT_ONE_OF: &str = "ObjectOneOf";
/// What a property leads from to a member of a class.
pub const OBJECT_SOME_VALUES_FROM: &str = "ObjectSomeValuesFrom";
/// What a property leads from to members of a class only.
pub const OBJECT_ALL_VALUES_FROM: &str = "ObjectAllValuesFrom";
/// What a property leads from to an individual.
pub const OBJECT_HAS_VALUE: &str = "ObjectHasValue";
/// What a property leads from to itself.
pub const OBJECT_HAS_SELF: &str = "ObjectHasSelf";
/// What a property leads from to so many, or more.
pub const OBJECT_MIN_CARDINALITY: &str = "ObjectMinCardinality";
/// What a property leads from to so many, or fewer.
pub const OBJECT_MAX_CARDINALITY: &str = "ObjectMaxCardinality";
/// What a property leads from to exactly so many.
pub const OBJECT_EXACT_CARDINALITY: &str = "ObjectExactCardinality";

// Class expressions on data
/// What has a value of a data range.
pub const DATA_SOME_VALUES_FROM: &str = "DataSomeValuesFrom";
/// What has values of a data range only.
pub const DATA_ALL_VALUES_FROM: &str = "DataAllValuesFrom";
/// What has a value.
pub const DATA_HAS_VALUE: &str = "DataHasValue";
/// What has so many values, or more.
pub const DATA_MIN_CARDINALITY: &str = "DataMinCardinality";
/// What has so many values, or fewer.
pub const DATA_MAX_CARDINALITY: &str = "DataMaxCardinality";
/// What has exactly so many values.
pub const DATA_EXACT_CARDINALITY: &str = "DataExactCardinality";

// Class axioms
/// The members of a class are members of another.
pub const SUB_CLASS_OF: &str = "SubClassOf";
/// Classes have the same members.
pub const EQUIVALENT_CLASSES: &str = "EquivalentClasses";
/// No two classes share a member.
pub const DISJOINT_CLASSES: &str = "DisjointClasses";
/// A class has the members of classes of which no two share one.
pub const DISJOINT_UNION: &str = "DisjointUnion";

// Object property axioms
/// An object property, or a chain of them, leads where another does.
pub const SUB_OBJECT_PROPERTY_OF: &str = "SubObjectPropertyOf";
/// Object properties lead to the same.
pub const EQUIVALENT_OBJECT_PROPERTIES: &str = "EquivalentObjectProperties";
/// No two object properties lead from one to the same.
pub const DISJOINT_OBJECT_PROPERTIES: &str = "DisjointObjectProperties";
/// An object property leads back where another led.
pub const INVERSE_OBJECT_PROPERTIES: &str = "InverseObjectProperties";
/// What an object property leads from is in a class.
pub const OBJECT_PROPERTY_DOMAIN: &str = "ObjectPropertyDomain";
/// What an object property leads to is in a class.
pub const OBJECT_PROPERTY_RANGE: &str = "ObjectPropertyRange";
/// An object property leads to one at most.
pub const FUNCTIONAL_OBJECT_PROPERTY: &str = "FunctionalObjectProperty";
/// An object property leads from one at most.
pub const INVERSE_FUNCTIONAL_OBJECT_PROPERTY: &str = "InverseFunctionalObjectProperty";
/// An object property leads from each to itself.
pub const REFLEXIVE_OBJECT_PROPERTY: &str = "ReflexiveObjectProperty";
/// An object property leads from none to itself.
pub const IRREFLEXIVE_OBJECT_PROPERTY: &str = "IrreflexiveObjectProperty";
/// An object property leads back too.
pub const SYMMETRIC_OBJECT_PROPERTY: &str = "SymmetricObjectProperty";
/// An object property never leads back.
pub const ASYMMETRIC_OBJECT_PROPERTY: &str = "AsymmetricObjectProperty";
/// An object property leads where two steps of it do.
pub const TRANSITIVE_OBJECT_PROPERTY: &str = "TransitiveObjectProperty";

// Data property axioms
/// The values of a data property are values of another.
pub const SUB_DATA_PROPERTY_OF: &str = "SubDataPropertyOf";
/// Data properties have the same values.
pub const EQUIVALENT_DATA_PROPERTIES: &str = "EquivalentDataProperties";
/// No two data properties share a value.
pub const DISJOINT_DATA_PROPERTIES: &str = "DisjointDataProperties";
/// What has a value of a data property is in a class.
pub const DATA_PROPERTY_DOMAIN: &str = "DataPropertyDomain";
/// The values of a data property are in a data range.
pub const DATA_PROPERTY_RANGE: &str = "DataPropertyRange";
/// A data property has one value at most.
pub const FUNCTIONAL_DATA_PROPERTY: &str = "FunctionalDataProperty";

// Datatype definitions and keys
/// A datatype stands for a data range.
pub const DATATYPE_DEFINITION: &str = "DatatypeDefinition";
/// The values of properties tell the members of a class apart.
pub const HAS_KEY: &str = "HasKey";

// Assertions
/// Individuals are the same.
pub const SAME_INDIVIDUAL: &str = "SameIndividual";
/// No two individuals are the same.
pub const DIFFERENT_INDIVIDUALS: &str = "DifferentIndividuals";
/// An individual is in a class.
pub const CLASS_ASSERTION: &str = "ClassAssertion";
/// An object property leads from an individual to another.
pub const OBJECT_PROPERTY_ASSERTION: &str = "ObjectPropertyAssertion";
/// An object property does not lead from an individual to another.
pub const NEGATIVE_OBJECT_PROPERTY_ASSERTION: &str = "NegativeObjectPropertyAssertion";
/// An individual has a value.
pub const DATA_PROPERTY_ASSERTION: &str = "DataPropertyAssertion";
/// An individual does not have a value.
pub const NEGATIVE_DATA_PROPERTY_ASSERTION: &str = "NegativeDataPropertyAssertion";

// Declarations and annotation axioms
/// There is an entity.
pub const DECLARATION: &str = "Declaration";
/// A subject has an annotation.
pub const ANNOTATION_ASSERTION: &str = "AnnotationAssertion";
/// The annotations by a property are annotations by another.
pub const SUB_ANNOTATION_PROPERTY_OF: &str = "SubAnnotationPropertyOf";
/// What has annotations by a property is in a class.
pub const ANNOTATION_PROPERTY_DOMAIN: &str = "AnnotationPropertyDomain";
/// The annotations by a property are in a class.
pub const ANNOTATION_PROPERTY_RANGE: &str = "AnnotationPropertyRange";

// A prefix, before a document
/// A prefix, before a document.
pub const PREFIX: &str = "Prefix";

// What the standard has, and no document here
/// Another ontology that is part of this one.
pub const IMPORT: &str = "Import";
/// A rule.
pub const DL_SAFE_RULE: &str = "DLSafeRule";

/// Each of these is the word of the grammar.
pub fn words_of_the_grammar()
    ensures documents { ONTOLOGY.now ≡ word.Ontology }
    ensures annotations { ANNOTATION.now ≡ word.Annotation }
    ensures entities { (CLASS.now ≡ word.Class)
        × (DATATYPE.now ≡ word.Datatype)
        × (OBJECT_PROPERTY.now ≡ word.ObjectProperty)
        × (DATA_PROPERTY.now ≡ word.DataProperty)
        × (ANNOTATION_PROPERTY.now ≡ word.AnnotationProperty)
        × (NAMED_INDIVIDUAL.now ≡ word.NamedIndividual) }
    ensures properties { (OBJECT_INVERSE_OF.now ≡ word.ObjectInverseOf)
        × (OBJECT_PROPERTY_CHAIN.now ≡ word.ObjectPropertyChain) }
    ensures ranges { (DATA_INTERSECTION_OF.now ≡ word.DataIntersectionOf)
        × (DATA_UNION_OF.now ≡ word.DataUnionOf)
        × (DATA_COMPLEMENT_OF.now ≡ word.DataComplementOf)
        × (DATA_ONE_OF.now ≡ word.DataOneOf)
        × (DATATYPE_RESTRICTION.now ≡ word.DatatypeRestriction) }
    ensures classes_on_objects { (OBJECT_INTERSECTION_OF.now ≡ word.ObjectIntersectionOf)
        × (OBJECT_UNION_OF.now ≡ word.ObjectUnionOf)
        × (OBJECT_COMPLEMENT_OF.now ≡ word.ObjectComplementOf)
        × (OBJECT_ONE_OF.now ≡ word.ObjectOneOf)
        × (OBJECT_SOME_VALUES_FROM.now ≡ word.ObjectSomeValuesFrom)
        × (OBJECT_ALL_VALUES_FROM.now ≡ word.ObjectAllValuesFrom)
        × (OBJECT_HAS_VALUE.now ≡ word.ObjectHasValue)
        × (OBJECT_HAS_SELF.now ≡ word.ObjectHasSelf)
        × (OBJECT_MIN_CARDINALITY.now ≡ word.ObjectMinCardinality)
        × (OBJECT_MAX_CARDINALITY.now ≡ word.ObjectMaxCardinality)
        × (OBJECT_EXACT_CARDINALITY.now ≡ word.ObjectExactCardinality) }
    ensures classes_on_data { (DATA_SOME_VALUES_FROM.now ≡ word.DataSomeValuesFrom)
        × (DATA_ALL_VALUES_FROM.now ≡ word.DataAllValuesFrom)
        × (DATA_HAS_VALUE.now ≡ word.DataHasValue)
        × (DATA_MIN_CARDINALITY.now ≡ word.DataMinCardinality)
        × (DATA_MAX_CARDINALITY.now ≡ word.DataMaxCardinality)
        × (DATA_EXACT_CARDINALITY.now ≡ word.DataExactCardinality) }
    ensures class_axioms { (SUB_CLASS_OF.now ≡ word.SubClassOf)
        × (EQUIVALENT_CLASSES.now ≡ word.EquivalentClasses)
        × (DISJOINT_CLASSES.now ≡ word.DisjointClasses)
        × (DISJOINT_UNION.now ≡ word.DisjointUnion) }
    ensures object_axioms { (SUB_OBJECT_PROPERTY_OF.now ≡ word.SubObjectPropertyOf)
        × (EQUIVALENT_OBJECT_PROPERTIES.now ≡ word.EquivalentObjectProperties)
        × (DISJOINT_OBJECT_PROPERTIES.now ≡ word.DisjointObjectProperties)
        × (INVERSE_OBJECT_PROPERTIES.now ≡ word.InverseObjectProperties)
        × (OBJECT_PROPERTY_DOMAIN.now ≡ word.ObjectPropertyDomain)
        × (OBJECT_PROPERTY_RANGE.now ≡ word.ObjectPropertyRange)
        × (FUNCTIONAL_OBJECT_PROPERTY.now ≡ word.FunctionalObjectProperty)
        × (INVERSE_FUNCTIONAL_OBJECT_PROPERTY.now ≡ word.InverseFunctionalObjectProperty)
        × (REFLEXIVE_OBJECT_PROPERTY.now ≡ word.ReflexiveObjectProperty)
        × (IRREFLEXIVE_OBJECT_PROPERTY.now ≡ word.IrreflexiveObjectProperty)
        × (SYMMETRIC_OBJECT_PROPERTY.now ≡ word.SymmetricObjectProperty)
        × (ASYMMETRIC_OBJECT_PROPERTY.now ≡ word.AsymmetricObjectProperty)
        × (TRANSITIVE_OBJECT_PROPERTY.now ≡ word.TransitiveObjectProperty) }
    ensures data_axioms { (SUB_DATA_PROPERTY_OF.now ≡ word.SubDataPropertyOf)
        × (EQUIVALENT_DATA_PROPERTIES.now ≡ word.EquivalentDataProperties)
        × (DISJOINT_DATA_PROPERTIES.now ≡ word.DisjointDataProperties)
        × (DATA_PROPERTY_DOMAIN.now ≡ word.DataPropertyDomain)
        × (DATA_PROPERTY_RANGE.now ≡ word.DataPropertyRange)
        × (FUNCTIONAL_DATA_PROPERTY.now ≡ word.FunctionalDataProperty) }
    ensures definitions { (DATATYPE_DEFINITION.now ≡ word.DatatypeDefinition)
        × (HAS_KEY.now ≡ word.HasKey) }
    ensures assertions { (SAME_INDIVIDUAL.now ≡ word.SameIndividual)
        × (DIFFERENT_INDIVIDUALS.now ≡ word.DifferentIndividuals)
        × (CLASS_ASSERTION.now ≡ word.ClassAssertion)
        × (OBJECT_PROPERTY_ASSERTION.now ≡ word.ObjectPropertyAssertion)
        × (NEGATIVE_OBJECT_PROPERTY_ASSERTION.now ≡ word.NegativeObjectPropertyAssertion)
        × (DATA_PROPERTY_ASSERTION.now ≡ word.DataPropertyAssertion)
        × (NEGATIVE_DATA_PROPERTY_ASSERTION.now ≡ word.NegativeDataPropertyAssertion) }
    ensures carried { (DECLARATION.now ≡ word.Declaration)
        × (ANNOTATION_ASSERTION.now ≡ word.AnnotationAssertion)
        × (SUB_ANNOTATION_PROPERTY_OF.now ≡ word.SubAnnotationPropertyOf)
        × (ANNOTATION_PROPERTY_DOMAIN.now ≡ word.AnnotationPropertyDomain)
        × (ANNOTATION_PROPERTY_RANGE.now ≡ word.AnnotationPropertyRange) }
    ensures prefixes { PREFIX.now ≡ word.Prefix }
    ensures left_out { (IMPORT.now ≡ word.Import)
        × (DL_SAFE_RULE.now ≡ word.DLSafeRule) }
{}
