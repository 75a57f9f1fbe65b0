ghost use Rattle.std.specs.Prelude.{◌≡◌, false, List};
ghost use Rattle.ad_grammar.specs.Shapes.{Text, Many0};
ghost use Rattle.ad_grammar.specs.Names.{Words, SpellsProperty, SpellsIndividual, SpellsLiteral, SpellsEntity};
ghost use Rattle.ad_grammar.specs.Phrases.{SpellsRange, SpellsClass, SpellsAnnotation};
ghost use Rattle.ad_grammar.specs.Axioms.{SpellsNoted};
ghost use Rattle.ad_grammar.specs.Texts.{Ontology, SpellsOp};
ghost use Rattle.ad_tree.specs.declared.edits.Op.{Op};
ghost use Rattle.ad_grammar_laws.specs.Known.{AreKnown, Moved};
ghost use Rattle.ad_tree.specs.Logical.{is_logical};
ghost use Rattle.ad_tree.specs.declared.names.ObjProp.{ObjProp};
ghost use Rattle.ad_tree.specs.declared.names.Individual.{Individual};
ghost use Rattle.ad_tree.specs.declared.literals.Literal.{Literal};
ghost use Rattle.ad_entity.specs.declared.entities.Entity.{Entity};
ghost use Rattle.ad_tree.specs.declared.notes.Annotation.{Annotation};
ghost use Rattle.ad_tree.specs.declared.ranges.Range.{Range};
ghost use Rattle.ad_tree.specs.declared.classes.Class.{Class};
ghost use Rattle.ad_tree.specs.declared.axioms.Noted.{Noted};

/// A law on phrases: whether tokens spell a phrase doesn't depend on what their prefixes stand for, but only on
/// whether they stand for something. An axiom stays logical, or carried. It does nothing.
pub fn any_meaning()
    ensures class { (words words' : Words) (x : Class) (ts : Text) → SpellsClass false words x ts → Moved words words' (SpellsClass false) ts }
    ensures range { (words words' : Words) (x : Range) (ts : Text) → SpellsRange words x ts → Moved words words' SpellsRange ts }
    ensures property { (words words' : Words) (x : ObjProp) (ts : Text) → SpellsProperty words x ts → Moved words words' SpellsProperty ts }
    ensures individual { (words words' : Words) (x : Individual) (ts : Text) → SpellsIndividual words x ts → Moved words words' SpellsIndividual ts }
    ensures literal { (words words' : Words) (x : Literal) (ts : Text) → SpellsLiteral words x ts → Moved words words' SpellsLiteral ts }
    ensures entity { (words words' : Words) (x : Entity) (ts : Text) → SpellsEntity words x ts → Moved words words' SpellsEntity ts }
    ensures annotation { (words words' : Words) (x : Annotation) (ts : Text) → SpellsAnnotation words x ts → Moved words words' SpellsAnnotation ts }
    ensures noted { (words words' : Words) (x : Noted) (ts : Text) → SpellsNoted false words x ts → AreKnown words ts × (AreKnown words' ts → (y : Noted) × (is_logical y.axiom ≡ is_logical x.axiom) × SpellsNoted false words' y ts) }
    ensures ontology { (words words' : Words) (axioms : List Noted) (ts : Text) → Ontology false words (Many0 (SpellsNoted false words) axioms) ts → AreKnown words ts × (AreKnown words' ts → (ys : List Noted) × Ontology false words' (Many0 (SpellsNoted false words') ys) ts) }
    ensures operations { (words words' : Words) (ops : List Op) (ts : Text) → Many0 (SpellsOp words) ops ts → AreKnown words ts × (AreKnown words' ts → (ys : List Op) × Many0 (SpellsOp words') ys ts) }
    ensures entities { (words words' : Words) (entities : List Entity) (ts : Text) → Many0 (SpellsEntity words) entities ts → AreKnown words ts × (AreKnown words' ts → (ys : List Entity) × Many0 (SpellsEntity words') ys ts) }
{}
