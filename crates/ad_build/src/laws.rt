ghost use Rattle.std.specs.Prelude.{◌≡◌, ◌++◌, ◌∷◌, [], ℕ, List, false, codes};
ghost use Rattle.std.specs.Str.{bytes_eq};
ghost use Rattle.ad_lex.specs.Lexemes.{Lexeme};
ghost use Rattle.ad_lex.specs.Lexemes as says;
ghost use Rattle.ad_grammar.specs.Shapes.{Text, Many0};
ghost use Rattle.ad_grammar.specs.Names.{Words, SpellsProperty, SpellsIndividual, SpellsLiteral};
ghost use Rattle.ad_grammar.specs.Phrases.{SpellsRange, SpellsClass};
ghost use Rattle.ad_grammar.specs.Axioms.{SpellsNoted};
ghost use Rattle.ad_grammar.specs.Texts.{Declared, SpellsDeclared};
ghost use Rattle.ad_prefixes.specs.Heads.{heads};
ghost use Rattle.ad_tree.specs.declared.names.ObjProp.{ObjProp};
ghost use Rattle.ad_tree.specs.declared.names.Individual.{Individual};
ghost use Rattle.ad_tree.specs.declared.literals.Literal.{Literal};
ghost use Rattle.ad_tree.specs.declared.ranges.Range.{Range};
ghost use Rattle.ad_tree.specs.declared.classes.Class.{Class};
ghost use Rattle.ad_tree.specs.declared.axioms.Noted.{Noted};

/// A law on phrases: under one meaning of the prefixes a list of lexemes spells at most one tree. It does
/// nothing.
pub fn one_tree()
    ensures class { (words : Words) (x y : Class) (ts : Text) → SpellsClass false words x ts → SpellsClass false words y ts → x ≡ y }
    ensures range { (words : Words) (x y : Range) (ts : Text) → SpellsRange words x ts → SpellsRange words y ts → x ≡ y }
    ensures property { (words : Words) (x y : ObjProp) (ts : Text) → SpellsProperty words x ts → SpellsProperty words y ts → x ≡ y }
    ensures individual { (words : Words) (x y : Individual) (ts : Text) → SpellsIndividual words x ts → SpellsIndividual words y ts → x ≡ y }
    ensures literal { (words : Words) (x y : Literal) (ts : Text) → SpellsLiteral words x ts → SpellsLiteral words y ts → x ≡ y }
    ensures noted { (words : Words) (x y : Noted) (ts : Text) → SpellsNoted false words x ts → SpellsNoted false words y ts → x ≡ y }
{}

/// A law on the prefix declarations in front of a text: they are all that are read, up to the first token that
/// can't begin one. It does nothing.
pub fn declarations_in_front()
    ensures all { (ds : List Declared) (a rest : Text) → Many0 SpellsDeclared ds a → heads rest ≡ ([], rest) → heads (a ++ rest) ≡ (ds, rest) }
    ensures other { (l : Lexeme) (ts : Text) → ((word : List ℕ) → l ≡ says.Plain word → bytes_eq word (codes "Prefix") ≡ false) → heads (l ∷ ts) ≡ ([], l ∷ ts) }
    ensures spelled { (ts : Text) → (a : Text) × Many0 SpellsDeclared (heads ts).0 a × (ts ≡ a ++ (heads ts).1) }
{}
