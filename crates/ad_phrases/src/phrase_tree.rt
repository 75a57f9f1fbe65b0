ghost use Rattle.std.specs.Prelude.{◌≡◌, ◌≤◌, length, drop, false, Some, IfOk};
ghost use Rattle.ad_lex.specs.Lexemes.{lexemes};
ghost use Rattle.ad_lex.specs.Spans.{AreTokensOf};
ghost use Rattle.ad_grammar.specs.Names.{SpellsProperty, SpellsIndividual, SpellsLiteral};
ghost use Rattle.ad_grammar.specs.Phrases.{SpellsRange, SpellsClass};
ghost use Rattle.ad_grammar.specs.Texts.{in_force};
ghost use Rattle.ad_prefixes.specs.Declarations.{declarations};
ghost use Rattle.ad_check.specs.Stops.{form_of};
ghost use Rattle.ad_check.specs.declared.texts.Phrase.TheVariants as phrases;
ghost use Rattle.ad_phrases.specs.Readings as readings;

use ad_base::Memory;
use ad_build::Prefixes;
use ad_check::Phrase;
use ad_lex::Token;
use ad_tree::{Class, Individual, Literal, ObjProp, Range};
use std::alloc::Global;

// A kind of tree, and the form of the phrases that spell one.
pub(crate) trait PhraseTree: Sized {
    ghost use Rattle.ad_grammar.specs.Shapes.{Text};
    ghost use Rattle.ad_grammar.specs.Names.{Words};
    ghost use Rattle.ad_check.specs.declared.texts.Phrase.{Phrase};
    ghost use Rattle.ad_phrases.specs.Readings.{Reading};

    ghost PHRASE: { Phrase };

    ghost spells: { Words → Self → Text → Type 0 };

    // The form of those phrases.
    const PHRASE: Phrase;

    // The tree that the tokens from this one on spell, if they spell one.
    fn build(
        alloc: Global,
        text: &[u8],
        tokens: &[Token],
        from: usize,
        prefixes: &Prefixes,
    ) -> Result<Option<Self>, Memory>
        requires place { AreTokensOf text.now tokens.now }
        requires within { from ≤ length tokens.now }
        ensures { IfOk result (λ found. (x : Self) → spells (in_force (declarations prefixes.now)) x (lexemes text.now (drop from tokens.now)) → found ≡ Some x) };

    ghost reading: { Reading (form_of PHRASE) Self spells };
}

impl PhraseTree for Class {
    ghost PHRASE = { phrases.Class };

    ghost spells = { SpellsClass false };

    ghost reading = { readings.classes };

    const PHRASE: Phrase = Phrase::Class;

    fn build(
        alloc: Global,
        text: &[u8],
        tokens: &[Token],
        from: usize,
        prefixes: &Prefixes,
    ) -> Result<Option<Class>, Memory> {
        ad_build::build_class(alloc, text, tokens, from, prefixes)
    }
}

impl PhraseTree for Range {
    ghost PHRASE = { phrases.Range };

    ghost spells = { SpellsRange };

    ghost reading = { readings.ranges };

    const PHRASE: Phrase = Phrase::Range;

    fn build(
        alloc: Global,
        text: &[u8],
        tokens: &[Token],
        from: usize,
        prefixes: &Prefixes,
    ) -> Result<Option<Range>, Memory> {
        ad_build::build_range(alloc, text, tokens, from, prefixes)
    }
}

impl PhraseTree for ObjProp {
    ghost PHRASE = { phrases.Property };

    ghost spells = { SpellsProperty };

    ghost reading = { readings.properties };

    const PHRASE: Phrase = Phrase::Property;

    fn build(
        alloc: Global,
        text: &[u8],
        tokens: &[Token],
        from: usize,
        prefixes: &Prefixes,
    ) -> Result<Option<ObjProp>, Memory> {
        ad_build::build_objprop(alloc, text, tokens, from, prefixes)
    }
}

impl PhraseTree for Individual {
    ghost PHRASE = { phrases.Individual };

    ghost spells = { SpellsIndividual };

    ghost reading = { readings.individuals };

    const PHRASE: Phrase = Phrase::Individual;

    fn build(
        alloc: Global,
        text: &[u8],
        tokens: &[Token],
        from: usize,
        prefixes: &Prefixes,
    ) -> Result<Option<Individual>, Memory> {
        ad_build::build_individual(alloc, text, tokens, from, prefixes)
    }
}

impl PhraseTree for Literal {
    ghost PHRASE = { phrases.Literal };

    ghost spells = { SpellsLiteral };

    ghost reading = { readings.literals };

    const PHRASE: Phrase = Phrase::Literal;

    fn build(
        alloc: Global,
        text: &[u8],
        tokens: &[Token],
        from: usize,
        prefixes: &Prefixes,
    ) -> Result<Option<Literal>, Memory> {
        ad_build::build_literal(alloc, text, tokens, from, prefixes)
    }
}
