ghost use Rattle.std.specs.Prelude.{◌≡◌, ◌≤◌, length, drop, map, false, Some, List, IfOk};
ghost use Rattle.ad_lex.specs.Lexemes.{lexemes};
ghost use Rattle.ad_lex.specs.Spans.{AreTokensOf};
ghost use Rattle.ad_grammar.specs.Names.{SpellsProperty, SpellsIndividual, SpellsLiteral};
ghost use Rattle.ad_grammar.specs.Phrases.{SpellsRange, SpellsClass};
ghost use Rattle.ad_grammar.specs.Axioms.{SpellsNoted};
ghost use Rattle.ad_grammar.specs.Texts.{in_force};
ghost use Rattle.ad_tree.specs.declared.names.ObjProp.{ObjProp};
ghost use Rattle.ad_tree.specs.declared.names.Individual.{Individual};
ghost use Rattle.ad_tree.specs.declared.literals.Literal.{Literal};
ghost use Rattle.ad_tree.specs.declared.ranges.Range.{Range};
ghost use Rattle.ad_tree.specs.declared.classes.Class.{Class};
ghost use Rattle.ad_tree.specs.declared.axioms.Noted.{Noted};
ghost use Rattle.ad_prefixes.specs.Declarations.{declarations};

use crate::reads::reads;
use ad_base::Memory;
use ad_lex::Token;
use ad_prefixes::Prefixes;
use ad_terms::one;
use ad_tree::{Class, Individual, Literal, Noted, ObjProp, Range};
use std::alloc::Global;

/// The class expression that the tokens from this one on spell, if they spell one.
pub fn build_class(
    alloc: Global,
    text: &[u8],
    tokens: &[Token],
    from: usize,
    prefixes: &Prefixes,
) -> Result<Option<Class>, Memory>
    requires place { AreTokensOf text.now tokens.now }
    requires within { from ≤ length tokens.now }
    ensures { IfOk result (λ found. (x : Class) → SpellsClass false (in_force (declarations prefixes.now)) x (lexemes text.now (drop from tokens.now)) → found ≡ Some x) }
{
    let items = reads(alloc, text, tokens, from, prefixes)?;
    Ok(one(items))
}

/// The data range that the tokens from this one on spell, if they spell one.
pub fn build_range(
    alloc: Global,
    text: &[u8],
    tokens: &[Token],
    from: usize,
    prefixes: &Prefixes,
) -> Result<Option<Range>, Memory>
    requires place { AreTokensOf text.now tokens.now }
    requires within { from ≤ length tokens.now }
    ensures { IfOk result (λ found. (x : Range) → SpellsRange (in_force (declarations prefixes.now)) x (lexemes text.now (drop from tokens.now)) → found ≡ Some x) }
{
    let items = reads(alloc, text, tokens, from, prefixes)?;
    Ok(one(items))
}

/// The object property that the tokens from this one on spell, if they spell one.
pub fn build_objprop(
    alloc: Global,
    text: &[u8],
    tokens: &[Token],
    from: usize,
    prefixes: &Prefixes,
) -> Result<Option<ObjProp>, Memory>
    requires place { AreTokensOf text.now tokens.now }
    requires within { from ≤ length tokens.now }
    ensures { IfOk result (λ found. (x : ObjProp) → SpellsProperty (in_force (declarations prefixes.now)) x (lexemes text.now (drop from tokens.now)) → found ≡ Some x) }
{
    let items = reads(alloc, text, tokens, from, prefixes)?;
    Ok(one(items))
}

/// The individual that the tokens from this one on spell, if they spell one.
pub fn build_individual(
    alloc: Global,
    text: &[u8],
    tokens: &[Token],
    from: usize,
    prefixes: &Prefixes,
) -> Result<Option<Individual>, Memory>
    requires place { AreTokensOf text.now tokens.now }
    requires within { from ≤ length tokens.now }
    ensures { IfOk result (λ found. (x : Individual) → SpellsIndividual (in_force (declarations prefixes.now)) x (lexemes text.now (drop from tokens.now)) → found ≡ Some x) }
{
    let items = reads(alloc, text, tokens, from, prefixes)?;
    Ok(one(items))
}

/// The literal that the tokens from this one on spell, if they spell one.
pub fn build_literal(
    alloc: Global,
    text: &[u8],
    tokens: &[Token],
    from: usize,
    prefixes: &Prefixes,
) -> Result<Option<Literal>, Memory>
    requires place { AreTokensOf text.now tokens.now }
    requires within { from ≤ length tokens.now }
    ensures { IfOk result (λ found. (x : Literal) → SpellsLiteral (in_force (declarations prefixes.now)) x (lexemes text.now (drop from tokens.now)) → found ≡ Some x) }
{
    let items = reads(alloc, text, tokens, from, prefixes)?;
    Ok(one(items))
}

/// The axiom with its annotations that the tokens from this one on spell, if they spell one.
pub fn build_axiom(
    alloc: Global,
    text: &[u8],
    tokens: &[Token],
    from: usize,
    prefixes: &Prefixes,
) -> Result<Option<Noted>, Memory>
    requires place { AreTokensOf text.now tokens.now }
    requires within { from ≤ length tokens.now }
    ensures { IfOk result (λ found. (x : Noted) → SpellsNoted false (in_force (declarations prefixes.now)) x (lexemes text.now (drop from tokens.now)) → found ≡ Some x) }
{
    let items = reads(alloc, text, tokens, from, prefixes)?;
    Ok(one(items))
}
