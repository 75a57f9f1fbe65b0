ghost use Rattle.std.specs.Prelude.{◌≡◌, ℕ, ◌≤◌, false, length, drop, OnOk, IfOk, IfErr};
ghost use Rattle.ad_lex.specs.declared.token.Token.{Token};
ghost use Rattle.ad_base.specs.Limits.{standard};
ghost use Rattle.ad_lex.specs.Lexemes.{lexemes};
ghost use Rattle.ad_lex.specs.Spans.{AreTokensOf};
ghost use Rattle.ad_tree.specs.declared.names.ObjProp.{ObjProp};
ghost use Rattle.ad_tree.specs.declared.names.Individual.{Individual};
ghost use Rattle.ad_tree.specs.declared.literals.Literal.{Literal};
ghost use Rattle.ad_tree.specs.declared.ranges.Range.{Range};
ghost use Rattle.ad_tree.specs.declared.classes.Class.{Class};
ghost use Rattle.ad_grammar.specs.Names.{SpellsProperty, SpellsIndividual, SpellsLiteral};
ghost use Rattle.ad_grammar.specs.Phrases.{SpellsRange, SpellsClass};
ghost use Rattle.ad_grammar.specs.Texts.{in_force};
ghost use Rattle.ad_grammar.specs.Faults as form;
ghost use Rattle.ad_grammar.specs.Nesting.{nesting};
ghost use Rattle.ad_grammar_laws.specs.Known.{AreKnown};
ghost use Rattle.ad_check.specs.Stops.{form_of};
ghost use Rattle.ad_prefixes.specs.Declarations.{declarations};
ghost use Rattle.ad_phrases.specs.Phrases.{HasPhrase, IsBuilt, IsBuiltOrMemory, IsUnknownIn, IsPrefixOrMemory, RefusesPhrase, RefusesIn};

use crate::ends::behind;
use crate::phrase_tree::PhraseTree;
use ad_base::Memory;
use ad_build::{Prefixes, first_unknown};
use ad_lex::{Token, Tokens};
use ad_tree::{Class, Individual, Literal, ObjProp, Range};
use std::alloc::Global;
use thiserror::Error;

/// Why a phrase was not built. Places count bytes.
#[derive(Clone, Copy, Debug, PartialEq, Eq, Error)]
pub enum BuildRefused {
    /// The first name whose prefix is neither declared nor standard.
    #[error("unknown prefix at {at}")]
    Prefix { at: u32 },
    #[error("out of memory")]
    Memory,
}

impl From<Memory> for BuildRefused {
    ghost use Rattle.ad_phrases.specs.declared.phrases.BuildRefused.TheVariants as refused_by;

    ghost from_gives = { λ _ refused. refused ≡ refused_by.Memory };

    fn from(_error: Memory) -> BuildRefused {
        BuildRefused::Memory
    }
}

/// The class expression that begins at a token, and the token behind the longest one.
pub fn build_class(
    alloc: Global,
    text: &[u8],
    tokens: &Tokens,
    from: u32,
    prefixes: &Prefixes,
) -> Result<(Class, u32), BuildRefused>
    requires tokens { AreTokensOf text.now tokens.now }
    requires from { from ≤ length tokens.now }
    requires nesting { nesting (drop from (lexemes text.now tokens.now)) ≤ standard.depth }
    requires phrase { HasPhrase form.class (drop from (lexemes text.now tokens.now)) }
    ensures built { IfOk result (λ built. IsBuilt form.class (SpellsClass false (in_force (declarations prefixes.now))) (lexemes text.now tokens.now) from built.0 built.1) }
    ensures complete { (x : Class) (to : ℕ) → IsBuilt form.class (SpellsClass false (in_force (declarations prefixes.now))) (lexemes text.now tokens.now) from x to → IsBuiltOrMemory result x to }
    ensures refused { IfErr result (RefusesPhrase form.class (in_force (declarations prefixes.now)) text.now tokens.now from) }
    ensures first { (token : Token) → IsUnknownIn form.class (in_force (declarations prefixes.now)) text.now tokens.now from token → IsPrefixOrMemory result token.from }
{
    build(alloc, text, tokens, from, prefixes)
}

/// The data range that begins at a token, and the token behind the longest one.
pub fn build_range(
    alloc: Global,
    text: &[u8],
    tokens: &Tokens,
    from: u32,
    prefixes: &Prefixes,
) -> Result<(Range, u32), BuildRefused>
    requires tokens { AreTokensOf text.now tokens.now }
    requires from { from ≤ length tokens.now }
    requires nesting { nesting (drop from (lexemes text.now tokens.now)) ≤ standard.depth }
    requires phrase { HasPhrase form.range (drop from (lexemes text.now tokens.now)) }
    ensures built { IfOk result (λ built. IsBuilt form.range (SpellsRange (in_force (declarations prefixes.now))) (lexemes text.now tokens.now) from built.0 built.1) }
    ensures complete { (x : Range) (to : ℕ) → IsBuilt form.range (SpellsRange (in_force (declarations prefixes.now))) (lexemes text.now tokens.now) from x to → IsBuiltOrMemory result x to }
    ensures refused { IfErr result (RefusesPhrase form.range (in_force (declarations prefixes.now)) text.now tokens.now from) }
    ensures first { (token : Token) → IsUnknownIn form.range (in_force (declarations prefixes.now)) text.now tokens.now from token → IsPrefixOrMemory result token.from }
{
    build(alloc, text, tokens, from, prefixes)
}

/// The object property that begins at a token, and the token behind the longest one.
pub fn build_objprop(
    alloc: Global,
    text: &[u8],
    tokens: &Tokens,
    from: u32,
    prefixes: &Prefixes,
) -> Result<(ObjProp, u32), BuildRefused>
    requires tokens { AreTokensOf text.now tokens.now }
    requires from { from ≤ length tokens.now }
    requires nesting { nesting (drop from (lexemes text.now tokens.now)) ≤ standard.depth }
    requires phrase { HasPhrase form.property (drop from (lexemes text.now tokens.now)) }
    ensures built { IfOk result (λ built. IsBuilt form.property (SpellsProperty (in_force (declarations prefixes.now))) (lexemes text.now tokens.now) from built.0 built.1) }
    ensures complete { (x : ObjProp) (to : ℕ) → IsBuilt form.property (SpellsProperty (in_force (declarations prefixes.now))) (lexemes text.now tokens.now) from x to → IsBuiltOrMemory result x to }
    ensures refused { IfErr result (RefusesPhrase form.property (in_force (declarations prefixes.now)) text.now tokens.now from) }
    ensures first { (token : Token) → IsUnknownIn form.property (in_force (declarations prefixes.now)) text.now tokens.now from token → IsPrefixOrMemory result token.from }
{
    build(alloc, text, tokens, from, prefixes)
}

/// The individual that begins at a token, and the token behind the longest one.
pub fn build_individual(
    alloc: Global,
    text: &[u8],
    tokens: &Tokens,
    from: u32,
    prefixes: &Prefixes,
) -> Result<(Individual, u32), BuildRefused>
    requires tokens { AreTokensOf text.now tokens.now }
    requires from { from ≤ length tokens.now }
    requires nesting { nesting (drop from (lexemes text.now tokens.now)) ≤ standard.depth }
    requires phrase { HasPhrase form.individual (drop from (lexemes text.now tokens.now)) }
    ensures built { IfOk result (λ built. IsBuilt form.individual (SpellsIndividual (in_force (declarations prefixes.now))) (lexemes text.now tokens.now) from built.0 built.1) }
    ensures complete { (x : Individual) (to : ℕ) → IsBuilt form.individual (SpellsIndividual (in_force (declarations prefixes.now))) (lexemes text.now tokens.now) from x to → IsBuiltOrMemory result x to }
    ensures refused { IfErr result (RefusesPhrase form.individual (in_force (declarations prefixes.now)) text.now tokens.now from) }
    ensures first { (token : Token) → IsUnknownIn form.individual (in_force (declarations prefixes.now)) text.now tokens.now from token → IsPrefixOrMemory result token.from }
{
    build(alloc, text, tokens, from, prefixes)
}

/// The literal that begins at a token, and the token behind the longest one.
pub fn build_literal(
    alloc: Global,
    text: &[u8],
    tokens: &Tokens,
    from: u32,
    prefixes: &Prefixes,
) -> Result<(Literal, u32), BuildRefused>
    requires tokens { AreTokensOf text.now tokens.now }
    requires from { from ≤ length tokens.now }
    requires nesting { nesting (drop from (lexemes text.now tokens.now)) ≤ standard.depth }
    requires phrase { HasPhrase form.literal (drop from (lexemes text.now tokens.now)) }
    ensures built { IfOk result (λ built. IsBuilt form.literal (SpellsLiteral (in_force (declarations prefixes.now))) (lexemes text.now tokens.now) from built.0 built.1) }
    ensures complete { (x : Literal) (to : ℕ) → IsBuilt form.literal (SpellsLiteral (in_force (declarations prefixes.now))) (lexemes text.now tokens.now) from x to → IsBuiltOrMemory result x to }
    ensures refused { IfErr result (RefusesPhrase form.literal (in_force (declarations prefixes.now)) text.now tokens.now from) }
    ensures first { (token : Token) → IsUnknownIn form.literal (in_force (declarations prefixes.now)) text.now tokens.now from token → IsPrefixOrMemory result token.from }
{
    build(alloc, text, tokens, from, prefixes)
}

// The tree that the phrase at a token spells, and the token behind the longest one.
fn build<T: PhraseTree>(
    alloc: Global,
    text: &[u8],
    tokens: &Tokens,
    from: u32,
    prefixes: &Prefixes,
) -> Result<(T, u32), BuildRefused>
    requires tokens { AreTokensOf text.now tokens.now }
    requires from { from ≤ length tokens.now }
    requires nesting { nesting (drop from (lexemes text.now tokens.now)) ≤ standard.depth }
    requires phrase { HasPhrase (form_of T.PHRASE) (drop from (lexemes text.now tokens.now)) }
    ensures built { IfOk result (λ built. IsBuilt (form_of T.PHRASE) (T.spells (in_force (declarations prefixes.now))) (lexemes text.now tokens.now) from built.0 built.1) }
    ensures complete { (x : T) (to : ℕ) → IsBuilt (form_of T.PHRASE) (T.spells (in_force (declarations prefixes.now))) (lexemes text.now tokens.now) from x to → IsBuiltOrMemory result x to }
    ensures refused { IfErr result (RefusesPhrase (form_of T.PHRASE) (in_force (declarations prefixes.now)) text.now tokens.now from) }
    ensures first { (token : Token) → IsUnknownIn (form_of T.PHRASE) (in_force (declarations prefixes.now)) text.now tokens.now from token → IsPrefixOrMemory result token.from }
{
    let to = behind::<T>(text, tokens, from);
    let phrase = &tokens.list()[..to as usize];
    known(text, phrase, from as usize, prefixes)?;
    match T::build(alloc, text, phrase, from as usize, prefixes)? {
        Some(tree) => Ok((tree, to)),
        None => unreachable!(),
    }
}

// Tries the prefixes of the tokens from one on.
fn known(
    text: &[u8],
    tokens: &[Token],
    from: usize,
    prefixes: &Prefixes,
) -> Result<(), BuildRefused>
    requires place { AreTokensOf text.now tokens.now }
    requires within { from ≤ length tokens.now }
    ensures known { OnOk result (AreKnown (in_force (declarations prefixes.now)) (lexemes text.now (drop from tokens.now))) }
    ensures unknown { IfErr result (RefusesIn (in_force (declarations prefixes.now)) text.now (drop from tokens.now)) }
{
    match first_unknown(text, tokens, from, prefixes) {
        Some(at) => Err(BuildRefused::Prefix { at }),
        None => Ok(()),
    }
}
