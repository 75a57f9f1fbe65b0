ghost use Rattle.std.specs.Prelude.{◌≡◌, ◌≤◌, length, drop, ◌∷◌, IfOk, OnOk};
ghost use Rattle.ad_lex.specs.Lexemes.{lexeme, lexemes};
ghost use Rattle.ad_lex.specs.Spans.{IsTokenOf, AreTokensOf};
ghost use Rattle.ad_grammar.specs.Texts.{in_force};
ghost use Rattle.ad_prefixes.specs.Declarations.{declarations};
ghost use Rattle.ad_terms.specs.declared.item.StackItem.TheVariants as i;
ghost use Rattle.ad_terms.specs.declared.keyword.Keyword.TheVariants as keyword;
ghost use Rattle.ad_build.specs.Reads.{put, put_text, put_word, named, built, built_by, unless_broken, number_of, reads};

use crate::words::keyword_of;
use ad_base::{Memory, Word, are_digits};
use ad_lex::{Mark, Token};
use ad_prefixes::Prefixes;
use ad_terms::{
    AxiomWord, ClassWord, Keyword, RangeWord, Stack, StackItem, axiom_of, class_of, each, one,
    range_of, two,
};
use ad_tree::{Annotation, Entity, EntityKind, Literal, Noted, Sign, Value};
use std::alloc::Global;

// What the tokens of a text from this one on stand for, read from the last to the first.
pub(crate) fn reads(
    alloc: Global,
    text: &[u8],
    tokens: &[Token],
    from: usize,
    prefixes: &Prefixes,
) -> Result<Stack, Memory>
    requires place { AreTokensOf text.now tokens.now }
    requires within { from ≤ length tokens.now }
    ensures { IfOk result (λ items. items ≡ reads (in_force (declarations prefixes.now)) (lexemes text.now (drop from tokens.now))) }
{
    let mut items = Stack::new(alloc);
    let mut at = tokens.len();
    'tokens: while at > from {
        at -= 1;
        let token = tokens[at];
        put(alloc, text, token, prefixes, &mut items)?;
    }
    Ok(items)
}

// Puts what a token stands for before the items of the tokens behind it.
fn put(
    alloc: Global,
    text: &[u8],
    token: Token,
    prefixes: &Prefixes,
    items: &mut Stack,
) -> Result<(), Memory>
    requires { IsTokenOf text.now token }
    ensures { OnOk result (items.new ≡ put (in_force (declarations prefixes.now)) (lexeme text.now token) items.old) }
{
    match token.mark {
        Mark::Left => items.push(StackItem::Open),
        Mark::Right => items.push(StackItem::Close),
        Mark::Equals => items.push(StackItem::Broken),
        Mark::Carets => items.push(StackItem::Carets),
        Mark::Plus => items.push(StackItem::Signed(Sign::Add)),
        Mark::Minus => items.push(StackItem::Signed(Sign::Remove)),
        Mark::Iri => items.push(StackItem::Name(Word::of(alloc, token.iri(text))?)),
        Mark::Text => put_text(token.string(alloc, text)?, items),
        Mark::Plain => put_word(alloc, token.plain(text), items),
        Mark::Short => {
            let (prefix, local) = token.short(text);
            items.push(named(alloc, prefix, local, prefixes)?)
        }
        Mark::Node => items.push(StackItem::Label(Word::of(alloc, token.label(text))?)),
        Mark::Lang => items.push(StackItem::Tag(Word::of(alloc, token.tag(text))?)),
    }
}

// The name of a prefix and a local part.
fn named(alloc: Global, prefix: &str, local: &str, prefixes: &Prefixes) -> Result<StackItem, Memory>
    ensures { IfOk result (λ item. item ≡ named local.now (in_force (declarations prefixes.now) prefix.now)) }
{
    match prefixes.name(alloc, prefix, local)? {
        Some(name) => Ok(StackItem::Name(name)),
        None => Ok(StackItem::Broken),
    }
}

// Puts a string with what may stand behind it.
fn put_text(value: Word, items: &mut Stack) -> Result<(), Memory>
    ensures { OnOk result (items.new ≡ put_text value items.old) }
{
    match items.pop() {
        Some(StackItem::Tag(tag)) => items.push(StackItem::Literal(Literal::Lang(value, tag))),
        Some(StackItem::Carets) => put_typed(value, items),
        Some(other) => {
            items.push(other)?;
            items.push(StackItem::Literal(Literal::Plain(value)))
        }
        None => items.push(StackItem::Literal(Literal::Plain(value))),
    }
}

// Puts a string behind which `^^` stood.
fn put_typed(value: Word, items: &mut Stack) -> Result<(), Memory>
    ensures { OnOk result (items.new ≡ put_text value (i.Carets ∷ items.old)) }
{
    match items.pop() {
        Some(StackItem::Name(datatype)) => items.push(StackItem::Literal(Literal::Typed(
            value, datatype,
        ))),
        Some(other) => {
            items.push(other)?;
            items.push(StackItem::Carets)?;
            items.push(StackItem::Literal(Literal::Plain(value)))
        }
        None => {
            items.push(StackItem::Carets)?;
            items.push(StackItem::Literal(Literal::Plain(value)))
        }
    }
}

// Puts a word: with a parenthesis behind it a keyword with its arguments, else a number.
fn put_word(alloc: Global, word: &str, items: &mut Stack) -> Result<(), Memory>
    ensures { OnOk result (items.new ≡ put_word word.now items.old) }
{
    match items.pop() {
        Some(StackItem::Open) => {
            let arguments = items.gather(alloc)?;
            items.push(built(alloc, word, arguments)?)
        }
        Some(other) => {
            items.push(other)?;
            items.push(number(word))
        }
        None => items.push(number(word)),
    }
}

// The number that a word is.
fn number(word: &str) -> StackItem
    ensures { result ≡ unless_broken i.Number (number_of word.now) }
{
    match number_of(word) {
        Some(number) => StackItem::Number(number),
        None => StackItem::Broken,
    }
}

// The number that a word of digits is, if it is one of 32 bits.
fn number_of(word: &str) -> Option<u32>
    ensures { result ≡ number_of word.now }
{
    if are_digits(word.as_bytes()) {
        word.parse::<u32>().ok()
    } else {
        None
    }
}

// What a keyword and its arguments stand for.
fn built(alloc: Global, word: &str, arguments: Stack) -> Result<StackItem, Memory>
    ensures { IfOk result (λ item. item ≡ built word.now arguments) }
{
    match keyword_of(word) {
        Some(keyword) => built_by(alloc, keyword, arguments),
        None => Ok(StackItem::Broken),
    }
}

fn built_by(alloc: Global, keyword: Keyword, arguments: Stack) -> Result<StackItem, Memory>
    ensures { IfOk result (λ item. item ≡ built_by keyword arguments) }
{
    match keyword {
        Keyword::Annotation => annotated(alloc, arguments),
        Keyword::Inverse => Ok(inverse(arguments)),
        Keyword::Chain => chain(alloc, arguments),
        Keyword::Entity(kind) => Ok(declared(kind, arguments)),
        Keyword::Range(word) => range(alloc, word, arguments),
        Keyword::Class(word) => class(alloc, word, arguments),
        Keyword::Axiom(word) => stated(alloc, word, arguments),
    }
}

// The inverse of a property.
fn inverse(arguments: Stack) -> StackItem
    ensures { result ≡ built_by keyword.Inverse arguments }
{
    match one(arguments) {
        Some(made) => StackItem::Inverse(made),
        None => StackItem::Broken,
    }
}

// A chain of properties.
fn chain(alloc: Global, arguments: Stack) -> Result<StackItem, Memory>
    ensures { IfOk result (λ item. item ≡ built_by keyword.Chain arguments) }
{
    match each(alloc, arguments)? {
        Some(made) => Ok(StackItem::Chain(made)),
        None => Ok(StackItem::Broken),
    }
}

// A data range.
fn range(alloc: Global, word: RangeWord, arguments: Stack) -> Result<StackItem, Memory>
    ensures { IfOk result (λ item. item ≡ built_by (keyword.Range word) arguments) }
{
    match range_of(alloc, word, arguments)? {
        Some(made) => Ok(StackItem::Range(made)),
        None => Ok(StackItem::Broken),
    }
}

// A class expression.
fn class(alloc: Global, word: ClassWord, arguments: Stack) -> Result<StackItem, Memory>
    ensures { IfOk result (λ item. item ≡ built_by (keyword.Class word) arguments) }
{
    match class_of(alloc, word, arguments)? {
        Some(made) => Ok(StackItem::Class(made)),
        None => Ok(StackItem::Broken),
    }
}

// An entity of this kind.
fn declared(kind: EntityKind, arguments: Stack) -> StackItem
    ensures { result ≡ built_by (keyword.Entity kind) arguments }
{
    match one(arguments) {
        Some(name) => StackItem::Entity(Entity { kind, name }),
        None => StackItem::Broken,
    }
}

// An annotation behind its own annotations.
fn annotated(alloc: Global, mut arguments: Stack) -> Result<StackItem, Memory>
    ensures { IfOk result (λ item. item ≡ built_by keyword.Annotation arguments) }
{
    let notes = arguments.notes(alloc)?;
    let parts: Option<(Word, Value)> = two(arguments);
    match parts {
        Some((property, value)) => Ok(StackItem::Note(Annotation {
            notes,
            property,
            value,
        })),
        None => Ok(StackItem::Broken),
    }
}

// An axiom behind its annotations.
fn stated(alloc: Global, word: AxiomWord, mut arguments: Stack) -> Result<StackItem, Memory>
    ensures { IfOk result (λ item. item ≡ built_by (keyword.Axiom word) arguments) }
{
    let notes = arguments.notes(alloc)?;
    match axiom_of(alloc, word, arguments)? {
        Some(axiom) => Ok(StackItem::Axiom(Noted { notes, axiom })),
        None => Ok(StackItem::Broken),
    }
}
