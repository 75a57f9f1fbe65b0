ghost use Rattle.std.specs.Prelude.{◌≡◌, ◌≤◌, ◌<◌, ◌-◌, ◌^◌, true, false, drop, length, IfOk, IfErr, [], ◌∷◌};
ghost use Rattle.ad_lex.specs.Lexemes.{lexeme, lexemes};
ghost use Rattle.ad_lex.specs.Spans.{AreTokensOf, IsTokenOf};
ghost use Rattle.ad_grammar.specs.Faults.{Form, IsOf, IsFirstFault, IsLongest, IsNoPhrase};
ghost use Rattle.ad_grammar.specs.Faults as form;
ghost use Rattle.ad_grammar.specs.Nesting.{nesting};
ghost use Rattle.ad_base.specs.Limits.{standard};
ghost use Rattle.ad_check.specs.Machine.{start};
ghost use Rattle.ad_check.specs.declared.items.Symbol.TheVariants as it;
ghost use Rattle.ad_check.specs.Stops.{IsAddition, Names, GoesOnBy, Checks, ChecksFrom, form_of};

use crate::check::{check, check_items};
use crate::items::{Halt, Nonterminal, Symbol};
use crate::tokens::{is_import, is_rule};
use ad_lex::{Token, Tokens};

/// A part of the functional-style syntax that this grammar leaves out.
#[derive(Clone, Copy, Debug, PartialEq, Eq)]
pub enum Unsupported {
    /// An import of another ontology.
    Import,
    /// A rule.
    Rule,
    /// A restriction on data over more than one property.
    Nary,
}

/// The first token at which no text goes on, where the end of the text is one more, and the part of
/// the wide grammar that goes on there, if one does.
#[derive(Clone, Copy)]
pub struct Stop {
    pub token: u32,
    pub what: Option<Unsupported>,
}

// Which part of the wide grammar goes on at a token.
fn addition(text: &[u8], token: Token) -> Unsupported
    requires { IsTokenOf text.now token }
    ensures { IsAddition result (lexeme text.now token) }
{
    if is_import(text, token) {
        Unsupported::Import
    } else if is_rule(text, token) {
        Unsupported::Rule
    } else {
        Unsupported::Nary
    }
}

// The stop with what goes on there.
fn stop_of(text: &[u8], tokens: &[Token], halt: Halt) -> Stop
    requires tokens { AreTokensOf text.now tokens.now }
    requires few { length tokens.now < 2 ^ 32 }
    requires token { halt.token ≤ length tokens.now }
    requires wide { halt.wide ≡ true → halt.token < length tokens.now }
    ensures token { result.token ≡ halt.token }
    ensures what { Names (lexemes text.now tokens.now) halt result.what }
{
    let token = halt.token as u32;
    if halt.wide {
        Stop {
            token,
            what: Some(addition(text, tokens[halt.token])),
        }
    } else {
        Stop { token, what: None }
    }
}

// Checks a whole text.
fn check_text(text: &[u8], tokens: &[Token], items: &[Symbol]) -> Result<(), Stop>
    requires tokens { AreTokensOf text.now tokens.now }
    requires few { length tokens.now < 2 ^ 32 }
    ensures { (f : Form) → items.now ≡ start f → Checks f (lexemes text.now tokens.now) result }
{
    match check_items(text, tokens, 0, items) {
        Ok(to) => {
            if to == tokens.len() {
                Ok(())
            } else {
                Err(stop_of(
                    text,
                    tokens,
                    Halt {
                        token: to,
                        wide: false,
                    },
                ))
            }
        }
        Err(halt) => Err(stop_of(text, tokens, halt)),
    }
}

// Checks the longest phrase of a kind from a token on.
fn longest(text: &[u8], tokens: &[Token], from: u32, kind: Nonterminal) -> Result<u32, Stop>
    requires tokens { AreTokensOf text.now tokens.now }
    requires few { length tokens.now < 2 ^ 32 }
    requires from { from ≤ length tokens.now }
    ensures { (f : Form) → start f ≡ it.One kind ∷ [] → ChecksFrom f (lexemes text.now tokens.now) from result }
{
    match check(text, tokens, from as usize, kind) {
        Ok(to) => Ok(to as u32),
        Err(halt) => Err(stop_of(text, tokens, halt)),
    }
}

/// A form of phrases that may stand alone.
#[derive(Clone, Copy)]
pub enum Phrase {
    Class,
    Range,
    Property,
    Individual,
    Literal,
}

impl Phrase {
    // The kind of phrase that the table of rows has.
    fn kind(self) -> Nonterminal
        ensures { start (form_of self) ≡ it.One result ∷ [] }
    {
        match self {
            Phrase::Class => Nonterminal::Class,
            Phrase::Range => Nonterminal::Range,
            Phrase::Property => Nonterminal::Property,
            Phrase::Individual => Nonterminal::Individual,
            Phrase::Literal => Nonterminal::Literal,
        }
    }
}

/// Checks that a phrase of this form begins at a token, and answers the token behind the longest one. A string that `^^`
/// follows is no whole literal.
pub fn check_phrase(text: &[u8], tokens: &Tokens, from: u32, phrase: Phrase) -> Result<u32, Stop>
    requires tokens { AreTokensOf text.now tokens.now }
    requires from { from ≤ length tokens.now }
    requires nesting { nesting (drop from (lexemes text.now tokens.now)) ≤ standard.depth }
    ensures after { IfOk result (λ to. from ≤ to) }
    ensures longest { IfOk result (λ to. IsLongest (form_of phrase) (drop from (lexemes text.now tokens.now)) (to - from)) }
    ensures none { IfErr result (λ stop. IsNoPhrase (form_of phrase) (drop from (lexemes text.now tokens.now))) }
    ensures stop { IfErr result (λ stop. from ≤ stop.token) }
    ensures first { IfErr result (λ stop. IsFirstFault (form_of phrase) (drop from (lexemes text.now tokens.now)) (stop.token - from)) }
    ensures what { IfErr result (λ stop. GoesOnBy (form_of phrase) (drop from (lexemes text.now tokens.now)) (stop.token - from) stop.what) }
{
    longest(text, tokens.list(), from, phrase.kind())
}

/// Checks that a class expression begins at a token, and answers the token behind the longest one.
pub fn check_class(text: &[u8], tokens: &Tokens, from: u32) -> Result<u32, Stop>
    requires tokens { AreTokensOf text.now tokens.now }
    requires from { from ≤ length tokens.now }
    requires nesting { nesting (drop from (lexemes text.now tokens.now)) ≤ standard.depth }
    ensures after { IfOk result (λ to. from ≤ to) }
    ensures longest { IfOk result (λ to. IsLongest form.class (drop from (lexemes text.now tokens.now)) (to - from)) }
    ensures none { IfErr result (λ stop. IsNoPhrase form.class (drop from (lexemes text.now tokens.now))) }
    ensures stop { IfErr result (λ stop. from ≤ stop.token) }
    ensures first { IfErr result (λ stop. IsFirstFault form.class (drop from (lexemes text.now tokens.now)) (stop.token - from)) }
    ensures what { IfErr result (λ stop. GoesOnBy form.class (drop from (lexemes text.now tokens.now)) (stop.token - from) stop.what) }
{
    check_phrase(text, tokens, from, Phrase::Class)
}

/// Checks that a data range begins at a token, and answers the token behind the longest one.
pub fn check_range(text: &[u8], tokens: &Tokens, from: u32) -> Result<u32, Stop>
    requires tokens { AreTokensOf text.now tokens.now }
    requires from { from ≤ length tokens.now }
    requires nesting { nesting (drop from (lexemes text.now tokens.now)) ≤ standard.depth }
    ensures after { IfOk result (λ to. from ≤ to) }
    ensures longest { IfOk result (λ to. IsLongest form.range (drop from (lexemes text.now tokens.now)) (to - from)) }
    ensures none { IfErr result (λ stop. IsNoPhrase form.range (drop from (lexemes text.now tokens.now))) }
    ensures stop { IfErr result (λ stop. from ≤ stop.token) }
    ensures first { IfErr result (λ stop. IsFirstFault form.range (drop from (lexemes text.now tokens.now)) (stop.token - from)) }
    ensures what { IfErr result (λ stop. GoesOnBy form.range (drop from (lexemes text.now tokens.now)) (stop.token - from) stop.what) }
{
    check_phrase(text, tokens, from, Phrase::Range)
}

/// Checks that an object property begins at a token, and answers the token behind the longest one.
pub fn check_objprop(text: &[u8], tokens: &Tokens, from: u32) -> Result<u32, Stop>
    requires tokens { AreTokensOf text.now tokens.now }
    requires from { from ≤ length tokens.now }
    requires nesting { nesting (drop from (lexemes text.now tokens.now)) ≤ standard.depth }
    ensures after { IfOk result (λ to. from ≤ to) }
    ensures longest { IfOk result (λ to. IsLongest form.property (drop from (lexemes text.now tokens.now)) (to - from)) }
    ensures none { IfErr result (λ stop. IsNoPhrase form.property (drop from (lexemes text.now tokens.now))) }
    ensures stop { IfErr result (λ stop. from ≤ stop.token) }
    ensures first { IfErr result (λ stop. IsFirstFault form.property (drop from (lexemes text.now tokens.now)) (stop.token - from)) }
    ensures what { IfErr result (λ stop. GoesOnBy form.property (drop from (lexemes text.now tokens.now)) (stop.token - from) stop.what) }
{
    check_phrase(text, tokens, from, Phrase::Property)
}

/// Checks that an individual begins at a token, and answers the token behind the longest one.
pub fn check_individual(text: &[u8], tokens: &Tokens, from: u32) -> Result<u32, Stop>
    requires tokens { AreTokensOf text.now tokens.now }
    requires from { from ≤ length tokens.now }
    requires nesting { nesting (drop from (lexemes text.now tokens.now)) ≤ standard.depth }
    ensures after { IfOk result (λ to. from ≤ to) }
    ensures longest { IfOk result (λ to. IsLongest form.individual (drop from (lexemes text.now tokens.now)) (to - from)) }
    ensures none { IfErr result (λ stop. IsNoPhrase form.individual (drop from (lexemes text.now tokens.now))) }
    ensures stop { IfErr result (λ stop. from ≤ stop.token) }
    ensures first { IfErr result (λ stop. IsFirstFault form.individual (drop from (lexemes text.now tokens.now)) (stop.token - from)) }
    ensures what { IfErr result (λ stop. GoesOnBy form.individual (drop from (lexemes text.now tokens.now)) (stop.token - from) stop.what) }
{
    check_phrase(text, tokens, from, Phrase::Individual)
}

/// Checks that a literal begins at a token, and answers the token behind the longest one. A string
/// that `^^` follows is no whole literal.
pub fn check_literal(text: &[u8], tokens: &Tokens, from: u32) -> Result<u32, Stop>
    requires tokens { AreTokensOf text.now tokens.now }
    requires from { from ≤ length tokens.now }
    requires nesting { nesting (drop from (lexemes text.now tokens.now)) ≤ standard.depth }
    ensures after { IfOk result (λ to. from ≤ to) }
    ensures longest { IfOk result (λ to. IsLongest form.literal (drop from (lexemes text.now tokens.now)) (to - from)) }
    ensures none { IfErr result (λ stop. IsNoPhrase form.literal (drop from (lexemes text.now tokens.now))) }
    ensures stop { IfErr result (λ stop. from ≤ stop.token) }
    ensures first { IfErr result (λ stop. IsFirstFault form.literal (drop from (lexemes text.now tokens.now)) (stop.token - from)) }
    ensures what { IfErr result (λ stop. GoesOnBy form.literal (drop from (lexemes text.now tokens.now)) (stop.token - from) stop.what) }
{
    check_phrase(text, tokens, from, Phrase::Literal)
}

/// Checks that a text is a document, behind its prefix declarations. What the
/// prefixes stand for doesn't matter here. The depth of its recursion is the nesting of the text.
pub fn check_document(text: &[u8], tokens: &Tokens) -> Result<(), Stop>
    requires { AreTokensOf text.now tokens.now }
    ensures ok { IfOk result (λ done. IsOf false form.document (lexemes text.now tokens.now)) }
    ensures first { IfErr result (λ stop. IsFirstFault form.document (lexemes text.now tokens.now) stop.token) }
    ensures what { IfErr result (λ stop. GoesOnBy form.document (lexemes text.now tokens.now) stop.token stop.what) }
{
    check_text(
        text,
        tokens.list(),
        &[
            Symbol::Star(Nonterminal::Prefix),
            Symbol::One(Nonterminal::Ontology),
        ],
    )
}

/// Checks that a text is an edit, behind its prefix declarations. What the
/// prefixes stand for doesn't matter here. The depth of its recursion is the nesting of the text.
pub fn check_edit(text: &[u8], tokens: &Tokens) -> Result<(), Stop>
    requires { AreTokensOf text.now tokens.now }
    ensures ok { IfOk result (λ done. IsOf false form.edit (lexemes text.now tokens.now)) }
    ensures first { IfErr result (λ stop. IsFirstFault form.edit (lexemes text.now tokens.now) stop.token) }
    ensures what { IfErr result (λ stop. GoesOnBy form.edit (lexemes text.now tokens.now) stop.token stop.what) }
{
    check_text(
        text,
        tokens.list(),
        &[
            Symbol::Star(Nonterminal::Prefix),
            Symbol::Star(Nonterminal::Signed),
        ],
    )
}

/// Checks that a text is a seed, behind its prefix declarations. What the
/// prefixes stand for doesn't matter here. The depth of its recursion is the nesting of the text.
pub fn check_seed(text: &[u8], tokens: &Tokens) -> Result<(), Stop>
    requires { AreTokensOf text.now tokens.now }
    ensures ok { IfOk result (λ done. IsOf false form.seed (lexemes text.now tokens.now)) }
    ensures first { IfErr result (λ stop. IsFirstFault form.seed (lexemes text.now tokens.now) stop.token) }
    ensures what { IfErr result (λ stop. GoesOnBy form.seed (lexemes text.now tokens.now) stop.token stop.what) }
{
    check_text(
        text,
        tokens.list(),
        &[
            Symbol::Star(Nonterminal::Prefix),
            Symbol::Star(Nonterminal::Entity),
        ],
    )
}

/// Checks that a text is a single logical axiom, behind its prefix declarations. What the
/// prefixes stand for doesn't matter here. The depth of its recursion is the nesting of the text.
pub fn check_axiom(text: &[u8], tokens: &Tokens) -> Result<(), Stop>
    requires { AreTokensOf text.now tokens.now }
    ensures ok { IfOk result (λ done. IsOf false form.single (lexemes text.now tokens.now)) }
    ensures first { IfErr result (λ stop. IsFirstFault form.single (lexemes text.now tokens.now) stop.token) }
    ensures what { IfErr result (λ stop. GoesOnBy form.single (lexemes text.now tokens.now) stop.token stop.what) }
{
    check_text(
        text,
        tokens.list(),
        &[
            Symbol::Star(Nonterminal::Prefix),
            Symbol::One(Nonterminal::Logical),
        ],
    )
}
