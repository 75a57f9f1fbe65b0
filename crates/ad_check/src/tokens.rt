ghost use Rattle.std.specs.Prelude.{◌≡◌, ◌≤◌, length, Bool, true, false, [], None, Some, if◌then◌else◌};
ghost use Rattle.std.specs.Option.{option_copied, is_some};
ghost use Rattle.ad_lex.specs.Lexemes.{lexeme};
ghost use Rattle.ad_lex.specs.Spans.{AreTokensOf, IsTokenOf};
ghost use Rattle.ad_check.specs.Machine as machine;
ghost use Rattle.ad_check.specs.Machine.{named, labelled, quoted, signed, counts, is_number, opens, lookup};
ghost use Rattle.ad_check.specs.Reads.{LooksAt, IsSign};

use crate::items::{Nonterminal, Symbol};
use crate::rows::keyword_row;
use ad_lex::{Mark, Token};
use ad_write::keywords;

// The token at a place, or none at the end of the text.
pub(crate) fn token_at(text: &[u8], tokens: &[Token], at: usize) -> Option<Token>
    requires tokens { AreTokensOf text.now tokens.now }
    requires at { at ≤ length tokens.now }
    ensures { LooksAt text.now tokens.now at result }
{
    if at < tokens.len() {
        Some(tokens[at])
    } else {
        None
    }
}

// What stands behind a name in a phrase that begins with it.
fn named_row(kind: Nonterminal) -> Option<&'static [Symbol]>
    ensures { option_copied result ≡ named kind }
{
    match kind {
        Nonterminal::Name
        | Nonterminal::Property
        | Nonterminal::Link
        | Nonterminal::Individual
        | Nonterminal::Range
        | Nonterminal::Class
        | Nonterminal::Subject
        | Nonterminal::Value => Some(&[]),
        Nonterminal::Facet => Some(&[Symbol::One(Nonterminal::Literal)]),
        Nonterminal::Number
        | Nonterminal::Literal
        | Nonterminal::Note
        | Nonterminal::Entity
        | Nonterminal::Axiom
        | Nonterminal::Logical
        | Nonterminal::Prefix
        | Nonterminal::Signed
        | Nonterminal::Ontology => None,
    }
}

// What stands behind the label of an anonymous individual in a phrase that begins with it.
fn labelled_row(kind: Nonterminal) -> Option<&'static [Symbol]>
    ensures { option_copied result ≡ labelled kind }
{
    match kind {
        Nonterminal::Individual | Nonterminal::Subject | Nonterminal::Value => Some(&[]),
        _ => None,
    }
}

// What stands behind a string in a phrase that begins with it.
fn quoted_row(kind: Nonterminal) -> Option<&'static [Symbol]>
    ensures { option_copied result ≡ quoted kind }
{
    match kind {
        Nonterminal::Literal | Nonterminal::Value => Some(&[Symbol::Tail]),
        _ => None,
    }
}

// What stands behind a sign in a phrase that begins with it.
fn signed_row(kind: Nonterminal) -> Option<&'static [Symbol]>
    ensures { option_copied result ≡ signed kind }
{
    match kind {
        Nonterminal::Signed => Some(&[Symbol::One(Nonterminal::Axiom)]),
        _ => None,
    }
}

// Whether a word is a number of 32 bits.
fn is_numeral(word: &str) -> bool
    ensures { result ≡ is_number word.now }
{
    let bytes = word.as_bytes();
    if bytes.is_empty() {
        false
    } else if bytes[0] == b'+' {
        false
    } else {
        word.parse::<u32>().is_ok()
    }
}

// What stands behind a word in a phrase that begins with it.
fn word_row(kind: Nonterminal, word: &str) -> Option<&'static [Symbol]>
    ensures { option_copied result ≡ (if counts kind word.now then Some [] else lookup (machine.table false kind) word.now) }
{
    match kind {
        Nonterminal::Number if is_numeral(word) => Some(&[]),
        _ => keyword_row(kind, word),
    }
}

// What stands behind a token in a phrase of the kind that begins with it, if one does.
pub(crate) fn row(text: &[u8], token: Token, kind: Nonterminal) -> Option<&'static [Symbol]>
    requires { IsTokenOf text.now token }
    ensures { option_copied result ≡ machine.row false kind (lexeme text.now token) }
{
    match token.mark {
        Mark::Iri | Mark::Short => named_row(kind),
        Mark::Text => quoted_row(kind),
        Mark::Plain => word_row(kind, token.plain(text)),
        Mark::Node => {
            if token.label(text).is_empty() {
                None
            } else {
                labelled_row(kind)
            }
        }
        Mark::Plus | Mark::Minus => signed_row(kind),
        Mark::Left | Mark::Right | Mark::Equals | Mark::Carets | Mark::Lang => None,
    }
}

// Whether the wide grammar alone has a phrase of the kind that begins with this token.
pub(crate) fn goes_wide(text: &[u8], token: Token, kind: Nonterminal) -> bool
    requires { IsTokenOf text.now token }
    ensures { result ≡ machine.goes_wide kind (lexeme text.now token) }
{
    match token.mark {
        Mark::Plain => match kind {
            Nonterminal::Axiom | Nonterminal::Logical => token.plain(text)
                == keywords::DL_SAFE_RULE,
            _ => false,
        },
        _ => false,
    }
}

// Whether the token is the word of an import.
pub(crate) fn is_import(text: &[u8], token: Token) -> bool
    requires { IsTokenOf text.now token }
    ensures { result ≡ machine.imports (lexeme text.now token) }
{
    match token.mark {
        Mark::Plain => token.plain(text) == keywords::IMPORT,
        _ => false,
    }
}

// Whether the token is the word of a rule.
pub(crate) fn is_rule(text: &[u8], token: Token) -> bool
    requires { IsTokenOf text.now token }
    ensures { result ≡ machine.rules (lexeme text.now token) }
{
    match token.mark {
        Mark::Plain => token.plain(text) == keywords::DL_SAFE_RULE,
        _ => false,
    }
}

// Whether the token is a name.
pub(crate) fn is_name(text: &[u8], token: Token) -> bool
    requires { IsTokenOf text.now token }
    ensures { result ≡ machine.is_name (lexeme text.now token) }
{
    matches!(token.mark, Mark::Iri | Mark::Short)
}

// Whether the item is this one token.
pub(crate) fn is_sign(text: &[u8], token: Token, item: Symbol) -> bool
    requires token { IsTokenOf text.now token }
    requires sign { IsSign item }
    ensures { (w : Bool) → opens w item (lexeme text.now token) ≡ (if result then Some [] else None) }
{
    match item {
        Symbol::Left => matches!(token.mark, Mark::Left),
        Symbol::Right => matches!(token.mark, Mark::Right),
        Symbol::Equals => matches!(token.mark, Mark::Equals),
        Symbol::Full => matches!(token.mark, Mark::Iri),
        Symbol::Label => match token.mark {
            Mark::Short => token.short(text).1.is_empty(),
            _ => false,
        },
        _ => unreachable!(),
    }
}
