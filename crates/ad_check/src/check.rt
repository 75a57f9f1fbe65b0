ghost use Rattle.std.specs.Prelude.{◌≡◌, ◌<◌, ◌≤◌, ◌^◌, length, [], ◌∷◌, IfOk, if◌then◌else◌, None, Some, Bool};
ghost use Rattle.std.specs.Option.{option_copied, is_some};
ghost use Rattle.ad_lex.specs.Lexemes.{lexeme, lexemes};
ghost use Rattle.ad_lex.specs.Spans.{AreTokensOf, IsTokenOf};
ghost use Rattle.ad_check.specs.Machine as machine;
ghost use Rattle.ad_check.specs.Machine.{opens};
ghost use Rattle.ad_check.specs.Reads.{Reads, LooksAt, IsSign};
ghost use Rattle.ad_check.specs.declared.items.Symbol.TheVariants as it;

use crate::items::{Halt, Nonterminal, Symbol};
use crate::tokens::{goes_wide, is_import, is_name, is_sign, row, token_at};
use ad_lex::{Mark, Token};

// Checks one token that no phrase begins with.
fn check_sign(text: &[u8], tokens: &[Token], from: usize, item: Symbol) -> Result<usize, Halt>
    requires tokens { AreTokensOf text.now tokens.now }
    requires from { from ≤ length tokens.now }
    requires sign { IsSign item }
    ensures reads { Reads (lexemes text.now tokens.now) (item ∷ []) from result }
{
    match token_at(text, tokens, from) {
        Some(token) => {
            if is_sign(text, token, item) {
                Ok(from + 1)
            } else {
                Err(Halt {
                    token: from,
                    wide: false,
                })
            }
        }
        None => Err(Halt {
            token: from,
            wide: false,
        }),
    }
}

// Checks a phrase of a kind.
#[cycle(check)]
pub(crate) fn check(
    text: &[u8],
    tokens: &[Token],
    from: usize,
    kind: Nonterminal,
) -> Result<usize, Halt>
    requires tokens { AreTokensOf text.now tokens.now }
    requires from { from ≤ length tokens.now }
    ensures reads { Reads (lexemes text.now tokens.now) (it.One kind ∷ []) from result }
    ensures on { IfOk result (λ to. from < to) }
{
    match token_at(text, tokens, from) {
        Some(token) => match row(text, token, kind) {
            Some(items) => check_items(text, tokens, from + 1, items),
            None => Err(Halt {
                token: from,
                wide: goes_wide(text, token, kind),
            }),
        },
        None => Err(Halt {
            token: from,
            wide: false,
        }),
    }
}

// Checks items, one after the other.
#[cycle(check)]
pub(crate) fn check_items(
    text: &[u8],
    tokens: &[Token],
    from: usize,
    items: &[Symbol],
) -> Result<usize, Halt>
    requires tokens { AreTokensOf text.now tokens.now }
    requires from { from ≤ length tokens.now }
    ensures reads { Reads (lexemes text.now tokens.now) items.now from result }
{
    let mut at = from;
    for item in items {
        at = check_item(text, tokens, at, *item)?;
    }
    Ok(at)
}

// Checks one item.
#[cycle(check)]
fn check_item(text: &[u8], tokens: &[Token], from: usize, item: Symbol) -> Result<usize, Halt>
    requires tokens { AreTokensOf text.now tokens.now }
    requires from { from ≤ length tokens.now }
    ensures reads { Reads (lexemes text.now tokens.now) (item ∷ []) from result }
{
    match item {
        Symbol::Left | Symbol::Right | Symbol::Equals | Symbol::Full | Symbol::Label => {
            check_sign(text, tokens, from, item)
        }
        Symbol::Tail => check_tail(text, tokens, from),
        Symbol::Filler => check_filler(text, tokens, from),
        Symbol::End => check_end(text, tokens, from),
        Symbol::Any => Err(Halt {
            token: from,
            wide: token_at(text, tokens, from).is_some(),
        }),
        Symbol::Body => check_body(text, tokens, from),
        Symbol::One(kind) => check(text, tokens, from, kind),
        Symbol::Star(kind) => check_star(text, tokens, from, kind),
        Symbol::Maybe(kind) => check_maybe(text, tokens, from, kind),
        Symbol::Until(kind) => check_until(text, tokens, from, kind),
    }
}

// Checks what stands behind the string of a literal.
#[cycle(check)]
fn check_tail(text: &[u8], tokens: &[Token], from: usize) -> Result<usize, Halt>
    requires tokens { AreTokensOf text.now tokens.now }
    requires from { from ≤ length tokens.now }
    ensures reads { Reads (lexemes text.now tokens.now) (it.Tail ∷ []) from result }
{
    match token_at(text, tokens, from) {
        Some(token) => match token.mark {
            Mark::Lang => Ok(from + 1),
            Mark::Carets => check(text, tokens, from + 1, Nonterminal::Name),
            _ => Ok(from),
        },
        None => Ok(from),
    }
}

// Checks the range of a restriction on data, and the parenthesis behind it.
#[cycle(check)]
fn check_filler(text: &[u8], tokens: &[Token], from: usize) -> Result<usize, Halt>
    requires tokens { AreTokensOf text.now tokens.now }
    requires from { from ≤ length tokens.now }
    ensures reads { Reads (lexemes text.now tokens.now) (it.Filler ∷ []) from result }
{
    match token_at(text, tokens, from) {
        Some(token) => {
            if is_name(text, token) {
                check_end(text, tokens, from + 1)
            } else {
                let at = check(text, tokens, from, Nonterminal::Range)?;
                check_sign(text, tokens, at, Symbol::Right)
            }
        }
        None => Err(Halt {
            token: from,
            wide: false,
        }),
    }
}

// Checks the parenthesis that closes a restriction on data.
fn check_end(text: &[u8], tokens: &[Token], from: usize) -> Result<usize, Halt>
    requires tokens { AreTokensOf text.now tokens.now }
    requires from { from ≤ length tokens.now }
    ensures reads { Reads (lexemes text.now tokens.now) (it.End ∷ []) from result }
{
    match token_at(text, tokens, from) {
        Some(token) => {
            if is_sign(text, token, Symbol::Right) {
                Ok(from + 1)
            } else {
                let wide = is_name(text, token) || row(text, token, Nonterminal::Range).is_some();
                Err(Halt { token: from, wide })
            }
        }
        None => Err(Halt {
            token: from,
            wide: false,
        }),
    }
}

// Checks the annotations and axioms of an ontology, and the parenthesis behind them.
#[cycle(check)]
fn check_body(text: &[u8], tokens: &[Token], from: usize) -> Result<usize, Halt>
    requires tokens { AreTokensOf text.now tokens.now }
    requires from { from ≤ length tokens.now }
    ensures reads { Reads (lexemes text.now tokens.now) (it.Body ∷ []) from result }
{
    match token_at(text, tokens, from) {
        Some(token) => {
            if is_import(text, token) {
                Err(Halt {
                    token: from,
                    wide: true,
                })
            } else {
                let at = check_star(text, tokens, from, Nonterminal::Note)?;
                check_until(text, tokens, at, Nonterminal::Axiom)
            }
        }
        None => Err(Halt {
            token: from,
            wide: false,
        }),
    }
}

// Checks any number of phrases.
#[cycle(check)]
fn check_star(text: &[u8], tokens: &[Token], from: usize, kind: Nonterminal) -> Result<usize, Halt>
    requires tokens { AreTokensOf text.now tokens.now }
    requires from { from ≤ length tokens.now }
    ensures reads { Reads (lexemes text.now tokens.now) (it.Star kind ∷ []) from result }
{
    let mut at = from;
    while let Some(token) = token_at(text, tokens, at) {
        match row(text, token, kind) {
            Some(items) => at = check_items(text, tokens, at + 1, items)?,
            None => return Ok(at),
        }
    }
    Ok(at)
}

// Checks a phrase that may be absent.
#[cycle(check)]
fn check_maybe(text: &[u8], tokens: &[Token], from: usize, kind: Nonterminal) -> Result<usize, Halt>
    requires tokens { AreTokensOf text.now tokens.now }
    requires from { from ≤ length tokens.now }
    ensures reads { Reads (lexemes text.now tokens.now) (it.Maybe kind ∷ []) from result }
{
    match token_at(text, tokens, from) {
        Some(token) => match row(text, token, kind) {
            Some(items) => check_items(text, tokens, from + 1, items),
            None => Ok(from),
        },
        None => Ok(from),
    }
}

// Checks any number of phrases, and the parenthesis behind them.
#[cycle(check)]
fn check_until(text: &[u8], tokens: &[Token], from: usize, kind: Nonterminal) -> Result<usize, Halt>
    requires tokens { AreTokensOf text.now tokens.now }
    requires from { from ≤ length tokens.now }
    ensures reads { Reads (lexemes text.now tokens.now) (it.Until kind ∷ []) from result }
    ensures on { IfOk result (λ to. from < to) }
{
    let mut at = from;
    while let Some(token) = token_at(text, tokens, at) {
        if is_sign(text, token, Symbol::Right) {
            return Ok(at + 1);
        }
        at = check(text, tokens, at, kind)?;
    }
    let end = Halt {
        token: at,
        wide: false,
    };
    Err(end)
}
