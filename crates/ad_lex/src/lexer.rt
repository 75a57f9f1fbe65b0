ghost use Rattle.std.specs.Prelude.{◌≡◌, ◌^◌, ◌<◌, ◌≤◌, length, drop, vec_len, List, IfOk, OnOk, IfErr, IsUtf8};
ghost use Rattle.ad_lex.specs.declared.token.Token.{Token};
ghost use Rattle.ad_lex.specs.declared.token.LexFault.{LexFault};
ghost use Rattle.ad_lex.specs.Spans.{AreTokensOf, AreInOrder};
ghost use Rattle.ad_lex.specs.Lexed.{start, Lexes, Faults, IsLexed, IsFault, IfFault, AreTokensOrMemory, IsFaultOrMemory};

use crate::front::{Front, front_at};
use crate::token::{LexFault, LexRefused, Token, Tokens};
use std::alloc::Global;
use std::str;

/// The tokens of a text, or the first fault in it.
pub fn tokens(alloc: Global, text: &[u8]) -> Result<Tokens, LexRefused>
    requires { length text.now < 2 ^ 32 }
    ensures ok { IfOk result (λ found. IsLexed text.now found) }
    ensures fault { IfFault result (λ fault. IsFault text.now fault) }
    ensures spans { IfOk result (λ found. AreTokensOf text.now found) }
    ensures order { IfOk result (λ found. AreInOrder found) }
    ensures complete { (found : List Token) → IsLexed text.now found → AreTokensOrMemory result found }
    ensures refuses { (fault : LexFault) → IsFault text.now fault → IsFaultOrMemory result fault }
{
    if let Err(fault) = check_utf8(text) {
        return Err(LexRefused::Fault(fault));
    }
    lex_rest(alloc, text, start(text)).map(Tokens::of)
}

// The tokens of the rest of the text from this place on, or the first fault in it.
fn lex_rest(alloc: Global, text: &[u8], from: usize) -> Result<Vec<Token>, LexRefused>
    requires within { from ≤ length text.now }
    requires short { length text.now < 2 ^ 32 }
    ensures ok { IfOk result (λ found. Lexes from (drop from text.now) found.items) }
    ensures few { IfOk result (λ found. vec_len found ≤ length text.now) }
    ensures fault { IfFault result (λ fault. Faults from (drop from text.now) fault) }
{
    let mut items = Vec::new(alloc);
    let mut at = from;
    'rest: loop {
        let place = at as u32;
        match front_at(text, at) {
            Front::Over => return Ok(items),
            Front::Skips(len) => at += len,
            Front::Takes(mark, len) => {
                at += len;
                let to = at as u32;
                items.push(Token {
                    from: place,
                    to,
                    mark,
                })?;
            }
            Front::Char => return Err(LexRefused::Fault(LexFault::Char { at: place })),
            Front::OpenString => return Err(LexRefused::Fault(LexFault::OpenString { at: place })),
            Front::OpenIri => return Err(LexRefused::Fault(LexFault::OpenIri { at: place })),
        }
    }
}

// Whether the text is UTF-8: else it has the fault that comes before all others.
fn check_utf8(text: &[u8]) -> Result<(), LexFault>
    requires { length text.now < 2 ^ 32 }
    ensures ok { OnOk result (IsUtf8 text.now) }
    ensures err { IfErr result (λ fault. IsFault text.now fault) }
{
    match str::from_utf8(text) {
        Ok(_) => Ok(()),
        Err(error) => {
            let at = error.valid_up_to() as u32;
            Err(LexFault::Utf8 { at })
        }
    }
}

// Where the first character stands that isn't a byte order mark at the start.
fn start(text: &[u8]) -> usize
    ensures value { result ≡ start text.now }
    ensures within { result ≤ length text.now }
{
    if text.starts_with(b"\xEF\xBB\xBF") {
        3
    } else {
        0
    }
}
