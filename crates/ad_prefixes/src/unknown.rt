ghost use Rattle.std.specs.Prelude.{◌≡◌, ◌≤◌, length, drop, find};
ghost use Rattle.std.specs.Option.{option_map};
ghost use Rattle.ad_lex.specs.Lexemes.{lexeme};
ghost use Rattle.ad_lex.specs.Spans.{AreTokensOf, IsTokenOf};
ghost use Rattle.ad_grammar.specs.Texts.{in_force};
ghost use Rattle.ad_prefixes.specs.Declarations.{declarations};
ghost use Rattle.ad_prefixes.specs.Unknown.{is_unknown};

use crate::prefixes::Prefixes;
use ad_lex::{Mark, Token};

/// Where the first of the tokens from this one on stands that is a name whose prefix is neither declared nor
/// standard.
pub fn first_unknown(text: &[u8], tokens: &[Token], from: usize, prefixes: &Prefixes) -> Option<u32>
    requires place { AreTokensOf text.now tokens.now }
    requires within { from ≤ length tokens.now }
    ensures { result ≡ option_map (λ token. token.from) (find (λ token. is_unknown (in_force (declarations prefixes.now)) (lexeme text.now token)) (drop from tokens.now)) }
{
    let mut at = from;
    'tokens: while at < tokens.len() {
        let token = tokens[at];
        if is_unknown(text, token, prefixes) {
            return Some(token.from);
        }
        at += 1;
    }
    None
}

// Whether a token is a name whose prefix isn't known.
fn is_unknown(text: &[u8], token: Token, prefixes: &Prefixes) -> bool
    requires { IsTokenOf text.now token }
    ensures { result ≡ is_unknown (in_force (declarations prefixes.now)) (lexeme text.now token) }
{
    match token.mark {
        Mark::Short => {
            let (prefix, _local) = token.short(text);
            prefixes.get(prefix).is_none()
        }
        _ => false,
    }
}
