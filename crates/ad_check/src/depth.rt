ghost use Rattle.std.specs.Prelude.{◌≡◌, ℕ, List};
ghost use Rattle.ad_lex.specs.Lexemes.{lexemes};
ghost use Rattle.ad_grammar.specs.Nesting as depth;

use ad_lex::{Mark, Tokens};

/// How deep the parentheses of a text nest. What follows a left parenthesis lies within it, so the
/// tokens are read from the last to the first.
pub fn nesting(tokens: &Tokens) -> u32
    ensures { (text : List ℕ) → result ≡ depth.nesting (lexemes text tokens.now) }
{
    let list = tokens.list();
    let mut depth: u32 = 0;
    let mut at = list.len();
    while at > 0 {
        at -= 1;
        match list[at].mark {
            Mark::Left => depth += 1,
            Mark::Right => depth = depth.saturating_sub(1),
            _ => {}
        }
    }
    depth
}
