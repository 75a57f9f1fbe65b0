ghost use Rattle.std.specs.Prelude.{◌≤◌, ◌-◌, length, drop};
ghost use Rattle.ad_base.specs.Limits.{standard};
ghost use Rattle.ad_lex.specs.Lexemes.{lexemes};
ghost use Rattle.ad_lex.specs.Spans.{AreTokensOf};
ghost use Rattle.ad_grammar.specs.Faults.{IsLongest};
ghost use Rattle.ad_grammar.specs.Nesting.{nesting};
ghost use Rattle.ad_check.specs.Stops.{form_of};
ghost use Rattle.ad_phrases.specs.Phrases.{HasPhrase};

use crate::phrase_tree::PhraseTree;
use ad_check::check_phrase;
use ad_lex::Tokens;

// The token behind the longest phrase that begins at a token and spells such a tree.
pub(crate) fn behind<T: PhraseTree>(text: &[u8], tokens: &Tokens, from: u32) -> u32
    requires tokens { AreTokensOf text.now tokens.now }
    requires from { from ≤ length tokens.now }
    requires nesting { nesting (drop from (lexemes text.now tokens.now)) ≤ standard.depth }
    requires phrase { HasPhrase (form_of T.PHRASE) (drop from (lexemes text.now tokens.now)) }
    ensures after { from ≤ result }
    ensures longest { IsLongest (form_of T.PHRASE) (drop from (lexemes text.now tokens.now)) (result - from) }
{
    match check_phrase(text, tokens, from, T::PHRASE) {
        Ok(to) => to,
        Err(_) => unreachable!(),
    }
}
