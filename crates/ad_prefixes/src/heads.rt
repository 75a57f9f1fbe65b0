ghost use Rattle.std.specs.Prelude.{◌≡◌, ◌≤◌, [], length, drop, IfOk, MatchOption};
ghost use Rattle.std.specs.Option.{option_map};
ghost use Rattle.ad_lex.specs.Lexemes.{lexemes};
ghost use Rattle.ad_lex.specs.Spans.{AreTokensOf};
ghost use Rattle.ad_prefixes.specs.Declarations.{declared, declarations};
ghost use Rattle.ad_grammar.specs.Texts.{AreDistinct};
ghost use Rattle.ad_prefixes.specs.Heads.{heads};
ghost use Rattle.ad_prefixes.specs.Phrased.{AreTokensOfPhrase, declares, IsDeclaredAt, IsTwiceAt, IfTwice};

use crate::prefixes::Prefixes;
use ad_base::{Memory, Word};
use ad_lex::{Mark, Token};
use ad_write::keywords;
use std::alloc::Global;

/// Why the prefixes of a text were not taken in.
#[derive(Clone, Copy, Debug, PartialEq, Eq)]
pub enum PrefixRefused {
    /// The token here declares a prefix that the text declared before.
    Twice { at: u32 },
    Memory,
}

impl From<Memory> for PrefixRefused {
    ghost use Rattle.ad_prefixes.specs.declared.heads.PrefixRefused.TheVariants as refused_by;

    ghost from_gives = { λ _ refused. refused ≡ refused_by.Memory };

    fn from(_error: Memory) -> PrefixRefused {
        PrefixRefused::Memory
    }
}

// Six tokens that may be a declaration.
#[derive(Clone, Copy)]
struct Phrase {
    word: Token,
    left: Token,
    short: Token,
    equals: Token,
    iri: Token,
    right: Token,
}

impl Phrase {
    // The prefix that the tokens declare, and its IRI, if they are a declaration.
    fn declares<'a>(self, text: &'a [u8]) -> Option<(&'a str, &'a str)>
        requires { AreTokensOfPhrase text.now self }
        ensures { option_map (λ found. declared (found.0.now, found.1.now)) result ≡ declares text.now self }
    {
        if self.word.mark != Mark::Plain {
            return None;
        }
        if self.left.mark != Mark::Left {
            return None;
        }
        if self.short.mark != Mark::Short {
            return None;
        }
        if self.equals.mark != Mark::Equals {
            return None;
        }
        if self.iri.mark != Mark::Iri {
            return None;
        }
        if self.right.mark != Mark::Right {
            return None;
        }
        let (prefix, local) = self.short.short(text);
        if self.word.plain(text) == keywords::PREFIX && local.is_empty() {
            Some((prefix, self.iri.iri(text)))
        } else {
            None
        }
    }
}

// The declaration that stands here, if one does: the token of its prefix, the prefix and the IRI.
fn declaration_at<'a>(
    text: &'a [u8],
    tokens: &[Token],
    at: usize,
) -> Option<(Token, &'a str, &'a str)>
    requires place { AreTokensOf text.now tokens.now }
    requires within { at ≤ length tokens.now }
    ensures { MatchOption result (heads (lexemes text.now (drop at tokens.now)) ≡ ([], lexemes text.now (drop at tokens.now))) (λ found. IsDeclaredAt text.now tokens.now at found.0 found.1.now found.2.now) }
{
    if tokens.len() - at < 6 {
        return None;
    }
    let phrase = Phrase {
        word: tokens[at],
        left: tokens[at + 1],
        short: tokens[at + 2],
        equals: tokens[at + 3],
        iri: tokens[at + 4],
        right: tokens[at + 5],
    };
    match phrase.declares(text) {
        Some((prefix, iri)) => Some((phrase.short, prefix, iri)),
        None => None,
    }
}

/// The prefixes that a text declares in front, and how many tokens their declarations have.
pub fn read_prefixes(
    alloc: Global,
    text: &[u8],
    tokens: &[Token],
) -> Result<(Prefixes, usize), PrefixRefused>
    requires { AreTokensOf text.now tokens.now }
    ensures declared { IfOk result (λ found. declarations found.0 ≡ (heads (lexemes text.now tokens.now)).0) }
    ensures distinct { IfOk result (λ found. AreDistinct (declarations found.0)) }
    ensures behind { IfOk result (λ found. lexemes text.now (drop found.1 tokens.now) ≡ (heads (lexemes text.now tokens.now)).1) }
    ensures within { IfOk result (λ found. found.1 ≤ length tokens.now) }
    ensures twice { IfTwice result (λ place. IsTwiceAt text.now tokens.now place) }
{
    let mut prefixes = Prefixes::standard(alloc)?;
    let mut at = 0;
    'declarations: while let Some((short, prefix, iri)) = declaration_at(text, tokens, at) {
        let iri = Word::of(alloc, iri)?;
        if !prefixes.declare(alloc, prefix, iri)? {
            return Err(PrefixRefused::Twice { at: short.from });
        }
        at += 6;
    }
    Ok((prefixes, at))
}
