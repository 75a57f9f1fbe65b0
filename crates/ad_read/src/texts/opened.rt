ghost use Rattle.std.specs.Prelude.{◌≡◌, ◌≤◌, ◌<◌, ◌^◌, ℕ, List, length, drop, find, false, None, IfOk, IfErr};
ghost use Rattle.ad_lex.specs.Lexemes.{lexemes};
ghost use Rattle.ad_lex.specs.Spans.{AreTokensOf};
ghost use Rattle.ad_grammar.specs.Faults.{IsOf, IsFirstFault};
ghost use Rattle.ad_check.specs.Stops.{GoesOnBy};
ghost use Rattle.ad_read.specs.Texts.{depth, IsShallow, IsFormed, place};
ghost use Rattle.ad_read.specs.Outcome.{Refuses};
ghost use Rattle.ad_read.specs.Opened.{form_of, IsOpened, IsRefusalOf, is_unknown_in, RefusesUnknown};

use crate::texts::ReadRefused;
use crate::texts::whole::Whole;
use ad_base::Limits;
use ad_build::{PrefixRefused, Prefixes, first_unknown, read_prefixes};
use ad_check::{Stop, check_axiom, check_document, check_edit, check_seed, nesting};
use ad_lex::{LexRefused, Token, Tokens, tokens};
use std::alloc::Global;

// A text of the form that is asked for, whose prefixes are known.
#[derive(Drop)]
pub(crate) struct Opened {
    pub(crate) tokens: Tokens,
    pub(crate) prefixes: Prefixes,
    // The token behind the declarations.
    pub(crate) behind: usize,
}

// Reads a text up to its trees: all that may refuse it is tried here.
pub(crate) fn open(
    alloc: Global,
    text: &[u8],
    whole: Whole,
    limits: &Limits,
) -> Result<Opened, ReadRefused>
    requires { length text.now < 2 ^ 32 }
    ensures opened { IfOk result (λ opened. IsOpened whole limits.now.depth text.now opened.tokens opened.prefixes opened.behind) }
    ensures place { IfOk result (λ opened. AreTokensOf text.now opened.tokens) }
    ensures refused { IfErr result (Refuses (form_of whole) limits.now.depth text.now) }
{
    let tokens = formed(alloc, text, whole, limits)?;
    match read_prefixes(alloc, text, tokens.list()) {
        Ok((prefixes, behind)) => known(text, tokens, prefixes, behind),
        Err(PrefixRefused::Twice { at }) => Err(ReadRefused::PrefixTwice { at }),
        Err(PrefixRefused::Memory) => Err(ReadRefused::Memory),
    }
}

// The text behind its declarations, if each prefix there is known.
fn known(
    text: &[u8],
    tokens: Tokens,
    prefixes: Prefixes,
    behind: usize,
) -> Result<Opened, ReadRefused>
    requires place { AreTokensOf text.now tokens }
    requires within { behind ≤ length tokens }
    ensures same { IfOk result (λ opened. (opened.tokens ≡ tokens) × (opened.prefixes ≡ prefixes) × (opened.behind ≡ behind)) }
    ensures known { IfOk result (λ opened. find (is_unknown_in text.now prefixes) (drop behind tokens) ≡ None) }
    ensures refused { IfErr result (RefusesUnknown text.now tokens prefixes behind) }
{
    match first_unknown(text, tokens.list(), behind, &prefixes) {
        Some(at) => Err(ReadRefused::Prefix { at }),
        None => Ok(Opened {
            tokens,
            prefixes,
            behind,
        }),
    }
}

// The tokens of a text of the form.
fn formed(alloc: Global, text: &[u8], whole: Whole, limits: &Limits) -> Result<Tokens, ReadRefused>
    requires { length text.now < 2 ^ 32 }
    ensures formed { IfOk result (λ tokens. IsFormed (form_of whole) limits.now.depth text.now tokens) }
    ensures place { IfOk result (λ tokens. AreTokensOf text.now tokens) }
    ensures refused { IfErr result (Refuses (form_of whole) limits.now.depth text.now) }
{
    let tokens = shallow(alloc, text, whole, limits)?;
    match check(text, &tokens, whole) {
        Ok(()) => Ok(tokens),
        Err(stop) => Err(refusal(text, tokens.list(), stop)),
    }
}

// The refusal of a text whose first fault stands here.
fn refusal(text: &[u8], tokens: &[Token], stop: Stop) -> ReadRefused
    requires { length text.now < 2 ^ 32 }
    ensures { IsRefusalOf text.now tokens.now stop result }
{
    let at = place(text, tokens, stop.token);
    match stop.what {
        Some(what) => ReadRefused::Unsupported { at, what },
        None => ReadRefused::Syntax { at },
    }
}

// Where the token of this number begins in the text, or the text's length behind the last.
#[tactic(auto, using(crate::proofs::Opening::place_at, crate::proofs::Opening::at_end))]
fn place(text: &[u8], tokens: &[Token], token: u32) -> u32
    requires { length text.now < 2 ^ 32 }
    ensures { result ≡ place text.now tokens.now token }
{
    let number = token as usize;
    if number < tokens.len() {
        let found = tokens[number];
        found.from
    } else {
        text.len() as u32
    }
}

// Compares a text with the grammar of its kind.
fn check(text: &[u8], tokens: &Tokens, whole: Whole) -> Result<(), Stop>
    requires { AreTokensOf text.now tokens.now }
    ensures ok { IfOk result (λ done. IsOf false (form_of whole) (lexemes text.now tokens.now)) }
    ensures first { IfErr result (λ stop. IsFirstFault (form_of whole) (lexemes text.now tokens.now) stop.token) }
    ensures what { IfErr result (λ stop. GoesOnBy (form_of whole) (lexemes text.now tokens.now) stop.token stop.what) }
{
    match whole {
        Whole::Document => check_document(text, tokens),
        Whole::Edit => check_edit(text, tokens),
        Whole::Seed => check_seed(text, tokens),
        Whole::Single => check_axiom(text, tokens),
    }
}

// How deep the parentheses of a text of this kind nest; those of the ontology don't count.
fn depth(tokens: &Tokens, whole: Whole) -> u32
    ensures { (text : List ℕ) → result ≡ depth (form_of whole) (lexemes text tokens.now) }
{
    match whole {
        Whole::Document => nesting(tokens).saturating_sub(1),
        Whole::Edit | Whole::Seed | Whole::Single => nesting(tokens),
    }
}

// The tokens of a text whose nesting is within the limit.
fn shallow(alloc: Global, text: &[u8], whole: Whole, limits: &Limits) -> Result<Tokens, ReadRefused>
    requires { length text.now < 2 ^ 32 }
    ensures shallow { IfOk result (λ tokens. IsShallow (form_of whole) limits.now.depth text.now tokens) }
    ensures place { IfOk result (λ tokens. AreTokensOf text.now tokens) }
    ensures refused { IfErr result (Refuses (form_of whole) limits.now.depth text.now) }
{
    match tokens(alloc, text) {
        Ok(found) => {
            let nesting = depth(&found, whole);
            if nesting > limits.depth {
                Err(ReadRefused::Depth { nesting })
            } else {
                Ok(found)
            }
        }
        Err(LexRefused::Fault(fault)) => Err(ReadRefused::Lex(fault)),
        Err(LexRefused::Memory) => Err(ReadRefused::Memory),
    }
}
