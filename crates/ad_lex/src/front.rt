ghost use Rattle.std.specs.Prelude.{◌≡◌, ◌+◌, ◌<◌, ◌≤◌, length, drop, IfSome};
ghost use Rattle.std.specs.List.{prefix_len, position};
ghost use Rattle.ad_lex.specs.Characters.{is_word, is_iri, is_colon, goes_on};
ghost use Rattle.ad_lex.specs.Fronts.{front, carets, iri, string, lang, word, word_mark};

use crate::kind::{CharKind, is_iri, is_word, kind_of};
use crate::token::Mark;

/// What stands at the front of a text.
#[derive(Clone, Copy)]
pub enum Front {
    /// Nothing: the text is over.
    Over,
    /// A blank or a comment of so many bytes.
    Skips(usize),
    /// A token of so many bytes.
    Takes(Mark, usize),
    /// A character that begins no token.
    Char,
    /// A string that isn't closed.
    OpenString,
    /// An IRI that isn't closed.
    OpenIri,
}

// What stands at the front of the rest of the text from this place on.
#[tactic(auto, unfolding(crate::specs::Fronts::front))]
pub(crate) fn front_at(text: &[u8], at: usize) -> Front
    requires { at ≤ length text.now }
    ensures { result ≡ front (drop at text.now) }
{
    if at == text.len() {
        return Front::Over;
    }
    let after = at + 1;
    match kind_of(text[at]) {
        CharKind::Blank => Front::Skips(1),
        CharKind::Hash => Front::Skips(comment_len(text, after) + 1),
        CharKind::Left => Front::Takes(Mark::Left, 1),
        CharKind::Right => Front::Takes(Mark::Right, 1),
        CharKind::Equals => Front::Takes(Mark::Equals, 1),
        CharKind::Caret => carets(text, after),
        CharKind::Less => iri(text, after),
        CharKind::Greater => Front::Char,
        CharKind::Quote => string(text, after),
        CharKind::At => lang(text, after),
        CharKind::Plus => Front::Takes(Mark::Plus, 1),
        CharKind::Minus => Front::Takes(Mark::Minus, 1),
        CharKind::Other => word(text, at),
    }
}

// The two carets, behind the first.
fn carets(text: &[u8], from: usize) -> Front
    ensures { result ≡ carets (drop from text.now) }
{
    if from < text.len() && text[from] == b'^' {
        Front::Takes(Mark::Carets, 2)
    } else {
        Front::Char
    }
}

// An IRI, behind its `<`.
fn iri(text: &[u8], from: usize) -> Front
    requires { from ≤ length text.now }
    ensures { result ≡ iri (drop from text.now) }
{
    let len = iri_len(text, from);
    if from + len < text.len() && text[from + len] == b'>' {
        Front::Takes(Mark::Iri, len + 2)
    } else {
        Front::OpenIri
    }
}

// A string, behind its first quote.
fn string(text: &[u8], from: usize) -> Front
    requires { from ≤ length text.now }
    ensures { result ≡ string (drop from text.now) }
{
    let mut escaped = false;
    let mut at = from;
    while at < text.len() {
        let byte = text[at];
        if !escaped && byte == b'"' {
            return Front::Takes(Mark::Text, at - from + 2);
        }
        escaped = !escaped && byte == b'\\';
        at += 1;
    }
    Front::OpenString
}

// A language tag, behind its `@`.
fn lang(text: &[u8], from: usize) -> Front
    requires { from ≤ length text.now }
    ensures { result ≡ lang (drop from text.now) }
{
    let len = word_len(text, from);
    if len == 0 {
        Front::Char
    } else {
        Front::Takes(Mark::Lang, len + 1)
    }
}

// A word.
fn word(text: &[u8], from: usize) -> Front
    requires { from ≤ length text.now }
    ensures { result ≡ word (drop from text.now) }
{
    let len = word_len(text, from);
    Front::Takes(word_mark(&text[from..from + len]), len)
}

// The mark of a word: its first colon splits it into prefix and local part.
fn word_mark(word: &[u8]) -> Mark
    ensures { result ≡ word_mark word.now }
{
    match colon_in(word) {
        None => Mark::Plain,
        Some(colon) => {
            if &word[..colon] == b"_".as_slice() {
                Mark::Node
            } else {
                Mark::Short
            }
        }
    }
}

// Where the first colon of a word stands.
pub(crate) fn colon_in(word: &[u8]) -> Option<usize>
    ensures value { result ≡ position is_colon word.now }
    ensures within { IfSome result (λ colon. colon < length word.now) }
{
    word.iter().position(|byte| *byte == b':')
}

// How many bytes of word characters stand here.
fn word_len(text: &[u8], from: usize) -> usize
    requires { from ≤ length text.now }
    ensures value { result ≡ prefix_len is_word (drop from text.now) }
    ensures within { from + result ≤ length text.now }
{
    let mut at = from;
    while at < text.len() && is_word(text[at]) {
        at += 1;
    }
    at - from
}

// How many bytes stand here of characters that may stand between `<` and `>`.
fn iri_len(text: &[u8], from: usize) -> usize
    requires { from ≤ length text.now }
    ensures value { result ≡ prefix_len is_iri (drop from text.now) }
    ensures within { from + result ≤ length text.now }
{
    let mut at = from;
    while at < text.len() && is_iri(text[at]) {
        at += 1;
    }
    at - from
}

// How many bytes of a comment stand here, behind its `#`.
fn comment_len(text: &[u8], from: usize) -> usize
    requires { from ≤ length text.now }
    ensures value { result ≡ prefix_len goes_on (drop from text.now) }
    ensures within { from + result ≤ length text.now }
{
    let mut at = from;
    while at < text.len() && text[at] != b'\r' && text[at] != b'\n' {
        at += 1;
    }
    at - from
}
