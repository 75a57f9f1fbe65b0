ghost use Rattle.std.specs.Prelude.{◌≡◌, ◌++◌, ◌<◌, ◌^◌, ℕ, List, MatchOption, codes, decimal};
ghost use Rattle.ad_base.specs.Kinds.{kind_word};
ghost use Rattle.ad_base.specs.declared.limits.Kind.{Kind};
ghost use Rattle.ad_request.specs.Requests.{Asks, IsSpelledShort, expected_of, payload_size};
ghost use Rattle.ad_request.specs.Words.{HasNoSpace, IsCut};

use ad_base::{Kind, number};

/// What a line of a session asks for. The numbers are the lengths of payloads, and of `Atom` the atom's number.
#[derive(Clone, Copy)]
pub enum Request {
    /// A document, as additions.
    Load(u64),
    /// Additions and removals, where the newest edition has this number, if one is given.
    Edit(u64, Option<u64>),
    /// The module of a seed.
    Module(Kind, u64),
    /// The module of an axiom's own names.
    Genuine(Kind, u64),
    /// The atoms of the ontology.
    Atoms(Kind),
    /// The axioms of an atom.
    Atom(Kind, u64),
    /// The whole ontology.
    Export,
    /// Counts.
    Stat,
    /// The end of the session.
    Quit,
}

impl Request {
    /// How many bytes the payload has that stands behind the line.
    pub fn payload_size(&self) -> u64
        ensures { result ≡ payload_size self.now }
    {
        match *self {
            Request::Load(size)
            | Request::Edit(size, _)
            | Request::Module(_, size)
            | Request::Genuine(_, size) => size,
            Request::Atoms(_)
            | Request::Atom(_, _)
            | Request::Export
            | Request::Stat
            | Request::Quit => 0,
        }
    }

    /// The number of the edition that an edit expects to be the newest, if it names one.
    pub fn expected(&self) -> Option<u64>
        ensures { result ≡ expected_of self.now }
    {
        match *self {
            Request::Edit(_, expected) => expected,
            Request::Load(_)
            | Request::Module(_, _)
            | Request::Genuine(_, _)
            | Request::Atoms(_)
            | Request::Atom(_, _)
            | Request::Export
            | Request::Stat
            | Request::Quit => None,
        }
    }
}

/// What the line, which comes without its line feed, asks for: its words with one space between them, and each number
/// in one to ten digits without a leading zero, or as `0`. Any other line asks for nothing.
pub fn read_request(line: &[u8]) -> Option<Request>
    ensures { Asks line.now result }
{
    if line == b"EXPORT".as_slice() {
        return Some(Request::Export);
    }
    if line == b"STAT".as_slice() {
        return Some(Request::Stat);
    }
    if line == b"QUIT".as_slice() {
        return Some(Request::Quit);
    }
    if let Some(size) = number_behind(line, b"LOAD ") {
        return Some(Request::Load(size));
    }
    if let Some(size) = number_behind(line, b"EDIT ") {
        return Some(Request::Edit(size, None));
    }
    if let Some((size, edition)) = numbers_behind(line, b"EDIT ") {
        return Some(Request::Edit(size, Some(edition)));
    }
    if let Some((kind, size)) = kind_and_number_behind(line, b"MODULE ") {
        return Some(Request::Module(kind, size));
    }
    if let Some((kind, size)) = kind_and_number_behind(line, b"GENUINE ") {
        return Some(Request::Genuine(kind, size));
    }
    if let Some(kind) = kind_behind(line, b"ATOMS ") {
        return Some(Request::Atoms(kind));
    }
    if let Some((kind, atom)) = kind_and_number_behind(line, b"ATOM ") {
        return Some(Request::Atom(kind, atom));
    }
    None
}

// The two numbers whose decimals stand behind the words, with `IF` between them, and nothing else.
fn numbers_behind(line: &[u8], words: &[u8]) -> Option<(u64, u64)>
    ensures { MatchOption result ((m n : ℕ) → IsSpelledShort m → IsSpelledShort n → line.now ≡ words.now ++ decimal m ++ codes " IF " ++ decimal n → ⊥) (λ p. IsSpelledShort p.0 × IsSpelledShort p.1 × (line.now ≡ words.now ++ decimal p.0 ++ codes " IF " ++ decimal p.1)) }
{
    let (front, back) = cut_at_space(behind(line, words)?)?;
    let first = number(front)?;
    let second = number_behind(back, b" IF ")?;
    Some((first, second))
}

// The kind whose word stands behind the words, with a space and a number's decimal behind it, and nothing else.
fn kind_and_number_behind(line: &[u8], words: &[u8]) -> Option<(Kind, u64)>
    ensures { MatchOption result ((kind : Kind) (n : ℕ) → IsSpelledShort n → line.now ≡ words.now ++ kind_word kind ++ codes " " ++ decimal n → ⊥) (λ p. IsSpelledShort p.1 × (line.now ≡ words.now ++ kind_word p.0 ++ codes " " ++ decimal p.1)) }
{
    let (word, rest) = cut_at_space(behind(line, words)?)?;
    let kind = kind_named(word)?;
    let size = number_behind(rest, b" ")?;
    Some((kind, size))
}

// The kind whose word stands behind the words, and nothing else.
fn kind_behind(line: &[u8], words: &[u8]) -> Option<Kind>
    ensures { MatchOption result ((kind : Kind) → line.now ≡ words.now ++ kind_word kind → ⊥) (λ kind. line.now ≡ words.now ++ kind_word kind) }
{
    kind_named(behind(line, words)?)
}

// The kind that the word names.
fn kind_named(word: &[u8]) -> Option<Kind>
    ensures { MatchOption result ((kind : Kind) → word.now ≡ kind_word kind → ⊥) (λ kind. word.now ≡ kind_word kind) }
{
    if word == b"bottom".as_slice() {
        return Some(Kind::Bottom);
    }
    if word == b"top".as_slice() {
        return Some(Kind::Top);
    }
    if word == b"star".as_slice() {
        return Some(Kind::Star);
    }
    None
}

// What stands before the first space, and the rest from that space on.
fn cut_at_space(text: &[u8]) -> Option<(&[u8], &[u8])>
    ensures { MatchOption result (HasNoSpace text.entry.now) (λ p. IsCut text.entry.now p.0.now p.1.now) }
{
    let place = text.iter().position(|byte| *byte == b' ')?;
    Some(text.split_at(place))
}

// The number whose decimal stands behind the words, and nothing else.
fn number_behind(line: &[u8], words: &[u8]) -> Option<u64>
    ensures { MatchOption result ((n : ℕ) → IsSpelledShort n → line.now ≡ words.now ++ decimal n → ⊥) (λ n. IsSpelledShort n × (line.now ≡ words.now ++ decimal n)) }
{
    match behind(line, words) {
        None => None,
        Some(rest) => number(rest),
    }
}

// What stands behind the words.
fn behind<'a>(line: &'a [u8], words: &[u8]) -> Option<&'a [u8]>
    ensures { MatchOption result ((rest : List ℕ) → line.entry.now ≡ words.now ++ rest → ⊥) (λ rest. line.entry.now ≡ words.now ++ rest.now) }
{
    line.strip_prefix(words)
}
