ghost use Rattle.std.specs.Prelude.{◌≡◌, ◌∷◌, [], Some, decimal};
ghost use Rattle.ad_io.specs.Sink.{Puts, PutCause};
ghost use Rattle.ad_lines.specs.Lines.{behind, line_of};
ghost use Rattle.ad_reply.specs.Replies.{cause_of, cause_words, details, fault_place, refused, reply_bytes, unread_text, unsupported_word, which_word};

use crate::cause::Cause;
use ad_base::Which;
use ad_io::{Sink, Wrote, put_all, put_each};
use ad_lex::LexFault;
use ad_lines::Decimal;
use ad_read::{ReadRefused, Unsupported};
use ad_write::keywords;

/// Why a line, or a line with its payload, isn't answered.
#[derive(Clone, Copy)]
pub enum Refusal {
    /// The line is no request.
    Request,
    /// The text isn't read.
    Text(ReadRefused),
    /// On the edition of this number the edit passes this limit, with this count.
    Limit {
        edition: u32,
        which: Which,
        count: u64,
    },
    /// On the edition of this number there are only so many atoms.
    Atom {
        edition: u32,
        count: u32,
    },
    /// The edit expects another edition than the newest, which has this number.
    Moved {
        edition: u32,
    },
    /// Want of memory.
    Memory,
    /// The editions are shut for this session.
    Shut,
}

impl Refusal {
    /// The cause, which says what the number of the refusal is.
    pub fn cause(self) -> Cause
        ensures { cause_of (refused self) ≡ Some result }
    {
        match self {
            Refusal::Request => Cause::Request,
            Refusal::Text(cause) => cause_of_text(cause),
            Refusal::Limit { .. } => Cause::Limit,
            Refusal::Atom { .. } => Cause::Atom,
            Refusal::Moved { .. } => Cause::Moved,
            Refusal::Memory => Cause::Memory,
            Refusal::Shut => Cause::Shut,
        }
    }
}

// The cause of a text that isn't read.
fn cause_of_text(cause: ReadRefused) -> Cause
    ensures { cause_of (unread_text cause) ≡ Some result }
{
    match cause {
        ReadRefused::Lex(_) | ReadRefused::Syntax { .. } => Cause::Syntax,
        ReadRefused::Depth { .. } => Cause::Depth,
        ReadRefused::Unsupported { .. } => Cause::Unsupported,
        ReadRefused::Prefix { .. } | ReadRefused::PrefixTwice { .. } => Cause::Prefix,
        ReadRefused::Memory => Cause::Memory,
    }
}

/// Writes the line of the refusal. It takes no memory.
pub fn refuse<K: Sink>(refusal: Refusal, sink: &mut K) -> Wrote
    ensures bytes { Puts (K.written sink.old) (K.written sink.new) result (reply_bytes (refused refusal)) }
    ensures cause { PutCause (K.faults sink.old) (K.faults sink.new) result }
{
    match put_all(sink, b"NO ") {
        Wrote::All => explain(refusal, sink),
        Wrote::Failed => Wrote::Failed,
    }
}

/// Writes the line of the refusal without its first word: the number of the cause, and what there is to say of it. It
/// takes no memory.
pub fn explain<K: Sink>(refusal: Refusal, sink: &mut K) -> Wrote
    ensures bytes { Puts (K.written sink.old) (K.written sink.new) result (line_of (cause_words (refused refusal))) }
    ensures cause { PutCause (K.faults sink.old) (K.faults sink.new) result }
{
    match put_all(sink, refusal.cause().number()) {
        Wrote::All => put_details(refusal, sink),
        Wrote::Failed => Wrote::Failed,
    }
}

// Writes what there is to say of the cause, behind its number.
fn put_details<K: Sink>(refusal: Refusal, sink: &mut K) -> Wrote
    ensures bytes { Puts (K.written sink.old) (K.written sink.new) result (behind (details (refused refusal))) }
    ensures cause { PutCause (K.faults sink.old) (K.faults sink.new) result }
{
    match refusal {
        Refusal::Text(cause) => put_text(cause, sink),
        Refusal::Limit {
            edition,
            which,
            count,
        } => put_limit(edition, which, count, sink),
        Refusal::Atom { edition, count } => put_numbers(edition, count, sink),
        Refusal::Moved { edition } => put_number(edition, sink),
        Refusal::Request | Refusal::Memory | Refusal::Shut => put_all(sink, b"\n"),
    }
}

// Writes what there is to say of a text that isn't read.
fn put_text<K: Sink>(cause: ReadRefused, sink: &mut K) -> Wrote
    ensures bytes { Puts (K.written sink.old) (K.written sink.new) result (behind (details (unread_text cause))) }
    ensures cause { PutCause (K.faults sink.old) (K.faults sink.new) result }
{
    match cause {
        ReadRefused::Lex(fault) => put_number(fault_place(fault), sink),
        ReadRefused::Depth { nesting } => put_number(nesting, sink),
        ReadRefused::Unsupported { at, what } => put_unsupported(at, what, sink),
        ReadRefused::Syntax { at } | ReadRefused::Prefix { at } | ReadRefused::PrefixTwice { at } =>
            put_number(at, sink),
        ReadRefused::Memory => put_all(sink, b"\n"),
    }
}

// Writes a number behind a word, and a line feed.
fn put_number<K: Sink>(number: u32, sink: &mut K) -> Wrote
    ensures bytes { Puts (K.written sink.old) (K.written sink.new) result (behind (decimal number ∷ [])) }
    ensures cause { PutCause (K.faults sink.old) (K.faults sink.new) result }
{
    let number = Decimal::of(u64::from(number));
    put_each(sink, &[b" ", number.as_bytes(), b"\n"])
}

// Writes two numbers behind a word, and a line feed.
fn put_numbers<K: Sink>(first: u32, second: u32, sink: &mut K) -> Wrote
    ensures bytes { Puts (K.written sink.old) (K.written sink.new) result (behind (decimal first ∷ decimal second ∷ [])) }
    ensures cause { PutCause (K.faults sink.old) (K.faults sink.new) result }
{
    let first = Decimal::of(u64::from(first));
    let second = Decimal::of(u64::from(second));
    put_each(
        sink,
        &[b" ", first.as_bytes(), b" ", second.as_bytes(), b"\n"],
    )
}

// Writes that what stands at this place isn't read.
fn put_unsupported<K: Sink>(at: u32, what: Unsupported, sink: &mut K) -> Wrote
    ensures bytes { Puts (K.written sink.old) (K.written sink.new) result (behind (decimal at ∷ unsupported_word what ∷ [])) }
    ensures cause { PutCause (K.faults sink.old) (K.faults sink.new) result }
{
    let at = Decimal::of(u64::from(at));
    put_each(
        sink,
        &[b" ", at.as_bytes(), b" ", unsupported_word(what), b"\n"],
    )
}

// Writes the passed limit.
fn put_limit<K: Sink>(edition: u32, which: Which, count: u64, sink: &mut K) -> Wrote
    ensures bytes { Puts (K.written sink.old) (K.written sink.new) result (behind (decimal edition ∷ which_word which ∷ decimal count ∷ [])) }
    ensures cause { PutCause (K.faults sink.old) (K.faults sink.new) result }
{
    let edition = Decimal::of(u64::from(edition));
    let count = Decimal::of(count);
    put_each(
        sink,
        &[
            b" ",
            edition.as_bytes(),
            b" ",
            word_of(which),
            b" ",
            count.as_bytes(),
            b"\n",
        ],
    )
}

// Where the fault of a token stands.
fn fault_place(fault: LexFault) -> u32
    ensures { result ≡ fault_place fault }
{
    match fault {
        LexFault::Utf8 { at }
        | LexFault::Char { at }
        | LexFault::OpenString { at }
        | LexFault::OpenIri { at } => at,
    }
}

// The word of what isn't read.
fn unsupported_word(what: Unsupported) -> &'static [u8]
    ensures { result.now ≡ unsupported_word what }
{
    match what {
        Unsupported::Import => keywords::IMPORT.as_bytes(),
        Unsupported::Rule => keywords::DL_SAFE_RULE.as_bytes(),
        Unsupported::Nary => b"n-ary",
    }
}

// The word of a limit.
fn word_of(which: Which) -> &'static [u8]
    ensures { result.now ≡ which_word which }
{
    match which {
        Which::Axioms => b"axioms",
        Which::Entities => b"entities",
        Which::Bytes => b"bytes",
        Which::Editions => b"editions",
        Which::Payload => b"payload",
    }
}
