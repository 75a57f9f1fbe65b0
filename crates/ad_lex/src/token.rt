ghost use Rattle.std.specs.Prelude.{◌≡◌, ◌^◌, ◌<◌, length, vec_len};

use ad_base::Memory;
use std::alloc::AllocFailed;
use std::marker::Model;
use thiserror::Error;

/// What a token is.
#[derive(Clone, Copy, PartialEq, Eq)]
pub enum Mark {
    Left,
    Right,
    Equals,
    Carets,
    Plus,
    Minus,
    /// A full name between `<` and `>`.
    Iri,
    /// A string between quotes.
    Text,
    /// A word without a colon.
    Plain,
    /// A word with a prefix and a local part.
    Short,
    /// The label of an anonymous individual, behind `_:`.
    Node,
    /// A language tag, behind `@`.
    Lang,
}

/// A token, which stands in its text from the byte `from` up to the byte `to`.
#[derive(Clone, Copy)]
pub struct Token {
    pub from: u32,
    pub to: u32,
    pub mark: Mark,
}

/// The tokens of a text, which contracts see as a list.
#[derive(Drop)]
pub struct Tokens {
    items: Vec<Token>,
    ghost few: { vec_len items < 2 ^ 32 },
}

impl Model for Tokens {
    ghost use Rattle.std.specs.Prelude.{List};
    ghost use Rattle.ad_lex.specs.declared.token.Token.{Token};

    ghost Value = { List Token };

    ghost view = { λ tokens. tokens.items.items };
}

impl Tokens {
    /// The tokens in order.
    pub fn list(&self) -> &[Token]
        ensures value { result.now ≡ self.now }
        ensures few { length result.now < 2 ^ 32 }
    {
        self.items.as_slice()
    }

    // These tokens as a whole.
    pub(crate) fn of(items: Vec<Token>) -> Tokens
        requires { vec_len items < 2 ^ 32 }
        ensures { result ≡ items.items }
    {
        Tokens { items }
    }
}

/// Why a text has no tokens, with the place of the byte at fault.
#[derive(Clone, Copy, Debug, PartialEq, Eq, Error)]
pub enum LexFault {
    /// No UTF-8 character begins here.
    #[error("no UTF-8 character at {at}")]
    Utf8 { at: u32 },
    /// This character begins no token.
    #[error("no token begins at {at}")]
    Char { at: u32 },
    /// The string that begins here isn't closed.
    #[error("the string at {at} isn't closed")]
    OpenString { at: u32 },
    /// The IRI that begins here isn't closed.
    #[error("the IRI at {at} isn't closed")]
    OpenIri { at: u32 },
}

/// Why `tokens` gives none.
#[derive(Clone, Copy, Debug, Error)]
pub enum LexRefused {
    #[error("{0}")]
    Fault(LexFault),
    #[error("out of memory")]
    Memory,
}

impl From<Memory> for LexRefused {
    ghost use Rattle.ad_lex.specs.declared.token.LexRefused.TheVariants as refused_by;

    ghost from_gives = { λ _ refused. refused ≡ refused_by.Memory };

    fn from(_error: Memory) -> LexRefused {
        LexRefused::Memory
    }
}

impl From<AllocFailed<Token>> for LexRefused {
    ghost use Rattle.ad_lex.specs.declared.token.LexRefused.TheVariants as refused_by;

    ghost from_gives = { λ _ refused. refused ≡ refused_by.Memory };

    fn from(_error: AllocFailed<Token>) -> LexRefused {
        LexRefused::Memory
    }
}
