ghost use Rattle.std.specs.Prelude.{◌≡◌, length, IsUtf8, IfOk};
ghost use Rattle.ad_lex.specs.Lexemes.{lexeme, string_value};
ghost use Rattle.ad_lex.specs.Lexemes as says;
ghost use Rattle.ad_lex.specs.Shapes.{HasShape};
ghost use Rattle.ad_lex.specs.Spans.{span, IsTokenOf};

use crate::front::colon_in;
use crate::token::{Mark, Token};
use ad_base::{Memory, Word};
use std::alloc::Global;
use std::str;

// What the tokens of a text say.
impl Token {
    /// The bytes of the token.
    pub fn bytes<'a>(self, text: &'a [u8]) -> &'a [u8]
        requires { IsTokenOf text.now self }
        ensures value { result.now ≡ span text.now self }
        ensures shape { HasShape self.mark result.now }
        ensures utf8 { IsUtf8 result.now }
    {
        &text[self.from as usize..self.to as usize]
    }

    /// The name between `<` and `>`.
    pub fn iri<'a>(self, text: &'a [u8]) -> &'a str
        requires token { IsTokenOf text.now self }
        requires mark { self.mark ≡ Mark.Iri }
        ensures { lexeme text.now self ≡ says.Iri result.now }
    {
        let bytes = self.bytes(text);
        as_text(&bytes[1..bytes.len() - 1])
    }

    /// The word.
    pub fn plain<'a>(self, text: &'a [u8]) -> &'a str
        requires token { IsTokenOf text.now self }
        requires mark { self.mark ≡ Mark.Plain }
        ensures { lexeme text.now self ≡ says.Plain result.now }
    {
        as_text(self.bytes(text))
    }

    /// The prefix and the local part.
    pub fn short<'a>(self, text: &'a [u8]) -> (&'a str, &'a str)
        requires token { IsTokenOf text.now self }
        requires mark { self.mark ≡ Mark.Short }
        ensures { lexeme text.now self ≡ says.Short result.0.now result.1.now }
    {
        let bytes = self.bytes(text);
        match colon_in(bytes) {
            Some(colon) => {
                let (prefix, rest) = bytes.split_at(colon);
                (as_text(prefix), as_text(rest.split_at(1).1))
            }
            None => unreachable!(),
        }
    }

    /// The label behind `_:`.
    pub fn label<'a>(self, text: &'a [u8]) -> &'a str
        requires token { IsTokenOf text.now self }
        requires mark { self.mark ≡ Mark.Node }
        ensures { lexeme text.now self ≡ says.Node result.now }
    {
        as_text(self.bytes(text).split_at(2).1)
    }

    /// The language tag behind `@`.
    pub fn tag<'a>(self, text: &'a [u8]) -> &'a str
        requires token { IsTokenOf text.now self }
        requires mark { self.mark ≡ Mark.Lang }
        ensures { lexeme text.now self ≡ says.Lang result.now }
    {
        as_text(self.bytes(text).split_at(1).1)
    }

    /// The value of a string.
    pub fn string(self, alloc: Global, text: &[u8]) -> Result<Word, Memory>
        requires token { IsTokenOf text.now self }
        requires mark { self.mark ≡ Mark.Text }
        ensures { IfOk result (λ value. lexeme text.now self ≡ says.Text value) }
    {
        let bytes = self.bytes(text);
        string_word(alloc, &bytes[1..bytes.len() - 1])
    }
}

// The value of what stands between the quotes of a string, as a word.
fn string_word(alloc: Global, inside: &[u8]) -> Result<Word, Memory>
    requires { IsUtf8 inside.now }
    ensures { IfOk result (λ value. value ≡ string_value inside.now) }
{
    if inside.contains(&b'\\') {
        let value = unescape(alloc, inside)?;
        Word::of(alloc, as_text(value.as_slice()))
    } else {
        Word::of(alloc, as_text(inside))
    }
}

// Text from bytes that are text.
fn as_text(bytes: &[u8]) -> &str
    requires { IsUtf8 bytes.now }
    ensures { result.now ≡ bytes.now }
{
    match str::from_utf8(bytes) {
        Ok(text) => text,
        Err(_) => unreachable!(),
    }
}

// The value of what stands between the quotes of a string.
fn unescape(alloc: Global, inside: &[u8]) -> Result<Vec<u8>, Memory>
    ensures { IfOk result (λ value. value.items ≡ string_value inside.now) }
{
    let mut value = Vec::with_capacity(alloc, inside.len())?;
    let mut held = false;
    for byte in inside {
        if *byte == b'\\' && !held {
            held = true;
            continue;
        }
        if held && *byte != b'"' && *byte != b'\\' {
            value.push(b'\\')?;
        }
        value.push(*byte)?;
        held = false;
    }
    if held {
        value.push(b'\\')?;
    }
    Ok(value)
}
