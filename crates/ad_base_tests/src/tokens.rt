//! The tokens of texts with their places, and the first faults of texts.
use ad_lex::LexFault::{self, Char, OpenIri, OpenString, Utf8};
use ad_lex::Mark::{
    self, Carets, Equals, Iri, Lang, Left, Minus, Node, Plain, Plus, Right, Short, Text,
};
use ad_lex::{LexRefused, Token, tokens};
use std::alloc::Global;

// A token: its mark, and the bytes from which and up to which it stands.
type Place = (Mark, u32, u32);

// Texts, and their tokens.
#[rattlefmt::skip]
static PLACES: [(&[u8], &[Place]); 31] = [
    (b"", &[]),
    (b" \t\r\n", &[]),
    (b"\xEF\xBB\xBF", &[]),
    (b"\xEF\xBB\xBFa", &[(Plain, 3, 4)]),
    (b"a\xEF\xBB\xBF", &[(Plain, 0, 4)]),
    (b" \xEF\xBB\xBF", &[(Plain, 1, 4)]),
    (b"()=^^", &[(Left, 0, 1), (Right, 1, 2), (Equals, 2, 3), (Carets, 3, 5)]),
    (b"a#b\nc", &[(Plain, 0, 1), (Plain, 4, 5)]),
    (b"#b\rc", &[(Plain, 3, 4)]),
    (b"#b\r\nc", &[(Plain, 4, 5)]),
    (b"#b", &[]),
    (b"#\"", &[]),
    (b"\"#\"", &[(Text, 0, 3)]),
    (b"<#>", &[(Iri, 0, 3)]),
    (b"<>", &[(Iri, 0, 2)]),
    (b"<a:b(c)@^=+>", &[(Iri, 0, 12)]),
    (b"\"a\\\"b\"", &[(Text, 0, 6)]),
    (b"\"a\\\\\"b", &[(Text, 0, 5), (Plain, 5, 6)]),
    (b"\"\\n\"", &[(Text, 0, 4)]),
    (b"\"a\nb\"", &[(Text, 0, 5)]),
    (b"\"a\"@en", &[(Text, 0, 3), (Lang, 3, 6)]),
    (b"@a:+-b", &[(Lang, 0, 6)]),
    (b": a: :a a:b:c", &[(Short, 0, 1), (Short, 2, 4), (Short, 5, 7), (Short, 8, 13)]),
    (b"_:x _: _ __:x", &[(Node, 0, 3), (Node, 4, 6), (Plain, 7, 8), (Short, 9, 13)]),
    (b"+ -", &[(Plus, 0, 1), (Minus, 2, 3)]),
    (b"+a -a", &[(Plus, 0, 1), (Plain, 1, 2), (Minus, 3, 4), (Plain, 4, 5)]),
    (b"a+b a-b", &[(Plain, 0, 3), (Plain, 4, 7)]),
    (b"+-+", &[(Plus, 0, 1), (Minus, 1, 2), (Plus, 2, 3)]),
    (b"a=b", &[(Plain, 0, 1), (Equals, 1, 2), (Plain, 2, 3)]),
    (b"a(b", &[(Plain, 0, 1), (Left, 1, 2), (Plain, 2, 3)]),
    (b"\xC3\xA4\xE4\xB8\xAD", &[(Plain, 0, 5)]),
];

// Texts that have no tokens, and their first faults.
#[rattlefmt::skip]
static FAULTS: [(&[u8], LexFault); 16] = [
    (b"^", Char { at: 0 }),
    (b"^^^", Char { at: 2 }),
    (b"a>", Char { at: 1 }),
    (b"<a b>", OpenIri { at: 0 }),
    (b"< >", OpenIri { at: 0 }),
    (b"<a", OpenIri { at: 0 }),
    (b"<a<b>", OpenIri { at: 0 }),
    (b"<a\">", OpenIri { at: 0 }),
    (b"\"a", OpenString { at: 0 }),
    (b"a \"a\\\"", OpenString { at: 2 }),
    (b"@", Char { at: 0 }),
    (b"@ en", Char { at: 0 }),
    (b"# \xFF", Utf8 { at: 2 }),
    (b"> \"\xC3\"", Utf8 { at: 3 }),
    (b"ab \xED\xA0\x80", Utf8 { at: 3 }),
    (b"a\xE4\xB8", Utf8 { at: 1 }),
];

// Whether these are the tokens.
fn are_at(found: &[Token], places: &[Place]) -> bool {
    if found.len() != places.len() {
        return false;
    }
    for (token, place) in found.iter().zip(places.iter()) {
        if (token.mark, token.from, token.to) != *place {
            return false;
        }
    }
    true
}

// Whether the text, which is short, has these tokens.
fn has_tokens(alloc: Global, text: &[u8], places: &[Place]) -> bool {
    if text.len() > 100 {
        return false;
    }
    match tokens(alloc, text) {
        Ok(found) => are_at(found.list(), places),
        Err(_) => false,
    }
}

// Whether the text, which is short, has this first fault.
fn has_fault(alloc: Global, text: &[u8], fault: LexFault) -> bool {
    if text.len() > 100 {
        return false;
    }
    match tokens(alloc, text) {
        Err(LexRefused::Fault(found)) => found == fault,
        _ => false,
    }
}

#[test]
fn tokens_and_their_places(rt: HostRuntime) {
    for (text, places) in &PLACES {
        assert!(rt; has_tokens(rt.alloc(), text, places), "at {text:?}");
    }
}

#[test]
fn first_faults(rt: HostRuntime) {
    for (text, fault) in &FAULTS {
        assert!(rt; has_fault(rt.alloc(), text, *fault), "at {text:?}");
    }
}
