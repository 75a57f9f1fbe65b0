//! What the tokens of texts say.
ghost use Rattle.ad_lex.specs.Spans.{IsTokenOf, AreTokensOf};

use ad_lex::{Mark, Token, tokens};
use std::alloc::{AllocError, Global};
use std::test::Fail;

// Texts, and what their tokens say, each before a `;`.
static MEANINGS: [(&[u8], &str); 9] = [
    (b"(", "sign;"),
    (b"<http://a#b> <>", "http://a#b;;"),
    (b"word", "word;"),
    (b": a: :a a:b:c", "|;a|;|a;a|b:c;"),
    (b"_:x _:", "x;;"),
    (b"\"\"@en", ";en;"),
    (b"\"a\\\"b\\\\c\\nd\"", "a\"b\\c\\nd;"),
    (b"\"\\\\n\\\\\\\"\"", "\\n\\\";"),
    (b"\"\\\xC3\xA4\"", "\\\u{E4};"),
];

// Writes what a token says.
fn say(alloc: Global, text: &[u8], token: Token, out: &mut String) -> Result<(), AllocError>
    requires { IsTokenOf text.now token }
{
    match token.mark {
        Mark::Iri => out.push_str(token.iri(text)),
        Mark::Plain => out.push_str(token.plain(text)),
        Mark::Node => out.push_str(token.label(text)),
        Mark::Lang => out.push_str(token.tag(text)),
        Mark::Short => {
            let (prefix, local) = token.short(text);
            say_both(prefix, local, out)
        }
        Mark::Text => match token.string(alloc, text) {
            Ok(value) => out.push_str(value.as_str()),
            Err(_) => Ok(()),
        },
        _ => out.push_str("sign"),
    }
}

// Writes a prefix and a local part.
fn say_both(prefix: &str, local: &str, out: &mut String) -> Result<(), AllocError> {
    out.push_str(prefix)?;
    out.push_str("|")?;
    out.push_str(local)
}

// Writes what these tokens of the text say.
fn say_all(alloc: Global, text: &[u8], found: &[Token], out: &mut String) -> Result<(), AllocError>
    requires { AreTokensOf text.now found.now }
{
    for i in 0..found.len() {
        say(alloc, text, found[i], out)?;
        out.push_str(";")?;
    }
    Ok(())
}

// Whether the tokens of the text, which is short, say this.
fn says(alloc: Global, text: &[u8], want: &str) -> Result<bool, AllocError> {
    if text.len() > 100 {
        return Ok(false);
    }
    let mut out = String::new(alloc);
    if let Ok(found) = tokens(alloc, text) {
        say_all(alloc, text, found.list(), &mut out)?;
    }
    Ok(out.as_str() == want)
}

#[test]
fn meanings(rt: HostRuntime) -> Result<(), Fail> {
    for (text, want) in &MEANINGS {
        assert!(rt; says(rt.alloc(), text, want)?, "at {text:?}");
    }
    Ok(())
}
