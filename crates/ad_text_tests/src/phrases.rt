//! The phrases of a text, each checked and built from a token on.
ghost use Rattle.std.specs.Prelude.{◌≤◌, ◌<◌, ◌^◌, length, drop};
ghost use Rattle.ad_base.specs.Limits.{standard};
ghost use Rattle.ad_lex.specs.Lexemes.{lexemes};
ghost use Rattle.ad_lex.specs.Spans.{AreTokensOf};
ghost use Rattle.ad_grammar.specs.Nesting.{nesting};

use ad_base::Word;
use ad_build::Prefixes;
use ad_check::{Stop, check_class, check_individual, check_literal, check_objprop, check_range};
use ad_io::SureSink;
use ad_lex::{Tokens, tokens};
use ad_phrases::{
    BuildRefused, build_class, build_individual, build_literal, build_objprop, build_range,
};
use ad_tree::{Annotations, Axiom, Class, Individual, Noted};
use ad_write::write_to;
use std::alloc::Global;
use std::process::Abort;
use std::test::Fail;

// What is built.
#[derive(Clone, Copy)]
enum Form {
    Class,
    Range,
    Property,
    Individual,
    Literal,
}

// Texts, a token in each, and the number of the token behind the phrase that begins there with an axiom about it; or the
// token at which no phrase goes on; or the place of the first name whose prefix is unknown.
static CLASSES: [(&str, u32, &str); 10] = [
    (
        "ObjectComplementOf(<u:A>) <u:B>",
        0,
        "4 ClassAssertion(ObjectComplementOf(<u:A>) <u:i>)",
    ),
    (
        "ObjectComplementOf(<u:A>) <u:B>",
        4,
        "5 ClassAssertion(<u:B> <u:i>)",
    ),
    (
        "ObjectComplementOf(<u:A>) <u:B>",
        2,
        "3 ClassAssertion(<u:A> <u:i>)",
    ),
    (
        "ObjectMinCardinality(007 a:r a:A) x",
        0,
        "6 ClassAssertion(ObjectMinCardinality(7 <u:r> <u:A>) <u:i>)",
    ),
    ("ObjectUnionOf(a:A owl:Thing z:B y:C) w:D", 0, "Prefix 28"),
    ("ObjectUnionOf(a:A owl:Thing z:B y:C) w:D", 7, "Prefix 37"),
    ("a:A z:B", 0, "1 ClassAssertion(<u:A> <u:i>)"),
    ("<u:A> <u:B>", 0, "1 ClassAssertion(<u:A> <u:i>)"),
    ("ObjectMinCardinality(4294967296 <u:r>)", 0, "stop 2"),
    ("ObjectUnionOf()", 0, "stop 2"),
];

static RANGES: [(&str, u32, &str); 3] = [
    (
        "DataOneOf(\"1\" \"2\"^^a:d) x",
        0,
        "7 DataPropertyRange(<u:p> DataOneOf(\"1\" \"2\"^^<u:d>))",
    ),
    ("a:d DataComplementOf(z:d)", 1, "Prefix 21"),
    ("DatatypeRestriction(<u:d>)", 0, "stop 3"),
];

static PROPERTIES: [(&str, u32, &str); 3] = [
    (
        "ObjectInverseOf(a:p) <u:q>",
        0,
        "4 FunctionalObjectProperty(ObjectInverseOf(<u:p>))",
    ),
    ("<u:q> z:p", 1, "Prefix 6"),
    ("ObjectInverseOf(ObjectInverseOf(<u:p>))", 0, "stop 2"),
];

static INDIVIDUALS: [(&str, u32, &str); 4] = [
    ("_:x <u:a>", 0, "1 ClassAssertion(<u:A> _:x)"),
    ("_:x a:i _:y", 1, "2 ClassAssertion(<u:A> <u:i>)"),
    ("z:a", 0, "Prefix 0"),
    ("_:", 0, "stop 0"),
];

static LITERALS: [(&str, u32, &str); 7] = [
    (
        "\"a\" <u:x>",
        0,
        "1 DataPropertyAssertion(<u:p> <u:i> \"a\")",
    ),
    (
        "\"a\" \"b\"@en \"c\"",
        1,
        "3 DataPropertyAssertion(<u:p> <u:i> \"b\"@en)",
    ),
    (
        "\"a\"^^a:d x",
        0,
        "3 DataPropertyAssertion(<u:p> <u:i> \"a\"^^<u:d>)",
    ),
    (
        "\"a\"^^<u:d>",
        0,
        "3 DataPropertyAssertion(<u:p> <u:i> \"a\"^^<u:d>)",
    ),
    ("\"a\"", 0, "1 DataPropertyAssertion(<u:p> <u:i> \"a\")"),
    ("\"a\"^^z:d", 0, "Prefix 5"),
    ("\"a\"^^ x", 0, "stop 2"),
];

// The standard prefixes, and `a:`.
fn prefixes(alloc: Global) -> Result<Prefixes, Fail> {
    let mut prefixes = Prefixes::standard(alloc)?;
    prefixes.declare(alloc, "a", Word::of(alloc, "u:")?)?;
    Ok(prefixes)
}

// A number, and the text of an axiom.
fn written(alloc: Global, to: u32, axiom: Axiom) -> Result<Vec<u8>, Fail> {
    let noted = Noted {
        notes: Annotations::new(alloc),
        axiom,
    };
    let mut sink = SureSink::new(alloc, 1_000)?;
    write_to(&noted, &mut sink);
    let mut out = Vec::new(alloc);
    out.extend_from_slice(format!(in alloc; "{to} ")?.as_bytes())?;
    out.extend_from_slice(sink.bytes())?;
    Ok(out)
}

// A refusal in words.
fn refused(alloc: Global, refused: BuildRefused) -> Result<Vec<u8>, Fail> {
    let text = match refused {
        BuildRefused::Prefix { at } => format!(in alloc; "Prefix {at}")?,
        BuildRefused::Memory => format!(in alloc; "memory")?,
    };
    Ok(text.as_bytes().to_vec(alloc)?)
}

// The token at which no phrase goes on, in words.
fn stopped(alloc: Global, stop: Stop) -> Result<Vec<u8>, Fail> {
    let token = stop.token;
    let text = format!(in alloc; "stop {token}")?;
    Ok(text.as_bytes().to_vec(alloc)?)
}

// A name of its own.
fn individual(alloc: Global) -> Result<Individual, Fail> {
    Ok(Individual::Named(Word::of(alloc, "u:i")?))
}

// The class that begins at a token, in an axiom.
fn class(
    alloc: Global,
    text: &[u8],
    tokens: &Tokens,
    from: u32,
    prefixes: &Prefixes,
) -> Result<Vec<u8>, Fail>
    requires tokens { AreTokensOf text.now tokens.now }
    requires from { from ≤ length tokens.now }
    requires nesting { nesting (drop from (lexemes text.now tokens.now)) ≤ standard.depth }
{
    if let Err(stop) = check_class(text, tokens, from) {
        return stopped(alloc, stop);
    }
    match build_class(alloc, text, tokens, from, prefixes) {
        Ok((class, to)) => written(alloc, to, Axiom::ClassAssertion(class, individual(alloc)?)),
        Err(why) => refused(alloc, why),
    }
}

// The range that begins at a token, in an axiom.
fn range(
    alloc: Global,
    text: &[u8],
    tokens: &Tokens,
    from: u32,
    prefixes: &Prefixes,
) -> Result<Vec<u8>, Fail>
    requires tokens { AreTokensOf text.now tokens.now }
    requires from { from ≤ length tokens.now }
    requires nesting { nesting (drop from (lexemes text.now tokens.now)) ≤ standard.depth }
{
    if let Err(stop) = check_range(text, tokens, from) {
        return stopped(alloc, stop);
    }
    match build_range(alloc, text, tokens, from, prefixes) {
        Ok((range, to)) => written(
            alloc,
            to,
            Axiom::DataPropertyRange(Word::of(alloc, "u:p")?, range),
        ),
        Err(why) => refused(alloc, why),
    }
}

// The property that begins at a token, in an axiom.
fn property(
    alloc: Global,
    text: &[u8],
    tokens: &Tokens,
    from: u32,
    prefixes: &Prefixes,
) -> Result<Vec<u8>, Fail>
    requires tokens { AreTokensOf text.now tokens.now }
    requires from { from ≤ length tokens.now }
    requires nesting { nesting (drop from (lexemes text.now tokens.now)) ≤ standard.depth }
{
    if let Err(stop) = check_objprop(text, tokens, from) {
        return stopped(alloc, stop);
    }
    match build_objprop(alloc, text, tokens, from, prefixes) {
        Ok((property, to)) => written(alloc, to, Axiom::FunctionalObjectProperty(property)),
        Err(why) => refused(alloc, why),
    }
}

// The individual that begins at a token, in an axiom.
fn member(
    alloc: Global,
    text: &[u8],
    tokens: &Tokens,
    from: u32,
    prefixes: &Prefixes,
) -> Result<Vec<u8>, Fail>
    requires tokens { AreTokensOf text.now tokens.now }
    requires from { from ≤ length tokens.now }
    requires nesting { nesting (drop from (lexemes text.now tokens.now)) ≤ standard.depth }
{
    if let Err(stop) = check_individual(text, tokens, from) {
        return stopped(alloc, stop);
    }
    match build_individual(alloc, text, tokens, from, prefixes) {
        Ok((member, to)) => written(
            alloc,
            to,
            Axiom::ClassAssertion(Class::Named(Word::of(alloc, "u:A")?), member),
        ),
        Err(why) => refused(alloc, why),
    }
}

// The literal that begins at a token, in an axiom.
fn literal(
    alloc: Global,
    text: &[u8],
    tokens: &Tokens,
    from: u32,
    prefixes: &Prefixes,
) -> Result<Vec<u8>, Fail>
    requires tokens { AreTokensOf text.now tokens.now }
    requires from { from ≤ length tokens.now }
    requires nesting { nesting (drop from (lexemes text.now tokens.now)) ≤ standard.depth }
{
    if let Err(stop) = check_literal(text, tokens, from) {
        return stopped(alloc, stop);
    }
    match build_literal(alloc, text, tokens, from, prefixes) {
        Ok((literal, to)) => written(
            alloc,
            to,
            Axiom::DataPropertyAssertion(Word::of(alloc, "u:p")?, individual(alloc)?, literal),
        ),
        Err(why) => refused(alloc, why),
    }
}

// What is built from a token of these on, in words.
fn built(
    alloc: Global,
    text: &[u8],
    tokens: &Tokens,
    from: u32,
    form: Form,
) -> Result<Vec<u8>, Fail>
    requires { AreTokensOf text.now tokens.now }
{
    let prefixes = prefixes(alloc)?;
    let count = tokens.list().len();
    if count > 100 || from as usize > count {
        return Ok(Vec::new(alloc));
    }
    match form {
        Form::Class => class(alloc, text, tokens, from, &prefixes),
        Form::Range => range(alloc, text, tokens, from, &prefixes),
        Form::Property => property(alloc, text, tokens, from, &prefixes),
        Form::Individual => member(alloc, text, tokens, from, &prefixes),
        Form::Literal => literal(alloc, text, tokens, from, &prefixes),
    }
}

// What is built from a token of a text on, in words.
fn shown(alloc: Global, text: &[u8], from: u32, form: Form) -> Result<Vec<u8>, Fail>
    requires { length text.now < 2 ^ 32 }
{
    match tokens(alloc, text) {
        Ok(found) => built(alloc, text, &found, from, form),
        Err(_) => Ok(Vec::new(alloc)),
    }
}

// Each text's phrase is built as it has to be.
fn assert_built(
    rt: &impl Abort,
    alloc: Global,
    rows: &[(&str, u32, &str)],
    form: Form,
) -> Result<(), Fail> {
    for (text, from, want) in rows.iter().copied() {
        assert!(rt; text.len() < 100);
        let found = shown(alloc, text.as_bytes(), from, form)?;
        assert!(rt; found.as_slice() == want.as_bytes(), "at {text}");
    }
    Ok(())
}

#[test]
fn classes(rt: HostRuntime) -> Result<(), Fail> {
    assert_built(&rt, rt.alloc(), &CLASSES, Form::Class)
}

#[test]
fn ranges(rt: HostRuntime) -> Result<(), Fail> {
    assert_built(&rt, rt.alloc(), &RANGES, Form::Range)
}

#[test]
fn properties(rt: HostRuntime) -> Result<(), Fail> {
    assert_built(&rt, rt.alloc(), &PROPERTIES, Form::Property)
}

#[test]
fn individuals(rt: HostRuntime) -> Result<(), Fail> {
    assert_built(&rt, rt.alloc(), &INDIVIDUALS, Form::Individual)
}

#[test]
fn literals(rt: HostRuntime) -> Result<(), Fail> {
    assert_built(&rt, rt.alloc(), &LITERALS, Form::Literal)
}
