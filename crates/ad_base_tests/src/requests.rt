//! The lines of a session, and what they ask for.
use ad_base::Kind;
use ad_request::{Request, read_request};

fn kind_told(kind: Kind) -> &'static str {
    match kind {
        Kind::Bottom => "bottom",
        Kind::Top => "top",
        Kind::Star => "star",
    }
}

// What a line asks for: its request, its kind and its number, in short.
fn told(line: &str) -> (&'static str, &'static str, u64) {
    match read_request(line.as_bytes()) {
        None => ("none", "", 0),
        Some(Request::Load(size)) => ("load", "", size),
        Some(Request::Edit(size, None)) => ("edit", "", size),
        Some(Request::Edit(size, Some(_))) => ("edit_if", "", size),
        Some(Request::Module(kind, size)) => ("module", kind_told(kind), size),
        Some(Request::Genuine(kind, size)) => ("genuine", kind_told(kind), size),
        Some(Request::Atoms(kind)) => ("atoms", kind_told(kind), 0),
        Some(Request::Atom(kind, atom)) => ("atom", kind_told(kind), atom),
        Some(Request::Export) => ("export", "", 0),
        Some(Request::Stat) => ("stat", "", 0),
        Some(Request::Quit) => ("quit", "", 0),
    }
}

static LINES: [(&str, &str, &str, u64); 16] = [
    ("LOAD 25", "load", "", 25),
    ("EDIT 25", "edit", "", 25),
    ("EDIT 0", "edit", "", 0),
    ("EDIT 9999999999", "edit", "", 9_999_999_999),
    ("EDIT 25 IF 3", "edit_if", "", 25),
    ("EDIT 0 IF 0", "edit_if", "", 0),
    ("MODULE bottom 13", "module", "bottom", 13),
    ("MODULE top 13", "module", "top", 13),
    ("MODULE star 13", "module", "star", 13),
    ("GENUINE top 40", "genuine", "top", 40),
    ("ATOMS star", "atoms", "star", 0),
    ("ATOM bottom 0", "atom", "bottom", 0),
    ("ATOM star 7", "atom", "star", 7),
    ("EXPORT", "export", "", 0),
    ("STAT", "stat", "", 0),
    ("QUIT", "quit", "", 0),
];

static ODD: [&str; 29] = [
    "",
    "EDIT",
    "EDIT ",
    "EDIT 00",
    "EDIT 07",
    "EDIT  7",
    "EDIT 7 ",
    "EDIT 10000000000",
    "edit 7",
    "EDIT 7 IF",
    "EDIT 7 IF ",
    "EDIT 7 IF 03",
    "EDIT 7  IF 3",
    "EDIT 7 IF  3",
    "EDIT 7 IF 3 ",
    "EDIT 7 if 3",
    "EDIT IF 3",
    "EDIT 7 IF 10000000000",
    "LOAD 7 IF 3",
    "MODULE middle 13",
    "MODULE bottom",
    "MODULE  13",
    "MODULE Top 13",
    "GENUINE star",
    "ATOMS star 1",
    "ATOM star",
    "EXPORT 0",
    "STAT ",
    "QUIT\r",
];

#[test]
fn lines_and_what_they_ask_for(rt: HostRuntime) {
    for (line, asked, kind, number) in &LINES {
        assert!(rt; told(line) == (*asked, *kind, *number), "{line}");
    }
}

#[test]
fn lines_that_ask_for_nothing(rt: HostRuntime) {
    for line in &ODD {
        assert!(rt; read_request(line.as_bytes()).is_none(), "{line}");
    }
}

// The edition that a line's edit expects.
fn expected(line: &str) -> Option<u64> {
    read_request(line.as_bytes())?.expected()
}

#[test]
fn expected_editions(rt: HostRuntime) {
    assert!(rt; expected("EDIT 25 IF 3") == Some(3));
    assert!(rt; expected("EDIT 25 IF 9999999999") == Some(9_999_999_999));
    assert!(rt; expected("EDIT 25") == None);
    assert!(rt; expected("EXPORT") == None);
}

#[test]
fn sizes_of_payloads(rt: HostRuntime) {
    assert!(rt; Request::Load(25).payload_size() == 25);
    assert!(rt; Request::Edit(25, Some(3)).payload_size() == 25);
    assert!(rt; Request::Module(Kind::Star, 25).payload_size() == 25);
    assert!(rt; Request::Genuine(Kind::Top, 25).payload_size() == 25);
    assert!(rt; Request::Atom(Kind::Top, 25).payload_size() == 0);
    assert!(rt; Request::Export.payload_size() == 0);
}
