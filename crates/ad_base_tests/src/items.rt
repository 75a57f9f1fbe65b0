//! The items of a session's input.
use ad_base::{Kind, Limits};
use ad_gate::{FreeGate, Point};
use ad_io::MemSource;
use ad_items::{Line, Next, Payload, read_item};
use ad_request::Request;
use std::alloc::Global;
use std::test::Fail;

// Where the line of each request passes the gate.
const POINT: Point = Point::Request {
    chair: 0,
    number: 0,
};

// What an item is, in short: what it asks for, and its payload.
fn told(next: Next) -> &'static str {
    match next {
        Next::Item(request, payload) => told_request(request, payload),
        Next::Quit => "quit",
        Next::Closed => "closed",
        Next::Cut => "cut",
        Next::TooLong => "too long",
        Next::Failed => "failed",
    }
}

// What a line asks for, in short. All payloads are to be read.
fn told_request(request: Option<Request>, payload: Payload) -> &'static str {
    if let Payload::Dropped = payload {
        return "dropped";
    }
    match request {
        None => "none",
        Some(Request::Edit(_, _)) => "edit",
        Some(Request::Module(Kind::Bottom, _)) => "module",
        Some(Request::Export) => "export",
        Some(_) => "other",
    }
}

// A source that gives three bytes a call, and fails at one call.
fn source_of(alloc: Global, text: &str, fault: u64) -> Result<MemSource, Fail> {
    let fail = vec![in alloc; fault]?;
    Ok(MemSource::new(Vec::from_slice(alloc, text.as_bytes())?, 3, fail))
}

// Whether these items, the last of which may be the end, come first, with payloads of up to nine bytes.
fn comes(alloc: Global, source: &mut MemSource, line: &mut Line, items: &[&str]) -> bool {
    let limits = Limits {
        payload: 9,
        ..Limits::standard()
    };
    for item in items {
        if told(read_item(alloc, source, line, limits, &FreeGate, POINT)) != *item {
            return false;
        }
    }
    true
}

// Whether the text, with a fault at this call, is split into these items.
fn is_split(alloc: Global, text: &str, fault: u64, items: &[&str]) -> Result<bool, Fail> {
    let mut source = source_of(alloc, text, fault)?;
    let mut line = Line::new(alloc)?;
    Ok(comes(alloc, &mut source, &mut line, items))
}

#[test]
fn inputs_and_their_items(rt: HostRuntime) -> Result<(), Fail> {
    // an input, the call that fails, and the items up to the end
    let table: [(&str, u64, &[&str]); 8] = [
        ("", 99, &["closed"]),
        (
            "EXPORT\nwhat\n\nQUIT\nrest",
            99,
            &["export", "none", "none", "quit"],
        ),
        (
            "EDIT 4\nwhatEDIT 0\nEXPORT\n",
            99,
            &["edit", "edit", "export", "closed"],
        ),
        ("MODULE bottom 2\n\n\nEXP", 99, &["module", "cut"]),
        ("EDIT 9\nwhat", 99, &["cut"]),
        ("EDIT 10\nwhat", 99, &["too long"]),
        ("EXPORT\nQUIT\n", 9, &["export", "failed"]),
        ("EDIT 4\nwhat", 8, &["failed"]),
    ];
    for (text, fault, items) in table {
        assert!(rt; is_split(rt.alloc(), text, fault, items)?, "{text}");
    }
    Ok(())
}

// What a line of so many bytes is.
fn long_line(alloc: Global, length: usize) -> Result<&'static str, Fail> {
    let mut text = vec![in alloc; b'x'; length]?;
    text.push(b'\n')?;
    let mut source = MemSource::new(text, 100, Vec::new(alloc));
    let mut line = Line::new(alloc)?;
    Ok(told(read_item(
        alloc,
        &mut source,
        &mut line,
        Limits::standard(),
        &FreeGate,
        POINT,
    )))
}

#[test]
fn long_lines(rt: HostRuntime) -> Result<(), Fail> {
    assert!(rt; long_line(rt.alloc(), 256)? == "none");
    assert!(rt; long_line(rt.alloc(), 257)? == "too long");
    Ok(())
}
