ghost use Rattle.std.specs.Prelude.{◌≡◌, ◌≢◌, ◌≤◌, ◌↔◌, ◌∷◌, ◌++◌, ℕ, List, Option, [], IsTrue, Some};
ghost use Rattle.ad_io.specs.Flow.{Loses};
ghost use Rattle.ad_request.specs.declared.request.Request.{Request};
ghost use Rattle.ad_request.specs.Requests.{Asks, payload_size};
ghost use Rattle.ad_items.specs.Items.{bounds_of, IsShort};
ghost use Rattle.ad_items.specs.Next.{IsNext, NextCause};

use crate::line::{Line, LineEnd, read_line};
use crate::payload::{PayloadEnd, read_payload};
use ad_base::Limits;
use ad_gate::{Gate, Point};
use ad_io::Source;
use ad_request::{Request, read_request};
use std::alloc::Global;

/// The payload of an item.
#[derive(Drop)]
pub enum Payload {
    /// All its bytes.
    Full(Vec<u8>),
    /// Memory for it was refused, and its bytes were read and dropped.
    Dropped,
}

/// What stands next in the input.
#[derive(Drop)]
pub enum Next {
    /// A line, with what it asks for, and its payload.
    Item(Option<Request>, Payload),
    /// The request for the end.
    Quit,
    /// The input ended before the first byte of a line.
    Closed,
    /// The input ended inside a line or a payload.
    Cut,
    /// The line has more than 256 bytes, or its payload is longer than the limit.
    TooLong,
    /// The source failed.
    Failed,
}

/// Reads the next item, or the end, and no byte behind it. Where the line was read it passes the gate, before the payload
/// is read.
pub fn read_item<S: Source, G: Gate>(
    alloc: Global,
    source: &mut S,
    line: &mut Line,
    limits: Limits,
    gate: &G,
    point: Point,
) -> Next
    ensures next { IsNext (bounds_of limits) (S.left source.old) (S.left source.new) result }
    ensures cause { NextCause (S.faults source.old) (S.faults source.new) result }
{
    match read_line(source, line) {
        LineEnd::Whole => {
            gate.pass(point);
            read_behind(alloc, source, line.bytes(), limits)
        }
        LineEnd::Closed => Next::Closed,
        LineEnd::Cut => Next::Cut,
        LineEnd::TooLong => Next::TooLong,
        LineEnd::Failed => Next::Failed,
    }
}

// Reads what stands behind the line.
fn read_behind<S: Source>(alloc: Global, source: &mut S, line: &[u8], limits: Limits) -> Next
    requires { IsShort line.now }
    ensures next { (before : Option (List ℕ)) → Loses before (S.left source.old) (line.now ++ 10 ∷ []) → IsNext (bounds_of limits) before (S.left source.new) result }
    ensures cause { NextCause (S.faults source.old) (S.faults source.new) result }
{
    match read_request(line) {
        None => Next::Item(None, Payload::Full(Vec::new(alloc))),
        Some(request) if is_quit(request) => Next::Quit,
        Some(request) if request.payload_size() > limits.payload => Next::TooLong,
        Some(request) => with_payload(alloc, source, line, request, limits),
    }
}

// Reads the payload of the line.
fn with_payload<S: Source>(
    alloc: Global,
    source: &mut S,
    line: &[u8],
    request: Request,
    limits: Limits,
) -> Next
    requires short { IsShort line.now }
    requires asks { Asks line.now (Some request) }
    requires goes_on { request ≢ Request.Quit }
    requires within { payload_size request ≤ limits.payload }
    ensures next { (before : Option (List ℕ)) → Loses before (S.left source.old) (line.now ++ 10 ∷ []) → IsNext (bounds_of limits) before (S.left source.new) result }
    ensures cause { NextCause (S.faults source.old) (S.faults source.new) result }
{
    match read_payload(alloc, source, request.payload_size()) {
        PayloadEnd::Full(bytes) => Next::Item(Some(request), Payload::Full(bytes)),
        PayloadEnd::Dropped => Next::Item(Some(request), Payload::Dropped),
        PayloadEnd::Cut => Next::Cut,
        PayloadEnd::Failed => Next::Failed,
    }
}

// Whether the request is the one for the end.
fn is_quit(request: Request) -> bool
    ensures { IsTrue result ↔ (request ≡ Request.Quit) }
{
    matches!(request, Request::Quit)
}
