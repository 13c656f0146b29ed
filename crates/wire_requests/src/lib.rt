// CIP requests: a service, a path that names an object and perhaps one of its attributes, then the service's data. A message
// is lent bytes, at most 65,536 of them; the path is its bytes from 2 to datastart, and the data the rest.
#![tactic(auto)]

ghost use Rattle.std.specs.Prelude.{◌≡◌, ℕ, ◌+◌, ◌*◌, ◌≤◌, ◌<◌, length, get_or};
ghost use Rattle.wire_rules.specs.Segments.{segs_of};
ghost use Rattle.wire_rules.specs.Requests.{attribute_of, first_of, first_attribute, request_with, request_of};
ghost use Rattle.wire_requests.specs.Reading.{NamesObject, NamesInClass, NamesClass};

use wire_paths::parse_path;
use wire_rules::{Object, Request, Seg, SegStep};
use wire_segments::next_segment;

// A message has up to 65,536 bytes.
const MESSAGE_MAX: usize = 65536;

// Behind a class and an attribute.
#[tactic(auto, using(crate::proofs::RequestLaws::alone_end, crate::proofs::RequestLaws::alone_more, crate::proofs::RequestLaws::alone_broken))]
fn class_alone(path: &[u8], at: usize, class: u32) -> Option<Object>
    ensures { NamesClass path.now at class result }
{
    match next_segment(path, at) {
        SegStep::End => Some(Object { class, instance: 0 }),
        _ => None,
    }
}

// Behind a class.
#[tactic(auto, using(crate::proofs::RequestLaws::class_end, crate::proofs::RequestLaws::class_broken))]
fn in_class(path: &[u8], at: usize, class: u32) -> Option<Object>
    ensures { NamesInClass path.now at class result }
{
    match next_segment(path, at) {
        SegStep::Segment {
            seg: Seg::Instance(instance),
            ..
        } => Some(Object { class, instance }),
        SegStep::Segment {
            seg: Seg::Attribute(_),
            next,
        } => class_alone(path, next, class),
        SegStep::End => Some(Object { class, instance: 0 }),
        _ => None,
    }
}

// The object that a path names, where the path parses.
#[tactic(auto, using(crate::proofs::RequestLaws::object_end, crate::proofs::RequestLaws::object_broken))]
fn object_of(path: &[u8]) -> Option<Object>
    ensures { NamesObject path.now result }
{
    match next_segment(path, 0) {
        SegStep::Segment {
            seg: Seg::Class(class),
            next,
        } => in_class(path, next, class),
        _ => None,
    }
}

fn attribute_of(seg: Seg) -> Option<u32>
    ensures { result ≡ first_of (attribute_of seg) }
{
    match seg {
        Seg::Attribute(number) => Some(number),
        _ => None,
    }
}

// The first attribute that a path names, or the offset where the path does not parse. A `loop` and no iterator: each of the reader's three answers
// is one arm.
#[tactic(auto, using(crate::proofs::RequestLaws::held_none, crate::proofs::RequestLaws::held_more, wire_segments::specs::PathLaws::segment_found))]
pub fn attribute(path: &[u8]) -> Result<Option<u32>, usize>
    ensures { result ≡ first_attribute path.now }
{
    let mut held = None;
    let mut at = 0;
    loop {
        match next_segment(path, at) {
            SegStep::Segment { seg, next } => {
                held = held.or(attribute_of(seg));
                at = next;
            }
            SegStep::End => return Ok(held),
            SegStep::Broken(offset) => return Err(offset),
        }
    }
}

#[tactic(auto, using(crate::proofs::RequestLaws::request_parsed, crate::proofs::RequestLaws::request_unparsed))]
fn request_with(service: u8, path: &[u8], datastart: usize) -> Result<Request, u8>
    ensures { result ≡ request_with service datastart (segs_of path.now) }
{
    let attribute = attribute(path).map_err(|_| service)?;
    Ok(Request {
        service,
        object: object_of(path),
        attribute,
        datastart,
    })
}

// The request that a message is.
#[tactic(auto, unfolding(wire_rules::specs::Requests::request_of))]
pub fn parse_request(message: &[u8]) -> Result<Request, u8>
    ensures { result ≡ request_of message.now }
{
    let Some(&service) = message.first() else {
        return Err(0);
    };
    if message.len() < 2 || MESSAGE_MAX < message.len() {
        return Err(service);
    }
    let start = usize::from(message[1]) * 2 + 2;
    if message.len() < start {
        return Err(service);
    }
    request_with(service, &message[2..start], start)
}
