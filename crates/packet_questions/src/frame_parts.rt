//! The parts of a frame that is written for a packet in question.
ghost use Rattle.std.specs.Prelude.{◌≡◌, ◌≤◌, ◌<◌, ◌+◌, ◌++◌, ◌^◌, IfOk, length};
ghost use Rattle.packet_view.specs.Tuples.{tuple_facts};
ghost use Rattle.packet_view.specs.declared.tuple.Family.TheVariants.{V4};
ghost use Rattle.packet_questions.specs.Frames;

use packet_view::{Direction, Family, Fields, Mac, Tuple};
use std::alloc::{AllocError, Global};

/// The Ethernet source of a frame that goes this way at an interface with this own address.
pub fn ethernet_source(direction: Direction, own: Option<Mac>) -> [u8; 6]
    ensures { result ≡ Frames.ethernet_source direction own }
{
    match (direction, own) {
        (_, None) => [0; 6],
        (Direction::Outbound, Some(own)) => own.0,
        (Direction::Inbound, Some(own)) => [if own.0[0] == 0 { 2 } else { 0 }, 0, 0, 0, 0, 0],
    }
}

/// What follows the IP headers of a packet with these fields.
pub fn content_of(alloc: Global, fields: &Fields) -> Result<Vec<u8>, AllocError>
    ensures { IfOk result (λ content. content.items ≡ Frames.content_of fields.now) }
{
    let mut content = Vec::new(alloc);
    match fields {
        Fields::Absent => content.extend_from_slice(&[0; 8])?,
        Fields::Ports { from, to } => {
            content.extend_from_slice(&from.to_be_bytes())?;
            content.extend_from_slice(&to.to_be_bytes())?;
            content.extend_from_slice(&[0, 8, 0, 0])?;
        }
        Fields::Tcp { from, to, flags } => {
            content.extend_from_slice(&from.to_be_bytes())?;
            content.extend_from_slice(&to.to_be_bytes())?;
            content.extend_from_slice(&[0, 0, 0, 0, 0, 0, 0, 0, 0x50, *flags, 0, 0, 0, 0, 0, 0])?;
        }
        Fields::Icmp { kind, code } => {
            content.extend_from_slice(&[*kind, *code, 0, 0, 0, 0, 0, 0])?;
        }
    }
    Ok(content)
}

// How many times eight bytes a packet's fragment stands behind the first.
fn fragment_place(fields: &Fields) -> u8
    ensures { result ≡ Frames.fragment_place fields.now }
{
    match fields {
        Fields::Absent => 1,
        _ => 0,
    }
}

// A packet of IPv4, after its Ethernet type.
fn ipv4_bytes(alloc: Global, tuple: &Tuple) -> Result<Vec<u8>, AllocError>
    requires { tuple.now.family ≡ V4 }
    ensures { IfOk result (λ bytes. bytes.items ≡ Frames.ipv4_bytes (tuple_facts tuple.now)) }
{
    let content = content_of(alloc, &tuple.fields)?;
    let total = 20 + content.len() as u16;
    let mut bytes = Vec::new(alloc);
    bytes.extend_from_slice(&[0x45, 0])?;
    bytes.extend_from_slice(&total.to_be_bytes())?;
    bytes.extend_from_slice(&[
        0,
        0,
        0,
        fragment_place(&tuple.fields),
        64,
        tuple.proto,
        0,
        0,
    ])?;
    bytes.extend_from_slice(&(tuple.source as u32).to_be_bytes())?;
    bytes.extend_from_slice(&(tuple.dest as u32).to_be_bytes())?;
    bytes.extend_from_slice(&content)?;
    Ok(bytes)
}

// What follows the header of a packet of IPv6, and the number of what follows.
fn behind_ipv6(alloc: Global, tuple: &Tuple) -> Result<(u8, Vec<u8>), AllocError>
    ensures { IfOk result (λ r. (r.0 ≡ Frames.next_header (tuple_facts tuple.now) tuple.now.fields)
        × (r.1.items ≡ Frames.behind_ipv6 (tuple_facts tuple.now) tuple.now.fields)) }
{
    let content = content_of(alloc, &tuple.fields)?;
    match tuple.fields {
        Fields::Absent => {
            let mut bytes = Vec::new(alloc);
            bytes.extend_from_slice(&[tuple.proto, 0, 0, 8, 0, 0, 0, 1])?;
            bytes.extend_from_slice(&content)?;
            Ok((44, bytes))
        }
        _ => Ok((tuple.proto, content)),
    }
}

// A packet of IPv6, after its Ethernet type.
fn ipv6_bytes(alloc: Global, tuple: &Tuple) -> Result<Vec<u8>, AllocError>
    ensures { IfOk result (λ bytes. bytes.items ≡ Frames.ipv6_bytes (tuple_facts tuple.now)) }
{
    let (next, behind) = behind_ipv6(alloc, tuple)?;
    let length = behind.len() as u16;
    let mut bytes = Vec::new(alloc);
    bytes.extend_from_slice(&[0x60, 0, 0, 0])?;
    bytes.extend_from_slice(&length.to_be_bytes())?;
    bytes.extend_from_slice(&[next, 64])?;
    bytes.extend_from_slice(&tuple.source.to_be_bytes())?;
    bytes.extend_from_slice(&tuple.dest.to_be_bytes())?;
    bytes.extend_from_slice(&behind)?;
    Ok(bytes)
}

/// The Ethernet type of a packet, and its bytes.
pub fn packet_bytes(alloc: Global, tuple: &Tuple) -> Result<([u8; 2], Vec<u8>), AllocError>
    ensures { IfOk result (λ r. r.0 ++ r.1.items ≡ Frames.packet_bytes (tuple_facts tuple.now) tuple.now.family) }
{
    match tuple.family {
        Family::V4 => match ipv4_bytes(alloc, tuple) {
            Ok(bytes) => Ok(([0x08, 0], bytes)),
            Err(error) => Err(error),
        },
        Family::V6 => match ipv6_bytes(alloc, tuple) {
            Ok(bytes) => Ok(([0x86, 0xdd], bytes)),
            Err(error) => Err(error),
        },
    }
}
