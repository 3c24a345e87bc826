//! The objects of packets, captures and totals, a line each.
ghost use Rattle.std.specs.Prelude.{◌≡◌, ◌++◌, [], ◌∷◌, IfOk, OnOk, codes, map, unwrap_or};
ghost use Rattle.packet_view.specs.Frames.{frame_facts};
ghost use Rattle.packet_view.specs.Tuples.{tuple_facts};
ghost use Rattle.packet_view.specs.declared.tuple.Fields.TheVariants.{Absent};
ghost use Rattle.racl_views.specs.Entries.{entry_facts};
ghost use Rattle.racl_views.specs.Objects.{number, object_line};
ghost use Rattle.racl_views.specs.PacketObjects;
ghost use Rattle.racl_views.specs.PacketObjects.{carried_fields, decided_fields, dest_fields, frame_way, packet_object, rule_fields, source_fields, totals_object, truncation_object, tuple_fields, verdict_fields};
ghost use Rattle.racl_views.specs.RuleTexts.{shown_of};
ghost use Rattle.racl_views.specs.inner.Fields.{HasAdded};

use crate::json_fields::{
    add_address, add_line, add_number, add_string, add_true, add_way, begin_json_object,
    end_json_object,
};
use crate::packet_entry::Entry;
use crate::rule_table::RuleText;
use json::Writer;
use packet_view::{Family, Fields, Frame, Tuple};
use packet_words::has_fields;
use racl_io::{Captured, Totals};
use session_state::Verdict;
use std::alloc::AllocError;

// The word in a packet's object for whether it passes.
fn effect_word(verdict: Verdict) -> &'static str
    ensures { result.now ≡ PacketObjects.effect_word verdict }
{
    if verdict.passes() { "pass" } else { "drop" }
}

// The word in a packet's object for the reason of its verdict.
fn reason_word(verdict: Verdict) -> &'static str
    ensures { result.now ≡ PacketObjects.reason_word verdict }
{
    match verdict {
        Verdict::Session => "session",
        Verdict::Reflect(_) | Verdict::Permit(_) | Verdict::Deny(_) => "rule",
        Verdict::ByDefault => "default",
        Verdict::Worn => "worn",
        Verdict::Full => "full",
        Verdict::NoPages => "no-pages",
        Verdict::NotIp => "not-ip",
        Verdict::Malformed => "malformed",
        Verdict::Short => "short",
    }
}

// The fields of a packet's object on the rule that decided it, where one did.
fn add_rule(object: &mut Writer, verdict: Verdict) -> Result<(), AllocError>
    ensures { OnOk result (HasAdded object.old object.new (rule_fields verdict)) }
{
    match verdict {
        Verdict::Reflect(number) => {
            add_number(object, "rule", u64::from(number))?;
            add_true(object, "reflect")?;
        }
        Verdict::Permit(number) | Verdict::Deny(number) => {
            add_number(object, "rule", u64::from(number))?;
        }
        Verdict::Session
        | Verdict::ByDefault
        | Verdict::Worn
        | Verdict::Full
        | Verdict::NoPages
        | Verdict::NotIp
        | Verdict::Malformed
        | Verdict::Short => {}
    }
    Ok(())
}

// The fields of a packet's object with the line and the text of the rule that decided it, where one did.
fn add_decided<'a>(
    object: &mut Writer,
    texts: &'a [RuleText<'a>],
    line: u64,
) -> Result<(), AllocError>
    ensures { OnOk result (HasAdded object.old object.new (decided_fields (map shown_of texts.now) line)) }
{
    if line == 0 {
        return Ok(());
    }
    add_line(object, texts, line)
}

fn add_frame_way(object: &mut Writer, frame: &Frame) -> Result<(), AllocError>
    ensures { OnOk result (HasAdded object.old object.new (frame_way (frame_facts frame.now))) }
{
    match frame {
        Frame::Ip(direction, _) => add_way(object, *direction),
        Frame::NotIp | Frame::Malformed | Frame::Short => Ok(()),
    }
}

// What follows the address of the source in the object of a packet.
fn add_source_fields(object: &mut Writer, fields: Fields) -> Result<(), AllocError>
    ensures { OnOk result (HasAdded object.old object.new (source_fields fields)) }
{
    match fields {
        Fields::Ports { from, .. } | Fields::Tcp { from, .. } => {
            add_number(object, "source_port", u64::from(from))
        }
        Fields::Absent | Fields::Icmp { .. } => Ok(()),
    }
}

// The port of the destination, in a packet's object of JSON.
fn add_dest_port(object: &mut Writer, port: u16) -> Result<(), AllocError>
    ensures { OnOk result (HasAdded object.old object.new (number (codes "destination_port") port ∷ [])) }
{
    add_number(object, "destination_port", u64::from(port))
}

// The type and the code of ICMP, in a packet's object of JSON.
fn add_icmp_to_object(object: &mut Writer, kind: u8, code: u8) -> Result<(), AllocError>
    ensures { OnOk result (HasAdded object.old object.new (number (codes "type") kind ∷ number (codes "code") code ∷ [])) }
{
    add_number(object, "type", u64::from(kind))?;
    add_number(object, "code", u64::from(code))?;
    Ok(())
}

// The port of the destination and the flags of TCP in the object of a packet.
fn add_tcp_to_object(object: &mut Writer, to: u16, flags: u8) -> Result<(), AllocError>
    ensures { OnOk result (HasAdded object.old object.new (number (codes "destination_port") to ∷ number (codes "flags") flags ∷ [])) }
{
    add_dest_port(object, to)?;
    add_number(object, "flags", u64::from(flags))?;
    Ok(())
}

// What the object of a packet says of fields that aren't there.
fn add_absence(object: &mut Writer, family: Family, proto: u8) -> Result<(), AllocError>
    ensures { OnOk result (HasAdded object.old object.new (dest_fields family proto Absent)) }
{
    if !has_fields(family, proto) {
        return Ok(());
    }
    add_true(object, "later_fragment")
}

// What follows the address of the destination in the object of a packet.
fn add_dest_fields(object: &mut Writer, tuple: &Tuple) -> Result<(), AllocError>
    ensures { OnOk result (HasAdded object.old object.new (dest_fields tuple.now.family tuple.now.proto tuple.now.fields)) }
{
    match tuple.fields {
        Fields::Absent => add_absence(object, tuple.family, tuple.proto),
        Fields::Ports { to, .. } => add_dest_port(object, to),
        Fields::Tcp { to, flags, .. } => add_tcp_to_object(object, to, flags),
        Fields::Icmp { kind, code } => add_icmp_to_object(object, kind, code),
    }
}

fn add_tuple(object: &mut Writer, address: &mut String, tuple: &Tuple) -> Result<(), AllocError>
    ensures { OnOk result (HasAdded object.old object.new (tuple_fields (tuple_facts tuple.now))) }
{
    add_number(object, "protocol", u64::from(tuple.proto))?;
    add_address(object, address, "source", tuple.family, tuple.source)?;
    add_source_fields(object, tuple.fields)?;
    add_address(object, address, "destination", tuple.family, tuple.dest)?;
    add_dest_fields(object, tuple)?;
    Ok(())
}

// The fields of a packet's object that say what it carries, where that is seen.
fn add_carried(object: &mut Writer, address: &mut String, frame: &Frame) -> Result<(), AllocError>
    ensures { OnOk result (HasAdded object.old object.new (carried_fields (frame_facts frame.now))) }
{
    match frame {
        Frame::Ip(_, tuple) => add_tuple(object, address, tuple),
        Frame::NotIp | Frame::Malformed | Frame::Short => Ok(()),
    }
}

// The fields of a packet's object that say what became of it, and why.
fn add_verdict(object: &mut Writer, verdict: Verdict) -> Result<(), AllocError>
    ensures { OnOk result (HasAdded object.old object.new (verdict_fields verdict)) }
{
    add_string(object, "verdict", effect_word(verdict))?;
    add_string(object, "reason", reason_word(verdict))?;
    add_rule(object, verdict)?;
    Ok(())
}

/// The object of the packet with this number behind a text. The rule that decided it has one of these texts. An `Err` of this
/// and of what follows says that memory ran out.
pub fn push_packet<'a>(
    text: Vec<u8>,
    address: &mut String,
    texts: &'a [RuleText<'a>],
    number: u64,
    entry: &Entry,
) -> Result<Vec<u8>, AllocError>
    ensures { IfOk result (λ new. new.items ≡ text.items ++ object_line (packet_object (map shown_of texts.now) number (entry_facts entry.now))) }
{
    let mut object = begin_json_object(&text)?;
    add_number(&mut object, "packet", number)?;
    add_verdict(&mut object, entry.verdict)?;
    add_decided(&mut object, texts, entry.line)?;
    add_number(&mut object, "interface", u64::from(entry.interface))?;
    add_frame_way(&mut object, &entry.frame)?;
    add_number(&mut object, "time", u64::from(entry.moment))?;
    add_number(&mut object, "microsecond", u64::from(entry.micros))?;
    add_number(&mut object, "bytes", entry.bytes)?;
    add_carried(&mut object, address, &entry.frame)?;
    end_json_object(object, text)
}

// The number of the interface in the object of a truncated capture: 0 where none is named.
fn object_interface(named: Option<u8>) -> u64
    ensures { result ≡ unwrap_or named 0 }
{
    match named {
        Some(number) => u64::from(number),
        None => 0,
    }
}

/// The object of a capture that is truncated.
pub fn push_truncation(text: Vec<u8>, captured: &Captured) -> Result<Vec<u8>, AllocError>
    ensures { IfOk result (λ new. new.items ≡ text.items ++ object_line (truncation_object captured.now)) }
{
    let mut object = begin_json_object(&text)?;
    add_number(&mut object, "interface", object_interface(captured.named))?;
    add_number(&mut object, "truncated_after", captured.packets as u64)?;
    end_json_object(object, text)
}

/// The object of the totals, which stands behind those of all packets.
pub fn push_totals(text: Vec<u8>, totals: &Totals) -> Result<Vec<u8>, AllocError>
    ensures { IfOk result (λ new. new.items ≡ text.items ++ object_line (totals_object totals.now)) }
{
    let mut object = begin_json_object(&text)?;
    add_number(&mut object, "packets", totals.packets)?;
    add_number(&mut object, "pass", totals.passed)?;
    add_number(&mut object, "drop", totals.dropped)?;
    end_json_object(object, text)
}
