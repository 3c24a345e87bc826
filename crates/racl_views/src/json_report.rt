//! Packets that are told in objects of JSON, one part after the other.
ghost use Rattle.std.specs.Prelude.{◌≡◌, ◌+◌, ◌<◌, ◌^◌, ◌++◌, IfOk, OnOk, drop, length, map};
ghost use Rattle.std.specs.List.{flat_map};
ghost use Rattle.packet_view.specs.Captures.{packet_facts};
ghost use Rattle.packet_view.specs.CheckedCaptures.{remaining};
ghost use Rattle.acl_policy.specs.Policies.{policy_facts};
ghost use Rattle.racl_views.specs.Objects.{object_line};
ghost use Rattle.racl_views.specs.PacketObjects.{totals_object};
ghost use Rattle.racl_views.specs.RuleTexts.{shown_of};
ghost use Rattle.racl_views.specs.RunEntries.{told_from};
ghost use Rattle.racl_views.specs.inner.PartWordings.{objects_wording};
ghost use Rattle.racl_views.specs.inner.Tellings.{IsTableOf, entries_by, entry_by, object_by, truncation_by};

use crate::json_objects::{push_packet, push_totals, push_truncation};
use crate::packet_entry::entry_of;
use crate::rule_lines_by_place::rule_table_by_place;
use crate::rule_table::RuleTable;
use crate::run_and_verdicts::Telling;
use acl_policy::Policy;
use packet_view::{Packet, Packets};
use racl_io::{Captured, Fault, Sink, Teller, Totals, passed, write_all};
use session_state::{Shown, Verdict, has_line};
use std::alloc::{AllocError, Global};

// The object of a packet behind the text of the report in JSON, where it is shown.
fn tell_packet_in_json(
    text: Vec<u8>,
    address: &mut String,
    telling: Telling<'_, '_>,
    number: u64,
    packet: Packet<'_>,
    verdict: Verdict,
) -> Result<Vec<u8>, AllocError>
    ensures { IfOk result (λ new. new.items ≡ text.items ++ object_by telling.entry number (entry_by telling.entry (packet_facts packet.entry) verdict)) }
{
    if !has_line(telling.shown, verdict) {
        return Ok(text);
    }
    let entry = entry_of(telling.policy, &telling.table.lines, packet, verdict);
    push_packet(text, address, &telling.table.texts, number, &entry)
}

// The objects of the report in JSON on these packets, of which the first has this number.
fn tell_packets_in_json(
    text: Vec<u8>,
    address: &mut String,
    telling: Telling<'_, '_>,
    first: u64,
    packets: &mut Packets<'_>,
    verdicts: &[Verdict],
) -> Result<Vec<u8>, AllocError>
    requires { first + length verdicts.now < 2 ^ 64 }
    ensures told { IfOk result (λ new. new.items ≡ text.items
        ++ told_from (object_by telling.entry) first (entries_by telling.entry (remaining packets.old) verdicts.now)) }
    ensures left { OnOk result (remaining packets.new ≡ drop (length verdicts.now) (remaining packets.old)) }
{
    let mut told = text;
    let mut number = first;
    'verdicts: for verdict in verdicts {
        let Some(packet) = packets.next() else {
            return Ok(told);
        };
        told = tell_packet_in_json(told, address, telling, number, packet, *verdict)?;
        number += 1;
    }
    Ok(told)
}

// The object of a truncation behind the text of the report in JSON, where the capture is truncated.
fn tell_truncation_in_json(text: Vec<u8>, captured: &Captured) -> Result<Vec<u8>, AllocError>
    ensures { IfOk result (λ new. new.items ≡ text.items ++ truncation_by captured.now) }
{
    if captured.truncated {
        return push_truncation(text, captured);
    }
    Ok(text)
}

/// What tells packets in objects of JSON, one a line, and of these those that are shown. Those of each part are made whole
/// before any of them is written.
#[derive(Drop)]
pub struct ObjectLines<'a> {
    pub shown: Shown,
    pub policy: &'a Policy,
    pub table: RuleTable<'a>,
    pub address: String,
    pub alloc: Global,
}

impl<'a> ObjectLines<'a> {
    /// Those under this policy, which the text says.
    pub fn new(
        alloc: Global,
        shown: Shown,
        policy: &'a Policy,
        text: &'a [u8],
    ) -> Result<ObjectLines<'a>, AllocError>
        ensures { IfOk result (λ lines. (lines.shown ≡ shown) × (lines.policy.now ≡ policy.now) × IsTableOf text.now lines.table) }
    {
        let table = rule_table_by_place(alloc, text)?;
        Ok(ObjectLines {
            shown,
            policy,
            table,
            address: String::new(alloc),
            alloc,
        })
    }
}

// The objects of these captures that are truncated, and that of the totals.
fn objects_at_end(
    alloc: Global,
    captures: &[Captured],
    totals: &Totals,
) -> Result<Vec<u8>, AllocError>
    ensures { IfOk result (λ text. text.items ≡ flat_map truncation_by captures.now ++ object_line (totals_object totals.now)) }
{
    let mut text = Vec::new(alloc);
    'each: for captured in captures {
        text = tell_truncation_in_json(text, captured)?;
    }
    push_totals(text, totals)
}

impl<'a> Teller for ObjectLines<'a> {
    ghost wording = { λ lines. objects_wording lines.shown (policy_facts lines.policy.now) lines.table.rules.items (map shown_of lines.table.texts.items) };

    fn tell<W: Sink>(
        &mut self,
        writer: &mut W,
        others: usize,
        packets: Packets<'_>,
        verdicts: &[Verdict],
    ) -> Result<u64, Fault> {
        let telling = Telling {
            shown: self.shown,
            policy: self.policy,
            table: &self.table,
        };
        let first = others as u64 + 1;
        let mut packets = packets;
        let text = Vec::new(self.alloc);
        let told = match tell_packets_in_json(
            text,
            &mut self.address,
            telling,
            first,
            &mut packets,
            verdicts,
        ) {
            Ok(told) => told,
            Err(_) => return Err(Fault::Memory),
        };
        match write_all(writer, &told) {
            Ok(()) => Ok(passed(verdicts)),
            Err(fault) => Err(fault),
        }
    }

    fn tell_cut<W: Sink>(&mut self, writer: &mut W, captured: &Captured) -> Result<(), Fault> {
        match tell_truncation_in_json(Vec::new(self.alloc), captured) {
            Ok(text) => write_all(writer, &text),
            Err(_) => Err(Fault::Memory),
        }
    }

    fn tell_end<W: Sink>(
        &mut self,
        writer: &mut W,
        captures: &[Captured],
        totals: &Totals,
    ) -> Result<(), Fault> {
        match objects_at_end(self.alloc, captures, totals) {
            Ok(text) => write_all(writer, &text),
            Err(_) => Err(Fault::Memory),
        }
    }
}
