//! How many packets are changed.
ghost use Rattle.std.specs.Prelude.{◌≡◌, ◌+◌, ◌-◌, ◌<◌, ◌≤◌, ◌^◌, ◌++◌, [], count_by, false, length, map};
ghost use Rattle.racl_io.specs.Sinks.{HasPutFront};
ghost use Rattle.compared_verdicts.specs.ChangeReports;
ghost use Rattle.compared_verdicts.specs.ChangeReports.{end_of_report, is_other, is_to_drop, is_to_pass, kinds_told, other_told, totals_line, with_changes};
ghost use Rattle.compared_verdicts.specs.Changes.{change_facts};
ghost use Rattle.compared_verdicts.specs.inner.Totals.{HasRoom};

use crate::change_lines::Change;
use racl_io::{Captured, Fault, Numeral, Piece, Sink, write_all, write_truncation};

/// How many packets were compared, and how many of these are changed.
#[derive(Clone, Copy, Debug, PartialEq, Eq)]
pub struct ChangeTotals {
    pub packets: u64,
    pub changed: u64,
    /// How many passed, and are dropped now.
    pub to_drop: u64,
    /// How many were dropped, and pass now.
    pub to_pass: u64,
    /// How many of the changed pass as before, or are dropped as before.
    pub other: u64,
    /// Whether the capture ends within a record.
    pub truncated: bool,
}

/// The totals over no packet.
pub fn no_changes() -> ChangeTotals
    ensures { result ≡ ChangeReports.totals_of [] 0 false }
{
    ChangeTotals {
        packets: 0,
        changed: 0,
        to_drop: 0,
        to_pass: 0,
        other: 0,
        truncated: false,
    }
}

// How many of these passed, and are dropped now.
fn count_to_drop<'a>(changes: &'a [Change<'a>]) -> u64
    ensures { result ≡ count_by (λ c. is_to_drop (change_facts c)) changes.now }
{
    changes
        .iter()
        .filter(|c| c.before.passes() && !c.after.passes())
        .count() as u64
}

// How many of these were dropped, and pass now.
fn count_to_pass<'a>(changes: &'a [Change<'a>]) -> u64
    ensures { result ≡ count_by (λ c. is_to_pass (change_facts c)) changes.now }
{
    changes
        .iter()
        .filter(|c| !c.before.passes() && c.after.passes())
        .count() as u64
}

// How many of these pass as before, or are dropped as before.
fn count_other<'a>(changes: &'a [Change<'a>]) -> u64
    ensures { result ≡ count_by (λ c. is_other (change_facts c)) changes.now }
{
    changes
        .iter()
        .filter(|c| c.before.passes() == c.after.passes())
        .count() as u64
}

/// Counts packets that are changed behind those that were counted.
#[tactic(auto, using(crate::proofs::ChangeLemmas::count_facts))]
pub fn count_changes<'a>(totals: &mut ChangeTotals, changes: &'a [Change<'a>])
    requires { HasRoom totals.old (length changes.now) }
    ensures { totals.new ≡ with_changes totals.old (map change_facts changes.now) }
{
    totals.changed += changes.len() as u64;
    totals.to_drop += count_to_drop(changes);
    totals.to_pass += count_to_pass(changes);
    totals.other += count_other(changes);
}

// The end of the line of the totals.
fn push_other(piece: &mut Piece, totals: &ChangeTotals)
    requires { length piece.old + 32 ≤ 262144 }
    ensures { piece.new ≡ piece.old ++ other_told totals.now }
{
    piece.push(b" other ");
    Numeral::of(totals.other).push(piece);
    piece.push(b"\n");
}

// What the line of the totals says of kinds of change.
fn push_kinds(piece: &mut Piece, totals: &ChangeTotals)
    requires { length piece.old + 120 ≤ 262144 }
    ensures { piece.new ≡ piece.old ++ kinds_told totals.now }
{
    piece.push(b" pass to drop ");
    Numeral::of(totals.to_drop).push(piece);
    piece.push(b" drop to pass ");
    Numeral::of(totals.to_pass).push(piece);
    push_other(piece, totals);
}

// The line of the totals.
fn push_totals(piece: &mut Piece, totals: &ChangeTotals)
    requires { piece.old ≡ [] }
    ensures { piece.new ≡ totals_line totals.now }
{
    piece.push(b"packets ");
    Numeral::of(totals.packets).push(piece);
    piece.push(b" changed ");
    Numeral::of(totals.changed).push(piece);
    push_kinds(piece, totals);
}

fn write_totals<W: Sink>(
    writer: &mut W,
    piece: &mut Piece,
    totals: &ChangeTotals,
) -> Result<(), Fault>
    requires { W.failures writer.old < 2 ^ 64 - 1 }
    ensures { HasPutFront W.bytes W.failures writer.old writer.new (totals_line totals.now) result }
{
    piece.clear();
    push_totals(piece, totals);
    write_all(writer, piece.as_slice())
}

/// Writes what stands behind the lines: that the capture is truncated, where it is, and the totals.
pub fn write_end_of_report<W: Sink>(
    writer: &mut W,
    piece: &mut Piece,
    totals: &ChangeTotals,
) -> Result<(), Fault>
    requires { W.failures writer.old < 2 ^ 64 - 1 }
    ensures { HasPutFront W.bytes W.failures writer.old writer.new (end_of_report totals.now) result }
{
    let captured = Captured {
        named: None,
        packets: totals.packets as usize,
        truncated: totals.truncated,
    };
    match write_truncation(writer, piece, &captured) {
        Ok(()) => write_totals(writer, piece, totals),
        Err(fault) => Err(fault),
    }
}

/// The status with which the program ends behind these totals: 5 where a packet is changed, else 3 where the capture was cut
/// off, else 0.
pub fn status_of_changes(totals: &ChangeTotals) -> u8
    ensures { result ≡ ChangeReports.status_of_changes totals.now }
{
    if totals.changed > 0 {
        return 5;
    }
    if totals.truncated { 3 } else { 0 }
}
