//! The report on what two policies decide differently.
ghost use Rattle.std.specs.Prelude.{◌≡◌, ◌+◌, ◌*◌, ◌-◌, ◌<◌, ◌≤◌, ◌^◌, ◌++◌, [], count_by, length};
ghost use Rattle.racl_io.specs.Sinks.{HasPutFront};
ghost use Rattle.policy_compare.specs.ComparisonReports;
ghost use Rattle.policy_compare.specs.ComparisonReports.{decider_words, end_of_report, example_words, is_known, is_unknown, line_of, lines_of, own_line, own_lines, pair_words, report_of, rule_words, says_same, totals_line};

use crate::difference::{Comparison, Difference};
use crate::example_words::{push_carried_words, push_way_words};
use acl_policy::Action;
use packet_view::Tuple;
use racl_io::{Fault, Numeral, Piece, Sink, write_all};

/// How many differences have their lines in one piece. A line has at most 450 bytes.
const LINES: usize = 500;

// What becomes of a packet that the rule with this number decides.
fn push_rule_words(piece: &mut Piece, action: Action, number: u64)
    requires { length piece.old + 42 ≤ 262144 }
    ensures text { piece.new ≡ piece.old ++ rule_words action number }
    ensures short { length piece.new ≤ length piece.old + 42 }
{
    match action {
        Action::Deny => piece.push(b"drop rule "),
        Action::Permit | Action::Reflect => piece.push(b"pass rule "),
    }
    Numeral::of(number).push(piece);
    if action == Action::Reflect {
        piece.push(b" reflect");
    }
}

// What becomes of a packet that this decides.
fn push_decider(piece: &mut Piece, decider: Option<(u64, Action)>)
    requires { length piece.old + 42 ≤ 262144 }
    ensures text { piece.new ≡ piece.old ++ decider_words decider }
    ensures short { length piece.new ≤ length piece.old + 42 }
{
    match decider {
        Some((number, action)) => push_rule_words(piece, action, number),
        None => piece.push(b"drop default"),
    }
}

fn push_example(piece: &mut Piece, packet: Option<Tuple>)
    requires { length piece.old + 270 ≤ 262144 }
    ensures text { piece.new ≡ piece.old ++ example_words packet }
    ensures short { length piece.new ≤ length piece.old + 270 }
{
    match packet {
        Some(tuple) => push_carried_words(piece, &tuple),
        None => piece.push(b"unknown"),
    }
}

// What becomes of a packet that a pair decides.
fn push_pair(piece: &mut Piece, difference: &Difference)
    requires { length piece.old + 100 ≤ 262144 }
    ensures text { piece.new ≡ piece.old ++ pair_words difference.now }
    ensures short { length piece.new ≤ length piece.old + 100 }
{
    piece.push(b": ");
    push_decider(piece, difference.pair.before);
    piece.push(b" -> ");
    push_decider(piece, difference.pair.after);
    piece.push(b"\n");
}

fn push_difference(piece: &mut Piece, difference: &Difference)
    requires { length piece.old + 450 ≤ 262144 }
    ensures text { piece.new ≡ piece.old ++ line_of difference.now }
    ensures short { length piece.new ≤ length piece.old + 450 }
{
    push_way_words(piece, difference.pair.direction, difference.pair.interface);
    push_example(piece, difference.packet);
    push_pair(piece, difference);
}

fn push_differences(piece: &mut Piece, differences: &[Difference])
    requires empty { piece.old ≡ [] }
    requires few { length differences.now ≤ 500 }
    ensures { piece.new ≡ lines_of differences.now }
{
    'lines: for difference in differences {
        push_difference(piece, difference);
    }
}

// Writes the lines of these differences.
fn write_differences<W: Sink>(
    writer: &mut W,
    piece: &mut Piece,
    differences: &[Difference],
) -> Result<(), Fault>
    requires { W.failures writer.old < 2 ^ 64 - 1 }
    ensures { HasPutFront W.bytes W.failures writer.old writer.new (lines_of differences.now) result }
{
    let mut rest = differences;
    'pieces: while !rest.is_empty() {
        let (first, others) = rest.split_at(rest.len().min(LINES));
        piece.clear();
        push_differences(piece, first);
        match write_all(writer, piece.as_slice()) {
            Ok(()) => {}
            Err(fault) => return Err(fault),
        }
        rest = others;
    }
    Ok(())
}

fn push_own_line(piece: &mut Piece, interface: u8)
    requires { piece.old ≡ [] }
    ensures { piece.new ≡ own_line interface }
{
    piece.push(b"interface ");
    Numeral::of(u64::from(interface)).push(piece);
    piece.push(b": the mac lines differ\n");
}

// Writes the line of an interface whose own addresses differ.
fn write_own_line<W: Sink>(writer: &mut W, piece: &mut Piece, interface: u8) -> Result<(), Fault>
    requires { W.failures writer.old < 2 ^ 64 - 1 }
    ensures { HasPutFront W.bytes W.failures writer.old writer.new (own_line interface) result }
{
    piece.clear();
    push_own_line(piece, interface);
    write_all(writer, piece.as_slice())
}

// Writes the lines of interfaces whose own addresses differ.
fn write_own_lines<W: Sink>(
    writer: &mut W,
    piece: &mut Piece,
    interfaces: &[u8],
) -> Result<(), Fault>
    requires { W.failures writer.old < 2 ^ 64 - 1 }
    ensures { HasPutFront W.bytes W.failures writer.old writer.new (own_lines interfaces.now) result }
{
    let mut rest = interfaces;
    'interfaces: while !rest.is_empty() {
        match write_own_line(writer, piece, rest[0]) {
            Ok(()) => {}
            Err(fault) => return Err(fault),
        }
        rest = &rest[1..];
    }
    Ok(())
}

// How many have an example.
fn count_known(differences: &[Difference]) -> u64
    ensures { result ≡ count_by is_known differences.now }
{
    differences.iter().filter(|d| d.packet.is_some()).count() as u64
}

// Of how many it isn't known whether there is an example.
fn count_unknown(differences: &[Difference]) -> u64
    ensures { result ≡ count_by is_unknown differences.now }
{
    differences.iter().filter(|d| d.packet.is_none()).count() as u64
}

fn is_same(told: &Comparison) -> bool
    ensures { result ≡ says_same told.now }
{
    told.interfaces.is_empty() && told.differences.is_empty()
}

fn push_totals(piece: &mut Piece, differences: &[Difference])
    requires { piece.old ≡ [] }
    ensures { piece.new ≡ totals_line differences.now }
{
    piece.push(b"pairs that differ ");
    Numeral::of(count_known(differences)).push(piece);
    piece.push(b" unknown ");
    Numeral::of(count_unknown(differences)).push(piece);
    piece.push(b"\n");
}

fn push_last_line(piece: &mut Piece, told: &Comparison)
    requires { piece.old ≡ [] }
    ensures { piece.new ≡ end_of_report told.now }
{
    if is_same(told) {
        piece.push(b"the policies say the same of every packet\n");
    } else {
        push_totals(piece, &told.differences);
    }
}

// Writes the last line.
fn write_last_line<W: Sink>(
    writer: &mut W,
    piece: &mut Piece,
    told: &Comparison,
) -> Result<(), Fault>
    requires { W.failures writer.old < 2 ^ 64 - 1 }
    ensures { HasPutFront W.bytes W.failures writer.old writer.new (end_of_report told.now) result }
{
    piece.clear();
    push_last_line(piece, told);
    write_all(writer, piece.as_slice())
}

// Writes the lines of differences, and the last one.
fn write_rest<W: Sink>(writer: &mut W, piece: &mut Piece, told: &Comparison) -> Result<(), Fault>
    requires { W.failures writer.old < 2 ^ 64 - 1 }
    ensures { HasPutFront W.bytes W.failures writer.old writer.new (lines_of told.now.differences.items ++ end_of_report told.now) result }
{
    match write_differences(writer, piece, &told.differences) {
        Ok(()) => write_last_line(writer, piece, told),
        Err(fault) => Err(fault),
    }
}

/// Writes what two policies decide differently, in this piece again and again.
pub fn write_comparison<W: Sink>(
    writer: &mut W,
    piece: &mut Piece,
    told: &Comparison,
) -> Result<(), Fault>
    requires { W.failures writer.old < 2 ^ 64 - 1 }
    ensures { HasPutFront W.bytes W.failures writer.old writer.new (report_of told.now) result }
{
    match write_own_lines(writer, piece, &told.interfaces) {
        Ok(()) => write_rest(writer, piece, told),
        Err(fault) => Err(fault),
    }
}

/// The status with which the program ends behind these differences: 0 where there is none, and else 5.
pub fn status_behind(told: &Comparison) -> u8
    ensures { result ≡ ComparisonReports.status_behind told.now }
{
    if is_same(told) { 0 } else { 5 }
}
