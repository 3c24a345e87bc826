//! The lines of packets: a number, perhaps an interface, and a verdict.
ghost use Rattle.std.specs.Prelude.{◌≡◌, ◌+◌, ◌*◌, ◌<◌, ◌≤◌, ◌^◌, ◌++◌, [], None, codes, length, decimal};
ghost use Rattle.racl_io.specs.Reports;
ghost use Rattle.racl_io.specs.Reports.{line_of, lines_from, text_of};

use crate::interface_name::Name;
use crate::number_printing::Counter;
use crate::report_piece::Piece;
use session_state::Verdict;

/// How many packets have their lines in one piece. A line has at most 72 bytes.
pub const LINES: usize = 3600;

/// The number of the rule in the report's packet line: it has few digits, which are pushed one by one.
#[tactic(auto, using(std::proofs::lemmas::Fmt::decimal_digit, std::proofs::lemmas::Fmt::decimal_step, crate::proofs::NumeralLemmas::length_digit, crate::proofs::NumeralLemmas::length_step))]
fn push_rule_number(piece: &mut Piece, n: u64)
    requires { length piece.old + length (decimal n) ≤ 262144 }
    ensures { piece.new ≡ piece.old ++ decimal n }
{
    if n < 10 {
        piece.push(&[b'0' + n as u8]);
        return;
    }
    push_rule_number(piece, n / 10);
    piece.push(&[b'0' + (n % 10) as u8]);
}

/// What a packet's line says where a rule decided: the effect, the rule's number, and the rest of the line.
#[inline(always)]
fn push_rule(piece: &mut Piece, effect: &[u8], n: u16, rest: &[u8])
    requires { length piece.old + length effect.now + length rest.now + 20 ≤ 262144 }
    ensures text { piece.new ≡ piece.old ++ (effect.now ++ (decimal n ++ rest.now)) }
    ensures short { length piece.new ≤ length piece.old + length effect.now + length rest.now + 20 }
{
    piece.push(effect);
    push_rule_number(piece, n as u64);
    piece.push(rest);
}

/// The verdict, which ends a packet's line. A constant piece costs no call, and the fewer they are the better.
#[inline(always)]
fn push_verdict(piece: &mut Piece, verdict: Verdict)
    requires { length piece.old + 40 ≤ 262144 }
    ensures text { piece.new ≡ piece.old ++ (codes " " ++ (text_of verdict ++ codes "\n")) }
    ensures short { length piece.new ≤ length piece.old + 40 }
{
    match verdict {
        Verdict::Session => piece.push(b" pass session\n"),
        Verdict::Reflect(n) => push_rule(piece, b" pass rule ", n, b" reflect\n"),
        Verdict::Permit(n) => push_rule(piece, b" pass rule ", n, b"\n"),
        Verdict::Deny(n) => push_rule(piece, b" drop rule ", n, b"\n"),
        Verdict::ByDefault => piece.push(b" drop default\n"),
        Verdict::Worn => piece.push(b" drop worn\n"),
        Verdict::Full => piece.push(b" drop full\n"),
        Verdict::NoPages => piece.push(b" drop no-pages\n"),
        Verdict::NotIp => piece.push(b" pass not-ip\n"),
        Verdict::Malformed => piece.push(b" drop malformed\n"),
        Verdict::Short => piece.push(b" drop short\n"),
    }
}

/// The line of a packet that names no interface: a number and a verdict.
fn push_line(piece: &mut Piece, number: &Counter, verdict: Verdict)
    requires fits { number.now < 2 ^ 64 }
    requires room { length piece.old + 72 ≤ 262144 }
    ensures text { piece.new ≡ piece.old ++ line_of None number.now verdict }
    ensures short { length piece.new ≤ length piece.old + 72 }
{
    number.push(piece);
    push_verdict(piece, verdict);
}

/// The line of a packet: a number, the name of an interface where lines name it, and a verdict.
pub fn push_named_line(piece: &mut Piece, number: &Counter, name: &Name, verdict: Verdict)
    requires fits { number.now < 2 ^ 64 }
    requires room { length piece.old + 72 ≤ 262144 }
    ensures text { piece.new ≡ piece.old ++ line_of name.now number.now verdict }
    ensures short { length piece.new ≤ length piece.old + 72 }
{
    number.push(piece);
    name.push(piece);
    push_verdict(piece, verdict);
}

/// The lines of the packets after the counted ones, and how many of them pass.
pub fn push_lines(piece: &mut Piece, number: &mut Counter, name: &Name, verdicts: &[Verdict]) -> u64
    requires empty { piece.old ≡ [] }
    requires few { length verdicts.now ≤ 3600 }
    requires fits { number.old + length verdicts.now < 2 ^ 64 }
    ensures text { piece.new ≡ lines_from name.now (number.old + 1) verdicts.now }
    ensures number { number.new ≡ number.old + length verdicts.now }
    ensures passed { result ≡ Reports.passed verdicts.now }
    ensures short { length piece.new ≤ length verdicts.now * 72 }
{
    let mut passed = 0;
    if name.is_absent() {
        // A loop apart: asking each line for a name costs those that have none up to a quarter more.
        'plain: for verdict in verdicts {
            number.advance_number();
            push_line(piece, number, *verdict);
            if verdict.passes() {
                passed += 1;
            }
        }
        return passed;
    }
    'named: for verdict in verdicts {
        number.advance_number();
        push_named_line(piece, number, name, *verdict);
        if verdict.passes() {
            passed += 1;
        }
    }
    passed
}
