//! The words of a verdict, and which one it is.
ghost use Rattle.std.specs.Prelude.{◌≡◌, ◌+◌, ◌≤◌, ◌++◌, length};
ghost use Rattle.racl_io.specs.Reports.{text_of};
ghost use Rattle.packet_words.specs.VerdictKinds;

use crate::line_text::push_numbered;
use racl_io::Piece;
use session_state::Verdict;

/// Which verdict of the report it is, whatever its rule's number.
pub fn kind_of(verdict: Verdict) -> u8
    ensures { result ≡ VerdictKinds.kind_of verdict }
{
    match verdict {
        Verdict::Session => 0,
        Verdict::Reflect(_) => 1,
        Verdict::Permit(_) => 2,
        Verdict::Deny(_) => 3,
        Verdict::ByDefault => 4,
        Verdict::Worn => 5,
        Verdict::Full => 6,
        Verdict::NoPages => 7,
        Verdict::NotIp => 8,
        Verdict::Malformed => 9,
        Verdict::Short => 10,
    }
}

/// The number of the rule that decided a packet, where a rule gave its verdict.
pub fn rule_number(verdict: Verdict) -> Option<u16>
    ensures { result ≡ VerdictKinds.rule_number verdict }
{
    match verdict {
        Verdict::Reflect(number) | Verdict::Permit(number) | Verdict::Deny(number) => Some(number),
        Verdict::Session
        | Verdict::ByDefault
        | Verdict::Worn
        | Verdict::Full
        | Verdict::NoPages
        | Verdict::NotIp
        | Verdict::Malformed
        | Verdict::Short => None,
    }
}

/// The words of a verdict, as the report has them.
pub fn push_verdict(piece: &mut Piece, verdict: Verdict)
    requires { length piece.old + 42 ≤ 262144 }
    ensures text { piece.new ≡ piece.old ++ text_of verdict }
    ensures short { length piece.new ≤ length piece.old + 42 }
{
    match verdict {
        Verdict::Session => piece.push(b"pass session"),
        Verdict::Reflect(number) => {
            push_numbered(piece, b"pass rule ", u64::from(number));
            piece.push(b" reflect");
        }
        Verdict::Permit(number) => push_numbered(piece, b"pass rule ", u64::from(number)),
        Verdict::Deny(number) => push_numbered(piece, b"drop rule ", u64::from(number)),
        Verdict::ByDefault => piece.push(b"drop default"),
        Verdict::Worn => piece.push(b"drop worn"),
        Verdict::Full => piece.push(b"drop full"),
        Verdict::NoPages => piece.push(b"drop no-pages"),
        Verdict::NotIp => piece.push(b"pass not-ip"),
        Verdict::Malformed => piece.push(b"drop malformed"),
        Verdict::Short => piece.push(b"drop short"),
    }
}
