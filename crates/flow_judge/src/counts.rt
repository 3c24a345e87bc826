//! How many packets a judge gave each kind of verdict.

use session_state::Verdict;

/// How many packets were given each kind of verdict, modulo 2 to the power 64.
#[repr(C)]
#[derive(Clone, Copy, Debug, PartialEq, Eq)]
pub struct Counts {
    pub session: u64,
    pub reflect: u64,
    pub permit: u64,
    pub deny: u64,
    pub by_default: u64,
    pub worn: u64,
    pub full: u64,
    pub no_pages: u64,
    pub not_ip: u64,
    pub malformed: u64,
    pub cut_short: u64,
}

impl Counts {
    ghost use Rattle.std.specs.Prelude.{◌≡◌};
    ghost use Rattle.flow_judge.specs.Counting.{added, counted, no_counts};

    /// Of no packet.
    pub fn none() -> Counts
        ensures { result ≡ no_counts }
    {
        Counts {
            session: 0,
            reflect: 0,
            permit: 0,
            deny: 0,
            by_default: 0,
            worn: 0,
            full: 0,
            no_pages: 0,
            not_ip: 0,
            malformed: 0,
            cut_short: 0,
        }
    }

    /// Counts a packet with this verdict.
    #[inline(always)]
    pub fn count(&mut self, verdict: Verdict)
        ensures { self.new ≡ counted self.old verdict }
    {
        match verdict {
            Verdict::Session => self.session = self.session.wrapping_add(1),
            Verdict::Reflect(_) => self.reflect = self.reflect.wrapping_add(1),
            Verdict::Permit(_) => self.permit = self.permit.wrapping_add(1),
            Verdict::Deny(_) => self.deny = self.deny.wrapping_add(1),
            Verdict::ByDefault => self.by_default = self.by_default.wrapping_add(1),
            Verdict::Worn => self.worn = self.worn.wrapping_add(1),
            Verdict::Full => self.full = self.full.wrapping_add(1),
            Verdict::NoPages => self.no_pages = self.no_pages.wrapping_add(1),
            Verdict::NotIp => self.not_ip = self.not_ip.wrapping_add(1),
            Verdict::Malformed => self.malformed = self.malformed.wrapping_add(1),
            Verdict::Short => self.cut_short = self.cut_short.wrapping_add(1),
        }
    }

    /// Those of both.
    pub fn with(self, other: Counts) -> Counts
        ensures { result ≡ added self other }
    {
        Counts {
            session: self.session.wrapping_add(other.session),
            reflect: self.reflect.wrapping_add(other.reflect),
            permit: self.permit.wrapping_add(other.permit),
            deny: self.deny.wrapping_add(other.deny),
            by_default: self.by_default.wrapping_add(other.by_default),
            worn: self.worn.wrapping_add(other.worn),
            full: self.full.wrapping_add(other.full),
            no_pages: self.no_pages.wrapping_add(other.no_pages),
            not_ip: self.not_ip.wrapping_add(other.not_ip),
            malformed: self.malformed.wrapping_add(other.malformed),
            cut_short: self.cut_short.wrapping_add(other.cut_short),
        }
    }
}
