//! What becomes of a packet.
ghost use Rattle.std.specs.Prelude.{◌≡◌};
ghost use Rattle.session_state.specs.Passes;

/// What becomes of a packet; rules of a direction are numbered from 1.
#[derive(Clone, Copy, Debug, PartialEq, Eq)]
pub enum Verdict {
    /// A live session lets it through.
    Session,
    /// A reflecting rule lets it through and enters a session.
    Reflect(u16),
    /// A rule lets it through.
    Permit(u16),
    /// A rule drops it.
    Deny(u16),
    /// No rule matches, so it is dropped.
    ByDefault,
    /// The session's bucket takes no more writes.
    Worn,
    /// The session's bucket has no place left.
    Full,
    /// The session table has no pages left.
    NoPages,
    /// The frame carries no IP packet, and passes.
    NotIp,
    /// The frame breaks the form of its headers.
    Malformed,
    /// The packet ends within its transport header.
    Short,
}

// A list of verdicts is as long as its capture.
const _: () = prove!(size_of::<Verdict>() == 4);

impl Verdict {
    /// Whether the packet goes through.
    pub fn passes(self) -> bool
        ensures { result ≡ Passes.passes self }
    {
        match self {
            Verdict::Session | Verdict::Reflect(_) | Verdict::Permit(_) | Verdict::NotIp => true,
            Verdict::Deny(_)
            | Verdict::ByDefault
            | Verdict::Worn
            | Verdict::Full
            | Verdict::NoPages
            | Verdict::Malformed
            | Verdict::Short => false,
        }
    }
}
