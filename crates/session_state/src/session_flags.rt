//! The TCP flags that a session keeps.
ghost use Rattle.std.specs.Prelude.{◌≡◌, bit_or};
ghost use Rattle.session_state.specs.Flags.{IsKept, kept_flags};

/// FIN, SYN, RST and ACK (RFC 9293, section 3.1).
const KEPT_FLAGS: u8 = 0x17;

/// What a session keeps of a packet's TCP flags.
#[tactic(auto, using(crate::proofs::FlagLemmas::kept_flags_are_kept))]
pub fn kept(flags: u8) -> u8
    ensures value { result ≡ kept_flags flags }
    ensures kept { IsKept result }
{
    flags & KEPT_FLAGS
}

/// The TCP flags that a session keeps, with those of one more packet.
#[tactic(auto, using(crate::proofs::FlagLemmas::joined_flags_are_kept))]
pub fn joined(seen: u8, flags: u8) -> u8
    requires seen { IsKept seen }
    requires flags { IsKept flags }
    ensures value { result ≡ bit_or seen flags }
    ensures kept { IsKept result }
{
    seen | flags
}
