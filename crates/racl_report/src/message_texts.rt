//! What the program says where it makes no report.
ghost use Rattle.std.specs.Prelude.{◌≡◌, []};
ghost use Rattle.std.specs.Slice.Iter.{escape_ascii_current, escape_ascii_rest};
ghost use Rattle.std.specs.Char.Iter.{escape_byte_rest};

use racl_io::{Fault, Other};
use std::io;
use std::slice::EscapeAscii;
use thiserror::Error;

/// The name of a file as messages show it, so that nothing in it is one for a terminal: what is no visible ASCII stands as
/// its number.
pub fn shown_name<'a>(name: &'a str) -> EscapeAscii<'a>
    ensures { (escape_ascii_rest result ≡ name.now) × (escape_byte_rest (escape_ascii_current result) ≡ []) }
{
    name.as_bytes().escape_ascii()
}

/// What is said on standard error: `racl: ` and the cause.
#[derive(Clone, Copy, Debug, PartialEq, Eq, Error)]
pub enum Message {
    #[error("racl: {0}")]
    Fault(Fault),
    /// A word of the command line is not UTF-8.
    #[error("racl: a word is not UTF-8")]
    WordNotUtf8,
}

/// How the program ends.
#[derive(Clone, Copy)]
pub struct Ending {
    /// What is said on standard error, before a line feed; None where nothing is.
    pub message: Option<Message>,
    /// The exit status.
    pub status: u8,
}

/// A file that can't be opened.
#[derive(Debug, Drop, Error)]
#[error("racl: {shown}: {reason}", shown = shown_name(.name))]
pub struct Unopened<'a> {
    pub name: &'a str,
    pub reason: io::Error,
}

/// What is said behind a fault of a capture file that isn't read for what it is.
#[derive(Clone, Copy, Debug, PartialEq, Eq, Error)]
#[error("racl: {shown} is {other}", shown = shown_name(.name))]
pub struct KindRemark<'a> {
    pub name: &'a str,
    pub other: Other,
}

/// What the frames of a capture are that aren't those of Ethernet, by its link type, and what makes a capture of Ethernet.
#[derive(Clone, Copy, Debug, PartialEq, Eq, Error)]
pub enum Frames {
    /// IP packets with nothing before them, as of a tunnel.
    #[error("of IP packets without Ethernet headers (link type {0}); capture an Ethernet interface by its name: tcpdump -i NAME -w OUT")]
    RawIp(u16),
    /// As of IEEE 802.11, with a radio's header before them or none.
    #[error("of Wi-Fi frames (link type {0}); capture the interface while it isn't in monitor mode: tcpdump -i NAME -y EN10MB -w OUT")]
    WiFi(u16),
    /// As of BSD.
    #[error("of a loopback interface's packets without Ethernet headers (link type {0}); capture an Ethernet interface by its name: tcpdump -i NAME -w OUT")]
    Loopback(u16),
    /// As of PPP, Cisco's HDLC and frame relay.
    #[error("of a serial line's frames (link type {0}); capture an Ethernet interface by its name: tcpdump -i NAME -w OUT")]
    Serial(u16),
    /// Packets that a rule of a firewall logged.
    #[error("of packets that a firewall logged (link type {0}); capture an Ethernet interface by its name: tcpdump -i NAME -w OUT")]
    Logged(u16),
    #[error("of link type {0}, not of Ethernet; capture an interface that has Ethernet frames: tcpdump -i NAME -y EN10MB -w OUT")]
    Another(u16),
}

/// What is said behind a fault of a capture file of other frames than those of Ethernet.
#[derive(Clone, Copy, Debug, PartialEq, Eq, Error)]
#[error("racl: {shown} is {frames}", shown = shown_name(.name))]
pub struct FramesRemark<'a> {
    pub name: &'a str,
    pub frames: Frames,
}

/// What is said behind a report where packets found no pages for their sessions: how many, and which options help that
/// weren't asked for.
#[derive(Clone, Copy, Debug, PartialEq, Eq, Error)]
pub enum Shortage {
    #[error("racl: packets dropped as no-pages: {0}; --age removes sessions that have ended, --tables large has room for more")]
    Standing(u64),
    /// Sessions that have ended are removed.
    #[error("racl: packets dropped as no-pages: {0}; --tables large has room for more sessions")]
    Ageing(u64),
    /// The tables are large.
    #[error("racl: packets dropped as no-pages: {0}; --age removes sessions that have ended")]
    Large(u64),
    /// Both are so.
    #[error("racl: packets dropped as no-pages: {0}")]
    AgeingLarge(u64),
}

/// What is said where something else is likely to be meant.
#[derive(Clone, Copy, Debug, PartialEq, Eq, Error)]
pub enum Hint {
    /// The header of a second capture, behind the records of a first one, is read as one of these.
    #[error("racl: two captures put together by cat have such a record; one that is read is made by: mergecap -F pcap -w OUT A B")]
    TwoCaptures,
    /// The file of the policy is a capture.
    #[error("racl: the file that is named as the policy is a capture; its words are: POLICY CAPTURE")]
    Swapped,
    /// A capture isn't of Ethernet, and its header isn't at hand.
    #[error("racl: a capture that is read is made by: tcpdump -i NAME -y EN10MB -w OUT")]
    Ethernet,
    /// Nothing is named, and a terminal is read.
    #[error("racl: the policy and the capture are read from this terminal; racl --help says how files are named")]
    Terminal,
}
