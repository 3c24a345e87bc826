//! Why a line of a policy is wrong.
use thiserror::Error;

/// What is the matter with a line. It is said of a word of it; `Missing` and `NotUtf8` are said of none.
#[derive(Clone, Copy, Debug, PartialEq, Eq, Error)]
pub enum Reason {
    #[error("is not UTF-8")]
    NotUtf8,
    /// It begins with U+FEFF.
    #[error("begins with a byte order mark, which isn't seen")]
    ByteOrderMark,
    /// It has U+00A0.
    #[error("has a no-break space, which isn't seen and separates no words")]
    NoBreakSpace,
    #[error("begins no line: in, out, mac and interface do")]
    NoStart,
    #[error("is no action: deny, permit or permit+reflect")]
    NoAction,
    #[error("is no family: ipv4 or ipv6")]
    NoFamily,
    #[error("is neither `any` nor an address or a prefix of one")]
    NoPrefix,
    /// It is a prefix of the other family.
    #[error("is of the other family")]
    OtherFamily,
    /// It is an address of IPv6, or a prefix of one, that ends in an IPv4 address, which has these groups.
    #[error("ends in an IPv4 address, which is written as two groups: {0:x}:{1:x}")]
    DottedEnd(u16, u16),
    /// The length of its prefix is more than so many bits.
    #[error("has a prefix of more than {0} bits")]
    LongPrefix(u8),
    #[error("is no protocol: any, tcp, udp, icmp or a number up to 255")]
    NoProtocol,
    /// It follows a protocol that has no parts.
    #[error("can't follow: only tcp, udp and icmp have parts")]
    NoParts,
    /// It stands where no part of TCP does.
    #[error("can't stand here: after tcp come sport, dport and flags, each once and in this order")]
    NoTcpPart,
    /// It stands where no part of UDP does.
    #[error("can't stand here: after udp come sport and dport, each once and in this order")]
    NoUdpPart,
    /// It stands where no part of ICMP does.
    #[error("can't stand here: after icmp come type and code, each once and in this order")]
    NoIcmpPart,
    #[error("is neither a number nor two with `-` between them")]
    NoRange,
    /// The first number of the range is above the second.
    #[error("is upside down: the lower number comes first")]
    UpsideDown,
    /// It is, or ends with, a number over this one.
    #[error("is over {0}")]
    TooLarge(u16),
    #[error("is no value and mask, two hexadecimal digits each, as 02/17")]
    NoFlags,
    #[error("is no Ethernet address, as 02:00:00:00:00:01")]
    NoMac,
    #[error("is no number of an interface, 1 to 255")]
    NoInterface,
    /// The line ends where a word must follow.
    #[error("ends too early")]
    Missing,
    /// It follows a whole `mac` or `interface` line.
    #[error("is a word too many")]
    Extra,
    #[error("stands in this section already")]
    SecondMac,
    #[error("begins a second section of the same interface")]
    SecondSection,
    /// The direction has all its rules.
    #[error("is one rule too many: a direction has at most 4096")]
    Surplus,
    #[error("is of no form")]
    NoForm,
}
