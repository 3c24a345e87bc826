//! Files that are no captures of Ethernet, by their first bytes.
ghost use Rattle.std.specs.Prelude.{◌≡◌, ◌≤◌, length};
ghost use Rattle.packet_view.specs.Captures.{link_type, number_from};
ghost use Rattle.packet_view.specs.declared.capture.Order.TheVariants.{Little, Big};
ghost use Rattle.racl_io.specs.Others.{is_capture, other_of};

use byteorder::{BigEndian, ByteOrder, LittleEndian};
use thiserror::Error;

/// What such a file is. Its text says so, and what to type.
#[derive(Clone, Copy, Debug, PartialEq, Eq, Error)]
pub enum Other {
    /// It begins with a section header block.
    #[error("pcapng; a capture that is read is made by: editcap -F pcap IN OUT")]
    Pcapng,
    /// RFC 1952, section 2.3.1.
    #[error("compressed; the file that is read is made by: zcat IN > OUT")]
    Gzip,
    /// The xz format, of version 1.
    #[error("compressed; the file that is read is made by: xzcat IN > OUT")]
    Xz,
    /// RFC 8878, section 3.1.1.
    #[error("compressed; the file that is read is made by: zstdcat IN > OUT")]
    Zstd,
    /// Its records' headers are longer.
    #[error("modified pcap; a capture that is read is made by: editcap -F pcap IN OUT")]
    Modified,
    /// Link types 113 and 276, as of several interfaces at once.
    #[error("of Linux cooked frames; capture one interface by its name: tcpdump -i NAME -w OUT")]
    Cooked,
}

// What is read of a header in one order.
#[derive(Clone, Copy)]
struct Marks {
    magic: u32,
    link: u32,
}

impl Marks {
    ghost use Rattle.std.specs.Prelude.{◌≡◌, ◌==◌, ◌&&◌, ◌||◌};

    // Whether the kind of the file is modified pcap, by the first bytes of its header.
    fn is_modified_pcap(self) -> bool
        ensures { result ≡ (self.magic == 0xa1b2cd34) }
    {
        self.magic == 0xa1b2_cd34
    }

    // Whether the kind of the file is classic pcap, by the first bytes of its header.
    fn is_pcap(self) -> bool
        ensures { result ≡ ((self.magic == 0xa1b2c3d4) || (self.magic == 0xa1b23c4d)) }
    {
        self.magic == 0xa1b2_c3d4 || self.magic == 0xa1b2_3c4d
    }

    // Whether the kind of the file is classic pcap of Linux cooked frames, which aren't those of Ethernet.
    fn is_cooked(self) -> bool
        ensures { result ≡ (((self.magic == 0xa1b2c3d4) || (self.magic == 0xa1b23c4d)) && ((self.link == 113) || (self.link == 276))) }
    {
        self.is_pcap() && (self.link == 113 || self.link == 276)
    }
}

// What tells the kind of a file, where the numbers of its header have the low byte first.
fn little_file_marks(bytes: &[u8]) -> Marks
    requires { 24 ≤ length bytes.now }
    ensures magic { result.magic ≡ number_from Little 0 4 bytes.now }
    ensures link { result.link ≡ link_type Little bytes.now }
{
    Marks {
        magic: LittleEndian::read_u32(bytes),
        link: LittleEndian::read_u32(&bytes[20..]) % 65_536,
    }
}

// What tells the kind of a file, where the numbers of its header have the high byte first.
fn big_file_marks(bytes: &[u8]) -> Marks
    requires { 24 ≤ length bytes.now }
    ensures magic { result.magic ≡ number_from Big 0 4 bytes.now }
    ensures link { result.link ≡ link_type Big bytes.now }
{
    Marks {
        magic: BigEndian::read_u32(bytes),
        link: BigEndian::read_u32(&bytes[20..]) % 65_536,
    }
}

/// What a file is that begins with these bytes, of which the first 24 tell; None where it may be a capture of Ethernet, or
/// something else.
pub fn other_file(bytes: &[u8]) -> Option<Other>
    ensures { result ≡ other_of bytes.now }
{
    if bytes.len() < 24 {
        return None;
    }
    let little = little_file_marks(bytes);
    let big = big_file_marks(bytes);
    if big.magic == 0x0a0d_0d0a {
        Some(Other::Pcapng)
    } else if BigEndian::read_u16(bytes) == 0x1f8b {
        Some(Other::Gzip)
    } else if big.magic == 0xfd37_7a58 {
        Some(Other::Xz)
    } else if big.magic == 0x28b5_2ffd {
        Some(Other::Zstd)
    } else if little.is_modified_pcap() || big.is_modified_pcap() {
        Some(Other::Modified)
    } else if little.is_cooked() || big.is_cooked() {
        Some(Other::Cooked)
    } else {
        None
    }
}

/// Whether the kind of a file that begins with these bytes, of which the first 24 tell, is classic pcap, or one that
/// `other_file` tells.
pub fn is_capture(bytes: &[u8]) -> bool
    ensures { result ≡ is_capture bytes.now }
{
    if bytes.len() < 24 {
        return false;
    }
    little_file_marks(bytes).is_pcap()
        || big_file_marks(bytes).is_pcap()
        || other_file(bytes).is_some()
}
