//! The header of a capture, read from a source.
ghost use Rattle.std.specs.Prelude.{[], ◌≡◌, ◌-◌, ◌<◌, ◌^◌, MatchResult};
ghost use Rattle.capture_stream.specs.Lives.{with_read};
ghost use Rattle.racl_runs.specs.inner.Heads.{HasReadHeader, IsHeadless};

use packet_view::{Order, capture_header};
use racl_io::{Fault, Source, read_until};
use std::alloc::Global;

/// How many bytes the header of a capture has.
const HEADER_BYTES: usize = 24;

/// The header of a capture is read, and kept.
pub fn keep_header<R: Source>(reader: &mut R, header: &mut Vec<u8>) -> Result<Order, Fault>
    requires sound { R.failures reader.old < 2 ^ 64 - 1 }
    requires empty { header.old.items ≡ [] }
    ensures header { MatchResult result (λ order. (is : HasReadHeader (R.bytes reader.old) (R.bytes reader.new) order) × (is.header ≡ header.new.items)) (IsHeadless (R.bytes reader.old) (R.bytes reader.new)) }
    ensures read { MatchResult result (λ _. R.failures reader.new ≡ R.failures reader.old) (λ fault. R.failures reader.new ≡ with_read (R.failures reader.old) fault) }
{
    match read_until(reader, header, HEADER_BYTES) {
        Ok(_) => Ok(capture_header(header.as_slice())?),
        Err(fault) => Err(fault),
    }
}

/// The header of a capture is read.
pub fn read_header<R: Source>(alloc: Global, reader: &mut R) -> Result<Order, Fault>
    requires { R.failures reader.old < 2 ^ 64 - 1 }
    ensures header { MatchResult result (HasReadHeader (R.bytes reader.old) (R.bytes reader.new)) (IsHeadless (R.bytes reader.old) (R.bytes reader.new)) }
    ensures read { MatchResult result (λ _. R.failures reader.new ≡ R.failures reader.old) (λ fault. R.failures reader.new ≡ with_read (R.failures reader.old) fault) }
{
    let mut header = Vec::new(alloc);
    keep_header(reader, &mut header)
}
