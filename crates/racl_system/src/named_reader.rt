//! Where a named input comes from.
ghost use Rattle.std.specs.Prelude.{◌≡◌, ◌+◌, ◌-◌, ◌<◌, ◌≤◌, ◌^◌, ◌⊎◌, IfErr, IfOk, IfSome, length, take};
ghost use Rattle.racl_io.specs.Inputs.{most_bytes};
ghost use Rattle.racl_io.specs.Transfers.{failures_after_reads};
ghost use Rattle.racl_io.specs.declared.fault.Fault.TheVariants.{Memory, Read as ReadFault};
ghost use Rattle.racl_system.specs.PolicyTexts.{IsEnded, IsUnread, ended_lines};
ghost use Rattle.racl_system.specs.Readers.{left_in};

use crate::system_files::SystemFiles;
use racl_io::{Device, Fault, MOST_BYTES, Source, read_until};
use racl_report::Unopened;
use std::alloc::Global;
use std::io;
use std::io::{Eprint, Read};

/// Standard input or a file.
#[derive(Drop)]
pub enum Reader<S, F> {
    Standard(S),
    File(F),
}

impl<S: Read, F: Read> Read for Reader<S, F> {
    ghost remaining = { λ r. left_in S.remaining F.remaining r };

    fn read(&mut self, buf: &mut [u8]) -> io::Result<usize> {
        match self {
            Reader::Standard(standard) => standard.read(buf),
            Reader::File(file) => file.read(buf),
        }
    }
}

/// Opens the reader that is named: a file that can be read, or standard input by the name `-`.
pub fn opened_reader<S: SystemFiles>(
    system: &S,
    name: &str,
) -> io::Result<Reader<S::Input, S::File>>
    ensures { IfOk result (λ reader. left_in S.Input.remaining S.File.remaining reader ≡ S.named system.now name.now) }
{
    if name == "-" {
        return Ok(Reader::Standard(system.standard_input(name)));
    }
    match system.opened_file(name) {
        Ok(file) => Ok(Reader::File(file)),
        Err(reason) => Err(reason),
    }
}

/// Opens an input file that can be read, or standard input. Where it can't, that is told, and None is answered.
pub fn opened_or_told<S: SystemFiles + Eprint>(
    system: &S,
    name: &str,
) -> io::Result<Option<Reader<S::Input, S::File>>>
    ensures { IfOk result (λ opened. IfSome opened (λ reader.
        left_in S.Input.remaining S.File.remaining reader ≡ S.named system.now name.now)) }
{
    match opened_reader(system, name) {
        Ok(reader) => Ok(Some(reader)),
        Err(reason) => match system.eprintln(&Unopened { name, reason }) {
            Ok(()) => Ok(None),
            Err(error) => Err(error),
        },
    }
}

// Reads from a source all that an input may have, and a byte more where there is one.
fn bytes_of_source<R: Source>(alloc: Global, reader: &mut R) -> Result<Vec<u8>, Fault>
    requires { R.failures reader.old < 2 ^ 64 - 1 }
    ensures few { IfOk result (λ bytes. length bytes.items ≤ most_bytes + 1) }
    ensures read { IfOk result (λ bytes. IfSome (R.bytes reader.old) (λ all. bytes.items ≡ take (most_bytes + 1) all)) }
    ensures faults { IfErr result (λ fault. (fault ≡ Memory) ⊎ (fault ≡ ReadFault)) }
    ensures failed { R.failures reader.new ≡ failures_after_reads (R.failures reader.old) result }
{
    let mut bytes = Vec::new(alloc);
    match read_until(reader, &mut bytes, MOST_BYTES + 1) {
        Ok(_) => Ok(bytes),
        Err(fault) => Err(fault),
    }
}

/// Reads from a reader all that an input may have, and a byte more where there is one.
pub fn bytes_of<R: Read + Drop>(alloc: Global, reader: R) -> Result<Vec<u8>, Fault>
    ensures few { IfOk result (λ bytes. length bytes.items ≤ most_bytes + 1) }
    ensures read { IfOk result (λ bytes. IfSome (R.remaining reader) (λ all. bytes.items ≡ take (most_bytes + 1) all)) }
    ensures faults { IfErr result (λ fault. (fault ≡ Memory) ⊎ (fault ≡ ReadFault)) }
{
    bytes_of_source(alloc, &mut Device::new(reader))
}

/// The text of a policy's source, or of another that is written in lines: its bytes and a line feed, which ends its last line as
/// that of an input whose capture follows. TooLarge: it has more bytes than an input may have.
pub fn text_of_source<R: Source>(alloc: Global, reader: &mut R) -> Result<Vec<u8>, Fault>
    requires { R.failures reader.old < 2 ^ 64 - 1 }
    ensures few { IfOk result (λ text. length text.items ≤ most_bytes + 1) }
    ensures text { IfOk result (λ text. IfSome (R.bytes reader.old) (λ all. text.items ≡ ended_lines all)) }
    ensures ended { IfOk result (λ text. IsEnded text.items) }
    ensures fault { IfErr result (IsUnread (R.bytes reader.old)) }
    ensures failed { R.failures reader.new ≡ failures_after_reads (R.failures reader.old) result }
{
    let mut text = match bytes_of_source(alloc, reader) {
        Ok(text) => text,
        Err(fault) => return Err(fault),
    };
    if MOST_BYTES < text.len() {
        return Err(Fault::TooLarge);
    }
    text.push(b'\n')?;
    Ok(text)
}

/// So of a file.
pub fn text_of_file<R: Read + Drop>(alloc: Global, reader: R) -> Result<Vec<u8>, Fault>
    ensures few { IfOk result (λ text. length text.items ≤ most_bytes + 1) }
    ensures text { IfOk result (λ text. IfSome (R.remaining reader) (λ all. text.items ≡ ended_lines all)) }
    ensures ended { IfOk result (λ text. IsEnded text.items) }
    ensures fault { IfErr result (IsUnread (R.remaining reader)) }
{
    text_of_source(alloc, &mut Device::new(reader))
}
