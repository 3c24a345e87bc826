//! The check of the policy in a file.
ghost use Rattle.std.specs.Prelude.{◌≡◌, ◌+◌, ◌-◌, ◌<◌, ◌^◌, IfOk};
ghost use Rattle.racl_system.specs.CheckStatuses.{HasToldWith, IsCheckStatus};

use crate::named_reader::{opened_or_told, text_of_source};
use crate::say_and_answer_status::say_fault;
use crate::system_files::SystemFiles;
use policy_check::tell;
use racl_io::{Device, Fault, Sink, Source, write_all};
use std::alloc::Global;
use std::io;
use std::io::Eprint;

// Checks the policy of a reader, and answers the status: 4 where the reader or the writer failed, and else only where
// memory ran out, before anything was written.
fn check_opened<R: Source, W: Sink>(
    rt: &impl Eprint,
    alloc: Global,
    reader: &mut R,
    writer: &mut W,
) -> io::Result<u8>
    requires reader { R.failures reader.old < 2 ^ 64 - 1 }
    requires writer { W.failures writer.old < 2 ^ 64 - 1 }
    ensures status { IfOk result (IsCheckStatus (R.bytes reader.old)) }
    ensures read { R.failures reader.new ≡ R.failures reader.old + 1 → IfOk result (λ status. status ≡ 4) }
    ensures told { IfOk result (HasToldWith W.failures writer.old writer.new) }
{
    let text = match text_of_source(alloc, reader) {
        Ok(text) => text,
        Err(fault) => return say_fault(rt, fault),
    };
    let Ok(told) = tell(alloc, &text) else {
        return say_fault(rt, Fault::Memory);
    };
    match write_all(writer, &told.text) {
        Ok(()) if told.is_policy => Ok(0),
        Ok(()) => Ok(1),
        Err(fault) => say_fault(rt, fault),
    }
}

/// Checks the policy of the file of this name, and answers the status: 0 where it is one, 1 where it isn't, and 4 where
/// memory ran out or a device failed.
pub fn check_file<S: SystemFiles + Eprint, W: Sink>(
    system: &S,
    alloc: Global,
    name: &str,
    writer: &mut W,
) -> io::Result<u8>
    requires { W.failures writer.old < 2 ^ 64 - 1 }
    ensures status { IfOk result (IsCheckStatus (S.named system.now name.now)) }
    ensures told { IfOk result (HasToldWith W.failures writer.old writer.new) }
{
    let policy = match opened_or_told(system, name) {
        Ok(Some(policy)) => policy,
        Ok(None) => return Ok(4),
        Err(error) => return Err(error),
    };
    check_opened(system, alloc, &mut Device::new(policy), writer)
}
