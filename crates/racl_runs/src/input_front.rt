//! What stands before the packets of an input.
ghost use Rattle.std.specs.Prelude.{◌≡◌, ◌+◌, ◌-◌, ◌<◌, ◌^◌, [], true, IfErr, IfOk, IfSome, OnOk, Err, length};
ghost use Rattle.racl_io.specs.Inputs.{most_bytes};
ghost use Rattle.racl_io.specs.Transfers.{HasReadWithin};
ghost use Rattle.racl_runs.specs.declared.input_front.Opened.TheVariants.{Bytes};
ghost use Rattle.racl_runs.specs.Reads.{AnswersInput, AnswersRead, HasFront, HasOpened, HasRest, IsUnread};

use crate::run_plan::front_bytes;
use acl_policy::read_policy;
use flow_workers::Filter;
use packet_view::{Order, capture_header};
use racl_io::{Fault, Form, MOST_BYTES, Source, read_until, split_input};
use racl_options::Options;
use std::alloc::Global;

/// What stands before the records of a capture that an input has as it is, and that is judged while it is read.
#[derive(Drop)]
pub struct Headed {
    pub filter: Filter,
    /// Where the policy's text ends in the input.
    pub text: usize,
    /// The order of the capture's numbers.
    pub order: Order,
    /// Where the records begin in the input.
    pub from: usize,
}

/// What stands before captures as digits, which are judged when all of the input was read.
#[derive(Drop)]
pub struct Marked {
    pub filter: Filter,
    /// Where the policy's text ends in the input.
    pub text: usize,
    /// How the first marker line says that they are written.
    pub form: Form,
    /// Where what follows its marker line begins in the input.
    pub from: usize,
}

/// What stands before the packets of an input.
#[derive(Drop)]
pub enum Opened {
    /// A capture as it is.
    Bytes(Headed),
    /// Captures as digits: one that has no number, or one or several with numbers.
    Whole(Marked),
}

/// What stands before the packets of the input that these bytes are, or that they are the front of; or the fault that they
/// have before them.
pub fn open_input(alloc: Global, options: &Options, bytes: &[u8]) -> Result<Opened, Fault>
    ensures ok { IfOk result (HasOpened options.now bytes.now) }
    ensures fault { IfErr result (λ fault. AnswersInput options.now bytes.now (Err fault)) }
{
    let Some(input) = split_input(bytes) else {
        return Err(Fault::NoCapture);
    };
    let policy = read_policy(alloc, input.policy)?;
    let filter = Filter {
        policy,
        times: options.times,
    };
    let from = bytes.len() - input.content.len();
    match input.form {
        Form::Binary => {
            let order = capture_header(input.content)?;
            Ok(Opened::Bytes(Headed {
                filter,
                text: input.policy.len(),
                order,
                from: from + 24,
            }))
        }
        Form::Hexadecimal | Form::Numbered(_) => Ok(Opened::Whole(Marked {
            filter,
            text: input.policy.len(),
            form: input.form,
            from,
        })),
    }
}

/// What was read of an input.
#[derive(Drop)]
pub struct InputFront {
    pub bytes: Vec<u8>,
    /// Whether it is all of the input.
    pub ended: bool,
    /// What stands there before the packets.
    pub opened: Opened,
}

// The front of an input of which all was read.
fn open_whole(alloc: Global, options: &Options, bytes: Vec<u8>) -> Result<InputFront, Fault>
    ensures bytes { IfOk result (λ front. front.bytes ≡ bytes) }
    ensures ended { IfOk result (λ front. front.ended ≡ true) }
    ensures opened { IfOk result (λ front. HasOpened options.now bytes.items front.opened) }
    ensures fault { IfErr result (λ fault. AnswersInput options.now bytes.items (Err fault)) }
{
    match open_input(alloc, options, &bytes) {
        Ok(opened) => Ok(InputFront {
            bytes,
            ended: true,
            opened,
        }),
        Err(fault) => Err(fault),
    }
}

/// Reads all that an input has behind its front, which these bytes are.
pub fn read_behind_front<R: Source>(reader: &mut R, bytes: &mut Vec<u8>) -> Result<(), Fault>
    requires { R.failures reader.old < 2 ^ 64 - 1 }
    ensures ok { OnOk result (HasRest (R.bytes reader.old) (R.bytes reader.new) bytes.old.items bytes.new.items) }
    ensures fault { IfErr result (IsUnread (length bytes.old.items) (R.bytes reader.old)) }
    ensures within { HasReadWithin R.bytes R.failures (most_bytes + 1 - length bytes.old.items) reader.old reader.new result }
{
    match read_until(reader, bytes, MOST_BYTES + 1) {
        Ok(true) => Ok(()),
        Ok(false) => Err(Fault::TooLarge),
        Err(fault) => Err(fault),
    }
}

// What stands before records at the front of an input that are judged while the rest is read, where these bytes begin so.
fn open_front(alloc: Global, options: &Options, bytes: &[u8]) -> Option<Headed>
    ensures { IfSome result (λ headed. HasOpened options.now bytes.now (Bytes headed)) }
{
    match open_input(alloc, options, bytes) {
        Ok(Opened::Bytes(headed)) => Some(headed),
        _ => None,
    }
}

/// Reads the front of an input, up to records of a capture as it is: or all of it where it has a fault there, or captures as
/// digits.
pub fn open_source<R: Source>(
    alloc: Global,
    options: &Options,
    reader: &mut R,
) -> Result<InputFront, Fault>
    requires { R.failures reader.old < 2 ^ 64 - 1 }
    ensures ok { IfOk result (HasFront options.now (R.bytes reader.old) (R.bytes reader.new)) }
    ensures fault { IfErr result (λ fault. AnswersRead options.now [] (R.bytes reader.old) (Err fault)) }
    ensures within { HasReadWithin R.bytes R.failures (most_bytes + 1) reader.old reader.new result }
{
    let mut bytes = Vec::new(alloc);
    let ended = match read_until(reader, &mut bytes, front_bytes(options)) {
        Ok(ended) => ended,
        Err(fault) => return Err(fault),
    };
    if ended {
        return open_whole(alloc, options, bytes);
    }
    if let Some(headed) = open_front(alloc, options, &bytes) {
        return Ok(InputFront {
            bytes,
            ended,
            opened: Opened::Bytes(headed),
        });
    }
    match read_behind_front(reader, &mut bytes) {
        Ok(()) => open_whole(alloc, options, bytes),
        Err(fault) => Err(fault),
    }
}
