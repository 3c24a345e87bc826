//! Two policies beside one another.

use policy_compare::{CompareFault, MOST_TESTS, compare_texts};
use racl_io::{Device, Fault};
use racl_options::CompareFiles;
use racl_system::{NamedPolicy, Output, live_policy_text, say_policy_fault, say_read_twice};
use std::alloc::Global;
use std::io;

/// Reads both policies, writes what they decide differently, and answers the exit status. `compare_texts` says what is written;
/// no clause can name what the system's files and standard output hold, so that `tests/run` looks at these.
pub fn status_of_compare(
    rt: &HostRuntime,
    alloc: Global,
    files: &CompareFiles<'_>,
) -> io::Result<u8> {
    if let Some(status) = say_read_twice(rt, alloc, &[files.before, files.after])? {
        return Ok(status);
    }
    let before = match live_policy_text(rt, alloc, files.before) {
        Ok(Ok(text)) => text,
        Ok(Err(status)) => return Ok(status),
        Err(error) => return Err(error),
    };
    let after = match live_policy_text(rt, alloc, files.after) {
        Ok(Ok(text)) => text,
        Ok(Err(status)) => return Ok(status),
        Err(error) => return Err(error),
    };
    let mut writer = Device::new(Output::new(rt.stdout()));
    let mut tests = MOST_TESTS;
    match compare_texts(alloc, &mut tests, &before, &after, &mut writer) {
        Ok(status) => Ok(status),
        Err(CompareFault::Before(cause)) => {
            let policy = NamedPolicy {
                name: files.before,
                text: &before,
            };
            say_policy_fault(rt, alloc, policy, Fault::from(cause))
        }
        Err(CompareFault::After(cause)) => {
            let policy = NamedPolicy {
                name: files.after,
                text: &after,
            };
            say_policy_fault(rt, alloc, policy, Fault::from(cause))
        }
        Err(CompareFault::Run(fault)) => {
            eprintln!(rt; "racl: {fault}")?;
            Ok(4)
        }
    }
}
