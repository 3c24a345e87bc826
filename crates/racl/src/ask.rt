//! Packets that the words write, instead of a capture.

use compared_verdicts::{read_expectations, status_of_expected};
use packet_questions::{Ask, QuestionFault, answer_questions, answer_status, compare_answers};
use racl_io::{Device, Fault};
use racl_options::AskedPackets;
use racl_system::{
    NamedPolicy, Output, live_policy_text, policy_text, say_policy_fault, say_read_twice,
    say_wrong_expectations,
};
use std::alloc::Global;
use std::io;
use std::sync::Wait;
use std::thread::Threads;

/// Reads the policy, writes the verdicts on the packets, or what isn't as expected of them, and answers the exit status.
/// `answer_questions` and `compare_answers` say what is written; no clause can name what the system's files and standard output
/// hold, so that `tests/run` looks at these.
pub fn status_of_ask<T: Threads + Wait + Sync>(
    rt: &HostRuntime,
    threads: &T,
    alloc: Global,
    asked: &AskedPackets<'_>,
) -> io::Result<u8> {
    let ask = Ask {
        explained: asked.explained,
        expected: asked.expected,
        policy: asked.policy,
        packets: asked.packets.as_slice(),
    };
    if let Some(name) = ask.expected
        && let Some(status) = say_read_twice(rt, alloc, &[ask.policy, name])?
    {
        return Ok(status);
    }
    let text = match policy_text(rt, alloc, ask.policy) {
        Ok(Ok(text)) => text,
        Ok(Err(status)) => return Ok(status),
        Err(error) => return Err(error),
    };
    if let Some(name) = ask.expected {
        return status_of_comparison(rt, threads, alloc, &ask, &text, name);
    }
    let policy = NamedPolicy {
        name: ask.policy,
        text: &text,
    };
    let mut writer = Device::new(Output::new(rt.stdout()));
    match answer_questions(threads, alloc, &ask, &text, &mut writer) {
        Ok(_) => Ok(0),
        Err(fault) => said(rt, alloc, policy, &fault),
    }
}

// Compares the verdicts on the packets with those that the file of this name expects, and answers the exit status.
fn status_of_comparison<T: Threads + Wait + Sync>(
    rt: &HostRuntime,
    threads: &T,
    alloc: Global,
    ask: &Ask<'_>,
    text: &[u8],
    name: &str,
) -> io::Result<u8> {
    let expected = match live_policy_text(rt, alloc, name) {
        Ok(Ok(expected)) => expected,
        Ok(Err(status)) => return Ok(status),
        Err(error) => return Err(error),
    };
    let expectations = match read_expectations(alloc, expected.as_slice()) {
        Ok(expectations) => expectations,
        Err(fault) => return say_wrong_expectations(rt, name, fault),
    };
    let mut writer = Device::new(Output::new(rt.stdout()));
    let expectations = expectations.as_slice();
    match compare_answers(threads, alloc, ask, expectations, text, &mut writer) {
        Ok(met) => Ok(status_of_expected(met, false)),
        Err(fault) => {
            let policy = NamedPolicy {
                name: ask.policy,
                text,
            };
            said(rt, alloc, policy, &fault)
        }
    }
}

// Says why the packets get no verdicts by this policy, and answers the exit status.
fn said(
    rt: &HostRuntime,
    alloc: Global,
    policy: NamedPolicy<'_>,
    fault: &QuestionFault,
) -> io::Result<u8> {
    if let QuestionFault::Run(cause) = fault
        && matches!(
            cause,
            Fault::NotUtf8 | Fault::BadLine(_) | Fault::TooMany(_)
        )
    {
        return say_policy_fault(rt, alloc, policy, *cause);
    }
    eprintln!(rt; "racl: {fault}")?;
    Ok(answer_status(fault))
}
