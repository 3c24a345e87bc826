//! The program: a policy and a capture from standard input or files, a verdict on each packet to standard output. What
//! it asks of the system is in `racl_system`, what it says and how it ends is decided in `racl_report`; here it runs.
#![tactic(auto)]

mod ask;
mod compare;

use ask::status_of_ask;
use compare::status_of_compare;
use compared_verdicts::{read_expectations, status_of_changes, status_of_expected};
use racl_io::{Device, Fault, FrontKept};
use racl_options::{Asked, DiffFiles, Files, Interfaces, Options, Origin, Task, diff_options};
use racl_runs::{
    DiffFault, ExpectingAsked, LiveAsked, LiveSaves, PolicyTexts, ShardRunAsked, run, run_diff,
    run_expecting, run_interfaces, run_live, run_live_interfaces, run_shard,
};
use racl_system::{
    DiffInput, ExpectingInput, LiveFiles, LiveInterfaces, NamedPolicy, Output, Ran, SeenFiles,
    SystemFiles, Watched, Words, asked_or_status, check_file, expand_file, failure_status,
    hold_closed_streams, mistyped_status, opened_diff, opened_expecting, opened_live,
    opened_live_interfaces, read_interface_input, saves_to, say_capture_fault, say_end_of_files,
    say_end_of_interfaces, say_end_of_live, say_end_of_live_interfaces, say_outcome,
    say_policy_fault, say_read_twice, say_unsaved, say_used_twice, say_wrong_expectations, settled,
    standard_source, texts_of, watched_where,
};
use std::alloc::Global;
use std::env::args;
use std::io;
use std::process::ExitCode;
use std::sync::Wait;
use std::thread::Threads;
use std::time::Clock;

fn main(rt: HostRuntime) -> ExitCode {
    // Where the root folder can't be opened there is none to hold streams by, and the run goes on.
    let _ = hold_closed_streams(&rt);
    let status = match status_of_main(&rt, &rt, rt.alloc()) {
        Ok(status) => status,
        Err(error) => failure_status(&rt, &error),
    };
    ExitCode::from(status)
}

// The main function's work: does what the program's words ask for, and answers the exit status. The workers' threads
// come from `threads`.
fn status_of_main<T: Clock + Threads + Wait + Sync + Copy + Send + 'static>(
    rt: &HostRuntime,
    threads: &T,
    alloc: Global,
) -> io::Result<u8> {
    let words: Vec<String> = args(rt)?.collect(alloc)?;
    let texts = texts_of(alloc, words.as_slice())?;
    let texts = texts.as_slice();
    if let Some(status) = mistyped_status(rt, alloc, texts)? {
        return Ok(status);
    }
    match asked_or_status(rt, alloc, texts)? {
        Ok(Words::Run(asked)) => status_of_run(rt, threads, alloc, &asked),
        Ok(Words::Command(Task::Check(policy))) => {
            check_file(rt, alloc, policy, &mut Device::new(rt.standard_output()))
        }
        Ok(Words::Command(Task::Expand(file))) => expand_file(rt, alloc, file),
        Ok(Words::Command(Task::Ask(asked))) => status_of_ask(rt, threads, alloc, &asked),
        Ok(Words::Command(Task::Diff(files))) => status_of_diff(rt, threads, alloc, &files),
        Ok(Words::Command(Task::Compare(files))) => status_of_compare(rt, alloc, &files),
        Err(status) => Ok(status),
    }
}

// Runs what is asked for, unless a pipe would be read twice, tells how that ended, and answers the exit status.
fn status_of_run<T: Clock + Threads + Wait + Sync + Copy + Send + 'static>(
    rt: &HostRuntime,
    threads: &T,
    alloc: Global,
    asked: &Asked<'_>,
) -> io::Result<u8> {
    let names = names_read(alloc, asked)?;
    if let Some(status) = say_read_twice(rt, alloc, names.as_slice())? {
        return Ok(status);
    }
    match (&asked.origin, asked.expected) {
        (Origin::Files(files), Some(name)) => {
            status_of_expecting(rt, threads, alloc, asked, files, name)
        }
        (Origin::Files(files), None) => status_of_files(rt, threads, alloc, asked, files),
        (Origin::Interfaces(interfaces), _) if asked.options.live => {
            status_of_live_interfaces(rt, threads, alloc, &asked.options, interfaces)
        }
        (Origin::Interfaces(interfaces), _) => {
            status_of_interfaces(rt, threads, alloc, &asked.options, interfaces)
        }
        (Origin::Standard, _) => status_of_standard(rt, threads, alloc, &asked.options),
    }
}

// The names of the files that a run reads.
fn names_read<'a>(alloc: Global, asked: &Asked<'a>) -> io::Result<Vec<&'a str>> {
    let mut names = Vec::new(alloc);
    match &asked.origin {
        Origin::Standard => {}
        Origin::Files(files) => {
            names.push(files.policy)?;
            names.push(files.capture)?;
        }
        Origin::Interfaces(interfaces) => {
            names.push(interfaces.policy)?;
            for file in &interfaces.captures {
                names.push(file.name)?;
            }
        }
    }
    if let Some(name) = asked.expected {
        names.push(name)?;
    }
    Ok(names)
}

// Runs the main program on all that standard input has, tells how that ended, and answers the exit status.
fn status_of_standard<T: Clock + Threads + Wait + Sync>(
    rt: &HostRuntime,
    threads: &T,
    alloc: Global,
    options: &Options,
) -> io::Result<u8> {
    let mut reader = Watched::new(rt, standard_source(rt));
    let mut writer = Device::new(Output::new(rt.stdout()));
    let outcome = run(threads, alloc, options, &mut reader, &mut writer);
    reader.progress.end();
    say_outcome(rt, &outcome)
}

// Runs the main program on captures of interfaces, tells how that ended, and answers the exit status.
fn status_of_interfaces<T: Clock + Threads + Wait + Sync>(
    rt: &HostRuntime,
    threads: &T,
    alloc: Global,
    options: &Options,
    interfaces: &Interfaces<'_>,
) -> io::Result<u8> {
    let input = match read_interface_input(rt, rt, alloc, interfaces) {
        Ok(Ok(input)) => input,
        Ok(Err(status)) => return Ok(status),
        Err(error) => return Err(error),
    };
    let mut writer = Device::new(Output::new(rt.stdout()));
    let (outcome, faulty) = match run_interfaces(threads, alloc, options, &input, &mut writer) {
        Ok(totals) => (Ok(totals), None),
        Err(found) => (Err(found.fault), found.place),
    };
    let ran = Ran {
        outcome,
        faulty,
        is_closed: writer.inner.is_closed,
        reason: writer.inner.reason,
    };
    say_end_of_interfaces(rt, alloc, options, interfaces, &input, &ran)
}

// Runs the main program on the capture of a file, or on a shard of that, while it is read, saves packets where that is asked for,
// tells how that ended, and answers the exit status. What was saved stays, however it ended.
fn status_of_files<T: Clock + Threads + Wait + Sync>(
    rt: &HostRuntime,
    threads: &T,
    alloc: Global,
    asked: &Asked<'_>,
    files: &Files<'_>,
) -> io::Result<u8> {
    match say_used_twice(rt, alloc, files, &asked.saved) {
        Ok(None) => {}
        Ok(Some(status)) => return Ok(status),
        Err(error) => return Err(error),
    }
    let LiveFiles { text, capture } = match opened_live(rt, alloc, files) {
        Ok(Ok(opened)) => opened,
        Ok(Err(status)) => return Ok(status),
        Err(error) => return Err(error),
    };
    let text = text.as_slice();
    let source = Device::new(FrontKept::new(capture));
    let mut reader = watched_where(rt, !asked.options.live, source);
    let mut writer = Device::new(Output::new(rt.stdout()));
    let mut saves = LiveSaves {
        files: saves_to(rt, &asked.saved),
    };
    let run = LiveAsked {
        options: &asked.options,
        text,
    };
    let outcome = match asked.shard {
        Some(shard) => {
            let asked = ShardRunAsked { run, shard };
            run_shard(threads, alloc, asked, &mut reader, &mut writer, &mut saves)
        }
        None => run_live(threads, alloc, run, &mut reader, &mut writer, &mut saves),
    };
    reader.progress.end();
    if say_unsaved(rt, settled(saves.files))? {
        return Ok(4);
    }
    let input = SeenFiles {
        files: *files,
        text,
        front: reader.source.inner.front(),
    };
    if asked.options.live || asked.shard.is_some() {
        return say_end_of_live(rt, alloc, &asked.options, input, &outcome);
    }
    let ran = Ran {
        outcome,
        faulty: None,
        is_closed: writer.inner.is_closed,
        reason: writer.inner.reason,
    };
    say_end_of_files(rt, alloc, &asked.options, input, &ran)
}

// Runs the main program on captures of interfaces as they come, tells how that ended, and answers the exit status.
fn status_of_live_interfaces<T: Clock + Threads + Wait + Sync + Copy + Send + 'static>(
    rt: &HostRuntime,
    threads: &T,
    alloc: Global,
    options: &Options,
    interfaces: &Interfaces<'_>,
) -> io::Result<u8> {
    let LiveInterfaces { text, mut captures } = match opened_live_interfaces(
        rt, threads, alloc, interfaces,
    ) {
        Ok(Ok(opened)) => opened,
        Ok(Err(status)) => return Ok(status),
        Err(error) => return Err(error),
    };
    let text = text.as_slice();
    let mut writer = Device::new(rt.stdout());
    let run = LiveAsked { options, text };
    let outcome = run_live_interfaces(threads, alloc, run, &mut captures, &mut writer);
    say_end_of_live_interfaces(rt, alloc, options, interfaces, text, &outcome)
}

// Compares the verdicts on the packets of a capture with those that the file of this name expects, tells how that ended, and
// answers the exit status.
fn status_of_expecting<T: Clock + Threads + Wait + Sync>(
    rt: &HostRuntime,
    threads: &T,
    alloc: Global,
    asked: &Asked<'_>,
    files: &Files<'_>,
    name: &str,
) -> io::Result<u8> {
    let ExpectingInput {
        text,
        expected,
        capture,
    } = match opened_expecting(rt, alloc, files, name) {
        Ok(Ok(opened)) => opened,
        Ok(Err(status)) => return Ok(status),
        Err(error) => return Err(error),
    };
    let expectations = match read_expectations(alloc, expected.as_slice()) {
        Ok(expectations) => expectations,
        Err(fault) => return say_wrong_expectations(rt, name, fault),
    };
    let mut reader = Device::new(FrontKept::new(capture));
    let mut writer = Device::new(rt.stdout());
    let compared = ExpectingAsked {
        options: &asked.options,
        text: text.as_slice(),
        expectations: expectations.as_slice(),
    };
    match run_expecting(threads, alloc, compared, &mut reader, &mut writer) {
        Ok(compared) => Ok(status_of_expected(compared.met, compared.truncated)),
        Err(fault) => {
            let input = SeenFiles {
                files: *files,
                text: text.as_slice(),
                front: reader.inner.front(),
            };
            say_end_of_live(rt, alloc, &asked.options, input, &Err(fault))
        }
    }
}

// Compares the verdicts by two policies on the packets of a capture while it comes, tells how that ended, and answers the exit
// status.
fn status_of_diff<T: Clock + Threads + Wait + Sync>(
    rt: &HostRuntime,
    threads: &T,
    alloc: Global,
    files: &DiffFiles<'_>,
) -> io::Result<u8> {
    let names = [files.before, files.after, files.capture];
    if let Some(status) = say_read_twice(rt, alloc, &names)? {
        return Ok(status);
    }
    let DiffInput {
        before,
        after,
        capture,
    } = match opened_diff(rt, alloc, files) {
        Ok(Ok(opened)) => opened,
        Ok(Err(status)) => return Ok(status),
        Err(error) => return Err(error),
    };
    let texts = PolicyTexts {
        before: before.as_slice(),
        after: after.as_slice(),
    };
    let options = diff_options(files.ages);
    let mut reader = Device::new(FrontKept::new(capture));
    let mut writer = Device::new(rt.stdout());
    match run_diff(threads, alloc, &options, texts, &mut reader, &mut writer) {
        Ok(totals) => Ok(status_of_changes(&totals)),
        Err(DiffFault::Before(cause)) => {
            let policy = NamedPolicy {
                name: files.before,
                text: texts.before,
            };
            say_policy_fault(rt, alloc, policy, Fault::from(cause))
        }
        Err(DiffFault::After(cause)) => {
            let policy = NamedPolicy {
                name: files.after,
                text: texts.after,
            };
            say_policy_fault(rt, alloc, policy, Fault::from(cause))
        }
        Err(DiffFault::Run(fault)) => {
            say_capture_fault(rt, files.capture, reader.inner.front(), fault)
        }
    }
}
