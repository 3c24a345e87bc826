//! Whether no pipe is read twice, and files that packets are to be saved in are others than those that the run uses besides.
ghost use Rattle.std.specs.Prelude.{◌≡◌, ◌<◌, IfOk, IfSome, None, Ok, length, position};
ghost use Rattle.racl_system.specs.Places;

use crate::named_place::{NamedPlace, is_one_file, place_of, place_of_pipe};
use racl_options::{Files, Saved};
use racl_report::shown_name;
use std::alloc::Global;
use std::io;

/// The exit status where the words name one file twice.
const ONE_FILE_TWICE: u8 = 2;

/// The names that Linux has for the standard streams.
const INPUT: &str = "/proc/self/fd/0";

const OUTPUT: &str = "/proc/self/fd/1";

const MESSAGES: &str = "/proc/self/fd/2";

/// A file of a run.
#[derive(Drop)]
pub struct Used<'a> {
    /// What the words call it.
    name: &'a str,
    /// What becomes of it.
    fate: &'static str,
    place: NamedPlace,
}

// The first of the files of a run that is the one at this place.
fn first_at(place: &NamedPlace, used: &[Used<'_>]) -> Option<usize>
    ensures first { result ≡ position (λ u. Places.is_one_file place.now u.place) used.now }
    ensures within { IfSome result (λ i. i < length used.now) }
{
    used.iter().position(|it| is_one_file(place, &it.place))
}

// The name that the system has for what is read by this one, which may be standard input.
fn input_name(name: &str) -> &str {
    if name == "-" { INPUT } else { name }
}

// A file that is read by this name, or standard input, at this place.
fn used_input(name: &str, place: NamedPlace) -> Used<'_> {
    Used {
        name: if name == "-" { "standard input" } else { name },
        fate: "which is read",
        place,
    }
}

// Says that the file of this name is one that the run uses besides, and answers the status.
fn say_one_file(rt: &HostRuntime, name: &str, used: &Used<'_>) -> io::Result<u8>
    ensures { IfOk result (λ status. status ≡ 2) }
{
    let Used {
        name: other,
        fate,
        ..
    } = used;
    let (shown, other) = (shown_name(name), shown_name(other));
    rt.eprintln(format_args!("racl: {shown}: the same file as {other}, {fate}"))?;
    Ok(ONE_FILE_TWICE)
}

/// Says which of these names that are read leads to the same pipe as one before, and answers the status then. Nothing is opened. No
/// clause says which files names lead to, as of `place_of`.
pub fn say_read_twice<'a>(
    rt: &HostRuntime,
    alloc: Global,
    names: &'a [&'a str],
) -> io::Result<Option<u8>>
    ensures { IfOk result (λ found. IfSome found (λ status. status ≡ 2)) }
{
    let mut used = Vec::new(alloc);
    for name in names {
        let place = place_of_pipe(rt, input_name(name));
        if let Some(first) = first_at(&place, used.as_slice()) {
            return Ok(Some(say_one_file(rt, name, &used[first])?));
        }
        used.push(used_input(name, place))?;
    }
    Ok(None)
}

// The files that a run uses besides those in which it saves packets.
fn used_besides<'a>(
    rt: &HostRuntime,
    alloc: Global,
    files: &Files<'a>,
) -> io::Result<Vec<Used<'a>>> {
    let mut used = Vec::new(alloc);
    for name in [files.policy, files.capture] {
        used.push(used_input(name, place_of(rt, alloc, input_name(name))?))?;
    }
    for (name, stream) in [("standard output", OUTPUT), ("standard error", MESSAGES)] {
        used.push(Used {
            name,
            fate: "which is written",
            place: place_of(rt, alloc, stream)?,
        })?;
    }
    Ok(used)
}

/// Says which file that packets are to be saved in is another one of the run, under whatever name, and answers the
/// status then. Nothing is opened. No clause says which files names lead to, as of `place_of`.
pub fn say_used_twice<'a>(
    rt: &HostRuntime,
    alloc: Global,
    files: &Files<'a>,
    saved: &Saved<'a>,
) -> io::Result<Option<u8>>
    ensures status { IfOk result (λ found. IfSome found (λ status. status ≡ 2)) }
    ensures unsaved { saved.now.drops ≡ None → saved.now.passes ≡ None → result ≡ Ok None }
{
    if saved.drops.is_none() && saved.passes.is_none() {
        return Ok(None);
    }
    let mut used = used_besides(rt, alloc, files)?;
    for asked_name in [saved.drops, saved.passes] {
        let Some(name) = asked_name else {
            continue;
        };
        let place = place_of(rt, alloc, name)?;
        if let Some(first) = first_at(&place, used.as_slice()) {
            return Ok(Some(say_one_file(rt, name, &used[first])?));
        }
        used.push(Used {
            name,
            fate: "which is saved too",
            place,
        })?;
    }
    Ok(None)
}
