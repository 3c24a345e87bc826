//! The files that the words name.
ghost use Rattle.std.specs.Prelude.{◌≡◌, IfNone, IfSome, MatchResult, None, Some, map, count_by};
ghost use Rattle.std.specs.List.{AllZip};
ghost use Rattle.clap.specs.Walk.{texts};
ghost use Rattle.clap.specs.Words.{found_of};
ghost use Rattle.racl_options.specs.Behind.{text_behind};
ghost use Rattle.racl_options.specs.Origins.{CaptureFacts, IsNamed, Name};
ghost use Rattle.racl_options.specs.Origins.{capture_facts, is_standard, origin_facts};
ghost use Rattle.racl_options.specs.inner.Naming.{IsRefused, Names, values_in};

use crate::settings::{CaptureFile, Files, Interfaces, Origin};
use acl_policy::octet_of;
use clap::ArgMatches;
use std::alloc::Global;

/// Why names are no input to be read.
#[derive(Clone, Copy)]
pub enum Refusal {
    Memory,
    /// What is wrong with them.
    Mistake(&'static str),
}

const NO_CAPTURE: &str =
    "POLICY alone names no capture: CAPTURE or --interface N=CAPTURE is missing";

const NO_POLICY: &str = "POLICY is missing beside --interface N=CAPTURE";

const TWO_FORMS: &str = "CAPTURE can't stand beside --interface N=CAPTURE";

const NO_INTERFACE: &str =
    "--interface takes N=CAPTURE: the number of an interface, 0 to 255, and its capture";

const ONE_STREAM: &str = "only one file can be standard input";

// The capture that a value of `--interface` names.
fn capture_named(value: &str) -> Option<CaptureFile<'_>>
    ensures some { IfSome result (λ capture. IsNamed value.now (capture_facts capture)) }
    ensures none { IfNone result ((capture : CaptureFacts) → IsNamed value.now capture → ⊥) }
{
    let Some((number, name)) = value.split_once('=') else {
        return None;
    };
    let Some(interface) = octet_of(number.as_bytes()) else {
        return None;
    };
    if name.is_empty() {
        return None;
    }
    Some(CaptureFile { interface, name })
}

// The captures that the values of `--interface` name.
fn captures_named<'a>(alloc: Global, values: &[&'a str]) -> Result<Vec<CaptureFile<'a>>, Refusal>
    ensures { let AreNamed = AllZip IsNamed (texts values.now) in MatchResult result (λ captures. AreNamed (map capture_facts captures.items)) (IsRefused AreNamed) }
{
    let mut captures = Vec::new(alloc);
    let mut rest = values;
    'values: while !rest.is_empty() {
        let Some(capture) = capture_named(rest[0]) else {
            return Err(Refusal::Mistake(NO_INTERFACE));
        };
        if captures.push(capture).is_err() {
            return Err(Refusal::Memory);
        }
        rest = &rest[1..];
    }
    Ok(captures)
}

// How many of the named files of captures are standard input.
fn streams(captures: &[CaptureFile<'_>]) -> usize
    ensures { result ≡ count_by (λ c. is_standard c.name.now) captures.now }
{
    captures.iter().filter(|c| c.name == "-").count()
}

// The input that the words name where they have `--interface` with these values.
fn interfaces_named<'a>(
    alloc: Global,
    policy: Option<&'a str>,
    capture: Option<&'a str>,
    values: &[&'a str],
) -> Result<Interfaces<'a>, Refusal>
    ensures { let Told = Name (text_behind policy.entry) (text_behind capture.entry) (Some (texts values.now)) in
        MatchResult result (λ i. Told (origin_facts (Origin.Interfaces i))) (IsRefused Told) }
{
    let Some(policy) = policy else {
        return Err(Refusal::Mistake(NO_POLICY));
    };
    if capture.is_some() {
        return Err(Refusal::Mistake(TWO_FORMS));
    }
    let captures = match captures_named(alloc, values) {
        Ok(captures) => captures,
        Err(refusal) => return Err(refusal),
    };
    if streams(&captures) > usize::from(policy != "-") {
        return Err(Refusal::Mistake(ONE_STREAM));
    }
    Ok(Interfaces { policy, captures })
}

// The input that the words name where they have no `--interface`.
fn files_named<'a>(policy: Option<&'a str>, capture: Option<&'a str>) -> Result<Origin<'a>, Refusal>
    ensures { let Told = Name (text_behind policy.entry) (text_behind capture.entry) None in MatchResult result (λ origin. Told (origin_facts origin)) (IsRefused Told) }
{
    match (policy, capture) {
        (None, None) => Ok(Origin::Standard),
        (Some(policy), Some(capture)) => {
            if policy == "-" && capture == "-" {
                return Err(Refusal::Mistake(ONE_STREAM));
            }
            Ok(Origin::Files(Files { policy, capture }))
        }
        (_, _) => Err(Refusal::Mistake(NO_CAPTURE)),
    }
}

/// Where the input comes from: the files that the matches name, or standard input.
pub fn origin_named<'a>(alloc: Global, matches: &ArgMatches<'a>) -> Result<Origin<'a>, Refusal>
    ensures { let Told = Names (values_in (found_of matches.now)) in MatchResult result (λ origin. Told (origin_facts origin)) (IsRefused Told) }
{
    let policy = matches.get_str("POLICY");
    let capture = matches.get_str("CAPTURE");
    let Some(values) = matches.get_strs("interface") else {
        return files_named(policy, capture);
    };
    match interfaces_named(alloc, policy, capture, values) {
        Ok(interfaces) => Ok(Origin::Interfaces(interfaces)),
        Err(refusal) => Err(refusal),
    }
}
