//! One run of the filter on captures of interfaces that come apart, from their bytes to the report.
ghost use Rattle.std.specs.Prelude.{◌≡◌, ◌≢◌, ◌+◌, ◌-◌, ◌<◌, ◌^◌, ◌⊎◌, ◌↔◌, Err, IfErr, IfOk};
ghost use Rattle.racl_io.specs.declared.fault.Fault.TheVariants.{Memory, Write};
ghost use Rattle.racl_report.specs.InterfaceInputs.{IsFaultApart, placeless};
ghost use Rattle.racl_runs.specs.InterfaceRuns.{AnswersRightApart, HasRunApart, IsSystemApart, RefusesApart};
ghost use Rattle.racl_runs.specs.inner.InterfaceChecks.{AreRightParts, EndsOnce};

use crate::captures_at_hand::{AtHand, HeldReport, report_at_hand};
use acl_policy::read_policy;
use flow_workers::Filter;
use racl_io::{Captured, Fault, Sink, Totals, write_all};
use racl_options::Options;
use racl_report::{InterfaceInput, PlacedFault, told_of_interfaces};
use std::alloc::Global;
use std::sync::Wait;
use std::thread::Threads;
use std::time::Clock;

/// A policy and captures of interfaces that were found right.
#[derive(Drop)]
pub struct RightInput {
    pub filter: Filter,
    /// What the report tells of each capture.
    pub told: Vec<Captured>,
}

// The policy of an input, and what is told of its captures; or the first fault of these.
fn checked_interfaces(
    alloc: Global,
    options: &Options,
    input: &InterfaceInput,
) -> Result<RightInput, PlacedFault>
    ensures ok { IfOk result (AreRightParts options.now input.now) }
    ensures fault { IfErr result (λ found. (found ≡ placeless Memory) ⊎ IsFaultApart input.now.text.items input.now.captures.items found) }
{
    let policy = match read_policy(alloc, &input.text) {
        Ok(policy) => policy,
        Err(cause) => {
            return Err(PlacedFault {
                fault: Fault::from(cause),
                place: None,
            });
        }
    };
    let filter = Filter {
        policy,
        times: options.times,
    };
    match told_of_interfaces(alloc, &input.captures) {
        Ok(told) => Ok(RightInput { filter, told }),
        Err(found) => Err(found),
    }
}

// Filters captures that were found right, and then writes the whole report.
fn run_checked<W: Sink, T: Clock + Threads + Wait + Sync>(
    rt: &T,
    alloc: Global,
    options: &Options,
    input: &InterfaceInput,
    right: &RightInput,
    writer: &mut W,
) -> Result<Totals, Fault>
    requires right { AreRightParts options.now input.now right.now }
    requires sound { W.failures writer.old < 2 ^ 64 - 1 }
    ensures ok { IfOk result (HasRunApart options.now input.now.text.items input.now.captures.items (W.bytes writer.old) (W.bytes writer.new)) }
    ensures ends { EndsOnce W.failures writer.old writer.new result }
{
    let at_hand = AtHand {
        filter: &right.filter,
        text: &input.text,
        captures: &input.captures,
        told: &right.told,
        names: true,
    };
    let HeldReport { text, totals } = match report_at_hand(rt, alloc, options, at_hand) {
        Ok(held) => held,
        Err(fault) => return Err(fault),
    };
    match write_all(writer, &text) {
        Ok(()) => Ok(totals),
        Err(fault) => Err(fault),
    }
}

/// Filters captures of interfaces, one after the other, by a policy, and writes the report. What has a fault gets the first
/// one, in the order of the captures behind the policy's.
///
/// Nothing is written before all captures were judged.
pub fn run_interfaces<W: Sink, T: Clock + Threads + Wait + Sync>(
    rt: &T,
    alloc: Global,
    options: &Options,
    input: &InterfaceInput,
    writer: &mut W,
) -> Result<Totals, PlacedFault>
    requires { W.failures writer.old < 2 ^ 64 - 1 }
    ensures ok { IfOk result (HasRunApart options.now input.now.text.items input.now.captures.items (W.bytes writer.old) (W.bytes writer.new)) }
    ensures accepts { AnswersRightApart options.now input.now.text.items input.now.captures.items (W.bytes writer.old) (W.bytes writer.new) result }
    ensures fault { IfErr result (λ found. IsSystemApart found ⊎ IsFaultApart input.now.text.items input.now.captures.items found) }
    ensures refuses { RefusesApart input.now.text.items input.now.captures.items result }
    ensures write { (result ≡ Err (placeless Write)) ↔ (W.failures writer.new ≡ W.failures writer.old + 1) }
    ensures steady { result ≢ Err (placeless Write) → W.failures writer.new ≡ W.failures writer.old }
    ensures unwritten { IfErr result (λ found. found ≢ placeless Write → writer.new ≡ writer.old) }
{
    let right = match checked_interfaces(alloc, options, input) {
        Ok(right) => right,
        Err(found) => return Err(found),
    };
    match run_checked(rt, alloc, options, input, &right, writer) {
        Ok(totals) => Ok(totals),
        Err(fault) => Err(PlacedFault { fault, place: None }),
    }
}
