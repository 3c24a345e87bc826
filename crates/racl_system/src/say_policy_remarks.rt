//! What is said of a policy that is right, and unlikely to be meant.

use policy_check::{Checked, check_policy, foreign_mac, no_mac, other_mac, unruled};
use racl_report::shown_name;
use std::alloc::Global;
use std::io::Eprint;

/// The first bytes of the capture of the interface with this number.
#[derive(Clone, Copy)]
pub struct Seen<'a> {
    pub interface: u8,
    pub front: &'a [u8],
}

// The policy on which remarks are said, where its text is right. None where it isn't, and where memory runs out.
fn policy_for_remarks(alloc: Global, text: &[u8]) -> Option<Checked<'_>> {
    match check_policy(alloc, text) {
        Ok(checked) if checked.complaints.is_empty() => Some(checked),
        _ => None,
    }
}

/// Says a remark on each section of the policy of this file whose `out` rules aren't looked at, and on each interface of a
/// capture for which it has no rule. Nothing is said of a text that is no policy, where memory runs out, or where standard
/// error fails: the report stands. No clause can say what standard error gets: `tests/run` looks at it.
pub fn say_unlooked(rt: &impl Eprint, alloc: Global, name: &str, text: &[u8], seen: &[Seen<'_>]) {
    let Some(checked) = policy_for_remarks(alloc, text) else {
        return;
    };
    for section in &checked.policy.sections {
        if let Some(remark) = no_mac(section) {
            let shown = shown_name(name);
            let _ = rt.eprintln(format_args!("racl: {shown}: {remark}"));
        }
    }
    for capture in seen {
        if let Some(remark) = unruled(&checked.policy, capture.interface) {
            let shown = shown_name(name);
            let _ = rt.eprintln(format_args!("racl: {shown}: {remark}"));
        }
    }
}

/// Says a remark on the policy for each capture whose first frames have nothing to do with the own address of their
/// interface, and for each in which the host sends from another address too. Nothing is said where `say_unlooked` could say
/// nothing. No clause says it, as of `say_unlooked`.
pub fn say_foreign(rt: &impl Eprint, alloc: Global, name: &str, text: &[u8], seen: &[Seen<'_>]) {
    let Some(checked) = policy_for_remarks(alloc, text) else {
        return;
    };
    for section in &checked.policy.sections {
        for capture in seen {
            if capture.interface != section.interface {
                continue;
            }
            if let Some(remark) = foreign_mac(section, capture.front) {
                let shown = shown_name(name);
                let _ = rt.eprintln(format_args!("racl: {shown}: {remark}"));
            }
            if let Some(remark) = other_mac(section, capture.front) {
                let shown = shown_name(name);
                let _ = rt.eprintln(format_args!("racl: {shown}: {remark}"));
            }
        }
    }
}
