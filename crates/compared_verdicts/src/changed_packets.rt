//! The packets that a change of policy changes.
ghost use Rattle.std.specs.Prelude.{◌≡◌, ◌+◌, ◌<◌, ◌^◌, IfOk, length, map};
ghost use Rattle.packet_view.specs.CheckedCaptures.{remaining};
ghost use Rattle.filter_run.specs.Both.{firsts, seconds};
ghost use Rattle.compared_verdicts.specs.Changes.{change_facts, changes_from, pair_facts};

use crate::change_lines::{Change, PolicyPair};
use crate::rule_of_verdict::agree;
use packet_view::Packets;
use session_state::Verdict;
use std::alloc::{AllocError, Global};

/// Those of these packets, of which the first has this number, that are changed. Of each packet this was said: its verdict by the
/// policy so far, and the one by that which is to take its place.
pub fn changed_packets<'a>(
    alloc: Global,
    policies: PolicyPair<'_>,
    first: u64,
    said: &[(Verdict, Verdict)],
    packets: Packets<'a>,
) -> Result<Vec<Change<'a>>, AllocError>
    requires { first + length said.now < 2 ^ 64 }
    ensures { IfOk result (λ changes. map change_facts changes.items ≡ changes_from (pair_facts policies.entry) first (firsts said.now) (seconds said.now) (remaining packets.entry)) }
{
    let mut changes = Vec::new(alloc);
    let mut number = first;
    let mut left = said;
    let mut packets = packets;
    'packets: while let Some((verdicts, behind)) = left.split_first() {
        let Some(packet) = packets.next() else {
            break;
        };
        let (before, after) = *verdicts;
        if !agree(policies, packet, before, after) {
            changes.push(Change {
                number,
                packet,
                before,
                after,
            })?;
        }
        number += 1;
        left = behind;
    }
    Ok(changes)
}
