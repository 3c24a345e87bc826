//! The packets that no rule of a list matches, of those that two rules match: they are cut at the ends of the rules' ranges
//! until no rule matches some of a piece, or one matches all of it.
ghost use Rattle.std.specs.Prelude.{◌≡◌, ◌≤◌, IfOk, Ok, OnOk, map};
ghost use Rattle.acl_policy.specs.Rules.{rule_facts};
ghost use Rattle.rule_cover.specs.Covers.{IsCover};
ghost use Rattle.rule_cover.specs.declared.uncovered_packets.Cover.TheVariants.{Unknown};
ghost use Rattle.rule_cover.specs.inner.Pieces.{AddsShown, AreFirst};

use crate::packet_in_region::packet_in;
use crate::packet_set::{PacketSet, Parting};
use crate::piece_meeting::first_meeting;
use crate::region::Shown;
use crate::region_cuts::{both, is_apart};
use crate::region_of_rule::region_of;
use acl_policy::Rule;
use packet_view::Tuple;
use std::alloc::{AllocError, Global};

/// What rules leave of the packets that two other rules match both.
#[derive(Debug, Drop, PartialEq)]
pub enum Cover {
    /// This packet.
    Left(Tuple),
    /// None: the rules of the list that are marked take all such packets.
    Taken(Vec<bool>),
    /// It was not found out in so many tests.
    Unknown,
}

// Adds the packets that show this and that both rules match, whose uncovered ones are looked for.
fn add_shown(
    left: &mut Vec<PacketSet>,
    one: &Rule,
    two: &Rule,
    shown: Shown,
) -> Result<(), AllocError>
    ensures { OnOk result (AddsShown (rule_facts one.now) (rule_facts two.now) shown left.old.items left.new.items) }
{
    let first = region_of(one, shown);
    let second = region_of(two, shown);
    if is_apart(&first, &second) {
        return Ok(());
    }
    let region = both(&first, &second);
    if packet_in(&region).is_none() {
        return Ok(());
    }
    left.push(PacketSet { region, place: 0 })?;
    Ok(())
}

// All packets that both rules match, whose uncovered ones are looked for: those with ports first, which stand last.
fn all_packets(alloc: Global, one: &Rule, two: &Rule) -> Result<Vec<PacketSet>, AllocError>
    ensures { IfOk result (λ left. AreFirst (rule_facts one.now) (rule_facts two.now) left.items) }
{
    let mut left = Vec::new(alloc);
    add_shown(&mut left, one, two, Shown::Nothing)?;
    add_shown(&mut left, one, two, Shown::TypeAndCode)?;
    add_shown(&mut left, one, two, Shown::PortPair)?;
    add_shown(&mut left, one, two, Shown::PortsAndFlags)?;
    Ok(left)
}

/// A packet that both rules match and no rule of the list does, or that there is none. Each look at a rule takes one of the
/// tests; `Unknown` is answered only where none is left. An `Err` says that memory ran out.
pub fn uncovered(
    alloc: Global,
    tests: &mut u64,
    one: &Rule,
    two: &Rule,
    rules: &[Rule],
) -> Result<Cover, AllocError>
    ensures cover { IfOk result (IsCover (rule_facts one.now) (rule_facts two.now) (map rule_facts rules.now)) }
    ensures fewer { tests.new ≤ tests.old }
    ensures unknown { result ≡ Ok Unknown → tests.new ≡ 0 }
{
    let mut left = all_packets(alloc, one, two)?;
    let mut marks = vec![in alloc; false; rules.len()]?;
    'pieces: while let Some(piece) = left.pop() {
        let Some(met) = first_meeting(tests, &piece, rules) else {
            return Ok(Cover::Unknown);
        };
        match met.parting {
            Parting::Apart => {
                if let Some(tuple) = packet_in(&piece.region) {
                    return Ok(Cover::Left(tuple));
                }
                continue;
            }
            Parting::Whole => {
                marks[met.place] = true;
                continue;
            }
            Parting::Cut(outside, inside) => {
                left.push(PacketSet {
                    region: inside,
                    place: met.place,
                })?;
                left.push(PacketSet {
                    region: outside,
                    place: met.place + 1,
                })?;
                continue;
            }
        }
    }
    Ok(Cover::Taken(marks))
}
