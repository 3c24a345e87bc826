//! Where rules meet a piece.
ghost use Rattle.std.specs.Prelude.{◌≡◌, ◌≤◌, ◌<◌, IfSome, None, length, map};
ghost use Rattle.acl_policy.specs.Rules.{rule_facts};
ghost use Rattle.rule_cover.specs.inner.Pieces.{IsMeeting, IsParting};

use crate::packet_set::{Meeting, PacketSet, Parting};
use crate::region::Region;
use crate::region_cuts::{cut, is_apart};
use crate::region_of_rule::region_of;
use acl_policy::Rule;

// What a rule does to the packets of a piece.
fn part_by(region: &Region, rule: &Rule) -> Parting
    ensures { IsParting region.now (rule_facts rule.now) result }
{
    let other = region_of(rule, region.shown);
    if is_apart(region, &other) {
        return Parting::Apart;
    }
    match cut(region, &other) {
        Some((outside, inside)) => Parting::Cut(outside, inside),
        None => Parting::Whole,
    }
}

/// The first rule from the piece's place on that may match packets of it; each that is looked at takes one of the tests that
/// are left. None: too few were left.
pub fn first_meeting(tests: &mut u64, piece: &PacketSet, rules: &[Rule]) -> Option<Meeting>
    requires { piece.now.place ≤ length rules.now }
    ensures meets { IfSome result (IsMeeting (map rule_facts rules.now) piece.now) }
    ensures spent { IfSome result (λ met. met.place < length rules.now → tests.new < tests.old) }
    ensures fewer { tests.new ≤ tests.old }
    ensures none { result ≡ None → tests.new ≡ 0 }
{
    for place in piece.place..rules.len() {
        if *tests == 0 {
            return None;
        }
        *tests -= 1;
        match part_by(&piece.region, &rules[place]) {
            Parting::Apart => {}
            parting => return Some(Meeting { place, parting }),
        }
    }
    Some(Meeting {
        place: rules.len(),
        parting: Parting::Apart,
    })
}
