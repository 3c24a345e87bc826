//! The place of a rule among the counts of rules, or their lines.
ghost use Rattle.std.specs.Prelude.{◌≡◌, ◌<◌, ◌^◌, ℕ, OnOk, get_or, length};
ghost use Rattle.racl_views.specs.inner.Places;
ghost use Rattle.racl_views.specs.inner.Places.{place_of};

use crate::rule_numbering::RuleName;
use packet_view::Direction;
use std::alloc::AllocError;

// What the direction of a rule adds to the place of its count.
fn way_place(direction: Direction) -> u128
    ensures { result ≡ Places.way_place direction }
{
    match direction {
        Direction::Inbound => 0,
        Direction::Outbound => 1,
    }
}

/// Where a rule's count or line stands: in a row for each number, with a place for each interface and direction.
pub fn place(rule: &RuleName) -> u128
    ensures place { result ≡ place_of rule.now }
    ensures interface { rule.now.interface < 2 ^ 8 }
{
    u128::from(rule.number) * 512 + u128::from(rule.interface) * 2 + way_place(rule.direction)
}

/// The count of a rule, or its line, which stands at the rule's place, and 0 where nothing does.
pub fn number_at(numbers: &[u64], rule: &RuleName) -> u64
    ensures number { result ≡ get_or numbers.now (place_of rule.now) 0 }
    ensures interface { rule.now.interface < 2 ^ 8 }
{
    let place = place(rule);
    if place < numbers.len() as u128 {
        numbers[place as usize]
    } else {
        0
    }
}

/// Sees that a list of numbers reaches to the place of a rule. The places that come have 0.
pub fn reach_rule_place(numbers: &mut Vec<u64>, place: usize) -> Result<(), AllocError>
    ensures same { (k : ℕ) → get_or numbers.new.items k 0 ≡ get_or numbers.old.items k 0 }
    ensures there { OnOk result (place < length numbers.new.items) }
{
    'room: while numbers.len() <= place {
        numbers.push(0)?;
    }
    Ok(())
}
