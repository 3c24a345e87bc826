//! What C calls to count packets by the rules that decided them.
ghost use Rattle.std.specs.Prelude.{◌≡◌};
ghost use Rattle.racl_c.specs.Handles.{HasPlace, content_in};
ghost use Rattle.racl_c.specs.RuleCounts.{HasRules, NewCountsTold, RuleCountTold, RuleCounted, direction_of};
ghost use Rattle.racl_c.specs.declared.content_calls.Content.TheVariants.{Empty};

use crate::answer_numbers::{Made, fault_answer, was_done};
use crate::content_calls::Content;
use crate::handle::{Place, RuleCountsHandle};
use acl_policy::PolicyFault;
use std::alloc::Global;

/// Counts of no packet, for the rules of the policy of this text.
#[unsafe(no_mangle)]
pub extern "C" fn racl_rule_counts_new(
    alloc: Global,
    counts: &mut RuleCountsHandle,
    text: &[u8],
) -> Made
    ensures { NewCountsTold text.now (content_in counts.old.place) (content_in counts.new.place) result }
{
    let content = match Content::new_counts(alloc, text) {
        Ok(content) => content,
        Err(fault) => return fault_answer(fault),
    };
    match Box::new(alloc, Place { content }) {
        Ok(place) => {
            counts.put(place);
            was_done()
        }
        Err(_) => fault_answer(PolicyFault::Memory),
    }
}

/// Counts a packet that was seen at this interface and answered with this direction and rule.
#[unsafe(no_mangle)]
pub extern "C" fn racl_count_rule(
    alloc: Global,
    counts: &mut RuleCountsHandle,
    interface: u8,
    direction: u32,
    rule: u32,
)
    requires { HasRules (content_in counts.old.place) }
    ensures { RuleCounted interface (direction_of direction) rule (content_in counts.old.place) (content_in counts.new.place) }
{
    let mut place = counts.take(alloc);
    let content = &mut place.as_mut().content;
    content.count_rule(interface, direction, rule);
    counts.put(place);
}

/// How many packets a rule decided.
#[unsafe(no_mangle)]
pub extern "C" fn racl_rule_count(
    alloc: Global,
    counts: &mut RuleCountsHandle,
    interface: u8,
    direction: u32,
    rule: u32,
) -> u64
    requires { HasRules (content_in counts.old.place) }
    ensures told { RuleCountTold interface (direction_of direction) rule (content_in counts.old.place) result }
    ensures same { content_in counts.new.place ≡ content_in counts.old.place }
{
    let place = counts.take(alloc);
    let content = &place.as_ref().content;
    let told = content.rule_count(interface, direction, rule);
    counts.put(place);
    told
}

/// Lets go of counts by rule.
#[unsafe(no_mangle)]
pub extern "C" fn racl_free_rule_counts(alloc: Global, counts: &mut RuleCountsHandle)
    requires { HasPlace counts.old.place }
    ensures { content_in counts.new.place ≡ Empty }
{
    drop(counts.take(alloc));
}
