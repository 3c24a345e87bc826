//! Prepared rules, and which of equal ones decides. `tests/run` has what many rules come to.
use super::matching::{later_fragment, rule};
use super::{EVERY, filter_test_refused};
use acl_policy::Action;
use rule_index::RuleIndex;
use std::test::Fail;

/// An index finds the first of several equal rules, in the second word of the rows too.
#[test]
fn first_of_equal_rules(rt: HostRuntime) -> Result<(), Fail> {
    let mut rules = [rule(Action::Deny, 6, EVERY, EVERY, (0, 0)); 140];
    for number in 70..140 {
        rules[number] = rule(Action::Permit, 17, EVERY, EVERY, (0, 0));
    }
    let Ok(index) = RuleIndex::new(rt.alloc(), &rules) else {
        return filter_test_refused();
    };
    for (proto, first) in [
        (6, Some((0, Action::Deny))),
        (17, Some((70, Action::Permit))),
        (1, None),
    ] {
        assert!(rt; index.first_match(&later_fragment(proto)) == first);
    }
    Ok(())
}
