//! What holds of each list of rules. The functions do nothing: their contracts are the laws.
ghost use Rattle.std.specs.Prelude.{◌≡◌, ℕ, List, Option};
ghost use Rattle.acl_policy.specs.declared.rule.Action.{Action};
ghost use Rattle.acl_policy.specs.Matching.{IsRuling};
ghost use Rattle.acl_policy.specs.Rules.{RuleFacts};
ghost use Rattle.packet_view.specs.Tuples.{TupleFacts};

/// A list of rules decides each packet, and in one way.
#[tactic(auto, using(crate::proofs::RulingLaws::some_ruling_of, crate::proofs::RulingLemmas::one_ruling))]
pub fn rules_decide_each_packet()
    ensures some { (rules : List RuleFacts) (tuple : TupleFacts)
        → (ruling : Option (ℕ × Action)) × IsRuling rules tuple ruling }
    ensures one { (rules : List RuleFacts) (tuple : TupleFacts) (a b : Option (ℕ × Action))
        → IsRuling rules tuple a → IsRuling rules tuple b → b ≡ a }
{}
