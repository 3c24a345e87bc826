//! What a check means for a run.
ghost use Rattle.std.specs.Prelude.{◌≡◌, ℕ, List, []};
ghost use Rattle.acl_policy.specs.Policies.{IsPolicyFault, IsPolicyText, PolicyFacts};
ghost use Rattle.acl_policy.specs.declared.policy.PolicyFault.{PolicyFault};
ghost use Rattle.policy_check.specs.Complaints.{ComplaintFacts, IsChecked, IsToldFirst};

/// A text is complained of exactly where a run refuses it, and the first complaint is of the line that a run tells.
pub fn checks_agree_with_runs()
    ensures right { (text : List ℕ) (policy said : PolicyFacts) (cs : List ComplaintFacts)
        → IsPolicyText text policy → IsChecked text cs said → (cs ≡ []) × (said ≡ policy) }
    ensures none { (text : List ℕ) (said : PolicyFacts) (cs : List ComplaintFacts)
        → IsChecked text cs said → cs ≡ [] → IsPolicyText text said }
    ensures first { (text : List ℕ) (fault : PolicyFault) (said : PolicyFacts) (cs : List ComplaintFacts)
        → IsPolicyFault text fault → IsChecked text cs said → IsToldFirst cs fault }
{}
