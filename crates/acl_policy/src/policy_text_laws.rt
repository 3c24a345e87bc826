//! Laws of policy texts.
ghost use Rattle.std.specs.Prelude.{◌≡◌, ◌⊎◌, ℕ, List};
ghost use Rattle.acl_policy.specs.declared.policy.PolicyFault.{PolicyFault};
ghost use Rattle.acl_policy.specs.Lines.{IsLine, LineFacts};
ghost use Rattle.acl_policy.specs.Policies.{IsPolicyFault, IsPolicyText, PolicyFacts};

/// A line is read in one way at most. Each text says one policy or has one fault, and never both.
pub fn one_reading()
    ensures line { (line : List ℕ) (a b : LineFacts) → IsLine line a → IsLine line b → a ≡ b }
    ensures some { (text : List ℕ) → ((policy : PolicyFacts) × IsPolicyText text policy)
        ⊎ ((fault : PolicyFault) × IsPolicyFault text fault) }
    ensures policy { (text : List ℕ) (a b : PolicyFacts)
        → IsPolicyText text a → IsPolicyText text b → a ≡ b }
    ensures fault { (text : List ℕ) (a b : PolicyFault)
        → IsPolicyFault text a → IsPolicyFault text b → a ≡ b }
    ensures not_both { (text : List ℕ) (policy : PolicyFacts) (fault : PolicyFault)
        → IsPolicyText text policy → IsPolicyFault text fault → ⊥ }
{}
