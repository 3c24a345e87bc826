//! What readers of lines answer is what the grammar says. The functions do nothing: their contracts are the laws.
ghost use Rattle.std.specs.Prelude.{◌≡◌, ◌↔◌, ◌++◌, ◌∷◌, [], ℕ, List, Ok, Err};
ghost use Rattle.packet_view.specs.declared.tuple.Direction.{Direction};
ghost use Rattle.packet_view.specs.declared.tuple.Family.{Family};
ghost use Rattle.acl_policy.specs.Readers.{IsReaderOf};
ghost use Rattle.acl_policy.specs.declared.policy.PolicyFault.TheVariants.{BadLine, TooMany};
ghost use Rattle.acl_policy.specs.declared.rule.Action.{Action};
ghost use Rattle.acl_policy.specs.Lines.{IsInterface, IsLine, action_word, direction_word, family_word};
ghost use Rattle.acl_policy.specs.Policies.{IsSurplus, IsWrong, PolicyFacts, SayPolicy, empty_section};
ghost use Rattle.acl_policy.specs.inner.Reading.Lines.{action_in, direction_in, family_in, interface_in, line_in};
ghost use Rattle.acl_policy.specs.inner.Reading.Policies.{DraftFacts, line_added, policy_so_far};

/// What `direction_of_word`, `action_of_word`, `family_of_word`, `interface_of_word` and `line_of` answer by their
/// contracts is a value exactly where the grammar relates that value to the word or the line.
pub fn lines_are_read_as_the_grammar_says()
    ensures direction { IsReaderOf (λ (word : List ℕ) (direction : Direction). word ≡ direction_word direction) direction_in }
    ensures action { IsReaderOf (λ (word : List ℕ) (action : Action). word ≡ action_word action) action_in }
    ensures family { IsReaderOf (λ (word : List ℕ) (family : Family). word ≡ family_word family) family_in }
    ensures interface { IsReaderOf IsInterface interface_in }
    ensures line { IsReaderOf IsLine line_in }
{}

/// `empty_draft` is the policy that no line says. Of the policy that some lines say `read_policy_line` makes the policy
/// that these and one line more say, or finds this line at fault, both exactly where the grammar has it so.
pub fn policies_grow_as_the_grammar_says()
    ensures begins { SayPolicy [] (policy_so_far (record { done = []; current = empty_section 0 })) }
    ensures adds { (number : ℕ) (texts : List (List ℕ)) (line : List ℕ) (draft : DraftFacts) (policy : PolicyFacts)
        → SayPolicy texts (policy_so_far draft) → SayPolicy (texts ++ line ∷ []) policy
        ↔ ((next : DraftFacts) × (line_added number draft (line_in line) ≡ Ok next) × (policy ≡ policy_so_far next)) }
    ensures wrong { (number : ℕ) (texts : List (List ℕ)) (line : List ℕ) (draft : DraftFacts) → SayPolicy texts (policy_so_far draft)
        → (line_added number draft (line_in line) ≡ Err (BadLine number)) ↔ IsWrong (policy_so_far draft) line }
    ensures surplus { (number : ℕ) (texts : List (List ℕ)) (line : List ℕ) (draft : DraftFacts) → SayPolicy texts (policy_so_far draft)
        → (line_added number draft (line_in line) ≡ Err (TooMany number)) ↔ IsSurplus (policy_so_far draft) line }
{}
