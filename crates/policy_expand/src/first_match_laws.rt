//! What a written policy decides. The functions do nothing: their contracts are the laws.
ghost use Rattle.std.specs.Prelude.{◌≡◌, ℕ, List};
ghost use Rattle.std.specs.Str.Lines.{lines};
ghost use Rattle.packet_view.specs.Tuples.{TupleFacts};
ghost use Rattle.packet_view.specs.declared.tuple.Direction.{Direction};
ghost use Rattle.acl_policy.specs.Matching.{Decides, DecidesByDefault};
ghost use Rattle.acl_policy.specs.Policies.{PolicyFacts, SayPolicy, rules_of, section_of};
ghost use Rattle.acl_policy.specs.declared.rule.Action.{Action};
ghost use Rattle.policy_expand.specs.Expansions.{AreExpanded};
ghost use Rattle.policy_expand.specs.FirstMatch.{AreAlike, DecidesFirst, HaveWords, joined};
ghost use Rattle.policy_expand.specs.Sections.{AreOfInterface};
ghost use Rattle.policy_expand.specs.Sources.{SourceFacts};
ghost use Rattle.policy_expand.specs.Written.{LineWritten};
ghost use Rattle.policy_expand.specs.declared.set_lists.NamedSet.{NamedSet};
ghost use Rattle.policy_expand.specs.declared.visible_word.Word.{Word};

/// Where plain lines that say a policy match and begin sections as written lines do: each interface has its written lines, the
/// first of its rules that matches is of the first of these that does, and where no rule matches, none of these does.
pub fn written_lines_decide_in_their_order()
    ensures lines { (written : List LineWritten) (plain : List (List (List Word))) (texts : List (List ℕ)) (policy : PolicyFacts) (number : ℕ)
        → AreAlike written plain → HaveWords texts (joined plain) → SayPolicy texts policy → (own : List LineWritten) × AreOfInterface number written own }
    ensures first { (written : List LineWritten) (plain : List (List (List Word))) (texts : List (List ℕ)) (policy : PolicyFacts) (number : ℕ)
        (own : List LineWritten) (direction : Direction) (tuple : TupleFacts) (i : ℕ) (action : Action)
        → AreAlike written plain → HaveWords texts (joined plain) → SayPolicy texts policy → AreOfInterface number written own
        → Decides (rules_of direction (section_of number policy)) tuple i action → DecidesFirst own direction tuple action }
    ensures default { (written : List LineWritten) (plain : List (List (List Word))) (texts : List (List ℕ)) (policy : PolicyFacts) (number : ℕ)
        (own : List LineWritten) (direction : Direction) (tuple : TupleFacts) (action : Action)
        → AreAlike written plain → HaveWords texts (joined plain) → SayPolicy texts policy → AreOfInterface number written own
        → DecidesByDefault (rules_of direction (section_of number policy)) tuple → DecidesFirst own direction tuple action → ⊥ }
{}

/// An expansion's lines are those of the written lines, one group behind the other, and each group matches and begins sections
/// as its written line does.
pub fn expansions_match_line_by_line()
    ensures { (sets : List NamedSet) (texts : List SourceFacts) (news : List NamedSet) (written : List LineWritten) (plain : List (List (List Word)))
        (text : List ℕ) → AreExpanded sets texts news written plain text → AreAlike written plain × HaveWords (lines text) (joined plain) }
{}
