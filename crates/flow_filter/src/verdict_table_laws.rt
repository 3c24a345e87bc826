//! Each verdict is given exactly where its row of the table of verdicts holds. The function does nothing: its contract
//! is the law.
ghost use Rattle.std.specs.Prelude.{◌≡◌, ◌↔◌, ◌++◌, ℕ, List, [], ◌∷◌, Some, None};
ghost use Rattle.packet_view.specs.Frames as frames;
ghost use Rattle.packet_view.specs.Tuples.{TupleFacts};
ghost use Rattle.bihash_words.specs.Maps.{Pairs};
ghost use Rattle.session_state.specs.declared.timeouts.Timeouts.{Timeouts};
ghost use Rattle.session_state.specs.declared.verdict.Verdict.{Verdict};
ghost use Rattle.session_state.specs.declared.verdict.Verdict.TheVariants.{Malformed, NotIp, Short};
ghost use Rattle.flow_filter.specs.Judged.{Asks, IsAsked, Judged, verdict_on, verdict_with};
ghost use Rattle.flow_filter.specs.OneThread.{Home, IsOneThread, Layout};
ghost use Rattle.flow_filter.specs.Readings.{Ruled, Ruling};
ghost use Rattle.flow_filter.specs.Updates.{Update, update_of};
ghost use Rattle.flow_filter.specs.VerdictTable.{IsFlowRow, IsFrameRow, IsMet, IsMetAt, IsRuleRow, Meeting};

/// A packet gets a verdict exactly where that verdict's row of the table holds: of a packet with a flow, of one that is
/// IP and has none, and of a frame alone. Where packets are judged one after the other, the bucket holds what those
/// before left.
pub fn each_verdict_has_its_row()
    ensures flow { (times : Timeouts) (moment : ℕ) (tuple : TupleFacts) (ruling : Ruling) (u : Update) (at : Meeting) (verdict : Verdict)
        → update_of times (Ruled moment tuple ruling) ≡ Some u → IsMet u at
        → (verdict_with (Ruled moment tuple ruling) (Asks u at.event) ≡ verdict) ↔ IsFlowRow u ruling at verdict }
    ensures no_flow { (times : Timeouts) (moment : ℕ) (tuple : TupleFacts) (ruling : Ruling) (j : Judged) (verdict : Verdict) → IsAsked times j
        → j.reading ≡ Ruled moment tuple ruling → update_of times j.reading ≡ None → (verdict_on j ≡ verdict) ↔ IsRuleRow ruling verdict }
    ensures not_ip { IsFrameRow frames.NotIp NotIp }
    ensures malformed { IsFrameRow frames.Malformed Malformed }
    ensures short { IsFrameRow frames.Short Short }
    ensures in_order { (l : Layout) (times : Timeouts) (opening : Home → Pairs) (before after : List Judged) (j : Judged) (moment : ℕ)
        (tuple : TupleFacts) (ruling : Ruling) (u : Update) → IsOneThread l times opening (before ++ j ∷ after)
        → j.reading ≡ Ruled moment tuple ruling → update_of times j.reading ≡ Some u → (at : Meeting)
        × IsMetAt l opening before j u at × ((verdict : Verdict) → (verdict_on j ≡ verdict) ↔ IsFlowRow u ruling at verdict) }
{}
