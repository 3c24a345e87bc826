//! What follows from the definitions, for every flow. The functions do nothing: their contracts are the laws.
ghost use Rattle.std.specs.Prelude.{◌≡◌, ◌≢◌, ◌+◌, IsSome};
ghost use Rattle.packet_view.specs.Tuples.{TupleFacts, tuple_facts};
ghost use Rattle.session_state.specs.Flows.{IsFlow, flow_of, receiver_of, sender_of};
ghost use Rattle.session_state.specs.SameFlow.{AreFlows, IsAnswer, IsTuple, SameFlow};
ghost use Rattle.session_state.specs.declared.flow.Flow.{Flow};

use packet_view::Tuple;

/// Every five-tuple is within the ranges that the laws of flows ask for.
pub fn tuples_are_in_range(tuple: Tuple)
    ensures { IsTuple (tuple_facts tuple) }
{}

/// Packets have one key exactly where they are of one flow.
#[tactic(auto, using(crate::proofs::SameFlowLemmas::key_of_same_flow, crate::proofs::SameFlowLemmas::take_part))]
pub fn keys_tell_flows()
    ensures one_key { (a b : TupleFacts) (f g : Flow) → AreFlows a b f g → SameFlow a b → f.key ≡ g.key }
    ensures one_flow { (a b : TupleFacts) (f g : Flow) → AreFlows a b f g → f.key ≡ g.key → SameFlow a b }
    ensures take_part { (a b : TupleFacts) → SameFlow a b → IsSome (flow_of a) × IsSome (flow_of b) }
{}

/// Packets of one flow have one side exactly where one end sends both. Between equal ends that is
/// side 0.
#[tactic(auto, using(crate::proofs::SideLemmas::side_of_sender, crate::proofs::SideLemmas::sender_of_side, crate::proofs::SideLemmas::side_of_tie))]
pub fn sides_tell_senders()
    ensures one_side { (a b : TupleFacts) (f g : Flow) → AreFlows a b f g → SameFlow a b
        → sender_of a ≡ sender_of b → f.side ≡ g.side }
    ensures one_sender { (a b : TupleFacts) (f g : Flow) → AreFlows a b f g → SameFlow a b
        → f.side ≡ g.side → sender_of a ≡ sender_of b }
    ensures tie { (a : TupleFacts) (f : Flow) → IsFlow a f → sender_of a ≡ receiver_of a → f.side ≡ 0 }
{}

/// A packet and its answer have one flow key, and opposite sides where the ends differ.
pub fn both_directions_share_a_key()
    ensures one_key { (a b : TupleFacts) (f g : Flow) → AreFlows a b f g → IsAnswer a b → f.key ≡ g.key }
    ensures opposite { (a b : TupleFacts) (f g : Flow) → AreFlows a b f g → IsAnswer a b
        → sender_of a ≢ receiver_of a → f.side + g.side ≡ 1 }
{}
