//! Flows with the hashes of their keys.
ghost use Rattle.std.specs.Prelude.{◌≡◌, length};
ghost use Rattle.flow_filter.specs.OneThread.{IsFlowLayout, layout_of};
ghost use Rattle.flow_dealing.specs.Dealings.{hash_in};

use bihash_words::Shape;
use session_state::{Flow, FlowKey};

/// A packet's flow, and the hash of the flow's key in the table of its family. Packets are dealt by it, and judged by it. Of a
/// plain frame it is made once; of another one where it is dealt, and once more where it is judged by a thread of its own.
#[derive(Clone, Copy)]
pub struct HashedFlow {
    /// `None`: the packet takes no part in sessions.
    pub flow: Option<Flow>,
    /// Says nothing without a flow.
    pub hash: u64,
}

// The hash of a key by its words.
#[inline(always)]
fn words_hash<S: Shape>(words: &[u64]) -> u64
    requires { length words.now ≡ S.WORDS }
    ensures { result ≡ S.hash_of_words words.now }
{
    S::hash(&S::key(words))
}

/// The hash of a flow's key in the table of its family.
#[inline(always)]
pub fn key_hash<A: Shape, B: Shape>(key: FlowKey) -> u64
    requires { IsFlowLayout (layout_of ⟦<A as Shape>⟧ ⟦<B as Shape>⟧) }
    ensures { result ≡ hash_in (layout_of ⟦<A as Shape>⟧ ⟦<B as Shape>⟧) key }
{
    match key {
        FlowKey::Four(words) => words_hash::<A>(words.as_slice()),
        FlowKey::Six(words) => words_hash::<B>(words.as_slice()),
    }
}

impl HashedFlow {
    ghost use Rattle.std.specs.Prelude.{◌≡◌};
    ghost use Rattle.flow_filter.specs.OneThread.{IsFlowLayout, layout_of};
    ghost use Rattle.flow_dealing.specs.HashedFlows.{IsHashed};

    /// A packet's flow with its hash.
    #[inline(always)]
    pub fn of<A: Shape, B: Shape>(flow: Option<Flow>) -> HashedFlow
        requires { IsFlowLayout (layout_of ⟦<A as Shape>⟧ ⟦<B as Shape>⟧) }
        ensures flow { result.flow ≡ flow }
        ensures hashed { IsHashed (layout_of ⟦<A as Shape>⟧ ⟦<B as Shape>⟧) result }
    {
        let hash = match &flow {
            Some(flow) => key_hash::<A, B>(flow.key),
            None => 0,
        };
        HashedFlow { flow, hash }
    }
}
