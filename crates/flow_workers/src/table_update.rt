//! One update of the table of a key's family, which makes room where values are expired.
ghost use Rattle.std.specs.Prelude.{◌≡◌};
ghost use Rattle.flow_filter.specs.OneThread.{layout_of};
ghost use Rattle.flow_dealing.specs.Dealings.{hash_in};
ghost use Rattle.flow_workers.specs.Calls.{MayAsk};
ghost use Rattle.flow_workers.specs.inner.Updates.{TellsFlow};

use crate::session_tables::{Callers, Tables};
use crate::update_tries::{HashedWords, Tries};
use bihash_words::{Expiry, Patch, Reply, Shape};
use session_state::FlowKey;

/// A flow's key, and its hash in the table of its family.
#[derive(Clone, Copy)]
pub struct HashedFlowKey {
    pub key: FlowKey,
    pub hash: u64,
}

/// An update of the key.
#[inline(always)]
pub fn update<A: Shape, B: Shape, P: Patch, E: Expiry, T: Tries>(
    tries: &T,
    tables: &Tables<A, B>,
    callers: &mut Callers<A, B>,
    hashed: HashedFlowKey,
    patch: &P,
    expiry: &E,
) -> Result<Reply, T::Refusal>
    requires may { MayAsk tables.now callers.old }
    requires hash { hashed.hash ≡ hash_in (layout_of ⟦<A as Shape>⟧ ⟦<B as Shape>⟧) hashed.key }
    ensures { TellsFlow T.took tables.now callers.old callers.new hashed.key (P.decision patch.now)
        (E.is_expired expiry.now) result }
{
    let hash = hashed.hash;
    match hashed.key {
        FlowKey::Four(words) => {
            let words = words.as_slice();
            let key = HashedWords { words, hash };
            tries.update_words(&tables.four, &mut callers.four, &key, patch, expiry)
        }
        FlowKey::Six(words) => {
            let words = words.as_slice();
            let key = HashedWords { words, hash };
            tries.update_words(&tables.six, &mut callers.six, &key, patch, expiry)
        }
    }
}
