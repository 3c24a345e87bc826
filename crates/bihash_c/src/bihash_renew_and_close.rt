//! What C calls at the end of a table: it is renewed, or closed and its pairs read, and its handles
//! are let go of.
ghost use Rattle.std.specs.Prelude.{◌≡◌};
ghost use Rattle.bihash_c.specs.AnyContents.{CloseTold, CountTold, GivesPair, HasCaller, HasPairs, RenewTold, nothing};
ghost use Rattle.bihash_c.specs.Handles.{HasPlace, content_in};

use crate::handle::Handle;
use crate::pair::Pair;
use std::alloc::Global;

/// Opens the table again, which its caller must be alone on.
#[unsafe(no_mangle)]
pub extern "C" fn bihash_renew(alloc: Global, handle: &mut Handle) -> u32
    requires { HasCaller (content_in handle.old.place) }
    ensures { RenewTold (content_in handle.old.place) (content_in handle.new.place) result }
{
    let mut place = handle.take(alloc);
    let answer = place.as_mut().content.renew(alloc);
    handle.put(place);
    answer
}

/// Ends the table, which its caller must be alone on. The handle has its pairs then.
#[unsafe(no_mangle)]
pub extern "C" fn bihash_close(alloc: Global, handle: &mut Handle) -> u32
    requires { HasCaller (content_in handle.old.place) }
    ensures { CloseTold (content_in handle.old.place) (content_in handle.new.place) result }
{
    let mut place = handle.take(alloc);
    let answer = place.as_mut().content.close(alloc);
    handle.put(place);
    answer
}

/// How many pairs of its closed table the handle has.
#[unsafe(no_mangle)]
pub extern "C" fn bihash_pair_count(alloc: Global, handle: &mut Handle) -> u64
    requires { HasPairs (content_in handle.old.place) }
    ensures told { CountTold (content_in handle.old.place) result }
    ensures same { content_in handle.new.place ≡ content_in handle.old.place }
{
    let place = handle.take(alloc);
    let count = place.as_ref().content.pair_count();
    handle.put(place);
    count
}

/// The pair of the closed table at a place, counted from 0, where there is one.
#[unsafe(no_mangle)]
pub extern "C" fn bihash_pair_at(
    alloc: Global,
    handle: &mut Handle,
    at: u64,
    pair: &mut Pair,
) -> bool
    requires { HasPairs (content_in handle.old.place) }
    ensures told { GivesPair (content_in handle.old.place) at pair.old pair.new result }
    ensures same { content_in handle.new.place ≡ content_in handle.old.place }
{
    let place = handle.take(alloc);
    let found = place.as_ref().content.pair(at);
    handle.put(place);
    pair.give(found)
}

/// Lets go of what the handle has: a caller, which isn't joined then, or the pairs of a closed table.
#[unsafe(no_mangle)]
pub extern "C" fn bihash_free(alloc: Global, handle: &mut Handle)
    requires { HasPlace handle.old.place }
    ensures { content_in handle.new.place ≡ nothing }
{
    drop(handle.take(alloc));
}
