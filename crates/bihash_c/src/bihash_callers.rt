//! What C calls on the callers of a table.
ghost use Rattle.std.specs.Prelude.{◌≡◌};
ghost use Rattle.bihash_table.specs.Calls.{TellsLone};
ghost use Rattle.bihash_c.specs.AnyContents.{AreOfOneTable, Calls, CreateTold, HasCaller, JoinTold, MeetTold, SplitTold, StampTold, nothing};
ghost use Rattle.bihash_c.specs.Handles.{content_in};
ghost use Rattle.bihash_c.specs.Kinds.{sizes_in};

use crate::answer_numbers::{BAD_OPTIONS, DONE, MEMORY, Stamp};
use crate::any_content_callers::AnyContent;
use crate::handle::{Handle, Place};
use crate::options::{Options, kind_of};
use std::alloc::Global;

/// A new table of the kind that is meant, with its first caller. The rest are the bytes of the options behind those that are known.
#[unsafe(no_mangle)]
pub extern "C" fn bihash_create_with(
    alloc: Global,
    handle: &mut Handle,
    options: &Options,
    rest: &[u8],
) -> u32
    ensures { CreateTold options.now rest.now (content_in handle.old.place) (content_in handle.new.place) result }
{
    let Some(kind) = kind_of(options, rest) else {
        return BAD_OPTIONS;
    };
    let Some(content) = AnyContent::first_caller(alloc, kind) else {
        return MEMORY;
    };
    match Box::new(alloc, Place { content }) {
        Ok(place) => {
            handle.put(place);
            DONE
        }
        Err(_) => MEMORY,
    }
}

/// A new caller of the same table.
#[unsafe(no_mangle)]
pub extern "C" fn bihash_split(alloc: Global, handle: &mut Handle, fresh: &mut Handle) -> u32
    requires { HasCaller (content_in handle.old.place) }
    ensures { SplitTold (content_in handle.old.place) (content_in handle.new.place)
        (content_in fresh.old.place) (content_in fresh.new.place) result }
{
    let Some(mut new) = Place::empty(alloc) else {
        return MEMORY;
    };
    let mut place = handle.take(alloc);
    let other: &mut AnyContent = &mut new.as_mut().content;
    let answer = place.as_mut().content.split(alloc, other);
    handle.put(place);
    if answer == DONE {
        fresh.put(new);
    }
    answer
}

/// Ends the caller `other`, whose numbers the first one has then.
#[unsafe(no_mangle)]
pub extern "C" fn bihash_join(alloc: Global, handle: &mut Handle, other: &mut Handle)
    requires { AreOfOneTable (content_in handle.old.place) (content_in other.old.place) }
    ensures joined { JoinTold (content_in handle.old.place) (content_in other.old.place) (content_in handle.new.place) }
    ensures gone { content_in other.new.place ≡ nothing }
{
    let mut place = handle.take(alloc);
    let other = Box::into_inner(other.take(alloc));
    place.as_mut().content.join(other.content);
    handle.put(place);
}

/// Tells two callers of one table what either knows.
#[unsafe(no_mangle)]
pub extern "C" fn bihash_meet(alloc: Global, handle: &mut Handle, other: &mut Handle)
    requires { AreOfOneTable (content_in handle.old.place) (content_in other.old.place) }
    ensures { MeetTold (content_in handle.old.place) (content_in other.old.place)
        (content_in handle.new.place) (content_in other.new.place) }
{
    let mut place = handle.take(alloc);
    let mut met = other.take(alloc);
    place.as_mut().content.meet(&mut met.as_mut().content);
    handle.put(place);
    other.put(met);
}

/// Whether the caller has every number that was made.
#[unsafe(no_mangle)]
pub extern "C" fn bihash_is_lone(alloc: Global, handle: &mut Handle) -> bool
    requires { HasCaller (content_in handle.old.place) }
    ensures { Calls (content_in handle.old.place) (content_in handle.new.place)
        (λ kind s t. TellsLone (sizes_in kind) s t result) }
{
    let mut place = handle.take(alloc);
    let is_lone = place.as_mut().content.is_lone();
    handle.put(place);
    is_lone
}

/// The bucket and the stamp of the caller's last answered call.
#[unsafe(no_mangle)]
pub extern "C" fn bihash_stamp_of(alloc: Global, handle: &mut Handle) -> Stamp
    requires { HasCaller (content_in handle.old.place) }
    ensures told { StampTold (content_in handle.old.place) result }
    ensures same { content_in handle.new.place ≡ content_in handle.old.place }
{
    let place = handle.take(alloc);
    let stamp = place.as_ref().content.stamp();
    handle.put(place);
    stamp
}
