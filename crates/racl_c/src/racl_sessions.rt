//! What C calls to close a family's table, and to read the sessions that it had.
ghost use Rattle.std.specs.Prelude.{◌≡◌, ◌⊎◌};
ghost use Rattle.packet_view.specs.declared.tuple.Family.TheVariants.{V4, V6};
ghost use Rattle.racl_c.specs.Closings.{CloseTold, HasSessions, IsListRefused, SessionCountTold, SessionTold};
ghost use Rattle.racl_c.specs.Contents.{HasJudge};
ghost use Rattle.racl_c.specs.Handles.{HasPlace, content_in};
ghost use Rattle.racl_c.specs.declared.content_calls.Content.TheVariants.{Empty};

use crate::answer_numbers::{DONE, MEMORY};
use crate::content_calls::Content;
use crate::handle::{Handle, Place, SessionsHandle};
use crate::stored_session::StoredSession;
use bihash_words::{LargeV4, LargeV6, Shape, ShapeV4, ShapeV6};
use packet_view::Family;
use std::alloc::Global;

/// Closes the table of IPv4 flows, over which the judge must be alone, and opens a new one. The list has the sessions then.
#[unsafe(no_mangle)]
pub extern "C" fn racl_close_ipv4(
    alloc: Global,
    handle: &mut Handle,
    list: &mut SessionsHandle,
) -> u32
    requires { HasJudge (content_in handle.old.place) }
    ensures { IsListRefused (content_in handle.old.place) (content_in handle.new.place)
        (content_in list.old.place) (content_in list.new.place) result
        ⊎ CloseTold ⟦<ShapeV4 as Shape>⟧ ⟦<ShapeV6 as Shape>⟧ ⟦<LargeV4 as Shape>⟧ ⟦<LargeV6 as Shape>⟧ V4
        (content_in handle.old.place) (content_in handle.new.place) (content_in list.old.place) (content_in list.new.place) result }
{
    let Some(mut new) = Place::empty(alloc) else {
        return MEMORY;
    };
    let mut place = handle.take(alloc);
    let listed: &mut Content = &mut new.as_mut().content;
    let answer = place.as_mut().content.close(alloc, Family::V4, listed);
    handle.put(place);
    if answer == DONE {
        list.put(new);
    }
    answer
}

/// Closes the table of IPv6 flows, over which the judge must be alone, and opens a new one. The list has the sessions then.
#[unsafe(no_mangle)]
pub extern "C" fn racl_close_ipv6(
    alloc: Global,
    handle: &mut Handle,
    list: &mut SessionsHandle,
) -> u32
    requires { HasJudge (content_in handle.old.place) }
    ensures { IsListRefused (content_in handle.old.place) (content_in handle.new.place)
        (content_in list.old.place) (content_in list.new.place) result
        ⊎ CloseTold ⟦<ShapeV4 as Shape>⟧ ⟦<ShapeV6 as Shape>⟧ ⟦<LargeV4 as Shape>⟧ ⟦<LargeV6 as Shape>⟧ V6
        (content_in handle.old.place) (content_in handle.new.place) (content_in list.old.place) (content_in list.new.place) result }
{
    let Some(mut new) = Place::empty(alloc) else {
        return MEMORY;
    };
    let mut place = handle.take(alloc);
    let listed: &mut Content = &mut new.as_mut().content;
    let answer = place.as_mut().content.close(alloc, Family::V6, listed);
    handle.put(place);
    if answer == DONE {
        list.put(new);
    }
    answer
}

/// How many sessions a closed table had.
#[unsafe(no_mangle)]
pub extern "C" fn racl_session_count(alloc: Global, list: &mut SessionsHandle) -> u64
    requires { HasSessions (content_in list.old.place) }
    ensures told { SessionCountTold (content_in list.old.place) result }
    ensures same { content_in list.new.place ≡ content_in list.old.place }
{
    let place = list.take(alloc);
    let count = place.as_ref().content.session_count();
    list.put(place);
    count
}

/// The session of a closed table at a place, counted from 0, where there is one: 1 or 0.
#[unsafe(no_mangle)]
pub extern "C" fn racl_session_at(
    alloc: Global,
    list: &mut SessionsHandle,
    at: u64,
    session: &mut StoredSession,
) -> u32
    requires { HasSessions (content_in list.old.place) }
    ensures told { SessionTold (content_in list.old.place) at session.old session.new result }
    ensures same { content_in list.new.place ≡ content_in list.old.place }
{
    let place = list.take(alloc);
    let found = place.as_ref().content.session(at);
    list.put(place);
    session.give(found)
}

/// Lets go of the sessions of a closed table.
#[unsafe(no_mangle)]
pub extern "C" fn racl_free_sessions(alloc: Global, list: &mut SessionsHandle)
    requires { HasPlace list.old.place }
    ensures { content_in list.new.place ≡ Empty }
{
    drop(list.take(alloc));
}
