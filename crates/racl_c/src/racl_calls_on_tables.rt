//! What C calls on the tables of a judge: it is told of another one, and its tables are swept.
ghost use Rattle.std.specs.Prelude.{◌≡◌};
ghost use Rattle.flow_filter.specs.OneThread.{layout_of};
ghost use Rattle.racl_c.specs.Contents.{AreOfOneTable, Calls, HasJudge};
ghost use Rattle.racl_c.specs.Meetings.{LoneTold, MeetTold, SweepTold, UnusedTold};
ghost use Rattle.racl_c.specs.Handles.{content_in};
ghost use Rattle.packet_view.specs.declared.tuple.Family.TheVariants.{V4, V6};

use crate::content_met_and_swept::Sweep;
use crate::handle::Handle;
use bihash_words::{LargeV4, LargeV6, Shape, ShapeV4, ShapeV6};
use packet_view::Family;
use std::alloc::Global;

/// Tells two judges over the same tables what either knows of them.
#[unsafe(no_mangle)]
pub extern "C" fn racl_meet(alloc: Global, handle: &mut Handle, other: &mut Handle)
    requires { AreOfOneTable (content_in handle.old.place) (content_in other.old.place) }
    ensures { MeetTold (layout_of ⟦<ShapeV4 as Shape>⟧ ⟦<ShapeV6 as Shape>⟧)
        (layout_of ⟦<LargeV4 as Shape>⟧ ⟦<LargeV6 as Shape>⟧) (content_in handle.old.place)
        (content_in other.old.place) (content_in handle.new.place) (content_in other.new.place) }
{
    let mut place = handle.take(alloc);
    let mut met = other.take(alloc);
    place.as_mut().content.meet(&mut met.as_mut().content);
    handle.put(place);
    other.put(met);
}

/// Whether the judge is alone over its tables, 1 or 0.
#[unsafe(no_mangle)]
pub extern "C" fn racl_is_lone(alloc: Global, handle: &mut Handle) -> u32
    requires { HasJudge (content_in handle.old.place) }
    ensures { Calls (content_in handle.old.place) (content_in handle.new.place)
        (LoneTold (layout_of ⟦<ShapeV4 as Shape>⟧ ⟦<ShapeV6 as Shape>⟧) result)
        (LoneTold (layout_of ⟦<LargeV4 as Shape>⟧ ⟦<LargeV6 as Shape>⟧) result) }
{
    let mut place = handle.take(alloc);
    let answer = place.as_mut().content.is_lone();
    handle.put(place);
    answer
}

/// Looks in the table of IPv4 flows for sessions that have ended by this second, which go.
#[unsafe(no_mangle)]
pub extern "C" fn racl_sweep_ipv4(
    alloc: Global,
    handle: &mut Handle,
    from: u64,
    to: u64,
    moment: u32,
    most: u64,
) -> Sweep
    requires { HasJudge (content_in handle.old.place) }
    ensures { Calls (content_in handle.old.place) (content_in handle.new.place)
        (SweepTold ⟦<ShapeV4 as Shape>⟧ ⟦<ShapeV6 as Shape>⟧ V4 moment from to most result)
        (SweepTold ⟦<LargeV4 as Shape>⟧ ⟦<LargeV6 as Shape>⟧ V4 moment from to most result) }
{
    let mut place = handle.take(alloc);
    let content = &mut place.as_mut().content;
    let swept = content.sweep(Family::V4, from, to, moment, most);
    handle.put(place);
    swept
}

/// How many pages of the table of IPv4 flows were never handed out.
#[unsafe(no_mangle)]
pub extern "C" fn racl_unused_ipv4(alloc: Global, handle: &mut Handle) -> u64
    requires { HasJudge (content_in handle.old.place) }
    ensures told { UnusedTold (layout_of ⟦<ShapeV4 as Shape>⟧ ⟦<ShapeV6 as Shape>⟧)
        (layout_of ⟦<LargeV4 as Shape>⟧ ⟦<LargeV6 as Shape>⟧) V4 (content_in handle.old.place) result }
    ensures same { content_in handle.new.place ≡ content_in handle.old.place }
{
    let place = handle.take(alloc);
    let count = place.as_ref().content.unused_pages(Family::V4);
    handle.put(place);
    count
}

/// Looks in the table of IPv6 flows for sessions that have ended by this second, which go.
#[unsafe(no_mangle)]
pub extern "C" fn racl_sweep_ipv6(
    alloc: Global,
    handle: &mut Handle,
    from: u64,
    to: u64,
    moment: u32,
    most: u64,
) -> Sweep
    requires { HasJudge (content_in handle.old.place) }
    ensures { Calls (content_in handle.old.place) (content_in handle.new.place)
        (SweepTold ⟦<ShapeV4 as Shape>⟧ ⟦<ShapeV6 as Shape>⟧ V6 moment from to most result)
        (SweepTold ⟦<LargeV4 as Shape>⟧ ⟦<LargeV6 as Shape>⟧ V6 moment from to most result) }
{
    let mut place = handle.take(alloc);
    let content = &mut place.as_mut().content;
    let swept = content.sweep(Family::V6, from, to, moment, most);
    handle.put(place);
    swept
}

/// How many pages of the table of IPv6 flows were never handed out.
#[unsafe(no_mangle)]
pub extern "C" fn racl_unused_ipv6(alloc: Global, handle: &mut Handle) -> u64
    requires { HasJudge (content_in handle.old.place) }
    ensures told { UnusedTold (layout_of ⟦<ShapeV4 as Shape>⟧ ⟦<ShapeV6 as Shape>⟧)
        (layout_of ⟦<LargeV4 as Shape>⟧ ⟦<LargeV6 as Shape>⟧) V6 (content_in handle.old.place) result }
    ensures same { content_in handle.new.place ≡ content_in handle.old.place }
{
    let place = handle.take(alloc);
    let count = place.as_ref().content.unused_pages(Family::V6);
    handle.put(place);
    count
}
