//! What is behind a handle: closed family by family, and the sessions that a closed table had.
ghost use Rattle.std.specs.Prelude.{◌≡◌};
ghost use Rattle.packet_view.specs.declared.tuple.Family.TheVariants.{V4, V6};
ghost use Rattle.racl_c.specs.Closings.{CloseTold, HasSessions, ListsFour, ListsSix, SessionCountTold, SessionFound};
ghost use Rattle.racl_c.specs.Contents.{HasJudge};

use crate::answer_numbers::{DONE, end_refusal};
use crate::content_calls::Content;
use crate::session_list_read::{ClosedPairs, SessionList};
use crate::stored_session::StoredSession;
use bihash_words::{LargeV4, LargeV6, Shape, ShapeV4, ShapeV6};
use packet_view::Family;
use session_state::Timeouts;
use std::alloc::Global;
use std::mem;

// Lists the pairs of a closed table of IPv4 flows.
fn list_four(list: &mut Content, times: Timeouts, pairs: Vec<([u64; 2], u64)>) -> u32
    ensures done { result ≡ 0 }
    ensures listed { ListsFour times pairs.items list.new }
{
    let pairs = ClosedPairs::Four(pairs);
    *list = Content::Sessions(SessionList { times, pairs });
    DONE
}

// Lists the pairs of a closed table of IPv6 flows.
fn list_six(list: &mut Content, times: Timeouts, pairs: Vec<([u64; 5], u64)>) -> u32
    ensures done { result ≡ 0 }
    ensures listed { ListsSix times pairs.items list.new }
{
    let pairs = ClosedPairs::Six(pairs);
    *list = Content::Sessions(SessionList { times, pairs });
    DONE
}

impl Content {
    // Closes the table of IPv4 flows, of which a new one is opened.
    fn close_four(&mut self, alloc: Global, list: &mut Content) -> u32
        requires { HasJudge self.old }
        ensures { CloseTold ⟦<ShapeV4 as Shape>⟧ ⟦<ShapeV6 as Shape>⟧ ⟦<LargeV4 as Shape>⟧ ⟦<LargeV6 as Shape>⟧ V4
            self.old self.new list.old list.new result }
    {
        match mem::replace(self, Content::Empty) {
            Content::Standard(judge) => {
                let times = judge.times();
                let (closed, judge) = judge.close_four(alloc);
                *self = Content::Standard(judge);
                match closed {
                    Ok(pairs) => list_four(list, times, pairs),
                    Err(fault) => end_refusal(fault),
                }
            }
            Content::Large(judge) => {
                let times = judge.times();
                let (closed, judge) = judge.close_four(alloc);
                *self = Content::Large(judge);
                match closed {
                    Ok(pairs) => list_four(list, times, pairs),
                    Err(fault) => end_refusal(fault),
                }
            }
            _ => unreachable!(),
        }
    }

    // Closes the table of IPv6 flows, of which a new one is opened.
    fn close_six(&mut self, alloc: Global, list: &mut Content) -> u32
        requires { HasJudge self.old }
        ensures { CloseTold ⟦<ShapeV4 as Shape>⟧ ⟦<ShapeV6 as Shape>⟧ ⟦<LargeV4 as Shape>⟧ ⟦<LargeV6 as Shape>⟧ V6
            self.old self.new list.old list.new result }
    {
        match mem::replace(self, Content::Empty) {
            Content::Standard(judge) => {
                let times = judge.times();
                let (closed, judge) = judge.close_six(alloc);
                *self = Content::Standard(judge);
                match closed {
                    Ok(pairs) => list_six(list, times, pairs),
                    Err(fault) => end_refusal(fault),
                }
            }
            Content::Large(judge) => {
                let times = judge.times();
                let (closed, judge) = judge.close_six(alloc);
                *self = Content::Large(judge);
                match closed {
                    Ok(pairs) => list_six(list, times, pairs),
                    Err(fault) => end_refusal(fault),
                }
            }
            _ => unreachable!(),
        }
    }

    /// Closes this family's table, of which a new one is opened: its sessions are at `list`, which is left as it is where that
    /// is refused.
    pub fn close(&mut self, alloc: Global, family: Family, list: &mut Content) -> u32
        requires { HasJudge self.old }
        ensures { CloseTold ⟦<ShapeV4 as Shape>⟧ ⟦<ShapeV6 as Shape>⟧ ⟦<LargeV4 as Shape>⟧ ⟦<LargeV6 as Shape>⟧ family
            self.old self.new list.old list.new result }
    {
        match family {
            Family::V4 => self.close_four(alloc, list),
            Family::V6 => self.close_six(alloc, list),
        }
    }

    /// How many sessions the closed table had.
    pub fn session_count(&self) -> u64
        requires { HasSessions self.now }
        ensures { SessionCountTold self.now result }
    {
        let Content::Sessions(list) = self else {
            unreachable!();
        };
        list.count()
    }

    /// The session of the closed table at a place, counted from 0. `None` behind the last.
    pub fn session(&self, at: u64) -> Option<StoredSession>
        requires { HasSessions self.now }
        ensures { SessionFound self.now at result }
    {
        let Content::Sessions(list) = self else {
            unreachable!();
        };
        list.session(at)
    }
}
