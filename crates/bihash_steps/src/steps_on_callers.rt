//! Callers that are counted, split, joined and told of one another.
ghost use Rattle.std.specs.Prelude.{◌≡◌, ℕ, ◌<◌, ◌≤◌, length, IfOk, IfErr};
ghost use Rattle.bihash_words.specs.Sizes.{sizes_of};
ghost use Rattle.bihash_steps.specs.CallerCalls.{AreIdle, AreInformed, HasCounted, IsCut, IsIdle, IsJoined, MayCut, TakesNumber};
ghost use Rattle.bihash_rule.specs.Callers.{IsLawfulCaller, Agrees};
ghost use Rattle.bihash_steps.specs.Steps.{parent, newcomer, IsRefused};
ghost use Rattle.bihash_steps.specs.Seats.{with_view};

use crate::row_and_callers::{Caller, CallerSeat, Row};
use crate::scratch::Scratch;
use crate::split_fault::SplitFault;
use bihash_words::Shape;
use std::alloc::Global;
use std::marker::{Brand, PhantomData};

mod caller_step_kinds;

use caller_step_kinds::{Counts, Cut, Joins, Keeping, Meets, Numbers};

// Where the caller count stands.
const COUNT: usize = 0;

impl<S: Shape> Row<S> {
    /// How many callers were made. The caller is lone from then on where it has as many numbers, until a
    /// split of it succeeds.
    pub fn load_count(&self, caller: &mut CallerSeat<S>) -> u64
        requires own { caller.old.row ≡ self.now }
        ensures { HasCounted (sizes_of S.Shape) caller.old caller.new result }
    {
        self.table.shared.load::<Counts<S>>(&mut caller.seat, COUNT)
    }

    // Takes the next number for a caller that is split, where the caller count still is this one.
    fn take_number(&self, caller: &mut CallerSeat<S>, count: u64) -> bool
        requires own { caller.old.row ≡ self.now }
        requires few { count < S.CALLERS }
        ensures { TakesNumber (sizes_of S.Shape) caller.old caller.new count result }
    {
        let found = self
            .table
            .shared
            .compare_exchange::<Numbers<S>>(&mut caller.seat, COUNT, count, count + 1);
        if found != count {
            return false;
        }
        caller.numbers += 1;
        true
    }

    // Gives a new caller's seat, whose last answered call had this stamp, all numbers of the caller but the first ones.
    fn cut<E: Keeping>(
        &self,
        caller: &mut CallerSeat<S>,
        kept: u64,
        stamp: Option<(u64, u64)>,
    ) -> CallerSeat<S>
        requires own { caller.old.row ≡ self.now }
        requires kept { E.kept ≡ kept }
        requires may { MayCut caller.old.view E.kept stamp }
        ensures { IsCut (sizes_of S.Shape) caller.old caller.new result E.kept }
    {
        let seat = self.table.shared.split_seat::<Cut<E>>(&mut caller.seat);
        let numbers = caller.numbers - kept;
        caller.numbers = kept;
        CallerSeat {
            seat,
            numbers,
            stamp,
            shape: PhantomData,
        }
    }

    /// The caller, and a new one that knows the same and has a number of its own without calls.
    /// `Numbers`: as many callers were made as there may be. `Contended`: another caller took a number
    /// in the same moment.
    pub fn split(
        &self,
        alloc: Global,
        mut caller: Caller<S>,
    ) -> Result<(Caller<S>, Caller<S>), (SplitFault, Caller<S>)>
        requires idle { IsIdle self.now caller.seat }
        ensures split { IfOk result (λ r. (count : ℕ) × (caller.seat.view.seen ≤ count) × (count < S.CALLERS)
            × (r.0.seat ≡ with_view caller.seat (parent caller.seat.view count))
            × (r.1.seat.row ≡ caller.seat.row) × (r.1.seat.view ≡ newcomer caller.seat.view count)) }
        ensures lawful { IfOk result (λ r. IsLawfulCaller (sizes_of S.Shape) r.0.seat.view
            × IsLawfulCaller (sizes_of S.Shape) r.1.seat.view) }
        ensures agree { IfOk result (λ r. Agrees r.0.seat.view r.1.seat.view) }
        ensures refused { IfErr result (λ r. (r.1.seat ≡ with_view caller.seat r.1.seat.view)
            × IsRefused (sizes_of S.Shape) caller.seat.view r.0 r.1.seat.view) }
        ensures back { IfErr result (λ r. IsLawfulCaller (sizes_of S.Shape) caller.seat.view → IsLawfulCaller (sizes_of S.Shape) r.1.seat.view) }
    {
        // The sizes of a row are sound: its invariant says so.
        let _ = &self.table;
        let Ok(scratch) = Scratch::reserve(alloc) else {
            return Err((SplitFault::Memory, caller));
        };
        let seat = &mut caller.seat;
        let count = self.load_count(seat);
        if count == S::CALLERS {
            return Err((SplitFault::Numbers, caller));
        }
        let kept = seat.numbers;
        if !self.take_number(seat, count) {
            return Err((SplitFault::Contended, caller));
        }
        let seat = self.cut::<Brand>(&mut caller.seat, kept, None);
        Ok((caller, Caller { seat, scratch }))
    }

    // The caller takes in the numbers and records of another one, as callers do that are joined or meet.
    fn take_in(&self, caller: &mut CallerSeat<S>, other: CallerSeat<S>)
        requires idle { AreIdle self.now caller.old other }
        ensures joined { IsJoined (sizes_of S.Shape) caller.old other caller.new }
        ensures some { 1 ≤ length other.view.records }
    {
        let CallerSeat {
            seat,
            numbers,
            stamp: _,
            shape: _,
        } = other;
        let shared = &self.table.shared;
        shared.join_seat::<Joins<S>>(&mut caller.seat, seat);
        shared.load::<Meets<S>>(&mut caller.seat, COUNT);
        caller.numbers += numbers;
    }

    /// One caller with the numbers and records of both, each as it was. It knows what either knew, and
    /// acts under the first one's number.
    pub fn join(&self, mut caller: Caller<S>, other: Caller<S>) -> Caller<S>
        requires idle { AreIdle self.now caller.seat other.seat }
        ensures { IsJoined (sizes_of S.Shape) caller.seat other.seat result.seat }
    {
        self.take_in(&mut caller.seat, other.seat);
        caller
    }

    /// Both callers with their numbers and records. Each knows afterwards what either knew.
    pub fn meet(&self, mut caller: Caller<S>, other: Caller<S>) -> (Caller<S>, Caller<S>)
        requires idle { AreIdle self.now caller.seat other.seat }
        ensures { AreInformed (sizes_of S.Shape) caller.seat other.seat result.0.seat result.1.seat }
    {
        let Caller { seat, scratch } = other;
        let own = caller.seat.numbers;
        let stamp = seat.stamp;
        self.take_in(&mut caller.seat, seat);
        let seat = self.cut::<Brand>(&mut caller.seat, own, stamp);
        (caller, Caller { seat, scratch })
    }
}
