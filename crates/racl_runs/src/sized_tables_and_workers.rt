//! Session tables of the size that the words ask for, and workers over them.
ghost use Rattle.std.specs.Prelude.{[], ◌≡◌, ◌≤◌, IfOk};
ghost use Rattle.bihash_words.specs.Sizes.{IsSound, sizes_of};
ghost use Rattle.flow_dealing.specs.declared.worker_of_flow.Dealing.TheVariants.{Bucket};
ghost use Rattle.racl_views.specs.Stored.{stored_facts};
ghost use Rattle.racl_runs.specs.Crews.{AreAsAsked, AreFirst, AreFirstOf, AreIdleOf, HaveEndedOn, HaveJudgedSome, HaveSaidAfter};
ghost use Rattle.racl_runs.specs.Crews.{cuts_four, many_packets, orders_for, size_of, views_with};
ghost use Rattle.racl_runs.specs.Runs.{AreStoredOf, layout_for};

use bihash_words::{
    LargeV4, LargeV6, Shape, ShapeV4, ShapeV6, flow_shapes_are_sound, large_shapes_are_sound,
};
use flow_filter::InterfaceFilters;
use flow_workers::{
    Callers, Dealing, Gate, RunFault, Setup, Tables, Workers, close_tables, create_cutting_tables,
    create_tables,
};
use racl_options::TableSize;
use racl_views::StoredPairs;
use session_state::Verdict;
use std::alloc::{AllocError, Global};
use std::sync::Wait;

/// Nothing waits before or after a packet is judged.
pub struct OpenGate;

impl Gate for OpenGate {
    fn before(&self, _worker: usize, _packet: usize) {}

    fn after(&self, _worker: usize, _packet: usize) {}
}

/// From how many packets of a window on each worker judges them in a thread of its own.
pub const MANY_PACKETS: usize = 49_152;

/// What workers judge by, over tables of either size.
#[derive(Clone, Copy)]
pub struct Manner<'t, 'f> {
    pub filter: &'t InterfaceFilters<'f>,
    pub workers: usize,
}

// What workers share over tables of one of the sizes, who judge in this manner. Packets are dealt by bucket. Where the tables
// cut blocks the workers remove sessions that have ended, and else they don't.
fn setup_of<'t, 'f, A: Shape, B: Shape, T: Wait>(
    rt: &'t T,
    manner: Manner<'t, 'f>,
    tables: &'t Tables<A, B>,
) -> Setup<'t, 'f, A, B, T, OpenGate>
    ensures manner { (result.filter.now ≡ manner.entry.filter.now) × (result.workers ≡ manner.entry.workers) }
    ensures tables { (result.tables.now ≡ tables.now) × (result.ages ≡ tables.now.four.cuts_blocks) }
    ensures dealing { result.dealing ≡ Bucket }
    ensures many { result.many ≡ many_packets }
{
    Setup {
        rt,
        gate: &OpenGate,
        filter: manner.filter,
        tables,
        dealing: Dealing::Bucket,
        workers: manner.workers,
        ages: tables.four.cuts_blocks,
        many: MANY_PACKETS,
    }
}

/// Session tables of one of the sizes.
#[derive(Drop)]
pub enum SizedTables {
    Standard(Tables<ShapeV4, ShapeV6>),
    Large(Tables<LargeV4, LargeV6>),
}

/// Callers of such tables.
#[derive(Drop)]
pub enum SizedCallers {
    Standard(Callers<ShapeV4, ShapeV6>),
    Large(Callers<LargeV4, LargeV6>),
}

/// Workers over such tables.
#[derive(Drop)]
pub enum SizedWorkers<'t, 'f, T: Wait> {
    Standard(Workers<'t, 'f, ShapeV4, ShapeV6, T, OpenGate>),
    Large(Workers<'t, 'f, LargeV4, LargeV6, T, OpenGate>),
}

// New tables, and callers of both families' that made no call. Tables that cut blocks give a larger returned one in parts where
// no other is left.
fn created<A: Shape, B: Shape>(
    alloc: Global,
    cuts: bool,
) -> Result<(Tables<A, B>, Callers<A, B>), RunFault>
    requires four { IsSound (sizes_of A.Shape) }
    requires six { IsSound (sizes_of B.Shape) }
    ensures first { IfOk result (λ r. AreFirst r.0 r.1) }
    ensures cuts { IfOk result (λ r. (r.0.four.cuts_blocks ≡ cuts) × (r.0.six.cuts_blocks ≡ cuts)) }
{
    if cuts {
        return create_cutting_tables(alloc);
    }
    create_tables(alloc)
}

/// New tables of this size, which cut blocks where that is asked, and callers of both families' that made no call. An error says
/// that memory was refused.
pub fn create_sized(
    alloc: Global,
    size: TableSize,
    cuts: bool,
) -> Result<(SizedTables, SizedCallers), AllocError>
    ensures first { IfOk result (λ r. AreFirstOf r.0 r.1) }
    ensures asked { IfOk result (λ r. AreAsAsked size cuts r.0) }
{
    match size {
        TableSize::Standard => {
            flow_shapes_are_sound();
            match created(alloc, cuts) {
                Ok((tables, callers)) => Ok((
                    SizedTables::Standard(tables),
                    SizedCallers::Standard(callers),
                )),
                Err(_) => Err(AllocError),
            }
        }
        TableSize::Large => {
            large_shapes_are_sound();
            match created(alloc, cuts) {
                Ok((tables, callers)) => Ok((
                    SizedTables::Large(tables),
                    SizedCallers::Large(callers),
                )),
                Err(_) => Err(AllocError),
            }
        }
    }
}

/// The pairs of the tables, which end. Workers that have ended leave callers into which all others are joined, so that an
/// error says that memory was refused.
pub fn close_sized(
    alloc: Global,
    tables: SizedTables,
    callers: SizedCallers,
) -> Result<StoredPairs, AllocError>
    requires { AreIdleOf tables callers }
    ensures { IfOk result (λ s. AreStoredOf (layout_for (size_of tables)) (views_with callers) (stored_facts s)) }
{
    match tables {
        SizedTables::Standard(tables) => {
            let SizedCallers::Standard(callers) = callers else {
                unreachable!()
            };
            match close_tables(alloc, tables, callers) {
                Ok((four, six)) => Ok(StoredPairs { four, six }),
                Err(_) => Err(AllocError),
            }
        }
        SizedTables::Large(tables) => {
            let SizedCallers::Large(callers) = callers else {
                unreachable!()
            };
            match close_tables(alloc, tables, callers) {
                Ok((four, six)) => Ok(StoredPairs { four, six }),
                Err(_) => Err(AllocError),
            }
        }
    }
}

impl<'t, 'f, T: Wait> SizedWorkers<'t, 'f, T> {
    /// Workers that judged no packet, and judge in this manner. They remove sessions that have ended where their tables cut
    /// blocks. The callers are of the tables, and made no call. An error says that memory was refused.
    pub fn new(
        rt: &'t T,
        alloc: Global,
        manner: Manner<'t, 'f>,
        tables: &'t SizedTables,
        callers: SizedCallers,
    ) -> Result<SizedWorkers<'t, 'f, T>, AllocError>
        requires first { AreFirstOf tables.now callers }
        requires count { (1 ≤ manner.workers) × (manner.workers ≤ 16) }
        ensures { IfOk result (HaveSaidAfter (orders_for tables.now manner.entry.filter.now manner.entry.workers (cuts_four tables.now)) [] []) }
    {
        match callers {
            SizedCallers::Standard(callers) => {
                let SizedTables::Standard(tables) = tables else {
                    unreachable!()
                };
                flow_shapes_are_sound();
                match Workers::new(alloc, setup_of(rt, manner, tables), callers) {
                    Ok(workers) => Ok(SizedWorkers::Standard(workers)),
                    Err(_) => Err(AllocError),
                }
            }
            SizedCallers::Large(callers) => {
                let SizedTables::Large(tables) = tables else {
                    unreachable!()
                };
                large_shapes_are_sound();
                match Workers::new(alloc, setup_of(rt, manner, tables), callers) {
                    Ok(workers) => Ok(SizedWorkers::Large(workers)),
                    Err(_) => Err(AllocError),
                }
            }
        }
    }

    /// The verdicts on all packets, in their order, and all callers of each table as one. An error says that memory was
    /// refused.
    pub fn end(self, alloc: Global) -> Result<(Vec<Verdict>, SizedCallers), AllocError>
        requires { HaveJudgedSome self }
        ensures { IfOk result (λ r. HaveEndedOn self.entry r.0.items r.1) }
    {
        match self {
            SizedWorkers::Standard(workers) => match workers.end(alloc) {
                Ok((verdicts, callers)) => Ok((verdicts, SizedCallers::Standard(callers))),
                Err(_) => Err(AllocError),
            },
            SizedWorkers::Large(workers) => match workers.end(alloc) {
                Ok((verdicts, callers)) => Ok((verdicts, SizedCallers::Large(callers))),
                Err(_) => Err(AllocError),
            },
        }
    }
}
