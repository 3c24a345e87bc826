//! Workers that run at once, and what their verdicts have in common.
ghost use Rattle.std.specs.Prelude.{◌≤◌, ◌+◌, length};

use super::filter_test_refused;
use super::session_tables::{
    NAMES, answer_for_tables, filter_for_session_tables, request_for_tables,
};
use bihash_words::{ShapeV4, ShapeV6, flow_shapes_are_sound};
use flow_workers::{
    Dealing, Filter, Gate, RunFault, Setup, Verdict, Workers, close_tables, create_tables,
    run_workers,
};
use packet_view::{Packet, Packets};
use std::alloc::{AllocError, Global};
use std::sync::Wait;
use std::sync::atomic::{AtomicBool, AtomicU64, Ordering};
use std::test::Fail;
use std::thread::Threads;

/// Holds packets until others came, and gives up after a while.
#[derive(Drop)]
struct Meeting {
    /// How many packets came to the gate with worker 0, and with worker 1; or with that how often packet 1 left it.
    first: AtomicU64,
    second: AtomicU64,
    gave_up: AtomicBool,
    /// Packet 0 is held until packet 1 was judged, and worker 1 behind that until worker 0 has its next packet; else each
    /// packet of a worker is held until the other worker has as many.
    in_turn: bool,
}

impl Meeting {
    // A gate for tests of workers, to which no packet came yet.
    fn new(in_turn: bool) -> Meeting {
        Meeting {
            first: AtomicU64::new(0),
            second: AtomicU64::new(0),
            gave_up: AtomicBool::new(false),
            in_turn,
        }
    }

    // Holds a worker of a test at the gate until the other one counts as much, or for 100 million looks at that.
    fn hold_worker(&self, other: &AtomicU64, wanted: u64) {
        for _ in 0..100_000_000u64 {
            if other.load(Ordering::SeqCst) >= wanted {
                return;
            }
        }
        self.gave_up.store(true, Ordering::SeqCst);
    }
}

impl Gate for Meeting {
    // Holds a worker of a test at the gate with its packet, where it is to wait for the other worker.
    fn before(&self, worker: usize, packet: usize) {
        if worker == 0 {
            self.first.fetch_add(1, Ordering::SeqCst);
        }
        if worker == 1 && !self.in_turn {
            self.second.fetch_add(1, Ordering::SeqCst);
            self.hold_worker(&self.first, self.second.load(Ordering::SeqCst));
        }
        if worker == 0 && (packet == 0 || !self.in_turn) {
            self.hold_worker(&self.second, self.first.load(Ordering::SeqCst));
        }
    }

    // Lets worker 0 of a test go on once worker 1 judged its first packet, where they come in turn, and holds worker 1
    // until worker 0 judged its own: were this told before packet 1 is judged, it would find the session of packet 0.
    fn after(&self, worker: usize, packet: usize) {
        if worker == 1 && packet == 1 && self.in_turn {
            self.second.fetch_add(1, Ordering::SeqCst);
            self.hold_worker(&self.first, 2);
        }
    }
}

/// Counts, in a byte for each of the packets 0 to 3, how often it came to the gate and how often it left it.
#[derive(Drop)]
struct Counts {
    before: AtomicU64,
    after: AtomicU64,
}

// A one in the packet's byte of what tests of workers count at the gate.
fn one_in_gate_count(packet: usize) -> u64 {
    match packet {
        0 => 0x1,
        1 => 0x100,
        2 => 0x1_0000,
        3 => 0x100_0000,
        _ => 0x1_0000_0000,
    }
}

impl Gate for Counts {
    // Counts, in a test of workers, that the packet came to the gate.
    fn before(&self, worker: usize, packet: usize) {
        let _ = worker;
        self.before
            .fetch_add(one_in_gate_count(packet), Ordering::SeqCst);
    }

    // Counts, in a test of workers, that the packet left the gate.
    fn after(&self, worker: usize, packet: usize) {
        let _ = worker;
        self.after
            .fetch_add(one_in_gate_count(packet), Ordering::SeqCst);
    }
}

// The verdicts of a test's workers, which run at once over new session tables.
fn verdicts<'a, R: Threads + Wait + Sync, G: Gate + Sync>(
    rt: &R,
    alloc: Global,
    filter: &'a Filter,
    packets: &'a [Packet<'a>],
    workers: usize,
    gate: &G,
    dealing: Dealing,
) -> Result<Vec<Verdict>, AllocError>
    requires some { 1 ≤ workers }
    requires few { workers ≤ 16 }
{
    flow_shapes_are_sound();
    match run_workers::<ShapeV4, ShapeV6, R, G>(
        rt,
        alloc,
        filter,
        Packets::Slice(packets),
        workers,
        gate,
        dealing,
    ) {
        Ok(verdicts) => Ok(verdicts),
        Err(_) => Err(AllocError),
    }
}

/// Pairs of a table of IPv4 flows.
type Pairs = Vec<([u64; 2], u64)>;

/// What a test's workers are asked for.
#[derive(Clone, Copy)]
struct Asked<'t> {
    filter: &'t Filter,
    workers: usize,
    dealing: Dealing,
}

// The verdicts of a test's workers on two parts, one after the other, of which they hand over the first's; then the pairs
// of the table of IPv4 flows, and how many the other one has.
fn verdicts_on_parts<R: Threads + Wait + Sync, G: Gate + Sync>(
    rt: &R,
    alloc: Global,
    asked: Asked<'_>,
    gate: &G,
    first: &[Packet<'_>],
    second: &[Packet<'_>],
) -> Result<(Vec<Verdict>, Pairs, usize), RunFault>
    requires some { 1 ≤ asked.workers }
    requires few_workers { asked.workers ≤ 16 }
    requires few { length first.now + length second.now ≤ 8 }
{
    let filter = asked.filter;
    flow_shapes_are_sound();
    let Ok((tables, callers)) = create_tables::<ShapeV4, ShapeV6>(alloc) else {
        return Err(RunFault::Memory);
    };
    let Ok(prepared) = filter.prepare(alloc, 0) else {
        return Err(RunFault::Memory);
    };
    let Ok(ready) = filter.ready_with(alloc, &prepared) else {
        return Err(RunFault::Memory);
    };
    let setup = Setup {
        rt,
        gate,
        filter: &ready,
        tables: &tables,
        dealing: asked.dealing,
        workers: asked.workers,
        many: 0,
        ages: false,
    };
    let Ok(mut workers) = Workers::new(alloc, setup, callers) else {
        return Err(RunFault::Memory);
    };
    let Ok(mut verdicts) = workers.judge_on(alloc, Packets::Slice(first), false) else {
        return Err(RunFault::Memory);
    };
    let Ok(()) = workers.judge(alloc, Packets::Slice(second), false) else {
        return Err(RunFault::Memory);
    };
    let Ok((last, callers)) = workers.end(alloc) else {
        return Err(RunFault::Memory);
    };
    let Ok(()) = verdicts.extend_from_slice(&last) else {
        return Err(RunFault::Memory);
    };
    let Ok((four, six)) = close_tables(alloc, tables, callers) else {
        return Err(RunFault::Memory);
    };
    Ok((verdicts, four, six.len()))
}

// Worker 1 sees the answer before worker 0 sees the request.
#[test]
fn workers(rt: HostRuntime) -> Result<(), Fail> {
    let alloc = rt.alloc();
    let Ok(filter) = filter_for_session_tables(alloc, NAMES) else {
        return filter_test_refused();
    };
    let frames = [
        request_for_tables(2),
        answer_for_tables(2),
        answer_for_tables(3),
    ];
    let packets = [
        Packet {
            interface: 0,
            moment: 100,
            micros: 0,
            frame: &frames[0],
        },
        Packet {
            interface: 0,
            moment: 105,
            micros: 0,
            frame: &frames[1],
        },
        Packet {
            interface: 0,
            moment: 106,
            micros: 0,
            frame: &frames[2],
        },
    ];
    let gate = Meeting::new(true);
    let Ok(found) = verdicts(&rt, alloc, &filter, &packets, 2, &gate, Dealing::Round) else {
        return filter_test_refused();
    };
    assert!(rt; !gate.gave_up.load(Ordering::SeqCst));
    let wanted = [Verdict::Reflect(1), Verdict::ByDefault, Verdict::ByDefault];
    assert!(rt; found.as_slice() == wanted.as_slice());
    Ok(())
}

// Two workers are inside their packets at once, in a second part too: a frame of another type goes to worker 0, and a
// request from port 1001, whose bucket is odd, to worker 1.
#[test]
fn two_workers_at_once(rt: HostRuntime) -> Result<(), Fail> {
    let alloc = rt.alloc();
    let Ok(filter) = filter_for_session_tables(alloc, NAMES) else {
        return filter_test_refused();
    };
    let foreign = [2, 0, 0, 0, 0, 2, 2, 0, 0, 0, 0, 1, 8, 6];
    let mut odd = request_for_tables(2);
    odd[35] = 0xe9;
    let packets = [
        Packet {
            interface: 0,
            moment: 100,
            micros: 0,
            frame: &foreign,
        },
        Packet {
            interface: 0,
            moment: 100,
            micros: 0,
            frame: &odd,
        },
    ];
    let wanted = [
        Verdict::NotIp,
        Verdict::Reflect(1),
        Verdict::NotIp,
        Verdict::Session,
    ];
    for dealing in [Dealing::Round, Dealing::Bucket] {
        let gate = Meeting::new(false);
        let asked = Asked {
            filter: &filter,
            workers: 2,
            dealing,
        };
        let Ok((found, ..)) = verdicts_on_parts(&rt, alloc, asked, &gate, &packets, &packets) else {
            return filter_test_refused();
        };
        assert!(rt; !gate.gave_up.load(Ordering::SeqCst));
        assert!(rt; found.as_slice() == wanted.as_slice());
    }
    Ok(())
}

// Workers that judge two parts: packets are numbered on, and sessions last from part to part. Both sessions stand in
// the table at the end, with the second of their last packet; the lesser end is 10.0.0.1, whose port is 1000.
#[test]
fn workers_judge_two_parts(rt: HostRuntime) -> Result<(), Fail> {
    let alloc = rt.alloc();
    let Ok(filter) = filter_for_session_tables(alloc, NAMES) else {
        return filter_test_refused();
    };
    let frames = [
        request_for_tables(2),
        answer_for_tables(3),
        answer_for_tables(2),
        request_for_tables(3),
    ];
    let first = [
        Packet {
            interface: 0,
            moment: 100,
            micros: 0,
            frame: &frames[0],
        },
        Packet {
            interface: 0,
            moment: 100,
            micros: 0,
            frame: &frames[1],
        },
    ];
    let second = [
        Packet {
            interface: 0,
            moment: 101,
            micros: 0,
            frame: &frames[2],
        },
        Packet {
            interface: 0,
            moment: 101,
            micros: 0,
            frame: &frames[3],
        },
    ];
    let gate = Counts {
        before: AtomicU64::new(0),
        after: AtomicU64::new(0),
    };
    let asked = Asked {
        filter: &filter,
        workers: 2,
        dealing: Dealing::Bucket,
    };
    let Ok((found, four, others)) = verdicts_on_parts(&rt, alloc, asked, &gate, &first, &second)
    else {
        return filter_test_refused();
    };
    let wanted = [
        Verdict::Reflect(1),
        Verdict::ByDefault,
        Verdict::Session,
        Verdict::Reflect(1),
    ];
    assert!(rt; found.as_slice() == wanted.as_slice());
    let sessions = [
        ([0x0a00_0001_0a00_0002, 0x03e8_0035_1100_0000], 101),
        ([0x0a00_0001_0a00_0003, 0x03e8_0035_1100_0000], 101),
    ];
    assert!(rt; four.as_slice() == sessions.as_slice());
    assert!(rt; others == 0);
    assert!(rt; gate.before.load(Ordering::SeqCst) == 0x0101_0101);
    assert!(rt; gate.after.load(Ordering::SeqCst) == 0x0101_0101);
    Ok(())
}
