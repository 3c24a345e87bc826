//! Packets through tables of few pages and few writes. Each verdict is worked out by hand.
ghost use Rattle.flow_workers.specs.Callers.{AreIdle, AreShapes};

use super::TIMES;
use acl_policy::{PolicyFault, read_policy};
use bihash_words::{Shape, ShapeV6, Tiny};
use flow_workers::{
    Callers, Filter, Tables, Verdict, create_tables, judge, renew_tables, try_judge,
};
use packet_view::{Family, Packet};
use std::alloc::Global;
use std::sync::Wait;

// Frames from this address go out, and 10.0.0.1 may ask name servers and gets their answers.
pub const NAMES: &str =
    "mac 02:00:00:00:00:01\nout permit+reflect ipv4 10.0.0.1 any udp dport 53\n";

// The filter of this policy, for tests of packets through session tables.
pub fn filter_for_session_tables(alloc: Global, text: &str) -> Result<Filter, PolicyFault> {
    match read_policy(alloc, text.as_bytes()) {
        Ok(policy) => Ok(Filter {
            policy,
            times: TIMES,
        }),
        Err(fault) => Err(fault),
    }
}

// A frame for tests of session tables: a request from 10.0.0.1:1000 to the name server 10.0.0.n, on its way out.
pub fn request_for_tables(server: u8) -> [u8; 42] {
    [
        2, 0, 0, 0, 0, 2, 2, 0, 0, 0, 0, 1, 8, 0, 0x45, 0, 0, 28, 0, 0, 0, 0, 64, 17, 0, 0, 10, 0,
        0, 1, 10, 0, 0, server, 0x03, 0xe8, 0, 53, 0, 8, 0, 0,
    ]
}

// A frame for tests of session tables: the answer of the name server 10.0.0.n to 10.0.0.1:1000, on its way in.
pub fn answer_for_tables(server: u8) -> [u8; 42] {
    [
        2, 0, 0, 0, 0, 1, 2, 0, 0, 0, 0, 2, 8, 0, 0x45, 0, 0, 28, 0, 0, 0, 0, 64, 17, 0, 0, 10, 0,
        0, server, 10, 0, 0, 1, 0, 53, 0x03, 0xe8, 0, 8, 0, 0,
    ]
}

/// The second of a packet, n of its server, whether it is the server's answer, and its verdict.
type Row = (u32, u8, bool, Verdict);

// The number of the first row whose packet gets another verdict by its one try over session tables, if one does.
fn first_wrong_over_tables<A: Shape, B: Shape>(
    filter: &Filter,
    tables: &Tables<A, B>,
    callers: &mut Callers<A, B>,
    rows: &[Row],
) -> Option<usize>
    requires shapes { AreShapes ⟦<A as Shape>⟧ ⟦<B as Shape>⟧ }
    requires idle { AreIdle ⟦<A as Shape>⟧ ⟦<B as Shape>⟧ tables.now callers.old }
    ensures idle { AreIdle ⟦<A as Shape>⟧ ⟦<B as Shape>⟧ tables.now callers.new }
{
    for (number, row) in rows.iter().enumerate() {
        let (moment, server, is_answer, verdict) = *row;
        let frame = if is_answer {
            answer_for_tables(server)
        } else {
            request_for_tables(server)
        };
        let packet = Packet {
            interface: 0,
            moment,
            micros: 0,
            frame: &frame,
        };
        match try_judge(filter, tables, callers, &packet) {
            Ok(found) if found == verdict => {}
            _ => return Some(number),
        }
    }
    None
}

// The number of the first row that gets another verdict over new session tables, if one does. `None`: memory was
// refused.
fn first_wrong_of_new<A: Shape>(alloc: Global, rows: &[Row]) -> Option<Option<usize>>
    requires shapes { AreShapes ⟦<A as Shape>⟧ ⟦<ShapeV6 as Shape>⟧ }
{
    let Ok(filter) = filter_for_session_tables(alloc, NAMES) else {
        return None;
    };
    let Ok((tables, mut callers)) = create_tables::<A, ShapeV6>(alloc) else {
        return None;
    };
    Some(first_wrong_over_tables(&filter, &tables, &mut callers, rows))
}

// The number of the first row that gets another verdict over session tables that are opened again behind other rows.
fn first_wrong_of_renewed<A: Shape>(
    alloc: Global,
    before: &[Row],
    rows: &[Row],
) -> Option<Option<usize>>
    requires shapes { AreShapes ⟦<A as Shape>⟧ ⟦<ShapeV6 as Shape>⟧ }
{
    let Ok(filter) = filter_for_session_tables(alloc, NAMES) else {
        return None;
    };
    let Ok((tables, mut callers)) = create_tables::<A, ShapeV6>(alloc) else {
        return None;
    };
    let wrong = first_wrong_over_tables(&filter, &tables, &mut callers, before);
    let Ok((tables, mut callers)) = renew_tables(alloc, tables, callers, Family::V4) else {
        return None;
    };
    Some(wrong.or(first_wrong_over_tables(&filter, &tables, &mut callers, rows)))
}

// The verdict on a frame over new session tables, by as many tries as it takes.
fn verdict_over_session_tables<A: Shape, R: Wait>(
    rt: &R,
    alloc: Global,
    frame: &[u8],
) -> Option<Verdict>
    requires shapes { AreShapes ⟦<A as Shape>⟧ ⟦<ShapeV6 as Shape>⟧ }
{
    let Ok(filter) = filter_for_session_tables(alloc, NAMES) else {
        return None;
    };
    let Ok((tables, mut callers)) = create_tables::<A, ShapeV6>(alloc) else {
        return None;
    };
    let packet = Packet {
        interface: 0,
        moment: 100,
        micros: 0,
        frame,
    };
    Some(judge(rt, &filter, &tables, &mut callers, &packet))
}

const WORN: [Row; 8] = [
    (100, 2, false, Verdict::Reflect(1)),
    (101, 2, false, Verdict::Session),
    (102, 2, false, Verdict::Session),
    // The bucket takes no fourth write, and the session stays as it was.
    (103, 2, false, Verdict::Session),
    (103, 4, false, Verdict::Worn),
    (103, 3, false, Verdict::Reflect(1)),
    (702, 2, false, Verdict::Session),
    (703, 2, false, Verdict::Worn),
];

// Packets judged over a session table whose buckets take three writes.
#[test]
fn worn_bucket_under_the_filter(rt: HostRuntime) {
    let wrong = first_wrong_of_new::<Tiny<8, 3>>(rt.alloc(), &WORN);
    assert!(rt; wrong == Some(None));
}

// A filter's session table is opened again, and its worn bucket takes writes.
#[test]
fn renewed_under_the_filter(rt: HostRuntime) {
    let rows = [(704, 2, false, Verdict::Reflect(1))];
    let wrong = first_wrong_of_renewed::<Tiny<8, 3>>(rt.alloc(), &WORN, &rows);
    assert!(rt; wrong == Some(None));
}

// A request judged over new session tables, by as many tries as it takes.
#[test]
fn judges_over_session_tables(rt: HostRuntime) {
    let verdict = verdict_over_session_tables::<Tiny<8, 3>, HostRuntime>(
        &rt,
        rt.alloc(),
        &request_for_tables(2),
    );
    assert!(rt; verdict == Some(Verdict::Reflect(1)));
}

// The requests of 16 sessions fill a bucket of a filter's session table. Once they have ended, the one with the least
// key makes room.
#[test]
fn recycled_session(rt: HostRuntime) {
    let mut rows = [(100, 136, false, Verdict::Full); 21];
    for i in 0..16u8 {
        rows[usize::from(i)] = (100, 8 * i + 8, false, Verdict::Reflect(1));
    }
    rows[17] = (700, 136, false, Verdict::Full);
    rows[18] = (701, 136, false, Verdict::Reflect(1));
    rows[19] = (200, 8, true, Verdict::ByDefault);
    rows[20] = (200, 16, true, Verdict::Session);
    let wrong = first_wrong_of_new::<Tiny<8, 1000>>(rt.alloc(), &rows);
    assert!(rt; wrong == Some(None));
}

// The only page of a filter's session table comes back with the session that an answer after its end removes.
#[test]
fn pages_used_up_under_the_filter(rt: HostRuntime) {
    let rows = [
        (100, 2, false, Verdict::Reflect(1)),
        (100, 3, false, Verdict::NoPages),
        (701, 2, true, Verdict::ByDefault),
        (702, 3, false, Verdict::Reflect(1)),
    ];
    let wrong = first_wrong_of_new::<Tiny<1, 5>>(rt.alloc(), &rows);
    assert!(rt; wrong == Some(None));
}
