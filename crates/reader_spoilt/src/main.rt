// Hands next states that are spoilt in each way (01, Where a call says no: 5), on parts that would
// otherwise end in an element, End, 6 or 7: the answer is 5, and the state and every AS place are
// as they were. States at the edge of each way are held to the plain reader. Prints a line for
// each group.
//
// Stays with the handle, the tally, the part and the places as parameters of what runs cases: the
// calls below take them one by one, so a struct of them would be taken apart at each.
#![tactic(auto)]

use cases::Tally;
use columns::Columns;
use network::{IpAddr, NetworkPrefix};
use plain_calls::Prefix;
use std::io;
use text_dump::{NextError, Remembered, State};

// AS places enough for each route here.
const ENOUGH: usize = replay::PLACES;

fn columns(
    next_hop: usize,
    metric: usize,
    local_pref: usize,
    weight: usize,
    path: usize,
) -> Columns {
    Columns {
        next_hop,
        metric,
        local_pref,
        weight,
        path,
    }
}

// Each pair of neighbours equal, then falling.
fn spoilt_columns() -> [Columns; 10] {
    [
        columns(40, 40, 47, 54, 61),
        columns(41, 40, 47, 54, 61),
        columns(20, 47, 47, 54, 61),
        columns(20, 48, 47, 54, 61),
        columns(20, 40, 54, 54, 61),
        columns(20, 40, 55, 54, 61),
        columns(20, 40, 47, 61, 61),
        columns(20, 40, 47, 62, 61),
        columns(0, 0, 0, 0, 0),
        columns(61, 54, 47, 40, 20),
    ]
}

// A NaN, the infinities, negative zero, fractions, and what lies outside the range.
const SPOILT_TIMESTAMPS: [f64; 12] = [
    f64::NAN,
    f64::INFINITY,
    f64::NEG_INFINITY,
    -0.0,
    0.5,
    -0.5,
    1709251200.25,
    253402300799.5,
    253402300800.0,
    -62167219200.5,
    -62167219201.0,
    9223372036854775808.0,
];

fn prefix(addr: IpAddr, len: u8) -> NetworkPrefix {
    NetworkPrefix { addr, len }
}

fn spoilt_prefixes() -> [NetworkPrefix; 5] {
    [
        prefix(IpAddr::V4(3325256704), 33),
        prefix(IpAddr::V4(0), 128),
        prefix(IpAddr::V4(0), 255),
        prefix(IpAddr::V6(0, 0), 129),
        prefix(IpAddr::V6(2306139568115548160, 0), 255),
    ]
}

// How far past a part's end a position lies; the last is the greatest of all.
const PAST: [usize; 3] = [1, 1 << 63, usize::MAX];

// What a sound state may have at the edges: columns, a timestamp and a prefix.
#[derive(Clone, Copy)]
struct Edge {
    columns: Columns,
    timestamp: f64,
    prefix: NetworkPrefix,
}

fn edges() -> [Edge; 4] {
    let last = usize::MAX;
    let v6 = prefix(IpAddr::V6(2306139568115548160, 0), 128);
    [
        Edge {
            columns: columns(20, 40, 47, 54, 61),
            timestamp: -62167219200.0,
            prefix: prefix(IpAddr::V4(3325256704), 32),
        },
        Edge {
            columns: columns(0, 1, 2, 3, 4),
            timestamp: -1.0,
            prefix: prefix(IpAddr::V4(0), 0),
        },
        Edge {
            columns: columns(20, 21, 22, 23, 24),
            timestamp: 0.0,
            prefix: v6,
        },
        Edge {
            columns: columns(last - 4, last - 3, last - 2, last - 1, last),
            timestamp: 253402300799.0,
            prefix: v6,
        },
    ]
}

// Columns, a timestamp and a prefix that are sound.
fn sound() -> Edge {
    Edge {
        columns: columns(20, 40, 47, 54, 61),
        timestamp: 0.0,
        prefix: prefix(IpAddr::V4(3325256704), 32),
    }
}

fn state(edge: Edge, position: usize) -> State {
    let given = replay::given(edge.columns, edge.timestamp);
    State {
        columns: given.columns,
        peer_ip: given.peer_ip,
        peer_asn: given.peer_asn,
        timestamp: given.timestamp,
        remembered: Remembered::Valid(edge.prefix),
        position,
    }
}

// The parts: no bytes, an unreadable line, two routes, and all.
fn parts(text: &[u8]) -> [&[u8]; 4] {
    [
        &[],
        cases::first(text, 2),
        cases::part(text, 2, text.len()),
        text,
    ]
}

// No AS places, or enough.
const ROOMS: [usize; 2] = [0, ENOUGH];

// Next says 5, and all is as it was.
fn next_refuses(rt: &impl Print, t: Tally, s: State, part: &[u8], k: usize) -> io::Result<Tally> {
    let mut asns = replay::places();
    let got = replay::next_with(s, part, k, &mut asns);
    let right = replay::same_next(
        rt,
        got,
        &asns,
        (s, Err(NextError::Spoilt)),
        &replay::places(),
    )?;
    replay::count(rt, t, right)
}

// Turn never refuses: the position is 0, and the rest as it was.
fn turn_turns(rt: &impl Print, t: Tally, s: State) -> io::Result<Tally> {
    let want = State { position: 0, ..s };
    let right = replay::same_state(rt, s.turn(), want)?;
    replay::count(rt, t, right)
}

// Each way to spoil a state, by a part's length, has eight cases: a call on each part, without
// places and with enough.
fn all_refused<T: Copy, F: Fn(T, usize) -> State>(
    rt: &impl Print,
    text: &[u8],
    ways: &[T],
    spoilt: F,
) -> io::Result<Tally>
    requires { F.IsAlwaysCallable spoilt }
{
    let mut t = Tally::default();
    for way in ways {
        for room in ROOMS {
            for part in parts(text) {
                let s = spoilt(*way, part.len());
                t = next_refuses(rt, t, s, part, room)?;
                t = turn_turns(rt, t, s)?;
            }
        }
    }
    Ok(t)
}

// A sound state on a part, with the position anywhere in it: as the plain reader that is fed what
// lies after it.
fn next_reads(
    rt: &impl Print,
    t: Tally,
    edge: Edge,
    part: &[u8],
    position: usize,
    k: usize,
) -> io::Result<Tally> {
    let s = state(edge, position);
    let given = replay::given(edge.columns, edge.timestamp);
    let both = replay::begin(rt, s, given, position, Prefix::Valid(edge.prefix))?;
    let now = replay::next(rt, both, part, position, k)?;
    replay::count(rt, t, both.right && now.right)
}

// The columns at an edge, then the timestamp, then the prefix.
fn read(rt: &impl Print, t: Tally, edge: Edge, part: &[u8], k: usize) -> io::Result<Tally> {
    let Edge {
        columns,
        timestamp,
        prefix,
    } = edge;
    let t = next_reads(rt, t, Edge { columns, ..sound() }, part, 0, k)?;
    let t = next_reads(
        rt,
        t,
        Edge {
            timestamp,
            ..sound()
        },
        part,
        0,
        k,
    )?;
    next_reads(rt, t, Edge { prefix, ..sound() }, part, 0, k)
}

fn all_read(rt: &impl Print, text: &[u8]) -> io::Result<Tally> {
    let mut t = Tally::default();
    for edge in edges() {
        for room in ROOMS {
            for part in parts(text) {
                t = read(rt, t, edge, part, room)?;
            }
        }
    }
    Ok(t)
}

// Every position in a part, its end too.
fn positions_read(rt: &impl Print, part: &[u8]) -> io::Result<Tally> {
    let mut t = Tally::default();
    for at in 0..part.len() {
        t = next_reads(rt, t, sound(), part, at, ENOUGH)?;
    }
    next_reads(rt, t, sound(), part, part.len(), 0)
}

// The states that are refused, on the text.
fn all_spoilt(rt: &impl Print, text: &[u8]) -> io::Result<()> {
    let position = all_refused(rt, text, &PAST, |past, n| {
        state(sound(), n.saturating_add(past))
    })?;
    cases::report(rt, position, b"position")?;
    let columns = all_refused(rt, text, &spoilt_columns(), |columns, _n| {
        state(Edge { columns, ..sound() }, 0)
    })?;
    cases::report(rt, columns, b"columns")?;
    let timestamp = all_refused(rt, text, &SPOILT_TIMESTAMPS, |timestamp, _n| {
        state(
            Edge {
                timestamp,
                ..sound()
            },
            0,
        )
    })?;
    cases::report(rt, timestamp, b"timestamp")?;
    let prefix = all_refused(rt, text, &spoilt_prefixes(), |prefix, _n| {
        state(Edge { prefix, ..sound() }, 0)
    })?;
    cases::report(rt, prefix, b"prefix")
}

// Those that are not.
fn all_sound(rt: &impl Print, text: &[u8]) -> io::Result<()> {
    let edges = all_read(rt, text)?;
    cases::report(rt, edges, b"edges")?;
    let positions = positions_read(rt, cases::part(text, 2, text.len()))?;
    cases::report(rt, positions, b"positions")?;
    let unreadable = positions_read(rt, text)?;
    cases::report(rt, unreadable, b"positions_unreadable")
}

fn main(rt: HostRuntime) -> io::Result<()> {
    let text =
        b"\xff\n*> 198.51.100.0/24  192.0.2.1                0             0 64501 64502 i\n*                   192.0.2.2                     150      0 64503 64502 i\n";
    all_spoilt(&rt, text)?;
    all_sound(&rt, text)
}
