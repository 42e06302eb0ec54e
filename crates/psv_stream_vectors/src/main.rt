// Runs the cases of `psv_stream` (data/cases.txt) and prints a line for each group.
//
// A question is the least size of the pieces in which the input comes, the input, and what is to be
// printed. Both texts are in hexadecimal, in parts with commas between them; after a part, `*` and
// a number repeat it. Each input comes in pieces of that size, of 3 times and 64 times that size,
// and whole; of the output, no more is lent at first than a run asks for.
#![tactic(auto)]

use cases::{Answer, Program};
use output::Writer;
use psv_stream::Phase;
use std::io;
use std::io::Write;

// The bytes of a text.
const TEXT: usize = 262144;

// More turns than any input here takes.
const TURNS: u32 = 1000000;

// How many bytes of a wrong text are shown.
const SHOWN: usize = 1024;

// Room for a text.
fn text_buffer() -> [u8; TEXT] {
    [0; TEXT]
}

// How often a part is to be put.
fn times(s: &[u8]) -> u64 {
    match decimal::read_u64(s) {
        Some(n) => n,
        None => 1,
    }
}

fn put_part(s: &[u8], w: &mut Writer) {
    let mut halves = s.splitn(2, |b| *b == b'*');
    let digits = halves.next().unwrap_or(&[]);
    let n = times(halves.next().unwrap_or(&[]));
    let mut room = [0; 4096];
    let bytes = cases::hex(digits, &mut room);
    for _ in 0..n {
        w.bytes(bytes);
    }
}

fn expand(s: &[u8], out: &mut [u8]) -> usize {
    let mut w = Writer::new(out);
    for part in s.split(|b| *b == b',') {
        put_part(part, &mut w);
    }
    w.at
}

// The input's bytes that have come, those of them that are there, and what is printed.
#[derive(Clone, Copy)]
struct Driven {
    phase: Phase,
    come: usize,
    filled: usize,
    printed: usize,
    starved: bool,
    ended: bool,
}

// The next piece comes.
fn feed(d: Driven, input: &[u8], piece: usize, bytes: &mut [u8]) -> Driven {
    if !d.starved {
        return d;
    }
    let end = d.come.wrapping_add(piece).min(input.len());
    let mut w = Writer {
        out: bytes,
        at: d.filled,
    };
    w.bytes(cases::part(input, d.come, end));
    Driven {
        come: end,
        filled: w.at,
        ended: d.come == end,
        ..d
    }
}

fn step(d: Driven, bytes: &mut [u8], room: usize, out: &mut [u8]) -> Driven {
    let start = d.printed.min(out.len());
    let lent = cases::first_mut(&mut out[start..], room);
    let ran = psv_stream::run(d.phase, cases::part(bytes, 0, d.filled), d.ended, lent);
    Driven {
        phase: ran.phase,
        filled: input::keep(bytes, ran.consumed, d.filled),
        printed: d.printed.wrapping_add(ran.written),
        starved: ran.starved,
        ..d
    }
}

// How many bytes are printed, where the input comes in pieces and so much output is lent.
fn drive(input: &[u8], piece: usize, room: usize, bytes: &mut [u8], out: &mut [u8]) -> usize {
    let mut d = Driven {
        phase: Phase::Path,
        come: 0,
        filled: 0,
        printed: 0,
        starved: true,
        ended: false,
    };
    for _ in 0..TURNS {
        d = feed(d, input, piece, bytes);
        d = step(d, bytes, room, out);
        if matches!(d.phase, Phase::Stopped) {
            return d.printed;
        }
    }
    0
}

// Whether the right text is printed where the input comes in such pieces; if not, the beginning of
// what is printed is put into the answer.
fn is_printed(
    input: &[u8],
    piece: usize,
    room: usize,
    right: &[u8],
    out: &mut Answer,
) -> io::Result<bool> {
    let mut bytes = text_buffer();
    let mut lent = text_buffer();
    let n = drive(input, piece, room, &mut bytes, &mut lent);
    let printed = cases::part(&lent, 0, n);
    if printed == right {
        return Ok(true);
    }
    write!(out, "in pieces of {piece}: ")?;
    out.write_all(&printed[..printed.len().min(SHOWN)])?;
    Ok(false)
}

// `same`, if it is printed however the input comes.
fn put_compared(input: &[u8], piece: usize, right: &[u8], out: &mut Answer) -> io::Result<()> {
    let runs = [
        (piece, 65537),
        (piece.wrapping_mul(3), 65600),
        (piece.wrapping_mul(64), 70000),
        (500000, 500000),
    ];
    let mut same = true;
    for (size, room) in runs {
        same = is_printed(input, size, room, right, out)? && same;
    }
    if same { write!(out, "same") } else { Ok(()) }
}

struct StreamCases;

impl Program for StreamCases {
    fn answer(&self, line: &[u8], out: &mut Answer) -> io::Result<()> {
        let mut input = text_buffer();
        let mut right = text_buffer();
        let n = expand(cases::field(line, 2), &mut input);
        let m = expand(cases::field(line, 3), &mut right);
        let piece = cases::number(line, 1).min(65536);
        put_compared(
            cases::part(&input, 0, n),
            piece,
            cases::part(&right, 0, m),
            out,
        )
    }
}

fn main(rt: HostRuntime) -> io::Result<()> {
    cases::run(&rt, "cases.txt", &StreamCases)
}
