// Reads a path line and a listing from standard input, and prints the PSV lines of its elements
// (01, the program table2psv).
#![tactic(auto)]

use psv_stream::Phase;
use std::io;
use std::io::{ErrorKind, Read};

// What is kept from turn to turn: the phase, how many bytes of the input are there, whether more
// are wanted, and whether there are no more.
#[derive(Clone, Copy)]
struct Turn {
    phase: Phase,
    filled: usize,
    starved: bool,
    ended: bool,
}

// The first n bytes.
fn first(s: &[u8], n: usize) -> &[u8] {
    &s[..n.min(s.len())]
}

// Reads behind the bytes that are there, as many as one read gives: how many there are then.
fn read_more<R: Read>(reader: &mut R, input: &mut [u8], filled: usize) -> io::Result<usize> {
    if input.len() < filled {
        return Ok(filled);
    }
    let got = reader.read(&mut input[filled..])?;
    Ok(filled + got)
}

fn read<R: Read>(reader: &mut R, t: Turn, input: &mut [u8]) -> io::Result<Turn> {
    if !t.starved {
        return Ok(t);
    }
    let filled = read_more(reader, input, t.filled)?;
    Ok(Turn {
        filled,
        ended: filled == t.filled,
        ..t
    })
}

// Runs over the bytes that are there, prints, and moves those that are not consumed to the front.
fn print(rt: &impl Print, t: Turn, input: &mut [u8], out: &mut [u8]) -> io::Result<Turn> {
    let ran = psv_stream::run(t.phase, first(input, t.filled), t.ended, out);
    rt.write_all(first(out, ran.written))?;
    Ok(Turn {
        phase: ran.phase,
        filled: input::keep(input, ran.consumed, t.filled),
        starved: ran.starved,
        ..t
    })
}

// Nothing is known of the input's end, so the turns have a bound, which is never reached.
fn print_all<R: Read>(
    rt: &impl Print,
    reader: &mut R,
    input: &mut [u8],
    out: &mut [u8],
) -> io::Result<()> {
    let mut t = Turn {
        phase: Phase::Path,
        filled: 0,
        starved: true,
        ended: false,
    };
    for _ in 0..u64::MAX {
        t = read(reader, t, input)?;
        t = print(rt, t, input, out)?;
        if matches!(t.phase, Phase::Stopped) {
            return Ok(());
        }
    }
    Ok(())
}

fn input_buffer() -> [u8; 262144] {
    [0; 262144]
}

fn output_buffer() -> [u8; 524288] {
    [0; 524288]
}

// Where nobody reads what is printed any more, the program is done.
fn main(rt: HostRuntime) -> io::Result<()> {
    let mut input = input_buffer();
    let mut out = output_buffer();
    match print_all(&rt, &mut rt.stdin(), &mut input, &mut out) {
        Err(e) if e.kind() == ErrorKind::BrokenPipe => Ok(()),
        ended => ended,
    }
}
