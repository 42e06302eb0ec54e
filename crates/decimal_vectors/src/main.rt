// Runs the cases of `decimal` (data/cases.txt) and prints a line for each group.
#![tactic(auto)]

use cases::{Answer, InHex, Or, Program};
use output::Writer;
use std::io::Write;
use std::{fmt, io};

// Room for a number as it is printed.
const TEXT: usize = 32;

// What a call writes.
// Stays in both programs that print so: a public function asks nothing of its callers, and one that
// takes a closure asks that it may be called.
fn put_text<F: FnOnce(&mut Writer)>(write: F, out: &mut Answer) -> io::Result<()>
    requires { F.IsAlwaysCallable write }
{
    let mut text = [0; TEXT];
    let mut w = Writer::new(&mut text);
    write(&mut w);
    out.write_all(w.text())
}

// The number as `decimal_display` prints it.
// Stays two for the two types: one would take the closure that each makes as a parameter.
fn put_u32(r: Option<u32>, out: &mut Answer) -> io::Result<()> {
    match r {
        Some(n) => put_text(|w| decimal_display::write_u32(n, w), out),
        None => write!(out, "none"),
    }
}

fn put_u64(r: Option<u64>, out: &mut Answer) -> io::Result<()> {
    match r {
        Some(n) => put_text(|w| decimal_display::write_u64(n, w), out),
        None => write!(out, "none"),
    }
}

// The place that a call answered, and the list after it.
fn put_written<T: fmt::Display + Drop>(place: T, list: &[u8], out: &mut Answer) -> io::Result<()> {
    write!(out, "{place} {}", InHex(list))
}

// What is written into a list at a place: the bytes s, the number n, or its last byte.
fn put_list(name: &[u8], s: &[u8], n: u64, w: &mut Writer, out: &mut Answer) -> io::Result<()> {
    match name {
        b"put" => {
            let r = decimal_display::put_u64(n, w.out);
            return put_written(Or(r.ok(), "short"), w.out, out);
        }
        b"write" => decimal_display::write_u64(n, w),
        b"write_bytes" => w.bytes(s),
        b"write_byte" => w.byte((n % 256) as u8),
        _ => return Ok(()),
    }
    put_written(w.at, w.out, out)
}

struct DecimalCases;

impl Program for DecimalCases {
    fn answer(&self, line: &[u8], out: &mut Answer) -> io::Result<()> {
        let mut bytes = [0; 4096];
        let s = cases::hex(cases::field(line, 1), &mut bytes);
        let name = cases::field(line, 0);
        let a = cases::number(line, 1) as u64;
        let b = cases::number(line, 2);
        match name {
            b"starred" | b"u32" => put_u32(decimal::read_u32(s), out),
            b"u64" => put_u64(decimal::read_u64(s), out),
            b"digits" => put_u64(decimal::read_digits(s), out),
            b"print" => put_u64(Some(a), out),
            b"print32" => put_u32(Some((a % 0x1_0000_0000) as u32), out),
            b"len" => write!(out, "{}", decimal_display::decimal_len(a)),
            b"difference" => {
                put_text(|w| decimal_display::write_difference(a, b as u64, w), out)
            }
            b"difference_len" => write!(out, "{}", decimal_display::difference_len(a, b as u64)),
            _ => {
                // A list of more places is not there, and nothing is answered.
                let mut room = [b'.'; 64];
                let Some(list) = room.get_mut(..b) else {
                    return Ok(());
                };
                let mut w = Writer {
                    out: list,
                    at: cases::number(line, 3),
                };
                put_list(name, s, a, &mut w, out)
            }
        }
    }
}

fn main(rt: HostRuntime) -> io::Result<()> {
    cases::run(&rt, "cases.txt", &DecimalCases)
}
