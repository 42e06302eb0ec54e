// Runs the cases of `timestamp` and `seconds` (data/cases.txt) and prints a line for each group.
#![tactic(auto)]

use cases::{Answer, Program};
use std::io;
use std::io::Write;
use timestamp::InferError;

// A timestamp as it is printed.
fn put_timestamp(t: f64, out: &mut Answer) -> io::Result<()> {
    let Some(second) = seconds::second_of(t) else {
        return write!(out, "no timestamp");
    };
    let mut text = [0; 32];
    let r = seconds::put_timestamp(second, &mut text);
    out.write_all(cases::written_or(r, &text, b""))
}

fn put_read(answer: Option<f64>, out: &mut Answer) -> io::Result<()> {
    match answer {
        Some(t) => put_timestamp(t, out),
        None => write!(out, "none"),
    }
}

struct TimestampCases;

impl Program for TimestampCases {
    const LIST_LEN: usize = 1048576;

    fn answer(&self, line: &[u8], out: &mut Answer) -> io::Result<()> {
        match cases::field(line, 0) {
            b"bits" => {
                let bits = cases::number(line, 1) as u64;
                put_read(seconds::timestamp_of_bits(bits), out)
            }
            _ => {
                let mut bytes = [0; 4096];
                let path = cases::hex(cases::field(line, 1), &mut bytes);
                match timestamp::infer_timestamp_from_path(path) {
                    Ok(answer) => put_read(answer, out),
                    Err(InferError::NotUtf8) => write!(out, "notutf8"),
                }
            }
        }
    }
}

fn main(rt: HostRuntime) -> io::Result<()> {
    cases::run(&rt, "cases.txt", &TimestampCases)
}
