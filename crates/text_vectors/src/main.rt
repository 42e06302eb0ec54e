// Runs the cases of `text` and `scan` (data/cases.txt) and prints a line for each group.
#![tactic(auto)]

use cases::{Answer, InHex, Or, Program};
use std::io;
use std::io::Write;

// The tokens in hexadecimal, with commas between them.
fn put_tokens(s: &[u8], out: &mut Answer) -> io::Result<()> {
    let mut at = 0;
    while let Some((a, e)) = text::next_token(s, at) {
        let mark = if at == 0 { "" } else { "," };
        write!(out, "{mark}{}", InHex(cases::part(s, a, e)))?;
        at = e;
    }
    if at == 0 { write!(out, "-") } else { Ok(()) }
}

fn put_word(w: Option<(usize, usize)>, out: &mut Answer) -> io::Result<()> {
    match w {
        Some((a, e)) => write!(out, "{a} {e}"),
        None => write!(out, "none"),
    }
}

fn put_yes_no(yes: bool, out: &mut Answer) -> io::Result<()> {
    write!(out, "{}", cases::yes_no(yes))
}

struct TextCases;

impl Program for TextCases {
    fn answer(&self, line: &[u8], out: &mut Answer) -> io::Result<()> {
        let mut first = [0; 4096];
        let mut second = [0; 4096];
        let s = cases::hex(cases::field(line, 1), &mut first);
        let p = cases::hex(cases::field(line, 2), &mut second);
        let a = cases::number(line, 2);
        match cases::field(line, 0) {
            b"next_word" => put_word(scan::next_word(s, a), out),
            b"line_end" => write!(out, "{}", scan::line_end(s, a)),
            b"same" => put_yes_no(scan::same(s, p), out),
            b"starts_with" => put_yes_no(scan::starts_with(s, p), out),
            b"find" => write!(out, "{}", Or(scan::find(s, p), "none")),
            b"trim" | b"white" => write!(out, "{}", InHex(text::trim(s))),
            b"trim_end" => write!(out, "{}", InHex(text::trim_end(s))),
            b"trim_start" => write!(out, "{}", InHex(text::trim_start(s))),
            b"tokens" => put_tokens(s, out),
            b"edge" => put_yes_no(utf8::is_edge(s, a), out),
            b"slice" => put_yes_no(utf8::has_slice(s, a, cases::number(line, 3)), out),
            b"utf8" | b"rfc3629" => put_yes_no(utf8::is_readable(s), out),
            _ => Ok(()),
        }
    }
}

fn main(rt: HostRuntime) -> io::Result<()> {
    cases::run(&rt, "cases.txt", &TextCases)
}
