// Runs the cases of `text_dump_header` and `text_dump_line` (data/cases.txt) and prints a line for
// each group. A group's name begins with the call: detect, header, put_asns, route or line.
#![tactic(auto)]

use cases::{Answer, Marked, Or, Program};
use columns::Columns;
use elem::Origin;
use network::{IpAddr, NetworkPrefix};
use path_text::AsnsError;
use std::io::Write;
use std::{fmt, io};
use text_dump_header::{HeaderError, TextDumpHeader};
use text_dump_line::{Line, PrefixText, RouteEntry};

// The AS places that are lent.
const PLACES: usize = 64;

// An address as its numbers.
#[derive(Clone, Copy)]
struct Address(IpAddr);

impl fmt::Display for Address {
    fn fmt<W: fmt::Write>(&self, f: &mut fmt::Formatter<W>) -> fmt::Result {
        match self.0 {
            IpAddr::V4(n) => write!(f, "4:{n}"),
            IpAddr::V6(upper, lower) => write!(f, "6:{upper}:{lower}"),
        }
    }
}

#[derive(Clone, Copy)]
struct Prefix(NetworkPrefix);

impl fmt::Display for Prefix {
    fn fmt<W: fmt::Write>(&self, f: &mut fmt::Formatter<W>) -> fmt::Result {
        write!(f, "{}/{}", Address(self.0.addr), self.0.len)
    }
}

// The places of the columns.
#[derive(Clone, Copy)]
struct Places(Columns);

impl fmt::Display for Places {
    fn fmt<W: fmt::Write>(&self, f: &mut fmt::Formatter<W>) -> fmt::Result {
        let Columns {
            next_hop,
            metric,
            local_pref,
            weight,
            path,
        } = self.0;
        write!(f, "{next_hop},{metric},{local_pref},{weight},{path}")
    }
}

// What a header says, and where it ends.
fn put_read(h: TextDumpHeader, end: usize, out: &mut Answer) -> io::Result<()> {
    write!(
        out,
        "{} {} {} {} {end}",
        Or(h.table_version, "-"),
        Or(h.router_id.map(Address), "-"),
        Or(h.local_as, "-"),
        Or(h.columns.map(Places), "-")
    )
}

fn put_header(
    answer: Result<(TextDumpHeader, usize), HeaderError>,
    out: &mut Answer,
) -> io::Result<()> {
    match answer {
        Err(HeaderError::Unreadable(n)) => write!(out, "unreadable {n}"),
        Ok((h, end)) => put_read(h, end, out),
    }
}

fn origin_mark(o: Option<Origin>) -> &'static str {
    match o {
        Some(Origin::IGP) => "i",
        Some(Origin::EGP) => "e",
        Some(Origin::INCOMPLETE) => "?",
        None => "-",
    }
}

fn put_list(asns: &[u32], out: &mut Answer) -> io::Result<()> {
    match asns {
        [] => write!(out, "-"),
        [first, others @ ..] => write!(out, "{first}{}", Marked(",", others)),
    }
}

// The AS numbers, as put_asns puts them and count_asns counts them.
fn put_path(part: &[u8], out: &mut Answer) -> io::Result<()> {
    let mut asns = [0u32; PLACES];
    let Ok(n) = path_text::put_asns(part, &mut asns) else {
        return write!(out, "too few places");
    };
    if n != path_text::count_asns(part) {
        return Ok(());
    }
    put_list(cases::first(&asns, n), out)
}

fn put_entry(line: &[u8], e: RouteEntry, out: &mut Answer) -> io::Result<()> {
    write!(
        out,
        "{} {} {} {} ",
        Address(e.next_hop),
        Or(e.metric, "-"),
        Or(e.local_pref, "-"),
        origin_mark(e.origin)
    )?;
    put_path(cases::part(line, e.path_start, e.path_end), out)
}

fn put_route(line: &[u8], text: PrefixText, e: RouteEntry, out: &mut Answer) -> io::Result<()> {
    match text {
        PrefixText::Blank => write!(out, "blank ")?,
        PrefixText::Invalid => return write!(out, "invalid"),
        PrefixText::Valid(p) => write!(out, "route {} ", Prefix(p))?,
    }
    put_entry(line, e, out)
}

fn put_line(line: &[u8], c: Columns, out: &mut Answer) -> io::Result<()> {
    match text_dump_line::line_of(line, c) {
        Line::Unreadable => write!(out, "unreadable"),
        Line::Passed => write!(out, "passed"),
        Line::Wrapped(p) => write!(out, "wrapped {}", Prefix(p)),
        Line::Route(e, text) => put_route(line, text, e, out),
    }
}

// What a route carries by the columns alone.
fn put_carried(line: &[u8], c: Columns, out: &mut Answer) -> io::Result<()> {
    let Some((_, e)) = text_dump_line::parse_route_line(line, c) else {
        return write!(out, "nothing");
    };
    put_entry(line, e, out)
}

// put_asns on lent places: the answer, and what all of them hold then.
fn put_asns(part: &[u8], room: usize, out: &mut Answer) -> io::Result<()> {
    let mut places = [9; PLACES];
    let lent = cases::first_mut(&mut places, room);
    match path_text::put_asns(part, lent) {
        Ok(n) => write!(out, "{n}")?,
        Err(AsnsError::TooFewPlaces) => write!(out, "refused 7")?,
    }
    write!(out, "{}", Marked(",", lent))
}

fn columns_of(case: &[u8]) -> Columns {
    Columns {
        next_hop: cases::number(case, 1),
        metric: cases::number(case, 2),
        local_pref: cases::number(case, 3),
        weight: cases::number(case, 4),
        path: cases::number(case, 5),
    }
}

struct TextDumpCases;

impl Program for TextDumpCases {
    fn answer(&self, case: &[u8], out: &mut Answer) -> io::Result<()> {
        let mut bytes = [0; 4096];
        let mut line_bytes = [0; 4096];
        let s = cases::hex(cases::field(case, 1), &mut bytes);
        let line = cases::hex(cases::field(case, 6), &mut line_bytes);
        let name = cases::field(case, 0);
        if name.starts_with(b"detect") {
            let detected = text_dump_header::detect_text_dump(s);
            write!(out, "{}", cases::yes_no(detected))
        } else if name.starts_with(b"header") {
            put_header(text_dump_header::parse_header(s), out)
        } else if matches!(name, b"put_asns") {
            put_asns(s, cases::number(case, 2), out)
        } else if name.starts_with(b"route") {
            put_carried(line, columns_of(case), out)
        } else {
            put_line(line, columns_of(case), out)
        }
    }
}

fn main(rt: HostRuntime) -> io::Result<()> {
    cases::run(&rt, "cases.txt", &TextDumpCases)
}
