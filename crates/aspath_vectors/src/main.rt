// Runs the cases of the path crates (data/cases.txt, then data/three.txt) and prints a line for
// each group.
//
// A question is a call's name (or one that begins with it), the record's kinds, lengths and
// numbers (bytes; four for each number), its two counts, the call's argument and how many places
// or bytes are lent to it. `all` asks every call of one record, with one digit for each kind,
// length and number; the argument is then the number of bytes lent.
//
// Stays with the record, the places and the answer as parameters of what asks: the calls asked take
// them one by one, so a struct of them would be taken apart at each.
#![tactic(auto)]

use aspath::{PathRecord, Spoilt, VariationsError};
use aspath_display::DisplayError;
use aspath_routes::{NumbersError, RouteError};
use cases::{Answer, InHex, Marked, Or, Program};
use output::Writer;
use path_cases::Lists;
use std::io::Write;
use std::{fmt, io};

// 01's number of a refusal.
trait Refusal: Copy {
    fn number(self) -> u64;
}

impl Refusal for Spoilt {
    fn number(self) -> u64 {
        10
    }
}

impl Refusal for VariationsError {
    fn number(self) -> u64 {
        match self {
            VariationsError::Spoilt => 10,
            VariationsError::TooMany => 11,
        }
    }
}

impl Refusal for NumbersError {
    fn number(self) -> u64 {
        match self {
            NumbersError::FewPlaces => 7,
            NumbersError::Spoilt => 10,
        }
    }
}

impl Refusal for RouteError {
    fn number(self) -> u64 {
        match self {
            RouteError::FewPlaces => 7,
            RouteError::Spoilt => 10,
            RouteError::TooMany => 11,
            RouteError::NoSuchRoute => 12,
        }
    }
}

impl Refusal for DisplayError {
    fn number(self) -> u64 {
        match self {
            DisplayError::TooShort => 9,
            DisplayError::Spoilt => 10,
        }
    }
}

fn put<T: fmt::Display + Drop, E: Refusal>(r: Result<T, E>, out: &mut Answer) -> io::Result<()> {
    match r {
        Ok(v) => write!(out, "{v}"),
        Err(e) => write!(out, "refused {}", e.number()),
    }
}

// What `write` writes at the end of an answer, as far as there is room.
// Stays in both programs that print so: a public function asks nothing of its callers, and one that
// takes a closure asks that it may be called.
fn put_by<F: FnOnce(&mut Writer)>(write: F, out: &mut Answer)
    requires { F.IsAlwaysCallable write }
{
    let at = out.position() as usize;
    let mut w = Writer {
        out: out.get_mut(),
        at,
    };
    write(&mut w);
    let at = w.at;
    out.set_position(at as u64);
}

fn put_option<T: fmt::Display + Drop, E: Refusal>(
    r: Result<Option<T>, E>,
    out: &mut Answer,
) -> io::Result<()> {
    put(r.map(|v| Or(v, "none")), out)
}

// A call that reads, or else writes numbers to the places.
fn ask(
    name: &[u8],
    record: PathRecord,
    arg: usize,
    places: &mut [u32],
    out: &mut Answer,
) -> io::Result<()> {
    if name.starts_with(b"route_len") {
        return put(record.route_len(), out);
    }
    if name.starts_with(b"variations") {
        return put(record.num_route_variations(), out);
    }
    if name.starts_with(b"contains") {
        let asn = (arg % 4294967296) as u32;
        return put(
            aspath_numbers::contains_asn(record, asn).map(cases::yes_no),
            out,
        );
    }
    if name.starts_with(b"origin") {
        return put_option(aspath_numbers::get_origin_opt(record), out);
    }
    if name.starts_with(b"collector") {
        return put_option(aspath_numbers::get_collector_opt(record), out);
    }
    write(name, record, arg, places, out)
}

// A call that writes numbers to the places.
fn write(
    name: &[u8],
    record: PathRecord,
    arg: usize,
    places: &mut [u32],
    out: &mut Answer,
) -> io::Result<()> {
    if name.starts_with(b"u32vec") {
        let r = aspath_routes::to_u32_vec_opt(record, arg == 1, places);
        put_option(r, out)?;
        return write!(out, "{}", Marked(",", places));
    }
    if name.starts_with(b"route") {
        let r = aspath_routes::numbered_route(record, arg as u64, places);
        put(r, out)?;
        return write!(out, "{}", Marked(",", places));
    }
    Ok(())
}

// Display: the answer, and all bytes that were lent.
fn show(record: PathRecord, bytes: &mut [u8], out: &mut Answer) -> io::Result<()> {
    let r = aspath_display::display(record, bytes);
    put(r, out)?;
    write!(out, " {}", InHex(bytes))
}

// What `all` asks, in this order: route_len, num_route_variations; contains_asn of 1 and of 2;
// get_origin_opt, get_collector_opt; to_u32_vec_opt without and with dedup; Display; every route,
// and the one behind the last.
fn all_counts(record: PathRecord, out: &mut Answer) -> io::Result<()> {
    put(record.route_len(), out)?;
    write!(out, "|")?;
    put(record.num_route_variations(), out)
}

fn all_contains(record: PathRecord, asn: u32, out: &mut Answer) -> io::Result<()> {
    write!(out, "|")?;
    put(
        aspath_numbers::contains_asn(record, asn).map(cases::yes_no),
        out,
    )
}

fn all_ends(record: PathRecord, out: &mut Answer) -> io::Result<()> {
    write!(out, "|")?;
    put_option(aspath_numbers::get_origin_opt(record), out)?;
    write!(out, "|")?;
    put_option(aspath_numbers::get_collector_opt(record), out)
}

fn all_reading(record: PathRecord, out: &mut Answer) -> io::Result<()> {
    all_counts(record, out)?;
    all_contains(record, 1, out)?;
    all_contains(record, 2, out)?;
    all_ends(record, out)
}

// Numbers, all of them behind the mark.
fn write_behind(mark: u8, numbers: &[u32], w: &mut Writer) {
    w.byte(mark);
    cases::write_numbers(b"", numbers, w);
}

fn put_written(places: &[u32], n: usize, out: &mut Answer) {
    put_by(|w| write_behind(b' ', cases::first(places, n), w), out);
}

fn all_vec(
    record: PathRecord,
    dedup: bool,
    places: &mut [u32],
    out: &mut Answer,
) -> io::Result<()> {
    write!(out, "|")?;
    let r = aspath_routes::to_u32_vec_opt(record, dedup, places);
    put_option(r, out)?;
    let Ok(Some(n)) = r else {
        return Ok(());
    };
    put_written(places, n, out);
    Ok(())
}

fn all_shown(record: PathRecord, bytes: &mut [u8], out: &mut Answer) -> io::Result<()> {
    write!(out, "|")?;
    let r = aspath_display::display(record, bytes);
    let Ok(n) = r else {
        return put(r, out);
    };
    out.write_all(cases::part(bytes, 0, n))
}

fn all_route(
    record: PathRecord,
    number: u64,
    places: &mut [u32],
    out: &mut Answer,
) -> io::Result<()> {
    write!(out, "|")?;
    let r = aspath_routes::numbered_route(record, number, places);
    match r {
        Ok(n) => {
            put(r, out)?;
            put_written(places, n, out);
            Ok(())
        }
        Err(RouteError::NoSuchRoute) => write!(out, "-"),
        Err(_) => put(r, out),
    }
}

// One more than there are routes.
fn routes_asked(r: Result<u64, VariationsError>) -> u64 {
    match r {
        Ok(n) => n.min(99) + 1,
        Err(_) => 0,
    }
}

fn all_written(record: PathRecord, places: &mut [u32], out: &mut Answer) -> io::Result<()> {
    for number in 0..routes_asked(record.num_route_variations()) {
        all_route(record, number, places, out)?;
    }
    put_by(|w| write_behind(b'|', places, w), out);
    Ok(())
}

fn all(
    record: PathRecord,
    places: &mut [u32],
    bytes: &mut [u8],
    out: &mut Answer,
) -> io::Result<()> {
    all_reading(record, out)?;
    all_vec(record, false, places, out)?;
    all_vec(record, true, places, out)?;
    all_shown(record, bytes, out)?;
    all_written(record, places, out)
}

fn load(line: &[u8]) -> Lists {
    if cases::field(line, 0) == b"all".as_slice() {
        return path_cases::load_digits(line);
    }
    path_cases::load(line, 1)
}

fn record_of<'a>(lists: &'a Lists, line: &[u8]) -> PathRecord<'a> {
    let (kinds, lengths, numbers) = lists.parts();
    PathRecord {
        kinds,
        lengths,
        numbers,
        segments: cases::number(line, 4),
        count: cases::number(line, 5),
    }
}

struct PathCases;

impl Program for PathCases {
    fn answer(&self, line: &[u8], out: &mut Answer) -> io::Result<()> {
        let lists = load(line);
        let record = record_of(&lists, line);
        let name = cases::field(line, 0);
        let arg = cases::number(line, 6);
        let room = cases::number(line, 7);
        let mut places = [7; 300];
        let mut bytes = [0; 4096];
        let lent = cases::first_mut(&mut places, room);
        if name == b"all".as_slice() {
            return all(record, lent, cases::first_mut(&mut bytes, arg), out);
        }
        if name.starts_with(b"display") {
            return show(record, cases::first_mut(&mut bytes, room), out);
        }
        ask(name, record, arg, lent, out)
    }
}

fn main(rt: HostRuntime) -> io::Result<()> {
    cases::run(&rt, "cases.txt", &PathCases)?;
    cases::run(&rt, "three.txt", &PathCases)
}
