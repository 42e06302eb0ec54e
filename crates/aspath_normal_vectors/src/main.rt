// Runs the cases of coalesce, dedup_coalesce and has_equivalent_routing (data/cases.txt, then
// data/three.txt) and prints a line for each group.
//
// A question is a call's name (or one that begins with it) and a record: its kinds, lengths and
// numbers (bytes; four for each number) and its two counts; for equivalence two records. Places
// after the counts are lent too. `all` asks coalesce and then dedup_coalesce of one record, with
// one digit for each kind, length and number. An answer ends with all places that were lent.
#![tactic(auto)]

use aspath::{PathRecord, Spoilt};
use aspath_equivalence::Equivalence;
use aspath_normal::{Counts, LentPath};
use cases::{Answer, Program};
use output::Writer;
use path_cases::Lists;
use std::io;
use std::io::Write;

// What `write` writes at the end of an answer, as far as there is room.
// Stays in both programs that print so: a public function asks nothing of its callers, and one that
// takes a closure asks that it may be called.
fn put_by<F: FnOnce(&mut Writer)>(write: F, out: &mut Answer)
    requires { F.IsAlwaysCallable write }
{
    let at = out.position() as usize;
    let mut w = Writer {
        out: out.get_mut(),
        at,
    };
    write(&mut w);
    let at = w.at;
    out.set_position(at as u64);
}

fn write_counts(counts: Counts, w: &mut Writer) {
    decimal_display::write_u64(counts.segments as u64, w);
    w.byte(b' ');
    decimal_display::write_u64(counts.numbers as u64, w);
}

// 10 is 01's number of a spoilt record.
fn put_normalised(answer: Result<Counts, Spoilt>, out: &mut Answer) -> io::Result<()> {
    match answer {
        Ok(counts) => {
            put_by(|w| write_counts(counts, w), out);
            Ok(())
        }
        Err(Spoilt) => write!(out, "refused 10"),
    }
}

fn write_both(first: Counts, second: Counts, w: &mut Writer) {
    write_counts(first, w);
    w.byte(b' ');
    write_counts(second, w);
}

fn put_equivalence(answer: Result<Equivalence, Spoilt>, out: &mut Answer) -> io::Result<()> {
    match answer {
        Ok(found) => {
            write!(out, "{} ", cases::yes_no(found.equivalent))?;
            put_by(|w| write_both(found.first, found.second, w), out);
            Ok(())
        }
        Err(Spoilt) => write!(out, "refused 10"),
    }
}

// The record of a line's lists, with the two counts whose fields are told.
fn lent<'a>(lists: &'a mut Lists, line: &[u8], counts: [usize; 2]) -> LentPath<'a> {
    let (kinds, lengths, numbers) = lists.parts_mut();
    let [segments, count] = counts.map(|n| cases::number(line, n));
    LentPath {
        kinds,
        lengths,
        numbers,
        segments,
        count,
    }
}

fn write_record(mark: &[u8], record: PathRecord, w: &mut Writer) {
    w.byte(b' ');
    cases::write_hex(record.kinds, w);
    w.byte(b' ');
    cases::write_numbers(mark, record.lengths, w);
    w.byte(b' ');
    cases::write_numbers(mark, record.numbers, w);
}

fn put_record(mark: &[u8], record: PathRecord, out: &mut Answer) {
    put_by(|w| write_record(mark, record, w), out);
}

// What a call answers of the record, and what it leaves in its lists.
fn answer_call<F: Fn(&mut LentPath) -> Result<Counts, Spoilt>>(
    call: F,
    line: &[u8],
    lists: &mut Lists,
    mark: &[u8],
    out: &mut Answer,
) -> io::Result<()>
    requires { F.IsAlwaysCallable call }
{
    let mut record = lent(lists, line, [4, 5]);
    let answer = call(&mut record);
    put_normalised(answer, out)?;
    put_record(mark, record.record(), out);
    Ok(())
}

// It is lent the numbers shared, for it moves none.
fn coalesce(lent: &mut LentPath) -> Result<Counts, Spoilt> {
    // Read before the lists are lent on.
    let segments = lent.segments;
    let count = lent.count;
    let numbers = &mut *lent.numbers;
    aspath_normal::coalesce(lent.kinds, lent.lengths, numbers, segments, count)
}

fn answer_all(line: &[u8], out: &mut Answer) -> io::Result<()> {
    let mut lists = path_cases::load_digits(line);
    answer_call(coalesce, line, &mut lists, b"", out)?;
    write!(out, "|")?;
    let mut lists = path_cases::load_digits(line);
    answer_call(aspath_normal::dedup_coalesce, line, &mut lists, b"", out)
}

fn answer_equivalent(line: &[u8], out: &mut Answer) -> io::Result<()> {
    let mut lists = path_cases::load(line, 1);
    let mut lists2 = path_cases::load(line, 6);
    let mut first = lent(&mut lists, line, [4, 5]);
    let mut second = lent(&mut lists2, line, [9, 10]);
    let answer = aspath_equivalence::has_equivalent_routing(&mut first, &mut second);
    put_equivalence(answer, out)?;
    put_record(b",", first.record(), out);
    put_record(b",", second.record(), out);
    Ok(())
}

struct NormalCases;

impl Program for NormalCases {
    fn answer(&self, line: &[u8], out: &mut Answer) -> io::Result<()> {
        let name = cases::field(line, 0);
        if name == b"all".as_slice() {
            answer_all(line, out)
        } else if name.starts_with(b"equivalent") {
            answer_equivalent(line, out)
        } else if name.starts_with(b"coalesce") {
            let mut lists = path_cases::load(line, 1);
            answer_call(coalesce, line, &mut lists, b",", out)
        } else if name.starts_with(b"dedup_coalesce") {
            let mut lists = path_cases::load(line, 1);
            answer_call(aspath_normal::dedup_coalesce, line, &mut lists, b",", out)
        } else {
            Ok(())
        }
    }
}

fn main(rt: HostRuntime) -> io::Result<()> {
    cases::run(&rt, "cases.txt", &NormalCases)?;
    cases::run(&rt, "three.txt", &NormalCases)
}
