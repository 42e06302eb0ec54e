// Lists of cases for test programs.
//
// A list is text. A line that starts with '#' is a comment. Any other line is a case: a question, a
// tab, and the answer that is right. A question is the name of its group and its arguments, parted
// by one space; byte strings are in hexadecimal, '-' for none. The cases of a group stand
// together.
//
// A program says what it answers to a line (`Program`), and `run` holds its answers to the list;
// see `text_vectors`.
#![tactic(auto)]

ghost use Rattle.std.specs.Prelude.{◌≡◌, ◌<◌, ◌==◌, cond, codes, length, position, take, IfOk};
ghost use Rattle.std.specs.Io.{ReadsAtMost};
ghost use Rattle.scan.specs.Search.{equal};
ghost use Rattle.output.specs.Writing.{Writes};
ghost use Rattle.cases.specs.Answers.{each, marked, hex_digit, in_hex};
ghost use Rattle.cases.specs.Cases.{part_of, shown_or, float_of, answer_of, counted};

use output::Writer;
use std::fs::File;
use std::io::{Cursor, Read, Write};
use std::rt::Files;
use std::{fmt, io};

// The most bytes of a list.
pub const LIST: usize = 2097152;

// The room for an answer.
const ANSWER: usize = 65536;

// Room for a list of cases.
// Stays a function: with the array written in `run`, its proof needs more stack than the checker
// has.
pub fn list_buffer() -> [u8; LIST]
    ensures { LIST ≡ length result }
{
    [0; LIST]
}

// Reads until the bytes are full or the input ends: how many bytes.
fn read_full<R: Read>(input: &mut R, out: &mut [u8]) -> io::Result<usize>
    ensures { ReadsAtMost result out.new }
{
    let mut n = 0;
    // Stays a while: each read gives as many bytes as it likes, which no range says.
    while n < out.len() {
        let got = input.read(&mut out[n..])?;
        if got == 0 {
            return Ok(n);
        }
        n += got;
    }
    Ok(n)
}

// Reads a file into the bytes, as far as there is room: how many bytes.
pub fn read_file<R: Files>(rt: &R, name: &str, out: &mut [u8]) -> io::Result<usize>
    ensures { ReadsAtMost result out.new }
{
    let mut file = File::open(rt, name)?;
    read_full(&mut file, out)
}

// The part a..e, empty where there is none.
pub fn part(s: &[u8], a: usize, e: usize) -> &[u8]
    ensures { result.now ≡ part_of s.now a e }
{
    match s.get(a..e) {
        Some(part) => part,
        None => &[],
    }
}

fn is_case(line: &[u8]) -> bool {
    !matches!(line, [] | [b'#', ..])
}

// The n-th field of a line, from 0 on, which is the group's name; fields are parted by a space or
// a tab.
pub fn field(line: &[u8], n: usize) -> &[u8] {
    line.split(|b| matches!(*b, b' ' | b'\t'))
        .nth(n)
        .unwrap_or(&[])
}

// The n-th field as a decimal number, 0 where it is none.
pub fn number(line: &[u8], n: usize) -> usize {
    decimal::read_u64(field(line, n)).unwrap_or(0) as usize
}

fn tab_at(line: &[u8]) -> Option<usize>
    ensures { result ≡ position (λ b. b == 9) line.now }
{
    line.iter().position(|b| *b == b'\t')
}

// The float whose bits these are, or none for those of a NaN.
pub fn float(bits: u64) -> Option<f64>
    ensures { result ≡ float_of bits }
{
    seconds::float_of_bits(bits)
}

// Whether the case's answer is `got`.
#[tactic(auto, using(scan::proofs::SearchLaws::equal_slices, crate::proofs::CaseLaws::answer_there, crate::proofs::CaseLaws::answer_none))]
pub fn agrees(line: &[u8], got: &[u8]) -> bool
    ensures { result ≡ equal (answer_of line.now) got.now }
{
    match tab_at(line) {
        Some(tab) => &line[tab + 1..] == got,
        None => got.is_empty(),
    }
}

fn value(b: u8) -> u8
    ensures { result < 16 }
{
    match b {
        b'0'..=b'9' => b - b'0',
        b'a'..=b'f' => b - b'a' + 10,
        _ => 0,
    }
}

// The bytes that the hexadecimal s says, as many as out has room for.
pub fn hex<'a>(s: &[u8], out: &'a mut [u8]) -> &'a [u8] {
    let (pairs, _) = s.as_chunks::<2>();
    for (place, [high, low]) in out.iter_mut().zip(pairs) {
        *place = value(*high) * 16 + value(*low);
    }
    first(out, pairs.len())
}

// The text that a call wrote at the beginning of the bytes, or another where it refused.
pub fn written_or<'a, E: Drop>(r: Result<usize, E>, bytes: &'a [u8], other: &'a [u8]) -> &'a [u8]
    ensures { result.now ≡ elim r [ Ok n ↦ part_of bytes.now 0 n | Err _ ↦ other.now ] }
{
    match r {
        Ok(n) => part(bytes, 0, n),
        Err(_) => other,
    }
}

// Bytes in hexadecimal, '-' for none.
#[derive(Clone, Copy)]
pub struct InHex<'a>(pub &'a [u8]);

impl fmt::Display for InHex<'_> {
    fn fmt<W: fmt::Write>(&self, f: &mut fmt::Formatter<W>) -> fmt::Result {
        if self.0.is_empty() {
            return write!(f, "-");
        }
        for b in self.0 {
            write!(f, "{b:02x}")?;
        }
        Ok(())
    }
}

// The values of a list, each after the mark.
#[derive(Clone, Copy)]
pub struct Marked<'a, T>(pub &'a str, pub &'a [T]);

impl<T: fmt::Display> fmt::Display for Marked<'_, T> {
    fn fmt<W: fmt::Write>(&self, f: &mut fmt::Formatter<W>) -> fmt::Result {
        for value in self.1 {
            if !self.0.is_empty() {
                f.write_str(self.0)?;
            }
            value.fmt(f)?;
        }
        Ok(())
    }
}

// The two that follow are for answers of many numbers: `write!` goes through the formatter for each,
// which took nearly half of a program's time.

// The values of a list, each after the mark.
pub fn write_numbers(mark: &[u8], values: &[u32], w: &mut Writer)
    ensures { Writes (each (marked mark.now) values.now) w.old w.new }
{
    for value in values {
        w.bytes(mark);
        decimal_display::write_u32(*value, w);
    }
}

fn hex_digit(n: u8) -> u8
    requires { n < 16 }
    ensures { result ≡ hex_digit n }
{
    if n < 10 { b'0' + n } else { b'a' - 10 + n }
}

// Bytes in hexadecimal, '-' for none.
pub fn write_hex(s: &[u8], w: &mut Writer)
    ensures { Writes (in_hex s.now) w.old w.new }
{
    if s.is_empty() {
        return w.byte(b'-');
    }
    for b in s {
        w.byte(hex_digit(*b / 16));
        w.byte(hex_digit(*b % 16));
    }
}

// A value, or the text where there is none.
#[derive(Clone, Copy)]
pub struct Or<'a, T>(pub Option<T>, pub &'a str);

impl<T: fmt::Display> fmt::Display for Or<'_, T> {
    ghost output = { shown_or T.output };

    fn fmt<W: fmt::Write>(&self, f: &mut fmt::Formatter<W>) -> fmt::Result {
        match &self.0 {
            Some(value) => write!(f, "{value}"),
            None => write!(f, "{}", self.1),
        }
    }
}

// The first n of a list, all where there are fewer.
pub fn first<T>(s: &[T], n: usize) -> &[T]
    ensures { result.now ≡ take n s.now }
{
    s.get(..n).unwrap_or(s)
}

// The same of a list that is to be changed.
pub fn first_mut<T>(s: &mut [T], n: usize) -> &mut [T]
    ensures { result.now ≡ take n s.old }
{
    let n = n.min(s.len());
    &mut s[..n]
}

// `yes` or `no`.
pub fn yes_no(yes: bool) -> &'static str
    ensures { result.now ≡ cond yes (codes "yes") (codes "no") }
{
    if yes { "yes" } else { "no" }
}

// What is counted of the group at hand.
#[derive(Clone, Copy, Default)]
pub struct Tally {
    pub cases: u64,
    pub mismatches: u64,
}

impl Tally {
    // A case more, which the program answered rightly or not.
    #[tactic(auto, unfolding(crate::specs::Cases::counted))]
    pub fn counted(self, right: bool) -> Tally
        ensures { result ≡ counted self right }
    {
        let cases = self.cases.wrapping_add(1);
        if right {
            return Tally { cases, ..self };
        }
        Tally {
            cases,
            mismatches: self.mismatches.wrapping_add(1),
        }
    }
}

// Prints the group's line, where it has cases.
pub fn report(rt: &impl Print, t: Tally, name: &[u8]) -> io::Result<()> {
    if t.cases == 0 {
        return Ok(());
    }
    rt.write_all(name)?;
    println!(rt; ": {} cases, {} mismatches", t.cases, t.mismatches)
}

fn print_mismatch(rt: &impl Print, line: &[u8], got: &[u8]) -> io::Result<()> {
    rt.write_all(b"mismatch: ")?;
    rt.write_all(line)?;
    rt.write_all(b"\n     got: ")?;
    rt.write_all(got)?;
    rt.write_all(b"\n")
}

// A case and the program's answer to it, counted; a mismatch is printed.
fn judged(rt: &impl Print, t: Tally, case: &[u8], got: &[u8]) -> io::Result<Tally>
    ensures { IfOk result (λ r. r ≡ counted t (equal (answer_of case.now) got.now)) }
{
    let right = agrees(case, got);
    if !right {
        print_mismatch(rt, case, got)?;
    }
    Ok(t.counted(right))
}

// Where a program writes its answer.
pub type Answer<'a> = Cursor<&'a mut [u8]>;

// What a test program answers to a line of its list.
pub trait Program {
    // The most bytes that are read of its list, and that are kept of an answer.
    const LIST_LEN: usize = LIST;

    const ANSWER_LEN: usize = 4096;

    fn answer(&self, line: &[u8], out: &mut Answer) -> io::Result<()>;
}

// The program's answer to a line, judged. It is written as far as there is room: one that is longer
// is held to the list as it is cut, and prints so.
fn answered<P: Program>(
    rt: &impl Print,
    program: &P,
    t: Tally,
    case: &[u8],
    out: &mut [u8],
) -> io::Result<Tally> {
    let mut answer = Cursor::new(&mut *out);
    let _ = program.answer(case, &mut answer);
    let n = answer.position() as usize;
    judged(rt, t, case, part(out, 0, n))
}

// Holds the program's answers to the list in a file, and prints a line for each group.
pub fn run<R: Files + Print, P: Program>(rt: &R, file: &str, program: &P) -> io::Result<()> {
    let mut list = list_buffer();
    let n = read_file(rt, file, first_mut(&mut list, P::LIST_LEN))?;
    let mut out = [0; ANSWER];
    let mut name: &[u8] = &[];
    let mut t = Tally::default();
    let lines = list[..n].split(|b| *b == b'\n');
    for case in lines.filter(|line| is_case(line)) {
        let group = field(case, 0);
        if group != name {
            report(rt, t, name)?;
            name = group;
            t = Tally::default();
        }
        t = answered(rt, program, t, case, first_mut(&mut out, P::ANSWER_LEN))?;
    }
    report(rt, t, name)
}
