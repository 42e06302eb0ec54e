// IPv4 and IPv6 addresses as text: RFC 5952, as 01 says.
#![tactic(auto)]

ghost use Rattle.std.specs.Prelude.{◌≡◌, ◌+◌, ◌≤◌, ◌<◌};
ghost use Rattle.decimal_display.specs.Printed.{decimal};
ghost use Rattle.output.specs.Writing.{Writes};
ghost use Rattle.ip_display.specs.Groups.{groups_of, counted, longest, first_run};
ghost use Rattle.ip_display.specs.Text.{before_dot, dotted, hex_byte, hex, joined, plain, ipv6_text};

use output::Writer;

const DIGITS: [u8; 16] = *b"0123456789abcdef";

#[tactic(auto, using(crate::proofs::Writing::digit_of))]
fn hex_byte(d: u16) -> u8
    requires { d < 16 }
    ensures { result ≡ hex_byte d }
{
    DIGITS[usize::from(d)]
}

// A group's four digits without the zeros in front, byte by byte: made into an array, they would be
// stored one by one and read together at once.
#[inline(always)]
fn write_hex(g: u16, w: &mut Writer)
    ensures { Writes (hex g) w.old w.new }
{
    match g {
        0..16 => w.byte(hex_byte(g)),
        16..256 => {
            w.byte(hex_byte(g / 16));
            w.byte(hex_byte(g % 16));
        }
        256..4096 => {
            w.byte(hex_byte(g / 256));
            w.byte(hex_byte(g / 16 % 16));
            w.byte(hex_byte(g % 16));
        }
        _ => {
            w.byte(hex_byte(g / 4096));
            w.byte(hex_byte(g / 256 % 16));
            w.byte(hex_byte(g / 16 % 16));
            w.byte(hex_byte(g % 16));
        }
    }
}

// An octet has one, two or three digits, so nothing is counted first and there is no loop.
#[inline(always)]
fn write_octet(o: u8, w: &mut Writer)
    ensures { Writes (decimal o) w.old w.new }
{
    match o {
        0..10 => w.byte(b'0' + o),
        10..100 => {
            w.byte(b'0' + o / 10);
            w.byte(b'0' + o % 10);
        }
        _ => {
            w.byte(b'0' + o / 100);
            w.byte(b'0' + o / 10 % 10);
            w.byte(b'0' + o % 10);
        }
    }
}

#[inline(always)]
fn write_before_dot(o: u8, w: &mut Writer)
    ensures { Writes (before_dot o) w.old w.new }
{
    write_octet(o, w);
    w.byte(b'.');
}

// It writes with a writer of its own, which can stay in registers.
#[inline(never)]
pub fn write_ipv4(n: u32, w: &mut Writer)
    ensures { Writes (dotted n) w.old w.new }
{
    let [a, b, c, d] = n.to_be_bytes();
    let mut v = Writer {
        out: w.out,
        at: w.at,
    };
    write_before_dot(a, &mut v);
    write_before_dot(b, &mut v);
    write_before_dot(c, &mut v);
    write_octet(d, &mut v);
    w.at = v.at;
}

// The groups of g with ':' between them, by a writer of its own too.
#[inline(never)]
fn write_groups(g: &[u16], w: &mut Writer)
    ensures { Writes (joined g.now) w.old w.new }
{
    let Some((first, rest)) = g.split_first() else {
        return;
    };
    let mut v = Writer {
        out: w.out,
        at: w.at,
    };
    write_hex(*first, &mut v);
    for h in rest {
        v.byte(b':');
        write_hex(*h, &mut v);
    }
    w.at = v.at;
}

// How many zero groups a list begins with, if its first group is g and the rest begins with n.
#[tactic(auto, using(crate::proofs::Writing::counted_one, crate::proofs::Writing::counted_none))]
fn counted_with(g: u16, n: usize) -> usize
    requires { n ≤ 8 }
    ensures { result ≡ counted g n }
{
    if g == 0 { n + 1 } else { 0 }
}

#[derive(Clone, Copy)]
struct Run {
    start: usize,
    len: usize,
}

// The longest run of zero groups, and the first of those as long. It is looked for from the end.
fn longest_run(g: [u16; 8]) -> Run
    ensures { (result.start ≡ first_run (longest g) g) × (result.len ≡ longest g) × (result.start + result.len ≤ 8) }
{
    let mut n: usize = 0;
    let mut len: usize = 0;
    let mut start: usize = 8;
    // Stays a loop over places: the place is what is looked for, so that a loop over the groups
    // would count it beside them.
    for i in (0..8).rev() {
        n = counted_with(g[i], n);
        if len <= n {
            len = n;
            start = i;
        }
    }
    Run { start, len }
}

fn groups(u: u64, l: u64) -> [u16; 8]
    ensures { result ≡ groups_of u l }
{
    [
        (u >> 48) as u16,
        (u >> 32 & 0xffff) as u16,
        (u >> 16 & 0xffff) as u16,
        (u & 0xffff) as u16,
        (l >> 48) as u16,
        (l >> 32 & 0xffff) as u16,
        (l >> 16 & 0xffff) as u16,
        (l & 0xffff) as u16,
    ]
}

fn write_plain(g: [u16; 8], w: &mut Writer)
    ensures { Writes (plain g) w.old w.new }
{
    let Run { start, len } = longest_run(g);
    let alone = len < 2;
    if alone {
        return write_groups(&g, w);
    }
    write_groups(&g[..start], w);
    w.bytes(b"::");
    write_groups(&g[start + len..], w);
}

pub fn write_ipv6(u: u64, l: u64, w: &mut Writer)
    ensures { Writes (ipv6_text u l) w.old w.new }
{
    if (u == 0) & (l >> 32 == 0xffff) {
        w.bytes(b"::ffff:");
        return write_ipv4((l & 0xffff_ffff) as u32, w);
    }
    write_plain(groups(u, l), w);
}
