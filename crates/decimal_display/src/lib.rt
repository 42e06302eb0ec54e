// Decimal numbers printed.
#![tactic(auto)]

ghost use Rattle.std.specs.Prelude.{◌≡◌, ◌≤◌, ◌<◌, length};
ghost use Rattle.decimal_display.specs.Printed.{decimal, last_digits, difference};
ghost use Rattle.output.specs.Output.{front, answer};
ghost use Rattle.output.specs.Writing.{Writes};

use output::{PutError, Writer};

// How many digits n has.
#[tactic(auto, using(crate::proofs::Printed::length_log, crate::proofs::Printed::length_zero))]
pub fn decimal_len(n: u64) -> usize
    ensures { (result ≡ length (decimal n)) × (result ≤ 20) }
{
    match n.checked_ilog10() {
        Some(k) => k as usize + 1,
        None => 1,
    }
}

// The last K digits of n, with zeros in front. K is known, so the loop unrolls.
fn last_digits<const K: usize>(n: u64) -> [u8; K]
    ensures { result ≡ last_digits K n }
{
    let mut digits = [b'0'; K];
    let mut y = n;
    // Stays by places: in a loop over `iter_mut().rev()` no invariant can speak of the digits
    // written, so the proof did not close.
    for i in (0..K).rev() {
        digits[i] = b'0' + (y % 10) as u8;
        y = y / 10;
    }
    digits
}

// At most four digits. Three are written as one and two, since three bytes are no single store.
#[inline(always)]
fn write_small(n: u64, w: &mut Writer)
    requires { n < 10000 }
    ensures { Writes (decimal n) w.old w.new }
{
    let one_digit = n < 10;
    let two_digits = n < 100;
    let three_digits = n < 1000;
    if one_digit {
        w.bytes(&last_digits::<1>(n));
    } else if two_digits {
        w.bytes(&last_digits::<2>(n));
    } else if three_digits {
        w.byte(b'0' + (n / 100) as u8);
        w.bytes(&last_digits::<2>(n));
    } else {
        w.bytes(&last_digits::<4>(n));
    }
}

// At most eight digits, the last four as one group.
#[inline(always)]
fn write_short(n: u64, w: &mut Writer)
    requires { n < 100000000 }
    ensures { Writes (decimal n) w.old w.new }
{
    if n < 1_0000 {
        return write_small(n, w);
    }
    write_small(n / 1_0000, w);
    let last = last_digits::<4>(n);
    w.bytes(&last);
}

// More than eight digits. It stands apart, so that what writes fewer is short enough to be inlined.
#[inline(never)]
fn write_long(n: u64, w: &mut Writer)
    ensures { Writes (decimal n) w.old w.new }
{
    match n {
        0..1_0000_0000 => write_short(n, w),
        1_0000_0000..1_0000_0000_0000_0000 => {
            write_short(n / 1_0000_0000, w);
            w.bytes(&last_digits::<8>(n));
        }
        _ => {
            write_small(n / 1_0000_0000_0000_0000, w);
            w.bytes(&last_digits::<16>(n));
        }
    }
}

// Short enough to be inlined, so that a caller whose numbers are small pays for small ones alone.
#[inline(always)]
pub fn write_u64(n: u64, w: &mut Writer)
    ensures { Writes (decimal n) w.old w.new }
{
    if n < 1_0000_0000 {
        write_short(n, w);
    } else {
        write_long(n, w);
    }
}

#[inline(always)]
pub fn write_u32(n: u32, w: &mut Writer)
    ensures { Writes (decimal n) w.old w.new }
{
    write_u64(u64::from(n), w);
}

// The whole number a - b, and how many bytes it takes.
pub fn write_difference(a: u64, b: u64, w: &mut Writer)
    ensures { Writes (difference a b) w.old w.new }
{
    if a < b {
        w.byte(b'-');
        write_u64(b - a, w);
    } else {
        write_u64(a - b, w);
    }
}

#[tactic(auto, using(crate::proofs::Printed::negative_length, crate::proofs::Printed::positive_length))]
pub fn difference_len(a: u64, b: u64) -> usize
    ensures { (result ≡ length (difference a b)) × (result ≤ 21) }
{
    if b <= a {
        decimal_len(a - b)
    } else {
        1 + decimal_len(b - a)
    }
}

pub fn put_u64(n: u64, out: &mut [u8]) -> Result<usize, PutError>
    ensures { (result ≡ answer (decimal n) out.old) × (out.new ≡ front (decimal n) out.old) }
{
    let mut places = [0; 20];
    let mut w = Writer::new(&mut places);
    write_u64(n, &mut w);
    output::put(w.text(), out)
}

pub fn put_u32(n: u32, out: &mut [u8]) -> Result<usize, PutError>
    ensures { (result ≡ answer (decimal n) out.old) × (out.new ≡ front (decimal n) out.old) }
{
    put_u64(u64::from(n), out)
}
