// Decimal numbers, read as 01 says.
#![tactic(auto)]

ghost use Rattle.std.specs.Prelude.{◌≡◌, map, ℕ, ◌+◌, ◌*◌, ◌^◌, ◌≤◌, ◌<◌, length, get_or, SomeIff};
ghost use Rattle.word.specs.Word.{number, little_endian};
ghost use Rattle.decimal.specs.Decimal.{read_digits, read_u32, read_u64, behind, leading, or_zero, digits_at, first_digits, mark, placed};

// So many digits make no number that overflows.
const DIGITS_THAT_FIT: usize = 19;

// A number of v's digits and one more; None where it overflows.
fn with_digit(v: u64, digit: u64) -> Option<u64>
    ensures { SomeIff result (v * 10 + digit < 2 ^ 64) (v * 10 + digit) }
{
    // Compared first: a product that is tested for overflow takes longer at each digit.
    if u64::MAX / 10 < v {
        return None;
    }
    (v * 10).checked_add(digit)
}

// A number with no sign, of digits that fit.
fn few_digits(s: &[u8]) -> Option<u64>
    requires { (length s.now ≡ 0 → ⊥) × (length s.now ≤ 19) }
    ensures { result ≡ read_digits s.now }
{
    let mut v = 0;
    for b in s {
        if !b.is_ascii_digit() {
            return None;
        }
        v = v * 10 + u64::from(*b - b'0');
    }
    Some(v)
}

// A number with no sign, of any digits.
fn many_digits(s: &[u8]) -> Option<u64>
    requires { length s.now ≡ 0 → ⊥ }
    ensures { result ≡ read_digits s.now }
{
    let mut v = 0;
    for b in s {
        if !b.is_ascii_digit() {
            return None;
        }
        v = with_digit(v, u64::from(*b - b'0'))?;
    }
    Some(v)
}

// A number with no sign. Digits that surely fit are read by a loop of their own, which tests none
// for overflow: one loop that told them apart took twice as long on texts of many digits.
pub fn read_digits(s: &[u8]) -> Option<u64>
    ensures { result ≡ read_digits s.now }
{
    if s.is_empty() {
        return None;
    }
    if s.len() <= DIGITS_THAT_FIT {
        few_digits(s)
    } else {
        many_digits(s)
    }
}

pub fn read_u64(s: &[u8]) -> Option<u64>
    ensures { result ≡ read_u64 s.now }
{
    match s.strip_prefix(b"+") {
        Some(digits) => read_digits(digits),
        None => read_digits(s),
    }
}

#[tactic(auto, using(crate::proofs::Reading::none32, crate::proofs::Reading::small32, crate::proofs::Reading::large32))]
pub fn read_u32(s: &[u8]) -> Option<u32>
    ensures { result ≡ read_u32 s.now }
{
    let n = read_u64(s)?;
    u32::try_from(n).ok()
}

// What the digits from `at` on make and the place after them, where they are at most nine: none of
// these numbers is too large, so a text can be read up to where its digits end.
#[tactic(auto, using(crate::proofs::Leading::run_laws))]
pub fn digits_at(s: &[u8], at: usize) -> Option<(u32, usize)>
    ensures { result ≡ digits_at s.now at }
{
    let rest = s.get(at..).unwrap_or(&[]);
    let mut v = 0;
    for (i, b) in rest.iter().enumerate() {
        if !b.is_ascii_digit() {
            return Some((v, at + i));
        }
        if 9 <= i {
            return None;
        }
        v = v * 10 + u32::from(*b - b'0');
    }
    Some((v, at + rest.len()))
}

// The highest bit of each byte of a word that is no digit. With the bits of '0' taken out a digit
// is 0 to 9, and with 118 more the other bytes below 128 reach 128: none reaches 256, so no byte
// carries into the next.
fn marks(w: u64) -> u64
    ensures { result ≡ number (map mark (little_endian w)) }
{
    let x = w ^ 0x3030_3030_3030_3030;
    (((x & 0x7F7F_7F7F_7F7F_7F7F) + 0x7676_7676_7676_7676) | x) & 0x8080_8080_8080_8080
}

// As many digits are at the front of a word's bytes as stand in front of the first mark.
pub fn digit_count(w: u64) -> usize
    ensures { result ≡ length (leading (little_endian w)) }
{
    (u64::trailing_zeros(marks(w)) / 8) as usize
}

// The number whose eight digits are a word's bytes, each as a number: they are joined to twos,
// those to fours and those to eight, each time all at once.
fn joined(ones: u64) -> u32
    requires { (i : ℕ) → get_or (little_endian ones) i 0 < 10 }
    ensures { result ≡ placed 0 (little_endian ones) }
{
    let twos = (ones * 10 + (ones >> 8)) & 0x00FF_00FF_00FF_00FF;
    let fours = (twos * 100 + (twos >> 16)) & 0x0000_FFFF_0000_FFFF;
    ((fours * 10000 + (fours >> 32)) & 0xFFFF_FFFF) as u32
}

// What the n digits at the front make: they are shifted to the word's end, which puts digits 0 in
// front of them.
fn digits_value(w: u64, n: usize) -> u32
    requires { (n ≡ length (leading (little_endian w))) × (0 < n) }
    ensures { result ≡ or_zero (behind 0 (leading (little_endian w))) }
{
    joined((w ^ 0x3030_3030_3030_3030) << (64 - 8 * n as u64))
}

// How many digits are at the front of a word's bytes, at least one, and what they make.
#[derive(Clone, Copy)]
pub struct FirstDigits {
    pub count: usize,
    pub value: u32,
}

// None where the word begins with no digit.
#[tactic(auto, using(crate::proofs::FrontValue::no_first, crate::proofs::FrontValue::some_first))]
pub fn first_digits(w: u64) -> Option<FirstDigits>
    ensures { result ≡ first_digits w }
{
    let count = digit_count(w);
    if count == 0 {
        return None;
    }
    let value = digits_value(w, count);
    Some(FirstDigits { count, value })
}
