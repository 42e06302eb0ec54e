// The date in a file's path (`infer_timestamp_from_path`), and the moment that it names.
#![tactic(auto)]

ghost use Rattle.std.specs.Prelude.{◌≡◌, ◌+◌, ◌-◌, ◌≤◌, ◌<◌, ℕ, Bool, IfSome, length, get_or};
ghost use Rattle.timestamp.specs.Dates.{fits as fitsByte, has_shape, digit_before, two as twoDigits, date_of, moment_of, moment_in, is_dashed, is_dotted, first_place, noon_in, second_in, infer_timestamp, number, refusal};

use calendar::Date;

#[derive(Debug, Clone, Copy, PartialEq, Eq)]
pub enum InferError {
    NotUtf8,
}

// Whether b stands where the shape has p: '0' is any digit, another byte is itself.
fn fits(p: u8, b: u8) -> bool
    ensures { result ≡ fitsByte p b }
{
    b == p || p == b'0' && b.is_ascii_digit()
}

// Whether s begins with the shape.
fn has_shape(shape: &[u8], s: &[u8]) -> bool
    ensures { result ≡ has_shape shape.now s.now }
{
    if s.len() < shape.len() {
        return false;
    }
    for (p, b) in shape.iter().zip(s) {
        if !fits(*p, *b) {
            return false;
        }
    }
    true
}

// What a digit counts. Every byte and every place has an answer, so that nothing is asked of the
// caller.
fn digit(s: &[u8], at: usize) -> u32
    ensures { (result ≡ get_or s.now at 0 - 48) × (result < 256) }
{
    u32::from(s.get(at).copied().unwrap_or(0).saturating_sub(b'0'))
}

fn two(s: &[u8], at: usize) -> u32
    requires { at < 14 }
    ensures { (result ≡ twoDigits s.now at) × (result < 10000) }
{
    10 * digit(s, at) + digit(s, at + 1)
}

// The date at the front of s, in either shape.
#[tactic(auto, using(crate::proofs::Shapes::date_is))]
fn date_of(s: &[u8]) -> Date
    ensures { result ≡ date_of s.now }
{
    let year = 100 * two(s, 0) + two(s, 2);
    let month = two(s, 5);
    let day = two(s, 8);
    Date { year, month, day }
}

// The second of the moment; None where there is no such moment.
#[tactic(auto, using(crate::proofs::Moments::no_date, crate::proofs::Moments::no_hour, crate::proofs::Moments::no_minute, crate::proofs::Moments::the_moment))]
fn moment(date: Date, hour: u32, minute: u32) -> Option<u64>
    ensures { result ≡ moment_of date hour minute }
{
    let days = calendar::days_of(date)?;
    if 23 < hour || 59 < minute {
        return None;
    }
    Some(days * 86400 + u64::from(hour * 3600 + minute * 60))
}

#[tactic(auto, using(crate::proofs::Moments::moment_is))]
fn moment_in(s: &[u8]) -> Option<u64>
    ensures { result ≡ moment_in s.now }
{
    moment(date_of(s), two(s, 11), two(s, 13))
}

// Stays a bound that three functions ask for: a slice from i on is there only within the path, and
// first_place gives them no other place.
#[tactic(auto, using(crate::proofs::Shapes::none_before, crate::proofs::Shapes::one_before))]
fn digit_before(path: &[u8], i: usize) -> bool
    requires { i ≤ length path.now }
    ensures { result ≡ digit_before path.now i }
{
    i > 0 && path[i - 1].is_ascii_digit()
}

#[tactic(auto, using(crate::proofs::Paths::preceded, crate::proofs::Paths::unshaped, crate::proofs::Paths::by_moment))]
fn is_dashed(path: &[u8], i: usize) -> bool
    requires { i ≤ length path.now }
    ensures { result ≡ is_dashed path.now i }
{
    !digit_before(path, i)
        && has_shape(b"0000-00-00-0000", &path[i..])
        && moment_in(&path[i..]).is_some()
}

#[tactic(auto, using(crate::proofs::Paths::is_dotted_lem))]
fn is_dotted(path: &[u8], i: usize) -> bool
    requires { i ≤ length path.now }
    ensures { result ≡ is_dotted path.now i }
{
    has_shape(b"0000.00.00", &path[i..])
}

// The first place of the path at which the test holds.
fn first_place<F: Fn(usize) -> bool>(path: &[u8], test: F) -> Option<usize>
    requires { (i : ℕ) → i < length path.now → F.pre test i }
    ensures within { IfSome result (λ i. i < length path.now) }
    ensures first { (p : ℕ → Bool) → ((i : ℕ) (b : Bool) → i < length path.now → F.post test i b → b ≡ p i) → result ≡ first_place p path.now }
{
    // Stays a for: with `(0..n).find(..)` it was not proved that the test may be called.
    for i in 0..path.len() {
        if test(i) {
            return Some(i);
        }
    }
    None
}

// A date with dots counts by its shape: where it is no date, the search does not go on.
#[tactic(auto, using(crate::proofs::Paths::no_noon, crate::proofs::Paths::noon_at_lem))]
fn noon_in(path: &[u8]) -> Option<u64>
    ensures { result ≡ noon_in path.now }
{
    let i = first_place(path, |i| is_dotted(path, i))?;
    moment(date_of(&path[i..]), 12, 0)
}

#[tactic(auto, using(crate::proofs::Paths::by_dots, crate::proofs::Paths::by_dashes))]
fn second_in(path: &[u8]) -> Option<u64>
    ensures { result ≡ second_in path.now }
{
    match first_place(path, |i| is_dashed(path, i)) {
        Some(i) => moment_in(&path[i..]),
        None => noon_in(path),
    }
}

#[tactic(auto, using(crate::proofs::Paths::unreadable, crate::proofs::Paths::none_named, crate::proofs::Paths::one_named, crate::proofs::Paths::refused, crate::proofs::Paths::answered))]
pub fn infer_timestamp_from_path(path: &[u8]) -> Result<Option<f64>, InferError>
    ensures { (result ≡ infer_timestamp path.now) × (number result ≡ refusal path.now) }
{
    if !utf8::is_readable(path) {
        return Err(InferError::NotUtf8);
    }
    Ok(second_in(path).map(|second| seconds::timestamp_of(second)))
}
