// What the path's part of a line says: the AS numbers, and the origin.
#![tactic(auto)]

ghost use Rattle.std.specs.Prelude.{◌≡◌, true, cond, [], ◌∷◌, ◌++◌, ◌≤◌, length, drop, leb};
ghost use Rattle.output.specs.Output.{front};
ghost use Rattle.path_text.specs.Path.{last_token, letter, is_known, origin_of, asns_of, put_answer};
ghost use Rattle.path_text.specs.Walk.{lone, IsPlain, Finds};

use elem::Origin;
use text::Tokens;

fn last_token(s: &[u8]) -> &[u8]
    ensures { result.now ≡ last_token s.now }
{
    Tokens::of(s).last().unwrap_or(&[])
}

#[tactic(auto, using(crate::proofs::OriginLaws::letter_laws))]
fn letter_of(w: &[u8]) -> Option<Origin>
    ensures { result ≡ letter w.now }
{
    match w {
        [b'i'] => Some(Origin::IGP),
        [b'e'] => Some(Origin::EGP),
        [b'?'] => Some(Origin::INCOMPLETE),
        _ => None,
    }
}

#[tactic(auto, using(crate::proofs::OriginLaws::letter_byte))]
fn is_letter(b: u8) -> bool
    ensures { result ≡ is_known (letter (b ∷ [])) }
{
    matches!(b, b'i' | b'e' | b'?')
}

// What a letter tells.
// Stays by way of its number, with no branch: none would guess which letter comes
// (docs/PERFORMANCE.md: -4 %, -5 %).
#[tactic(auto, using(crate::proofs::OriginLaws::letter_byte))]
fn origin_by(b: u8) -> Origin
    requires { is_known (letter (b ∷ [])) ≡ true }
    ensures { Some result ≡ letter (b ∷ []) }
{
    match u8::from(b == b'e') + 2 * u8::from(b == b'?') {
        0 => Origin::IGP,
        1 => Origin::EGP,
        _ => Origin::INCOMPLETE,
    }
}

// Most parts end in a space and a letter, which two bytes tell.
#[tactic(auto, using(crate::proofs::OriginLaws::ends_letter))]
pub fn origin_of(s: &[u8]) -> Option<Origin>
    ensures { result ≡ origin_of s.now }
{
    match s {
        [.., b' ', b] if is_letter(*b) => Some(origin_by(*b)),
        _ => letter_of(last_token(s)),
    }
}

// The number from `at` on, with the place after it, where it has at most seven digits and a space
// after these, as nearly every one has. Eight bytes are read as a little-endian u64.
// Stays apart from psv_stream's plain_digits: that counts digits, and makes no number of them.
fn plain_number(part: &[u8], at: usize) -> Option<(u32, usize)>
    ensures { IsPlain part.now at result }
{
    let w = word::word_at(part, at);
    let d = decimal::first_digits(w)?;
    if 7 < d.count || (w >> (8 * d.count as u64)) % 256 != 32 {
        return None;
    }
    Some((d.value, at + d.count + 1))
}

// Is one byte left that is no digit? So the origin stands at most paths' end.
#[tactic(auto, using(crate::proofs::PlainLaws::lone_laws))]
fn is_lone(part: &[u8], at: usize) -> bool
    ensures { result ≡ lone (drop at part.now) }
{
    at < part.len() && part.len() - at == 1 && !part[at].is_ascii_digit()
}

// The next token's number, if it is one, with the place after the token; none at the path's end.
// Not inlined: it is seldom called, and would take registers from the loop over plain numbers.
#[inline(never)]
#[tactic(auto, using(crate::proofs::PathLaws::next_asn_laws))]
fn next_asn(part: &[u8], at: usize) -> Option<(Option<u32>, usize)>
    ensures { Finds part.now at result }
{
    let (a, b) = text::next_token(part, at)?;
    Some((decimal::read_u32(&part[a..b]), b))
}

// The same, without looking for a token where a plain number or the path's end is seen at once.
#[tactic(auto, using(crate::proofs::PathLaws::is_lone_none))]
fn quick_asn(part: &[u8], at: usize) -> Option<(Option<u32>, usize)>
    ensures { Finds part.now at result }
{
    if let Some((x, end)) = plain_number(part, at) {
        return Some((Some(x), end));
    }
    if is_lone(part, at) {
        return None;
    }
    // Taken apart, so that the answer of the usual way needs no memory.
    let (number, end) = next_asn(part, at)?;
    Some((number, end))
}

// How many AS numbers a path's part has.
pub fn count_asns(part: &[u8]) -> usize
    ensures { result ≡ length (asns_of part.now) }
{
    Tokens::of(part)
        .filter(|token| decimal::read_u32(token).is_some())
        .count()
}

#[tactic(auto, using(crate::proofs::PathLaws::write_asns_laws))]
fn write_asns(part: &[u8], out: &mut [u32]) -> usize
    requires { length (asns_of part.now) ≤ length out.old }
    ensures { (result ≡ length (asns_of part.now)) × (out.new ≡ asns_of part.now ++ drop (length (asns_of part.now)) out.old) }
{
    let mut at = 0;
    // Stays counted by hand: zipped with out.iter_mut(), an iterator of the numbers alone would be
    // needed, and how many they are would be counted beside it all the same.
    let mut n = 0;
    while let Some((number, end)) = quick_asn(part, at) {
        if let Some(x) = number {
            out[n] = x;
            n += 1;
        }
        at = end;
    }
    n
}

#[derive(Debug, Clone, Copy, PartialEq, Eq)]
pub enum AsnsError {
    TooFewPlaces,
}

// Are there places for a path's AS numbers? Each takes a byte of the part at least: where there are
// as many places, they need not be counted.
#[tactic(auto, using(crate::proofs::PathLaws::many_places))]
fn has_places(part: &[u8], places: usize) -> bool
    ensures { result ≡ leb (length (asns_of part.now)) places }
{
    part.len() <= places || count_asns(part) <= places
}

// The AS numbers at the front of the lent list, or a refusal.
#[tactic(auto, unfolding(crate::specs::Path::put_answer, output::specs::Output::front))]
pub fn put_asns(part: &[u8], out: &mut [u32]) -> Result<usize, AsnsError>
    ensures { (result ≡ put_answer (asns_of part.now) out.old) × (out.new ≡ front (asns_of part.now) out.old) }
{
    if has_places(part, out.len()) {
        Ok(write_asns(part, out))
    } else {
        Err(AsnsError::TooFewPlaces)
    }
}
