// White space of a text, told by its characters: trimming, tokens.
#![tactic(auto)]

ghost use Rattle.std.specs.Prelude.{◌≡◌, reverse, ◌-◌, ◌+◌, ◌*◌, ◌%◌, ◌≤◌, get_or, drop, length};
ghost use Rattle.utf8.specs.Utf8.{piece_len, chars};
ghost use Rattle.text.specs.White.{is_white, trim_start, trim_end, trim as trimOf, next_token, white_len, unless_zero, after_token};

// 01's list of White_Space.
#[tactic(auto, unfolding(crate::specs::White::is_white))]
fn is_white(u: u32) -> bool
    ensures { result ≡ is_white u }
{
    matches!(
        u,
        0x0009..=0x000D
            | 0x0020
            | 0x0085
            | 0x00A0
            | 0x1680
            | 0x2000..=0x200A
            | 0x2028
            | 0x2029
            | 0x202F
            | 0x205F
            | 0x3000
    )
}

fn code_two(a: u8, b: u8) -> u32
    ensures { result ≡ a % 32 * 64 + b % 64 }
{
    u32::from(a) % 32 * 64 + u32::from(b) % 64
}

fn code_three(a: u8, b: u8, c: u8) -> u32
    ensures { result ≡ (a % 16 * 64 + b % 64) * 64 + c % 64 }
{
    (u32::from(a) % 16 * 64 + u32::from(b) % 64) * 64 + u32::from(c) % 64
}

// How many bytes the white character at the front has, which is not ASCII, or None where there is
// none. No white character has four.
#[tactic(auto, using(crate::proofs::WhiteLaws::wide_laws))]
fn wide_white(s: &[u8]) -> Option<usize>
    requires { 0x80 ≤ get_or s.now 0 0 }
    ensures { result ≡ unless_zero (white_len (chars s.now)) }
{
    match utf8::char_len(s) {
        2 if is_white(code_two(s[0], s[1])) => Some(2),
        3 if is_white(code_three(s[0], s[1], s[2])) => Some(3),
        _ => None,
    }
}

// How many bytes the white character at the front has. Spaces and visible ASCII, which are nearly
// all, are told first, in the loops themselves.
#[inline(always)]
#[tactic(auto, using(crate::proofs::WhiteLaws::front_laws))]
fn white(s: &[u8]) -> Option<usize>
    ensures { result ≡ unless_zero (white_len (chars s.now)) }
{
    match s.first()? {
        b' ' => Some(1),
        0x21..=0x7E => None,
        _ => other_white(s),
    }
}

// The same, of any character.
#[tactic(auto, using(crate::proofs::WhiteLaws::front_laws))]
fn other_white(s: &[u8]) -> Option<usize>
    ensures { result ≡ unless_zero (white_len (chars s.now)) }
{
    match *s.first()? {
        b if b < 0x80 => is_white(u32::from(b)).then_some(1),
        _ => wide_white(s),
    }
}

// The last k bytes.
fn last(s: &[u8], k: usize) -> &[u8]
    ensures { result.now ≡ drop (length s.now - k) s.now }
{
    &s[s.len().saturating_sub(k)..]
}

// How many bytes the white character at the end has. Every line ends with a line feed, so this is
// told first too.
#[inline(always)]
#[tactic(auto, using(crate::proofs::WhiteLaws::end_laws))]
fn white_end(s: &[u8]) -> Option<usize>
    ensures { result ≡ unless_zero (white_len (reverse (chars s.now))) }
{
    match s.last()? {
        b' ' | b'\n' => Some(1),
        0x21..=0x7E => None,
        _ => other_white_end(s),
    }
}

// The same, of any character.
#[tactic(auto, using(crate::proofs::WhiteLaws::end_laws))]
fn other_white_end(s: &[u8]) -> Option<usize>
    ensures { result ≡ unless_zero (white_len (reverse (chars s.now))) }
{
    match *s.last()? {
        b if b < 0x80 => other_white(last(s, 1)),
        _ if other_white(last(s, 2)) == Some(2) => Some(2),
        _ if other_white(last(s, 3)) == Some(3) => Some(3),
        _ => None,
    }
}

// What is left after the white space at the front. The place moves and the slice stays as it is,
// since one that is cut anew at each turn goes through memory.
#[tactic(auto, using(crate::proofs::PlaceLaws::start_laws))]
pub fn trim_start(s: &[u8]) -> &[u8]
    ensures { result.now ≡ trim_start s.now }
{
    let mut i = 0;
    // Stays a loop over a place: slices cut anew here and in the next two loops cost a tenth of all
    // reading (docs/PERFORMANCE.md), and an iterator over characters would hold the same place.
    while let Some(k) = white(&s[i..]) {
        i += k;
    }
    &s[i..]
}

// What is left in front of the white space at the end.
#[tactic(auto, using(crate::proofs::PlaceLaws::end_laws))]
pub fn trim_end(s: &[u8]) -> &[u8]
    ensures { result.now ≡ trim_end s.now }
{
    let mut n = s.len();
    // Stays a loop over a place, as in trim_start.
    while let Some(k) = white_end(&s[..n]) {
        n -= k;
    }
    &s[..n]
}

// What is left between the white space at both ends.
pub fn trim(s: &[u8]) -> &[u8]
    ensures { result.now ≡ trimOf s.now }
{
    trim_end(trim_start(s))
}

// The bytes of the character at the front, or 1 where none begins there.
fn piece_len(s: &[u8]) -> usize
    ensures { result ≡ piece_len s.now }
{
    utf8::char_len(s).max(1)
}

// The same where that is not white. Visible ASCII and the space, which ends nearly every token, are
// told first, in the loop itself.
#[inline(always)]
#[tactic(auto, using(crate::proofs::WhiteLaws::ink_laws))]
fn ink_len(s: &[u8]) -> Option<usize>
    ensures { result ≡ unless_zero (piece_len s.now - white_len (chars s.now)) }
{
    match s.first() {
        Some(0x21..=0x7E) => Some(1),
        Some(b' ') => None,
        _ => other_ink_len(s),
    }
}

// The same, of any character.
#[tactic(auto, using(crate::proofs::WhiteLaws::ink_laws))]
fn other_ink_len(s: &[u8]) -> Option<usize>
    ensures { result ≡ unless_zero (piece_len s.now - white_len (chars s.now)) }
{
    match other_white(s) {
        None => Some(piece_len(s)),
        Some(_) => None,
    }
}

// Where the characters from the place `at` on that are not white end.
#[tactic(auto, using(crate::proofs::PlaceLaws::token_laws))]
fn token_end(s: &[u8], at: usize) -> usize
    requires { at ≤ length s.now }
    ensures { result ≡ length s.now - length (after_token (drop at s.now)) }
{
    let mut end = at;
    // Stays a while over a place, as in trim_start.
    while end < s.len()
        && let Some(k) = ink_len(&s[end..])
    {
        end += k;
    }
    end
}

// The next token at the place `at` or after it.
#[tactic(auto, using(crate::proofs::TokenLaws::next_laws))]
pub fn next_token(s: &[u8], at: usize) -> Option<(usize, usize)>
    ensures { result ≡ next_token s.now at }
{
    if s.len() <= at {
        return None;
    }
    let rest = trim_start(&s[at..]);
    if rest.is_empty() {
        return None;
    }
    let start = s.len() - rest.len();
    Some((start, token_end(s, start)))
}

// The tokens of a text, in order.
#[derive(Clone, Copy)]
pub struct Tokens<'a> {
    text: &'a [u8],
    at: usize,
}

impl<'a> Tokens<'a> {
    ghost use Rattle.std.specs.Prelude.{◌≡◌};
    ghost use Rattle.text.specs.White.{tokens};
    ghost use Rattle.text.specs.TokensLeft.{tokens_left};

    pub fn of(text: &'a [u8]) -> Tokens<'a>
        ensures { tokens_left result ≡ tokens text.now }
    {
        Tokens { text, at: 0 }
    }
}

impl<'a> Iterator for Tokens<'a> {
    ghost use Rattle.std.specs.Iterator.{YieldsFirstRef, item_count};
    ghost use Rattle.text.specs.TokensLeft.{tokens_left};

    type Item = &'a [u8];

    ghost next_gives = { YieldsFirstRef tokens_left };

    ghost remaining = { item_count tokens_left };

    #[tactic(auto, using(crate::proofs::TokenLaws::left_laws))]
    fn next(&mut self) -> Option<&'a [u8]> {
        let (start, end) = next_token(self.text, self.at)?;
        self.at = end;
        Some(&self.text[start..end])
    }
}
