// UTF-8 (RFC 3629): characters, their edges, and the slices between edges.
#![tactic(auto)]

ghost use Rattle.std.specs.Prelude.{◌≡◌, ◌+◌, ◌≤◌, get_or, length, take, drop};
ghost use Rattle.utf8.specs.Utf8.{is_one, is_tail, is_two, is_three, is_four, char_len, all, readable};
ghost use Rattle.utf8.specs.Edge.{is_edge, has_slice};

use scan::ByteTest;

// The grammar of RFC 3629, section 4, a line for each alternative.
fn is_tail(b: u8) -> bool
    ensures { result ≡ is_tail b }
{
    matches!(b, 0x80..=0xBF)
}

fn is_two(a: u8, b: u8) -> bool
    ensures { result ≡ is_two a b }
{
    matches!(a, 0xC2..=0xDF) && is_tail(b)
}

fn is_three(a: u8, b: u8, c: u8) -> bool
    ensures { result ≡ is_three a b c }
{
    a == 0xE0 && matches!(b, 0xA0..=0xBF) && is_tail(c)
        || matches!(a, 0xE1..=0xEC) && is_tail(b) && is_tail(c)
        || a == 0xED && matches!(b, 0x80..=0x9F) && is_tail(c)
        || matches!(a, 0xEE..=0xEF) && is_tail(b) && is_tail(c)
}

fn is_four(a: u8, b: u8, c: u8, d: u8) -> bool
    ensures { result ≡ is_four a b c d }
{
    a == 0xF0 && matches!(b, 0x90..=0xBF) && is_tail(c) && is_tail(d)
        || matches!(a, 0xF1..=0xF3) && is_tail(b) && is_tail(c) && is_tail(d)
        || a == 0xF4 && matches!(b, 0x80..=0x8F) && is_tail(c) && is_tail(d)
}

// How many bytes the character at the front has; 0 where none begins there.
// Stays a length, as char_len in specs/Utf8.antt: that of no character is 0, and callers compare it
// or take at least 1 of it, which an Option would make no plainer.
#[tactic(auto, using(crate::proofs::CharLaws::char_laws))]
pub fn char_len(s: &[u8]) -> usize
    ensures { result ≡ char_len s.now }
{
    match s {
        [a, ..] if *a < 0x80 => 1,
        [a, b, ..] if is_two(*a, *b) => 2,
        [a, b, c, ..] if is_three(*a, *b, *c) => 3,
        [a, b, c, d, ..] if is_four(*a, *b, *c, *d) => 4,
        _ => 0,
    }
}

struct Ascii;

impl ByteTest for Ascii {
    ghost use Rattle.utf8.specs.Utf8.{is_one};

    ghost passing = { is_one };

    fn passes(b: u8) -> bool {
        b <= 0x7F
    }
}

// Is it ASCII? With 64 bytes at a time. Of the last 64 some or all may have been seen already: that
// is quicker than a loop over the rest.
// Stays: the library's is_ascii takes 1.6 times as long on lines of 70 to 100 bytes, some 3 % of all
// reading (docs/PERFORMANCE.md).
#[tactic(auto, using(crate::proofs::ReadableLaws::ascii_laws))]
pub fn is_ascii(s: &[u8]) -> bool
    ensures { result ≡ all is_one s.now }
{
    if s.len() < 64 {
        return scan::all_pass::<Ascii>(s);
    }
    let (chunks, _rest) = s.as_chunks::<64>();
    scan::all_chunks_pass::<Ascii, 64>(chunks) && scan::all_pass::<Ascii>(&s[s.len() - 64..])
}

// Is it UTF-8?
pub fn is_utf8(s: &[u8]) -> bool
    ensures { result ≡ readable s.now }
{
    str::from_utf8(s).is_ok()
}

// The same, for a text that is mostly ASCII, which one quick scan tells.
#[tactic(auto, using(crate::proofs::ReadableLaws::ascii_readable))]
pub fn is_readable(s: &[u8]) -> bool
    ensures { result ≡ readable s.now }
{
    is_ascii(s) || is_utf8(s)
}

// Does a character begin at this place, or the text end there?
#[tactic(auto, using(crate::proofs::EdgeLaws::edge_laws))]
pub fn is_edge(s: &[u8], at: usize) -> bool
    ensures { result ≡ is_edge s.now at }
{
    if at < s.len() {
        at == 0 || !is_tail(s[at])
    } else {
        at == s.len()
    }
}

// Is there a slice a..b?
pub fn has_slice(s: &[u8], a: usize, b: usize) -> bool
    ensures { result ≡ has_slice s.now a b }
{
    a <= b && b <= s.len() && is_edge(s, a) && is_edge(s, b)
}
