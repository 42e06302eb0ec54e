// Byte-wise scanning: lines, words, comparison and search.
#![tactic(auto)]

ghost use Rattle.std.specs.Prelude.{ℕ, Bool, ◌≡◌, cond, ◌+◌, ◌≤◌, ◌<◌, min, length, drop, not, leb, ◌&&◌};
ghost use Rattle.std.specs.List.{position};
ghost use mathlib.Core.List.{flatten};
ghost use Rattle.scan.specs.Lists.{all, take_while, end_while};
ghost use Rattle.scan.specs.Lines.{is_feed, not_feed, line_end};
ghost use Rattle.scan.specs.Words.{is_gap, not_gap, next_word};
ghost use Rattle.scan.specs.Search.{equal, starts_with, find_in};

// A test of a byte. A trait, since a public function that takes a closure has to require that it
// may be called.
pub trait ByteTest {
    ghost passing: { ℕ → Bool };

    fn passes(b: u8) -> bool
        ensures { result ≡ passing b };
}

// Whether every byte passes. There is no branch: the compiler makes vector comparisons of it.
#[inline(always)]
#[tactic(auto, using(crate::proofs::ListLaws::passed_laws))]
pub fn all_pass<T: ByteTest>(s: &[u8]) -> bool
    ensures { result ≡ all T.passing s.now }
{
    let mut all = true;
    for b in s {
        all &= T::passes(*b);
    }
    all
}

// Whether every byte of every chunk passes.
#[inline(always)]
pub fn all_chunks_pass<T: ByteTest, const N: usize>(chunks: &[[u8; N]]) -> bool
    ensures { result ≡ all T.passing (flatten chunks.now) }
{
    chunks.iter().all(
        |chunk| -> bool
            ensures { result ≡ all T.passing chunk.now }
        { all_pass::<T>(chunk) },
    )
}

struct NotFeed;

impl ByteTest for NotFeed {
    ghost use Rattle.scan.specs.Lines.{not_feed};

    ghost passing = { not_feed };

    fn passes(b: u8) -> bool {
        b != b'\n'
    }
}

// The place k of a byte that is a line feed; 64 for another.
fn place_of(b: u8, k: usize) -> u8
    requires { k < 64 }
    ensures { result ≡ cond (is_feed b) k 64 }
{
    if b == b'\n' { k as u8 } else { 64 }
}

// How many of the 64 bytes stand before the first line feed. Again without a branch, as the least
// of 64 places: where a line ends no branch would guess.
fn first_near(s: &[u8], at: usize) -> usize
    requires { at + 64 ≤ length s.now }
    ensures { result ≡ min 64 (length (take_while not_feed (drop at s.now))) }
{
    let mut first: u8 = 64;
    // Stays over places: their least is the answer, and pairs of a place and a byte are no plainer.
    for k in 0..64 {
        first = first.min(place_of(s[at + k], k));
    }
    usize::from(first)
}

// Where the bytes that pass the test end, from `at` on.
fn end_while<P: Fn(u8) -> bool>(s: &[u8], at: usize, passes: P) -> usize
    requires { P.IsAlwaysCallable passes }
    ensures { (p : ℕ → Bool) → ((b : ℕ) (r : Bool) → P.post passes b r → r ≡ p b) → result ≡ end_while p s.now at }
{
    if s.len() <= at {
        return at;
    }
    let rest = &s[at..];
    at + rest.iter().position(|b| !passes(*b)).unwrap_or(rest.len())
}

// The first of the chunks that has a line feed.
fn first_chunk(chunks: &[[u8; 64]]) -> Option<usize>
    ensures { result ≡ position (λ c. not (all not_feed c)) chunks.now }
{
    chunks.iter().position(|chunk| !all_pass::<NotFeed>(chunk))
}

// The place of the next line feed, else the end, with 64 bytes looked at at a time.
#[tactic(auto, using(crate::proofs::LineLaws::chunk_laws))]
fn feed_at(s: &[u8], at: usize) -> usize
    ensures { result ≡ end_while not_feed s.now at }
{
    if s.len() <= at {
        return at;
    }
    let (chunks, _rest) = s[at..].as_chunks::<64>();
    match first_chunk(chunks) {
        Some(k) => at + 64 * k + first_near(s, at + 64 * k),
        None => end_while(s, at + 64 * chunks.len(), NotFeed::passes),
    }
}

pub fn line_end(s: &[u8], at: usize) -> usize
    ensures { result ≡ line_end s.now at }
{
    let i = feed_at(s, at);
    if i < s.len() { i + 1 } else { i }
}

fn is_gap(b: u8) -> bool
    ensures { result ≡ is_gap b }
{
    b.is_ascii_whitespace()
}

pub fn next_word(s: &[u8], at: usize) -> Option<(usize, usize)>
    ensures { result ≡ next_word s.now at }
{
    let start = end_while(s, at, is_gap);
    if start < s.len() {
        Some((start, end_while(s, start, |b| !is_gap(b))))
    } else {
        None
    }
}

#[tactic(auto, using(crate::proofs::SearchLaws::equal_slices))]
pub fn same(a: &[u8], b: &[u8]) -> bool
    ensures { result ≡ equal a.now b.now }
{
    a == b
}

#[tactic(auto, using(crate::proofs::SearchLaws::starts_with_slices))]
pub fn starts_with(s: &[u8], p: &[u8]) -> bool
    ensures { result ≡ starts_with s.now p.now }
{
    s.starts_with(p)
}

// starts_with for a text that most often begins otherwise: it ends at the first byte that differs,
// where a comparison of slices looks at all of short ones.
#[inline(always)]
fn begins(s: &[u8], p: &[u8]) -> bool
    ensures { result ≡ starts_with s.now p.now }
{
    p.len() <= s.len() && s[..p.len()].iter().zip(p).all(|(x, y)| x == y)
}

// Whether the pattern stands at the place.
fn stands_at(s: &[u8], at: usize, p: &[u8]) -> bool
    ensures { result ≡ (leb at (length s.now) && starts_with (drop at s.now) p.now) }
{
    at <= s.len() && begins(&s[at..], p)
}

// The empty pattern stands at the place 0.
pub fn find(s: &[u8], p: &[u8]) -> Option<usize>
    ensures { result ≡ find_in s.now p.now }
{
    (0..s.len() + 1).find(|at| stands_at(s, *at, p))
}
