// Listings cut into parts, and numbers drawn by a fixed rule, for test programs that replay lists
// of calls.
#![tactic(auto)]

use cases::Marked;
use std::fmt;

// The most parts, with one place more.
const PLACES: usize = 10;

// The i-th part lies between the places i and i + 1; the header ends at `header`, in the first
// part.
// Stays an array with its count: no heap is used, so no Vec.
#[derive(Clone, Copy)]
pub struct Cut {
    pub places: [usize; PLACES],
    pub parts: usize,
    pub header: usize,
}

impl Cut {
    // Where the body begins in the i-th part: in the first after the header.
    pub fn body_at(self, i: usize) -> usize {
        if i == 0 { self.header } else { 0 }
    }

    // The i-th part; no bytes where there is none.
    pub fn part(self, text: &[u8], i: usize) -> &[u8] {
        match self.places.get(i..) {
            Some([from, to, ..]) => cases::part(text, *from, *to),
            _ => &[],
        }
    }
}

// Where the parts but the first begin.
impl fmt::Display for Cut {
    fn fmt<W: fmt::Write>(&self, f: &mut fmt::Formatter<W>) -> fmt::Result {
        let places = self.places.get(1..self.parts).unwrap_or(&[]);
        write!(f, "{}", Marked(" ", places))
    }
}

// Two parts. A header that is cut has its first piece for a header.
pub fn in_two(text: &[u8], header: usize, at: usize) -> Cut {
    let mut places = [text.len(); PLACES];
    places[0] = 0;
    places[1] = at;
    Cut {
        places,
        parts: 2,
        header: header.min(at),
    }
}

// The next number of the rule x * 48271 mod 2^31 - 1, which passes all from 1 on.
pub fn drawn(x: u64) -> u64 {
    const MODULUS: u64 = 2147483647;
    x % MODULUS * 48271 % MODULUS
}

// A place up to a quarter of the text further on.
fn further(text: &[u8], at: usize, x: u64) -> usize {
    let steps = x % (text.len() as u64 / 4 + 1);
    at.wrapping_add(steps as usize).min(text.len())
}

// Two to eight parts, cut after the header at any places, or at line ends only. Parts may be
// empty.
// Stays a bool: a public function asks nothing of its callers, one that takes a closure asks that
// it may be called, and a trait with two types for the two would be no plainer.
pub fn by_chance(text: &[u8], header: usize, seed: u64, line_ends: bool) -> Cut {
    let parts = 2 + (drawn(seed) % 7) as usize;
    let mut places = [text.len(); PLACES];
    places[0] = 0;
    let mut x = seed;
    let mut at = header;
    for place in &mut places[1..parts] {
        x = drawn(x);
        at = further(text, at, x);
        if line_ends {
            at = scan::line_end(text, at);
        }
        *place = at;
    }
    Cut {
        places,
        parts,
        header,
    }
}
