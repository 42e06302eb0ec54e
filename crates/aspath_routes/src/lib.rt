// A path's numbers written into lent places.
#![tactic(auto)]

ghost use Rattle.std.specs.Prelude.{◌≡◌, ◌≤◌, length};
ghost use Rattle.output.specs.Output.{Written, front};
ghost use Rattle.aspath.specs.Segments.{kind_number, segments_in, path_of};
ghost use Rattle.aspath_routes.specs.Runs.{after, runs};
ghost use Rattle.aspath_routes.specs.Joined.{simple, all_simple, joined, numbers_left, Answered};
ghost use Rattle.aspath_routes.specs.Routes.{taken, left, numbered, Routed};

use aspath::{AsPath, PathRecord, Segment, SegmentKind, Segments, Spoilt, VariationsError};

#[derive(Debug, Clone, Copy, PartialEq, Eq)]
pub enum NumbersError {
    FewPlaces,
    Spoilt,
}

impl From<Spoilt> for NumbersError {
    ghost use Rattle.aspath_routes.specs.declared.NumbersError.TheVariants.{Spoilt};

    ghost from_gives = { λ _ e. e ≡ Spoilt };

    fn from(_spoilt: Spoilt) -> NumbersError {
        NumbersError::Spoilt
    }
}

#[derive(Debug, Clone, Copy, PartialEq, Eq)]
pub enum RouteError {
    FewPlaces,
    NoSuchRoute,
    TooMany,
    Spoilt,
}

impl From<Spoilt> for RouteError {
    ghost use Rattle.aspath_routes.specs.declared.RouteError.TheVariants.{Spoilt};

    ghost from_gives = { λ _ e. e ≡ Spoilt };

    fn from(_spoilt: Spoilt) -> RouteError {
        RouteError::Spoilt
    }
}

impl From<VariationsError> for RouteError {
    ghost use Rattle.aspath_routes.specs.Routes.{route_refusal};

    ghost from_gives = { λ refusal e. e ≡ route_refusal refusal };

    fn from(refusal: VariationsError) -> RouteError {
        match refusal {
            VariationsError::Spoilt => RouteError::Spoilt,
            VariationsError::TooMany => RouteError::TooMany,
        }
    }
}

// Writes numbers, as many as there are places for (output's Written).
fn write_numbers(numbers: &[u32], out: &mut [u32]) -> usize
    ensures { Written numbers.now out.old 0 out.new result }
{
    let n = numbers.len().min(out.len());
    out[..n].copy_from_slice(&numbers[..n]);
    n
}

// The numbers of a path in order; with `dedup`, of equal neighbours in a segment the first.
// Stays a bool: the public to_u32_vec_opt takes one, and only `after` tests it, so that a closure
// or a type for each way would stand for one `if`.
#[derive(Clone, Copy)]
struct Numbers<'a> {
    dedup: bool,
    // what is left of one segment, and the segments after it
    numbers: &'a [u32],
    segments: Segments<'a>,
}

impl<'a> Numbers<'a> {
    fn new(path: AsPath<'a>, dedup: bool) -> Numbers<'a>
        ensures { numbers_left result ≡ joined dedup (segments_in path.entry) }
    {
        Numbers {
            dedup,
            numbers: &[],
            segments: path.segments(),
        }
    }

    // What is to be given of the numbers after the first: with `dedup`, not those that equal it.
    fn after(self, first: u32, others: &'a [u32]) -> &'a [u32]
        ensures { runs self.entry.dedup result.now ≡ after self.entry.dedup first others.now }
    {
        if !self.dedup {
            return others;
        }
        let equal = others.iter().take_while(|number| **number == first).count();
        &others[equal..]
    }

    // Writes them to places that suffice.
    // Stays by places: a zip hides what `iter_mut` has written (aspath_normal, single_sets).
    fn write(self, out: &mut [u32])
        requires { length (numbers_left self) ≤ length out.old }
        ensures { out.new ≡ front (numbers_left self.entry) out.old }
    {
        for (place, number) in self.enumerate() {
            out[place] = number;
        }
    }
}

impl Iterator for Numbers<'_> {
    ghost use Rattle.std.specs.Iterator.{YieldsFirst, item_count};

    type Item = u32;

    ghost next_gives = { YieldsFirst numbers_left };

    ghost remaining = { item_count numbers_left };

    fn next(&mut self) -> Option<u32> {
        // Stays a while: it counts no index, and with `find` the test would be written twice.
        while self.numbers.is_empty() {
            self.numbers = self.segments.next()?.numbers;
        }
        let (first, others) = self.numbers.split_first()?;
        self.numbers = self.after(*first, others);
        Some(*first)
    }
}

// Whether a segment is a list of numbers.
fn is_list(segment: Segment) -> bool
    ensures { result ≡ simple (kind_number segment.entry.kind) (length segment.entry.numbers.now) }
{
    match segment.kind {
        SegmentKind::AsSequence => true,
        SegmentKind::AsSet => segment.numbers.len() == 1,
        SegmentKind::ConfedSequence | SegmentKind::ConfedSet => false,
    }
}

fn is_simple(path: AsPath) -> bool
    ensures { result ≡ all_simple (segments_in path.entry) }
{
    path.segments().all(|segment| is_list(segment))
}

pub fn to_u32_vec_opt(
    lent: PathRecord,
    dedup: bool,
    out: &mut [u32],
) -> Result<Option<usize>, NumbersError>
    ensures { Answered dedup (path_of lent.entry) out.old result out.new }
{
    let path = lent.check()?;
    if !is_simple(path) {
        return Ok(None);
    }
    let numbers = Numbers::new(path, dedup);
    let n = numbers.count();
    let none = n == 0;
    if none {
        return Ok(None);
    }
    if out.len() < n {
        return Err(NumbersError::FewPlaces);
    }
    numbers.write(out);
    Ok(Some(n))
}

// What route k takes from a segment.
fn taken<'a>(segment: Segment<'a>, k: u64) -> &'a [u32]
    ensures { result.now ≡ taken (kind_number segment.entry.kind) segment.entry.numbers.now k }
{
    match segment.kind {
        SegmentKind::AsSequence => segment.numbers,
        SegmentKind::AsSet => {
            if segment.numbers.is_empty() {
                return &[0];
            }
            let j = (k % segment.numbers.len() as u64) as usize;
            &segment.numbers[j..j + 1]
        }
        SegmentKind::ConfedSequence | SegmentKind::ConfedSet => &[],
    }
}

// The number that is left for the segments behind it.
fn left_of(segment: Segment, k: u64) -> u64
    ensures { result ≡ left (kind_number segment.entry.kind) (length segment.entry.numbers.now) k }
{
    let length = segment.numbers.len() as u64;
    match segment.kind {
        SegmentKind::AsSet => k.checked_div(length).unwrap_or(k),
        SegmentKind::AsSequence | SegmentKind::ConfedSequence | SegmentKind::ConfedSet => k,
    }
}

// Stays with a place: a writer of u32, as output's of bytes, would serve this one loop alone.
fn write_route(path: AsPath, number: u64, out: &mut [u32]) -> usize
    ensures { Written (numbered (segments_in path.entry) number) out.old 0 out.new result }
{
    let mut place = 0;
    let mut k = number;
    for segment in path.segments() {
        place += write_numbers(taken(segment, k), &mut out[place..]);
        k = left_of(segment, k);
    }
    place
}

// The route of a number, from 0: the one that iter_routes gives after so many others.
pub fn numbered_route(lent: PathRecord, number: u64, out: &mut [u32]) -> Result<usize, RouteError>
    ensures { Routed (path_of lent.entry) number out.old result out.new }
{
    let path = lent.check()?;
    let total = path.num_route_variations()?;
    if total <= number {
        return Err(RouteError::NoSuchRoute);
    }
    let n = path.route_len();
    if out.len() < n {
        return Err(RouteError::FewPlaces);
    }
    write_route(path, number, out);
    Ok(n)
}
