// The AS path of aspath.rs, as a record in lent lists.
#![tactic(auto)]

ghost use Rattle.std.specs.Prelude.{◌≡◌, ◌≤◌, ◌<◌, length, false, ltb};
ghost use Rattle.aspath.specs.Lists.{any, sum};

// The record as it is lent: anything may stand in it.
#[derive(Clone, Copy)]
pub struct PathRecord<'a> {
    pub kinds: &'a [u8],
    pub lengths: &'a [u32],
    pub numbers: &'a [u32],
    pub segments: usize,
    pub count: usize,
}

// A record that is not spoilt, cut to its counts.
#[derive(Clone, Copy)]
pub struct AsPath<'a> {
    pub kinds: &'a [u8],
    pub lengths: &'a [u32],
    pub numbers: &'a [u32],
    pub ghost few_segments: { length kinds.now ≤ 4096 },
    pub ghost few_numbers: { length numbers.now ≤ 16384 },
    pub ghost paired: { length lengths.now ≡ length kinds.now },
    pub ghost known: { any (ltb 3) kinds.now ≡ false },
    pub ghost summed: { sum lengths.now ≡ length numbers.now },
}

// The refusal of a spoilt record (01, Where a call says no, 10).
// Stays an impl of From<Spoilt> for each call's errors, four in all: a macro of ours may write
// none, and one enum for all would name refusals that a call never gives.
#[derive(Debug, Clone, Copy, PartialEq, Eq)]
pub struct Spoilt;

#[derive(Debug, Clone, Copy, PartialEq, Eq)]
pub enum SegmentKind {
    AsSequence,
    AsSet,
    ConfedSequence,
    ConfedSet,
}

#[derive(Clone, Copy)]
pub struct Segment<'a> {
    pub kind: SegmentKind,
    pub numbers: &'a [u32],
    pub ghost few_numbers: { length numbers.now ≤ 16384 },
}

// The segments of a path, in order.
#[derive(Clone, Copy)]
pub struct Segments<'a> {
    rest: AsPath<'a>,
}

#[derive(Debug, Clone, Copy, PartialEq, Eq)]
pub enum VariationsError {
    Spoilt,
    // more than 64 bits hold
    TooMany,
}

impl From<Spoilt> for VariationsError {
    ghost use Rattle.std.specs.Prelude.{◌≡◌};
    ghost use Rattle.aspath.specs.declared.VariationsError.TheVariants.{Spoilt};

    ghost from_gives = { λ _ e. e ≡ Spoilt };

    fn from(_spoilt: Spoilt) -> VariationsError {
        VariationsError::Spoilt
    }
}

impl TryFrom<u8> for SegmentKind {
    ghost use Rattle.aspath.specs.Segments.{KindOf};

    type Error = Spoilt;

    ghost try_from_gives = { KindOf };

    fn try_from(kind: u8) -> Result<SegmentKind, Spoilt> {
        match kind {
            0 => Ok(SegmentKind::AsSequence),
            1 => Ok(SegmentKind::AsSet),
            2 => Ok(SegmentKind::ConfedSequence),
            3 => Ok(SegmentKind::ConfedSet),
            _ => Err(Spoilt),
        }
    }
}

// No early exit: the compiler makes vector comparisons of the loop.
fn any_kind_over(kinds: &[u8]) -> bool
    ensures { result ≡ any (ltb 3) kinds.now }
{
    let mut over = false;
    for kind in kinds {
        over |= SegmentKind::try_from(*kind).is_err();
    }
    over
}

fn sum_lengths(lengths: &[u32]) -> u64
    requires { length lengths.now ≤ 4096 }
    ensures { result ≡ sum lengths.now }
{
    lengths.iter().map(|length| u64::from(*length)).sum()
}

impl<'a> PathRecord<'a> {
    ghost use Rattle.std.specs.Prelude.{◌≡◌};
    ghost use Rattle.aspath.specs.Record.{spoilt};
    ghost use Rattle.aspath.specs.Segments.{path_of, path_checked};
    ghost use Rattle.aspath.specs.Queries.{route_len_answer, variations_answer};

    // The test that every call on a path makes first (01, Where a call says no, 10).
    #[tactic(auto, unfolding(crate::specs::Record::spoilt))]
    pub fn is_spoilt(self) -> bool
        ensures { result ≡ spoilt self.entry.kinds.now self.entry.lengths.now self.entry.numbers.now self.entry.segments self.entry.count }
    {
        4096 < self.segments
            || 16384 < self.count
            || self.kinds.len() < self.segments
            || self.lengths.len() < self.segments
            || self.numbers.len() < self.count
            || any_kind_over(&self.kinds[..self.segments])
            || sum_lengths(&self.lengths[..self.segments]) != self.count as u64
    }

    // The record as a path, for a call that goes on.
    pub fn check(self) -> Result<AsPath<'a>, Spoilt>
        ensures { path_checked result ≡ path_of self.entry }
    {
        if self.is_spoilt() {
            return Err(Spoilt);
        }
        Ok(AsPath {
            kinds: &self.kinds[..self.segments],
            lengths: &self.lengths[..self.segments],
            numbers: &self.numbers[..self.count],
        })
    }

    pub fn route_len(self) -> Result<usize, Spoilt>
        ensures { result ≡ route_len_answer (path_of self.entry) }
    {
        Ok(self.check()?.route_len())
    }

    pub fn num_route_variations(self) -> Result<u64, VariationsError>
        ensures { result ≡ variations_answer (path_of self.entry) }
    {
        self.check()?.num_route_variations()
    }
}

impl<'a> Segment<'a> {
    ghost use Rattle.std.specs.Prelude.{◌≡◌, length};
    ghost use Rattle.aspath.specs.Queries.{segment_route_len, choices};
    ghost use Rattle.aspath.specs.Segments.{kind_number};

    fn route_len(self) -> usize
        ensures { result ≡ segment_route_len (kind_number self.entry.kind) (length self.entry.numbers.now) }
    {
        match self.kind {
            SegmentKind::AsSequence => self.numbers.len(),
            SegmentKind::AsSet => 1,
            SegmentKind::ConfedSequence | SegmentKind::ConfedSet => 0,
        }
    }

    // How many numbers a route may take from the segment.
    fn choices(self) -> u64
        ensures { result ≡ choices (kind_number self.entry.kind) (length self.entry.numbers.now) }
    {
        if self.kind == SegmentKind::AsSet {
            self.numbers.len() as u64
        } else {
            1
        }
    }
}

impl<'a> AsPath<'a> {
    ghost use Rattle.std.specs.Prelude.{◌≡◌, ◌<◌, Some};
    ghost use Rattle.aspath.specs.Segments.{segments_in, segments_left, parted};
    ghost use Rattle.aspath.specs.Queries.{route_len, no_route, variations, variations_answer};

    // The first segment, and the path of the others.
    pub fn split_first(self) -> Option<(Segment<'a>, AsPath<'a>)>
        ensures { segments_in self.entry ≡ parted result }
    {
        let (kind, kinds) = self.kinds.split_first()?;
        let (length, lengths) = self.lengths.split_first()?;
        let (numbers, behind) = self.numbers.split_at(*length as usize);
        let segment = Segment {
            kind: SegmentKind::try_from(*kind).unwrap(),
            numbers,
        };
        let rest = AsPath {
            kinds,
            lengths,
            numbers: behind,
        };
        Some((segment, rest))
    }

    pub fn segments(self) -> Segments<'a>
        ensures { segments_left result ≡ segments_in self.entry }
    {
        Segments { rest: self }
    }

    pub fn route_len(self) -> usize
        ensures { result ≡ route_len (segments_in self.entry) }
    {
        self.segments().map(|segment| segment.route_len()).sum()
    }

    // Whether a set has nothing to choose from.
    fn has_empty_set(self) -> bool
        ensures { result ≡ no_route (segments_in self.entry) }
    {
        self.segments().any(|segment| segment.choices() == 0)
    }

    // An empty set anywhere makes the product 0, however large it was before, so that is asked
    // first.
    pub fn num_route_variations(self) -> Result<u64, VariationsError>
        ensures { result ≡ variations_answer (Some (segments_in self.entry)) }
    {
        if self.has_empty_set() {
            return Ok(0);
        }
        let mut product: u64 = 1;
        for segment in self.segments() {
            product = product
                .checked_mul(segment.choices())
                .ok_or(VariationsError::TooMany)?;
        }
        Ok(product)
    }
}

impl<'a> Iterator for Segments<'a> {
    ghost use Rattle.std.specs.Iterator.{YieldsFirstBy, item_count};
    ghost use Rattle.aspath.specs.Segments.{segment_of, segments_left};

    type Item = Segment<'a>;

    ghost next_gives = { YieldsFirstBy segment_of segments_left };

    ghost remaining = { item_count segments_left };

    fn next(&mut self) -> Option<Segment<'a>> {
        let (first, rest) = self.rest.split_first()?;
        self.rest = rest;
        Some(first)
    }
}
