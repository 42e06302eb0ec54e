// Which numbers a path has: whether one is among them, the last one (its origin), the first one
// (its collector).
#![tactic(auto)]

ghost use Rattle.std.specs.Prelude.{◌≡◌, ◌-◌, length, slice_get, option_map};
ghost use Rattle.aspath.specs.Segments.{kind_number, segment_of, segments_in, path_of};
ghost use Rattle.aspath_numbers.specs.Numbers.{contains_answer, single, origin_of, origin_answer, collector_of, collector_answer};

use aspath::{AsPath, PathRecord, Segment, SegmentKind, Spoilt};

pub fn contains_asn(lent: PathRecord, asn: u32) -> Result<bool, Spoilt>
    ensures { result ≡ contains_answer asn (path_of lent.entry) }
{
    let path = lent.check()?;
    Ok(path.numbers.contains(&asn))
}

// Whether a segment has one number at its end: no set of several does.
fn is_single(segment: Segment) -> bool
    ensures { result ≡ single (kind_number segment.entry.kind) (length segment.entry.numbers.now) }
{
    match segment.kind {
        SegmentKind::AsSequence => 0 < segment.numbers.len(),
        SegmentKind::AsSet => segment.numbers.len() == 1,
        SegmentKind::ConfedSequence | SegmentKind::ConfedSet => false,
    }
}

// The last segment, from the lists' ends: the others are not cut.
fn last_segment<'a>(path: AsPath<'a>) -> Option<Segment<'a>>
    ensures { option_map segment_of result ≡ slice_get (segments_in path.entry) (length (segments_in path.entry) - 1) }
{
    let kind = path.kinds.last()?;
    let length = path.lengths.last()?;
    let (_others, numbers) = path.numbers.split_at(path.numbers.len() - *length as usize);
    Some(Segment {
        kind: SegmentKind::try_from(*kind).unwrap(),
        numbers,
    })
}

fn origin(path: AsPath) -> Option<u32>
    ensures { result ≡ origin_of (slice_get (segments_in path.entry) (length (segments_in path.entry) - 1)) }
{
    let last = last_segment(path).filter(|segment| is_single(*segment))?;
    last.numbers.last().copied()
}

pub fn get_origin_opt(lent: PathRecord) -> Result<Option<u32>, Spoilt>
    ensures { result ≡ origin_answer (path_of lent.entry) }
{
    Ok(origin(lent.check()?))
}

fn collector(path: AsPath) -> Option<u32>
    ensures { result ≡ collector_of (slice_get (segments_in path.entry) 0) }
{
    let first = path
        .segments()
        .next()
        .filter(|segment| is_single(*segment))?;
    first.numbers.first().copied()
}

pub fn get_collector_opt(lent: PathRecord) -> Result<Option<u32>, Spoilt>
    ensures { result ≡ collector_answer (path_of lent.entry) }
{
    Ok(collector(lent.check()?))
}
