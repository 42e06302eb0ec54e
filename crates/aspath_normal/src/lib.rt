// The normal forms of a path, made in the lent lists.
#![tactic(auto)]

ghost use Rattle.std.specs.Prelude.{◌≡◌, ◌+◌, ◌≤◌, ◌<◌, ◌^◌, map, length, take, drop, replicate};
ghost use Rattle.sort.specs.Dedup.{dedup};
ghost use Rattle.aspath.specs.Lists.{sum};
ghost use Rattle.aspath.specs.Record.{cut, path, kinds_of, lengths_of, numbers_of};
ghost use Rattle.aspath_normal.specs.Normal.{is_sequence, single_kind, sort_set, coalesce, dedup_coalesce};
ghost use Rattle.aspath_normal.specs.Layout.{padded, after, counts};
ghost use Rattle.aspath_normal.specs.Lent.{path_lent, Reads, LeftAs};
ghost use Rattle.aspath_normal.specs.Parts.{FirstKept, kept_from, Deduped};
ghost use Rattle.aspath_normal.specs.Whole.{Fit, NormalIn};
ghost use Rattle.aspath_normal.specs.Entries.{Coalesced, merge_entries, entries};

use aspath::{PathRecord, Spoilt};

// What there is of a record.
#[derive(Debug, Clone, Copy, PartialEq, Eq)]
pub struct Counts {
    pub segments: usize,
    pub numbers: usize,
}

// A path record whose lists are lent to be changed in place.
#[derive(Drop)]
pub struct LentPath<'a> {
    pub kinds: &'a mut [u8],
    pub lengths: &'a mut [u32],
    pub numbers: &'a mut [u32],
    pub segments: usize,
    pub count: usize,
}

impl<'a> LentPath<'a> {
    // The record to read.
    pub fn record(&self) -> PathRecord<'_>
        ensures { Reads self.now result }
    {
        PathRecord {
            kinds: self.kinds,
            lengths: self.lengths,
            numbers: self.numbers,
            segments: self.segments,
            count: self.count,
        }
    }
}

fn is_sequence(kind: u8) -> bool
    ensures { result ≡ is_sequence kind }
{
    matches!(kind, 0 | 2)
}

// A segment without its numbers.
// Stays a kind as its byte: the lists hold bytes, so a SegmentKind would be made of one and put
// back as one, and not every byte has a SegmentKind, so the scan could fail.
#[derive(Clone, Copy)]
struct Entry {
    kind: u8,
    length: u32,
}

// What two neighbours become, if they become one.
#[tactic(auto, unfolding(crate::specs::Entries::merge_entries))]
fn merge(last: Entry, next: Entry) -> Option<Entry>
    requires { last.length + next.length < 2 ^ 32 }
    ensures { result ≡ merge_entries last next }
{
    let sequence = is_sequence(last.kind);
    if sequence && last.kind == next.kind {
        Some(Entry {
            kind: last.kind,
            length: last.length + next.length,
        })
    } else if sequence && last.length == 0 {
        Some(next)
    } else if is_sequence(next.kind) && next.length == 0 {
        Some(last)
    } else {
        None
    }
}

// The scan of coalesce, on the kinds and the lengths of all segments. Entries move down, and a
// place that was read is set to 0.
// Stays by index: two places move through one list, and an iterator would lend it once.
// Stays with two lists of one length, as single_sets and sort_sets: here both are lent to change,
// there the kinds alone or neither, so one struct would not serve the three.
fn coalesce_entries(kinds: &mut [u8], lengths: &mut [u32]) -> usize
    requires { (length kinds.old ≡ length lengths.old) × (sum lengths.old ≤ 16384) }
    ensures { Coalesced kinds.old lengths.old kinds.new lengths.new result }
{
    if kinds.is_empty() {
        return 0;
    }
    let mut end = 0;
    let mut last = Entry {
        kind: kinds[0],
        length: lengths[0],
    };
    for i in 1..kinds.len() {
        let next = Entry {
            kind: kinds[i],
            length: lengths[i],
        };
        kinds[i] = 0;
        lengths[i] = 0;
        match merge(last, next) {
            Some(joined) => last = joined,
            None => {
                last = next;
                end += 1;
            }
        }
        kinds[end] = last.kind;
        lengths[end] = last.length;
    }
    end + 1
}

// AsPath::coalesce. The numbers stay where they are.
// Stays with lists and counts: a LentPath would ask its caller for leave to change the numbers.
#[tactic(auto, using(crate::proofs::Answers::record_laws))]
pub fn coalesce(
    kinds: &mut [u8],
    lengths: &mut [u32],
    numbers: &[u32],
    segments: usize,
    count: usize,
) -> Result<Counts, Spoilt>
    ensures value { result ≡ counts coalesce (path kinds.old lengths.old numbers.now segments count) }
    ensures kinds { kinds.new ≡ after (λ p. kinds_of (coalesce p)) (path kinds.old lengths.old numbers.now segments count) segments kinds.old }
    ensures lengths { lengths.new ≡ after (λ p. lengths_of (coalesce p)) (path kinds.old lengths.old numbers.now segments count) segments lengths.old }
{
    PathRecord {
        kinds,
        lengths,
        numbers,
        segments,
        count,
    }
    .check()?;
    let left = coalesce_entries(&mut kinds[..segments], &mut lengths[..segments]);
    Ok(Counts {
        segments: left,
        numbers: count,
    })
}

// The first number is at the front, and zeros follow it up to j: the numbers from j on move down,
// without those that equal the one before them; the places freed are 0.
// Stays by index, as coalesce_entries does.
#[tactic(auto, using(crate::proofs::Deduping::equal_dropped, crate::proofs::Deduping::other_kept))]
fn dedup_from(t: &mut [u32], first: u32, j: usize) -> usize
    requires { FirstKept t.old first j }
    ensures { (result ≡ length (kept_from t.old first j)) × (t.new ≡ padded (length t.old) (kept_from t.old first j)) }
{
    let mut last = first;
    let mut k = 1;
    for i in j..t.len() {
        let x = t[i];
        t[i] = 0;
        if x != last {
            t[k] = x;
            last = x;
            k += 1;
        }
    }
    k
}

// The numbers behind a gap of zeros go to the front, without those that equal the one before them;
// the places freed are 0.
fn dedup_down(t: &mut [u32], gap: usize) -> usize
    requires { (gap ≤ length t.old) × (take gap t.old ≡ replicate gap 0) }
    ensures { (result ≡ length (dedup (drop gap t.old))) × (t.new ≡ padded (length t.old) (dedup (drop gap t.old))) }
{
    if gap == t.len() {
        return 0;
    }
    let first = t[gap];
    t[gap] = 0;
    t[0] = first;
    dedup_from(t, first, gap + 1)
}

// Repeats removed from each segment's numbers. Those left move down, and the places freed are 0.
fn dedup_segments(lengths: &mut [u32], numbers: &mut [u32]) -> usize
    requires { (sum lengths.old ≡ length numbers.old) × (length numbers.old ≤ 16384) }
    ensures { Deduped lengths.old numbers.old lengths.new numbers.new result }
{
    let mut read = 0;
    let mut write = 0;
    for length in lengths.iter_mut() {
        let end = read + *length as usize;
        let left = dedup_down(&mut numbers[write..end], read - write);
        *length = left as u32;
        read = end;
        write += left;
    }
    write
}

fn single_kind(kind: u8, length: u32) -> u8
    ensures { result ≡ single_kind kind length }
{
    if !is_sequence(kind) && length == 1 {
        kind - 1
    } else {
        kind
    }
}

// A set of one number becomes a sequence.
// Stays with a place for the lengths: a zip hides what `iter_mut` has written, so no proof closed.
fn single_sets(kinds: &mut [u8], lengths: &[u32])
    requires { length kinds.old ≡ length lengths.now }
    ensures { kinds.new ≡ map (λ x. single_kind x.kind x.length) (entries kinds.old lengths.now) }
{
    for (i, kind) in kinds.iter_mut().enumerate() {
        *kind = single_kind(*kind, lengths[i]);
    }
}

// The numbers of each set in rising order.
fn sort_sets(kinds: &[u8], lengths: &[u32], numbers: &mut [u32])
    requires { (length kinds.now ≡ length lengths.now) × (sum lengths.now ≡ length numbers.old) }
    ensures { numbers.new ≡ numbers_of (map sort_set (cut kinds.now lengths.now numbers.old)) }
{
    let mut at = 0;
    for (kind, length) in kinds.iter().zip(lengths) {
        let end = at + *length as usize;
        let is_set = !is_sequence(*kind);
        if is_set {
            sort::sort_u32(&mut numbers[at..end]);
        }
        at = end;
    }
}

// AsPath::dedup_coalesce of a record that fills its lists. The scan joins numbers as they stand, so
// the repeats at its seams are removed behind it.
fn normalise(kinds: &mut [u8], lengths: &mut [u32], numbers: &mut [u32]) -> Counts
    requires { Fit kinds.old lengths.old numbers.old }
    ensures { NormalIn kinds.old lengths.old numbers.old kinds.new lengths.new numbers.new result.segments result.numbers }
{
    sort_sets(kinds, lengths, numbers);
    let count = dedup_segments(lengths, numbers);
    single_sets(kinds, lengths);
    let segments = coalesce_entries(kinds, lengths);
    let left = dedup_segments(&mut lengths[..segments], &mut numbers[..count]);
    Counts {
        segments,
        numbers: left,
    }
}

// AsPath::dedup_coalesce
#[tactic(auto, using(crate::proofs::Answers::record_laws))]
pub fn dedup_coalesce(lent: &mut LentPath) -> Result<Counts, Spoilt>
    ensures value { result ≡ counts dedup_coalesce (path_lent lent.old) }
    ensures lists { LeftAs dedup_coalesce (path_lent lent.old) lent.old lent.new }
{
    lent.record().check()?;
    // Read before the lists are lent on.
    let segments = lent.segments;
    let count = lent.count;
    Ok(normalise(
        &mut lent.kinds[..segments],
        &mut lent.lengths[..segments],
        &mut lent.numbers[..count],
    ))
}
