// The line of a route: copied where its path stands as it is printed, else by the path's numbers.
ghost use Rattle.std.specs.Prelude.{◌≡◌, ◌<◌, ◌++◌, length};
ghost use Rattle.psv.specs.Line.{between_text};
ghost use Rattle.path_text.specs.Path.{asns_of};
ghost use Rattle.text_dump_line.specs.Line.{path_of};
ghost use Rattle.text_dump.specs.declared.Remembered.TheVariants as remembered;
ghost use Rattle.psv_stream.specs.Parts.{front_of, PutElement, PlainDigits, IsPlain, Copies, PutRoute, PutCopy, Fine};

use crate::{LINE, PLACES, Refusal, TEXT};
use elem::Element;
use network::NetworkPrefix;
use output::Writer;
use psv::{Attributes, ElementError};
use text_dump::State;
use text_dump_line::RouteEntry;

// An element's line and its line feed.
fn put_element(e: Element, asns: &[u32], out: &mut [u8; LINE]) -> Result<usize, ElementError>
    ensures { PutElement e asns.now out.old out.new result }
{
    let end = psv::to_psv(e, asns, &mut out[..TEXT])?;
    let mut w = Writer { out, at: end };
    w.byte(b'\n');
    Ok(w.at)
}

// A route's line by the numbers of its path.
// Stays state, prefix and entry apart here and below: they are what State::element puts together,
// and it is asked for an element only where the line is not copied.
fn print_numbers(
    state: State,
    prefix: NetworkPrefix,
    entry: RouteEntry,
    path: &[u8],
    asns: &mut [u32; PLACES],
    out: &mut [u8; LINE],
) -> Result<usize, Refusal>
    ensures { PutRoute state prefix entry (asns_of path.now) out.old out.new result }
{
    let count = path_text::put_asns(path, asns)?;
    let origin_asn = text_dump::origin_asn(asns, count);
    let element = state.element(prefix, entry, count, origin_asn);
    Ok(put_element(element, asns, out)?)
}

// How many digits the word's first bytes are, if they are a number of a plain path: at most seven,
// the first of them no 0, and a space after them.
fn plain_digits(w: u64) -> Option<usize>
    ensures { PlainDigits w result }
{
    let n = decimal::digit_count(w);
    if n == 0 || 7 < n {
        return None;
    }
    if (w >> (8 * n as u64)) % 256 != 32 {
        return None;
    }
    let leading_zero = w % 256 == 48;
    if leading_zero {
        return None;
    }
    Some(n)
}

// Where a plain path's last number begins, and where its text ends. A plain path is as routers
// print it: numbers with a space after each (plain_digits), and one byte more, which is no digit
// (the origin). Its text is then what the numbers print as. Of other paths nothing is said.
#[tactic(auto, using(crate::proofs::Copying::walk_laws))]
fn plain_path(path: &[u8]) -> Option<(usize, usize)>
    ensures { IsPlain path.now result }
{
    let mut at = 0;
    let mut last = 0;
    while let Some(n) = plain_digits(word::word_at(path, at)) {
        last = at;
        at = at + n + 1;
    }
    if at == 0 {
        return None;
    }
    if path.len() != at + 1 {
        return None;
    }
    if decimal::digit_count(word::word_at(path, at)) != 0 {
        return None;
    }
    Some((last, at - 1))
}

// The line of a route whose path is plain, with a line feed, after what the line begins with; None,
// and nothing written, where the path is not plain or the line not surely short enough.
fn copy_route(
    start: &[u8],
    path: &[u8],
    attributes: Attributes,
    out: &mut [u8; LINE],
) -> Option<usize>
    ensures { Copies start.now path.now attributes out.old out.new result }
{
    if PLACES < path.len() {
        return None;
    }
    let (last, end) = plain_path(path)?;
    let at = psv::put_texts(
        start,
        &path[..end],
        &path[last..end],
        attributes,
        &mut out[..TEXT],
    )
    .ok()?;
    let mut w = Writer { out, at };
    w.byte(b'\n');
    Some(w.at)
}

// The same for a route under a prefix, if what its line begins with is printed.
fn copy_behind(
    start: &[u8],
    state: State,
    prefix: NetworkPrefix,
    entry: RouteEntry,
    path: &[u8],
    out: &mut [u8; LINE],
) -> Option<usize>
    requires fine { Fine state (remembered.Valid prefix) }
    requires start_value { 0 < length start.now → start.now ≡ front_of state ++ between_text prefix }
    ensures { PutCopy state prefix entry (asns_of path.now) out.old out.new result }
{
    if start.len() == 0 {
        return None;
    }
    let attributes = Attributes {
        origin: entry.origin,
        next_hop: entry.next_hop,
        local_pref: entry.local_pref,
        metric: entry.metric,
    };
    copy_route(start, path, attributes, out)
}

// A route's line: copied where it can be, else by the numbers of its path.
#[tactic(auto, using(crate::proofs::Routes::by_copy, crate::proofs::Routes::by_numbers))]
pub(crate) fn print_route(
    start: &[u8],
    state: State,
    prefix: NetworkPrefix,
    entry: RouteEntry,
    line: &[u8],
    asns: &mut [u32; PLACES],
    out: &mut [u8; LINE],
) -> Result<usize, Refusal>
    requires fine { Fine state (remembered.Valid prefix) }
    requires start_value { 0 < length start.now → start.now ≡ front_of state ++ between_text prefix }
    ensures { PutRoute state prefix entry (asns_of (path_of entry line.now)) out.old out.new result }
{
    let path = text_dump_line::path_of(line, entry);
    match copy_behind(start, state, prefix, entry, path, out) {
        Some(n) => Ok(n),
        None => print_numbers(state, prefix, entry, path, asns, out),
    }
}
