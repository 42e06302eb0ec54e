// Is it a table, and what its preamble and column header say.
#![tactic(auto)]

ghost use Rattle.std.specs.Prelude.{◌≡◌, Some, None, MatchOption, take};
ghost use Rattle.text_dump_header.specs.Detect.{contains as containsOf, has_mark, detect};
ghost use Rattle.text_dump_header.specs.Preamble.{before, behind, marked, version_text, router_in, router_text, local_as_text, preamble_line};
ghost use Rattle.text_dump_header.specs.Header.{header_of, header};

use columns::Columns;
use network::IpAddr;

// The first 128 bytes.
#[tactic(auto, using(crate::proofs::DetectLaws::first_bytes))]
fn head(s: &[u8]) -> &[u8]
    ensures { result.now ≡ take 128 s.now }
{
    &s[..s.len().min(128)]
}

#[tactic(auto, unfolding(crate::specs::Detect::contains))]
fn contains(s: &[u8], p: &[u8]) -> bool
    ensures { result ≡ containsOf s.now p.now }
{
    scan::find(s, p).is_some()
}

// Whether one of the texts stands there by which a table is known.
fn has_mark(s: &[u8]) -> bool
    ensures { result ≡ has_mark s.now }
{
    contains(s, b"BGP table") || contains(s, b"Next Hop") || contains(s, b"Status codes:")
}

#[tactic(auto, using(crate::proofs::DetectLaws::detect_laws))]
pub fn detect_text_dump(bytes: &[u8]) -> bool
    ensures { result ≡ detect bytes.now }
{
    let s = head(bytes);
    match s {
        [first, ..] if first.is_ascii_graphic() => utf8::is_readable(s) && has_mark(s),
        _ => false,
    }
}

// What stands before the first p.
#[tactic(auto, using(crate::proofs::PreambleLaws::before_laws))]
fn before<'a>(s: &'a [u8], p: &[u8]) -> Option<&'a [u8]>
    ensures { MatchOption result (before p.now s.now ≡ None) (λ x. before p.now s.now ≡ Some x.now) }
{
    let k = scan::find(s, p)?;
    Some(&s[..k])
}

// What stands after the first p.
#[tactic(auto, using(crate::proofs::PreambleLaws::behind_laws))]
fn behind<'a>(s: &'a [u8], p: &[u8]) -> Option<&'a [u8]>
    ensures { MatchOption result (behind p.now s.now ≡ None) (λ x. behind p.now s.now ≡ Some x.now) }
{
    let k = scan::find(s, p)?;
    Some(&s[k + p.len()..])
}

// The text after the first mark, up to a second one.
#[tactic(auto, using(crate::proofs::PreambleLaws::marked_laws))]
fn marked<'a>(s: &'a [u8], mark: &[u8]) -> Option<&'a [u8]>
    ensures { MatchOption result (marked mark.now s.now ≡ None) (λ x. marked mark.now s.now ≡ Some x.now) }
{
    let rest = behind(s, mark)?;
    Some(before(rest, mark).unwrap_or(rest))
}

fn version_text(t: &[u8]) -> Option<&[u8]>
    ensures { MatchOption result (version_text t.now ≡ None) (λ x. version_text t.now ≡ Some x.now) }
{
    let rest = t.strip_prefix(b"BGP table version is ")?;
    before(rest, b",")
}

fn router_in(s: &[u8]) -> Option<&[u8]>
    ensures { MatchOption result (router_in s.now ≡ None) (λ x. router_in s.now ≡ Some x.now) }
{
    let id = marked(s, b"local router ID is ")?;
    before(id, b",")
}

fn router_text(t: &[u8]) -> Option<&[u8]>
    ensures { MatchOption result (router_text t.now ≡ None) (λ x. router_text t.now ≡ Some x.now) }
{
    let rest = t.strip_prefix(b"BGP table version is ")?;
    let router = behind(rest, b",")?;
    router_in(router)
}

fn local_as_text(t: &[u8]) -> Option<&[u8]>
    ensures { MatchOption result (local_as_text t.now ≡ None) (λ x. local_as_text t.now ≡ Some x.now) }
{
    if scan::starts_with(t, b"Default local pref") {
        marked(t, b"local AS ")
    } else {
        None
    }
}

// Stays apart from TextDumpHeader: no columns are known yet, and there their lack is an answer.
#[derive(Debug, Clone, Copy, PartialEq, Eq)]
pub struct Preamble {
    pub table_version: Option<u64>,
    pub router_id: Option<IpAddr>,
    pub local_as: Option<u32>,
}

// A text that a line gives overwrites, even where it is no number and no address.
#[tactic(auto, using(crate::proofs::PreambleLaws::preamble_laws))]
fn read_preamble(t: &[u8], p: Preamble) -> Preamble
    ensures { result ≡ preamble_line t.now p }
{
    Preamble {
        table_version: version_text(t).map_or(
            p.table_version,
            |x| decimal::read_u64(text::trim(x)),
        ),
        router_id: router_text(t).map_or(p.router_id, |x| network::read_address(text::trim(x))),
        local_as: local_as_text(t).map_or(p.local_as, |x| decimal::read_u32(text::trim(x))),
    }
}

#[derive(Debug, Clone, Copy, PartialEq, Eq)]
pub struct TextDumpHeader {
    pub table_version: Option<u64>,
    pub router_id: Option<IpAddr>,
    pub local_as: Option<u32>,
    pub columns: Option<Columns>,
}

// Why the scan of the header stops: an unreadable line, by its number.
#[derive(Debug, Clone, Copy, PartialEq, Eq)]
pub enum HeaderError {
    Unreadable(usize),
}

fn header_of(p: Preamble, columns: Option<Columns>) -> TextDumpHeader
    ensures { result ≡ header_of p columns }
{
    TextDumpHeader {
        table_version: p.table_version,
        router_id: p.router_id,
        local_as: p.local_as,
        columns,
    }
}

// The header, and the position after its last line.
#[tactic(auto, using(crate::proofs::HeaderLaws::scan_laws))]
pub fn parse_header(text: &[u8]) -> Result<(TextDumpHeader, usize), HeaderError>
    ensures { result ≡ header text.now }
{
    let mut p = Preamble {
        table_version: None,
        router_id: None,
        local_as: None,
    };
    let mut at = 0;
    let mut met: usize = 0;
    // Stays a loop: 01 names the form, a loop over the header's lines that yields by break.
    let columns = 'lines: loop {
        let all_scanned = met == 64;
        if all_scanned {
            break 'lines None;
        }
        if at == text.len() {
            break 'lines None;
        }
        let end = scan::line_end(text, at);
        let line = &text[at..end];
        met += 1;
        if !utf8::is_readable(line) {
            return Err(HeaderError::Unreadable(met));
        }
        let t = text::trim_end(line);
        p = read_preamble(t, p);
        at = end;
        let c = columns::parse_column_header(t);
        if c.is_some() {
            break 'lines c;
        }
    };
    Ok((header_of(p, columns), at))
}
