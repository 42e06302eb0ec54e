// What one body line says.
#![tactic(auto)]

ghost use Rattle.std.specs.Prelude.{◌≡◌, true, length};
ghost use Rattle.utf8.specs.Utf8.{is_one, all, readable};
ghost use Rattle.utf8.specs.Edge.{has_slice};
ghost use Rattle.text.specs.White.{trim, trim_end};
ghost use Rattle.decimal.specs.Decimal.{read_u32};
ghost use Rattle.network.specs.Address.{read_address};
ghost use Rattle.text_dump_line.specs.Line.{slice as slice_of, path_of, column as columnOf, displayed, prefix_text, path_start, entry_of, route_of, any_route, wrapped_of, line_of};
ghost use Rattle.text_dump_line.specs.Whole.{Whole};

use columns::Columns;
use elem::Origin;
use network::{IpAddr, NetworkPrefix};

#[derive(Debug, Clone, Copy, PartialEq, Eq)]
pub enum PrefixText {
    Blank,
    Invalid,
    Valid(NetworkPrefix),
}

// What a route carries besides its prefix. The path's part of the line lies between two places. The
// origin stands last, so that the numbers are copied in whole words.
#[derive(Debug, Clone, Copy, PartialEq, Eq)]
pub struct RouteEntry {
    pub next_hop: IpAddr,
    pub metric: Option<u32>,
    pub local_pref: Option<u32>,
    // Stays two places and no slice: 01 has texts as lent parts with positions.
    pub path_start: usize,
    pub path_end: usize,
    pub origin: Option<Origin>,
}

#[derive(Debug, Clone, Copy, PartialEq, Eq)]
pub enum Line {
    Unreadable,
    Passed,
    Wrapped(NetworkPrefix),
    Route(RouteEntry, PrefixText),
}

// The bytes from a up to b; none where there is no such slice.
#[tactic(auto, using(crate::proofs::LineLaws::slice_laws))]
fn slice(t: &[u8], a: usize, b: usize) -> &[u8]
    ensures { result.now ≡ slice_of a b t.now }
{
    if utf8::has_slice(t, a, b) {
        &t[a..b]
    } else {
        &t[..0]
    }
}

// What a column's bytes say of a prefix.
#[tactic(auto, using(crate::proofs::LineLaws::prefix_text_laws))]
fn prefix_text(s: &[u8]) -> PrefixText
    ensures { result ≡ prefix_text (trim s.now) }
{
    if fields::is_blank(s) {
        return PrefixText::Blank;
    }
    // Stays let .. else, as in Row::route.
    let Some(p) = fields::read_prefix(s) else {
        return PrefixText::Invalid;
    };
    PrefixText::Valid(p)
}

// Most lines begin with a visible byte that is no 'D', which one byte tells.
#[tactic(auto, using(crate::proofs::LineLaws::displayed_laws))]
fn is_displayed(t: &[u8]) -> bool
    ensures { result ≡ displayed t.now }
{
    match t {
        [b @ 0x21..=0x7E, ..] if *b != b'D' => false,
        _ => scan::starts_with(text::trim_start(t), b"Displayed"),
    }
}

// Whether every column has its slice, which of an ASCII line the order of the places tells.
// Stays a fact that three functions ask for: line_of finds out once whether the line is ASCII, and
// a struct of the text and that answer would be made for these three alone.
#[tactic(auto, using(crate::proofs::LineLaws::whole_laws))]
fn is_whole(ascii: bool, t: &[u8], c: Columns) -> bool
    requires { ascii ≡ true → all is_one t.now ≡ true }
    ensures { result ≡ true → Whole c t.now }
{
    ascii && 3 <= c.next_hop && c.path <= t.len() && columns::are_rising(c)
}

// A line with its end trimmed, and the columns that cut it. Of a whole one no slice is tested.
#[derive(Clone, Copy)]
struct Row<'a> {
    text: &'a [u8],
    columns: Columns,
    is_whole: bool,
    ghost slices: { is_whole ≡ true → Whole columns text.now },
}

impl<'a> Row<'a> {
    ghost use Rattle.std.specs.Prelude.{◌≡◌, true};
    ghost use Rattle.utf8.specs.Utf8.{is_one, all};
    ghost use Rattle.utf8.specs.Edge.{has_slice};
    ghost use Rattle.decimal.specs.Decimal.{read_u32};
    ghost use Rattle.network.specs.Address.{read_address};
    ghost use Rattle.text_dump_line.specs.Line.{slice as slice_of, column as columnOf, prefix_text, path_start, entry_of, route_of};

    fn new(ascii: bool, text: &'a [u8], columns: Columns) -> Row<'a>
        requires { ascii ≡ true → all is_one text.now ≡ true }
        ensures { (result.text.now ≡ text.now) × (result.columns ≡ columns) }
    {
        Row {
            text,
            columns,
            is_whole: is_whole(ascii, text, columns),
        }
    }

    // The bytes from a up to b; none where there is no such slice.
    #[tactic(auto, using(crate::proofs::LineLaws::slice_laws))]
    fn slice(self, a: usize, b: usize) -> &'a [u8]
        requires { self.is_whole ≡ true → has_slice self.text.now a b ≡ true }
        ensures { result.now ≡ slice_of a b self.entry.text.now }
    {
        if self.is_whole {
            &self.text[a..b]
        } else {
            slice(self.text, a, b)
        }
    }

    #[tactic(auto, using(crate::proofs::LineLaws::address_read))]
    fn next_hop(self) -> Option<IpAddr>
        ensures { result ≡ read_address (columnOf self.entry.columns.next_hop self.entry.columns.metric self.entry.text.now) }
    {
        fields::read_address(self.slice(self.columns.next_hop, self.columns.metric))
    }

    #[tactic(auto, using(crate::proofs::LineLaws::number_read))]
    fn number(self, a: usize, b: usize) -> Option<u32>
        requires { self.is_whole ≡ true → has_slice self.text.now a b ≡ true }
        ensures { result ≡ read_u32 (columnOf a b self.entry.text.now) }
    {
        fields::read_number(self.slice(a, b))
    }

    #[tactic(auto, using(crate::proofs::LineLaws::prefix_read))]
    fn prefix(self) -> PrefixText
        ensures { result ≡ prefix_text (columnOf 3 self.entry.columns.next_hop self.entry.text.now) }
    {
        prefix_text(self.slice(3, self.columns.next_hop))
    }

    // Where the path's part starts: at the column, or at the end where there is no slice.
    #[tactic(auto, using(crate::proofs::LineLaws::path_start_laws))]
    fn path_start(self) -> usize
        ensures { result ≡ path_start self.entry.columns.path self.entry.text.now }
    {
        let path = self.columns.path;
        if self.is_whole || utf8::has_slice(self.text, path, self.text.len()) {
            path
        } else {
            self.text.len()
        }
    }

    // The metric is read first, and handed on when the local preference is read.
    // Stays a loop with one call of `number`, as any_route: with two calls in each reading took
    // 6 % more time (docs/PERFORMANCE.md).
    #[tactic(auto, using(crate::proofs::LineLaws::entry_laws))]
    fn entry(self, next_hop: IpAddr) -> RouteEntry
        ensures { result ≡ entry_of self.entry.columns next_hop self.entry.text.now }
    {
        let c = self.columns;
        let mut metric = None;
        let mut local_pref = None;
        for (a, b) in [(c.metric, c.local_pref), (c.local_pref, c.weight)] {
            metric = local_pref;
            local_pref = self.number(a, b);
        }
        let path_start = self.path_start();
        let origin = path_text::origin_of(&self.text[path_start..]);
        RouteEntry {
            next_hop,
            metric,
            local_pref,
            path_start,
            path_end: self.text.len(),
            origin,
        }
    }

    #[tactic(auto, using(crate::proofs::LineLaws::route_laws), unfolding(crate::specs::Line::route_of))]
    fn route(self) -> Option<(PrefixText, RouteEntry)>
        ensures { result ≡ route_of self.entry.columns self.entry.text.now }
    {
        if is_displayed(self.text) {
            return None;
        }
        // Stays let .. else: 01 names it for an address, a prefix or columns that may be missing.
        let Some(next_hop) = self.next_hop() else {
            return None;
        };
        Some((self.prefix(), self.entry(next_hop)))
    }
}

// By the columns, else by those shifted.
// Stays a loop with one call, which the compiler joins in: with two calls, inlined or not, it took
// more time (docs/PERFORMANCE.md: +6 % with those of Row::entry, +12 ns).
#[tactic(auto, unfolding(crate::specs::Line::any_route))]
fn any_route(ascii: bool, t: &[u8], c: Columns) -> Option<(PrefixText, RouteEntry)>
    requires { ascii ≡ true → all is_one t.now ≡ true }
    ensures { result ≡ any_route c t.now }
{
    for is_shifted in [false, true] {
        let tried = if is_shifted {
            // Stays let .. else, as in Row::route.
            let Some(shifted) = columns::shift_columns_left(c) else {
                return None;
            };
            shifted
        } else {
            c
        };
        let route = Row::new(ascii, t, tried).route();
        if route.is_some() {
            return route;
        }
    }
    None
}

// Not known to be ASCII, here and in the next function: the slices are tested.
#[tactic(auto, using(crate::proofs::LineLaws::trimmed_route))]
pub fn parse_route_line(line: &[u8], columns: Columns) -> Option<(PrefixText, RouteEntry)>
    ensures { result ≡ route_of columns (trim_end line.now) }
{
    Row::new(false, text::trim_end(line), columns).route()
}

#[tactic(auto, using(crate::proofs::LineLaws::wrapped_laws))]
pub fn parse_wrapped_prefix_line(line: &[u8], next_hop: usize) -> Option<NetworkPrefix>
    ensures { result ≡ wrapped_of next_hop line.now }
{
    if next_hop < line.len() {
        return None;
    }
    fields::read_prefix(slice(line, 3, line.len()))
}

#[tactic(auto, using(crate::proofs::LineLaws::line_laws, utf8::proofs::ReadableLaws::ascii_readable))]
pub fn line_of(line: &[u8], columns: Columns) -> Line
    ensures { result ≡ line_of columns line.now }
{
    let ascii = utf8::is_ascii(line);
    if !ascii && !utf8::is_utf8(line) {
        return Line::Unreadable;
    }
    let t = text::trim_end(line);
    if let Some((prefix, entry)) = any_route(ascii, t, columns) {
        return Line::Route(entry, prefix);
    }
    // Stays let .. else, as in Row::route.
    let Some(p) = parse_wrapped_prefix_line(t, columns.next_hop) else {
        return Line::Passed;
    };
    Line::Wrapped(p)
}

// The path's part of a line, between the places that its route carries.
pub fn path_of(line: &[u8], entry: RouteEntry) -> &[u8]
    ensures { result.now ≡ path_of entry line.now }
{
    let end = entry.path_end.min(line.len());
    line.get(entry.path_start..end).unwrap_or(&[])
}
