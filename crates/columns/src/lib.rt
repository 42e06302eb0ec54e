// The columns of a table, found by their names in its column header.
#![tactic(auto)]

ghost use Rattle.std.specs.Prelude.{◌≡◌, ◌-◌};
ghost use Rattle.columns.specs.Columns.{words_begin, place, are_rising, column_header, shift_left};

// Offsets in bytes; those of a column header rise.
#[derive(Debug, Clone, Copy, PartialEq, Eq)]
pub struct Columns {
    pub next_hop: usize,
    pub metric: usize,
    pub local_pref: usize,
    pub weight: usize,
    pub path: usize,
}

// Do the words of the name stand at the front of the line's words from `at` on?
#[tactic(auto, using(crate::proofs::Laws::name_laws))]
fn words_begin(line: &[u8], at: usize, name: &[u8]) -> bool
    ensures { result ≡ words_begin name.now line.now at }
{
    let mut i = at;
    let mut j = 0;
    // Stays a labelled loop: 01 names this form for the comparison of names.
    let all = 'name: loop {
        let Some((a, b)) = scan::next_word(name, j) else {
            break 'name true;
        };
        let Some((c, d)) = scan::next_word(line, i) else {
            break 'name false;
        };
        if !scan::same(&line[c..d], &name[a..b]) {
            break 'name false;
        }
        i = d;
        j = b;
    };
    all
}

// Where the name stands in the line; of repeated names the last counts.
#[tactic(auto, using(crate::proofs::Laws::place_laws))]
fn last_place(line: &[u8], name: &[u8]) -> Option<usize>
    ensures { result ≡ place name.now line.now }
{
    let mut found = None;
    let mut at = 0;
    // Stays a while let: an iterator of words would be made for this loop alone, since 01 names the
    // form of the other walk over words, words_begin.
    while let Some((start, end)) = scan::next_word(line, at) {
        if words_begin(line, start, name) {
            found = Some(start);
        }
        at = end;
    }
    found
}

pub fn are_rising(c: Columns) -> bool
    ensures { result ≡ are_rising c }
{
    (c.next_hop < c.metric)
        & (c.metric < c.local_pref)
        & (c.local_pref < c.weight)
        & (c.weight < c.path)
}

#[tactic(auto, using(crate::proofs::Laws::header_laws))]
pub fn parse_column_header(line: &[u8]) -> Option<Columns>
    ensures { result ≡ column_header line.now }
{
    let c = Columns {
        next_hop: last_place(line, b"Next Hop")?,
        metric: last_place(line, b"Metric")?,
        local_pref: last_place(line, b"LocPrf")?,
        weight: last_place(line, b"Weight")?,
        path: last_place(line, b"Path")?,
    };
    are_rising(c).then_some(c)
}

#[tactic(auto, using(crate::proofs::Laws::shift_laws))]
pub fn shift_columns_left(c: Columns) -> Option<Columns>
    ensures { result ≡ shift_left c }
{
    Some(Columns {
        next_hop: c.next_hop.checked_sub(1)?,
        metric: c.metric.saturating_sub(1),
        local_pref: c.local_pref.saturating_sub(1),
        weight: c.weight.saturating_sub(1),
        path: c.path.saturating_sub(1),
    })
}
