// Replays lists of calls on listings that are cut into parts, on the reader and on the plain reader
// side by side: after each call the answer, every field of the state and every place of the AS list
// are compared. Where the listing is cut at line feeds, the elements are compared with those of the
// joined body too. Prints a line for each group.
//
// Stays with the handle, the tally, the text and its cut as parameters of what runs cases: the
// calls below take them one by one, so a struct of them would be taken apart at each.
#![tactic(auto)]

use cases::Tally;
use columns::Columns;
use cuts::Cut;
use plain_calls::Prefix;
use std::io;
use text_dump::{OpenError, State};

const TIMESTAMP: f64 = 1709251200.0;

// As many calls as read the longest listing here.
const CALLS: usize = 200;

// How often a listing is cut by chance.
const SEEDS: u64 = 100;

// The columns of the listings (01, One listing).
const COLUMNS: Columns = Columns {
    next_hop: 20,
    metric: 40,
    local_pref: 47,
    weight: 54,
    path: 61,
};

// A call more; where it was wrong, the cut is printed.
fn counted(rt: &impl Print, t: Tally, right: bool, part: usize, cut: Cut) -> io::Result<Tally> {
    if !right {
        println!(rt; "in part {part}, cut at{cut}")?;
    }
    replay::count(rt, t, right)
}

// The AS places of the next that comes, or none for a turn. Without a draw each part is read to its
// end.
fn call(stopped: bool, draw: Option<u64>) -> Option<usize> {
    let Some(x) = draw else {
        return if stopped { None } else { Some(replay::PLACES) };
    };
    if stopped && x % 4 == 0 {
        return None;
    }
    match x / 16 % 24 {
        0 => None,
        1 | 2 => Some(0),
        3 | 4 => Some(1),
        5 | 6 => Some(2),
        7 | 8 => Some(3),
        _ => Some(replay::PLACES),
    }
}

// Opens the first part, and reads each part to its end, or makes the calls that are drawn from the
// seed, where there is one.
fn play(rt: &impl Print, t: Tally, text: &[u8], cut: Cut, seed: Option<u64>) -> io::Result<Tally> {
    let Ok(state) = State::open(cut.part(text, 0), TIMESTAMP) else {
        return counted(rt, t, false, 0, cut);
    };
    let given = replay::given(COLUMNS, TIMESTAMP);
    let mut both = replay::begin(rt, state, given, cut.header, Prefix::Nothing)?;
    let mut t = counted(rt, t, both.right, 0, cut)?;
    let mut part = 0usize;
    let mut draw = seed;
    for _ in 0..CALLS {
        draw = draw.map(cuts::drawn);
        if let Some(k) = call(both.stopped, draw) {
            let here = cut.part(text, part);
            both = replay::next(rt, both, here, cut.body_at(part), k)?;
        } else {
            let next = part.wrapping_add(1);
            if cut.parts <= next {
                // A turn past the last part is none.
                continue;
            }
            part = next;
            both = replay::turn(rt, both)?;
        }
        t = counted(rt, t, both.right, part, cut)?;
    }
    Ok(t)
}

// Opens a header that ends before its column line does: 2.
fn open_cut_header(rt: &impl Print, t: Tally, text: &[u8], cut: Cut) -> io::Result<Tally> {
    let opened = State::open(cut.part(text, 0), TIMESTAMP);
    counted(rt, t, matches!(opened, Err(OpenError::NoColumns)), 0, cut)
}

// Reads the parts, with a turn at the end of any but the last, and the joined body beside them: the
// same elements, and End.
fn play_joined(rt: &impl Print, t: Tally, text: &[u8], cut: Cut) -> io::Result<Tally> {
    let Ok(mut state) = State::open(cut.part(text, 0), TIMESTAMP) else {
        return counted(rt, t, false, 0, cut);
    };
    let Ok(mut joined) = State::open(text, TIMESTAMP) else {
        return counted(rt, t, false, 0, cut);
    };
    let mut t = t;
    let mut part = 0usize;
    for _ in 0..CALLS {
        let mut asns = replay::places();
        let got = state.next(cut.part(text, part), &mut asns);
        state = replay::state_in(got);
        let next = part.wrapping_add(1);
        if matches!(got, (_, Ok(None))) && next < cut.parts {
            state = state.turn();
            part = next;
            continue;
        }
        let mut joined_asns = replay::places();
        let want = joined.next(text, &mut joined_asns);
        joined = replay::state_in(want);
        let right = replay::same_answer(rt, got, &asns, want, &joined_asns)?;
        t = counted(rt, t, right, part, cut)?;
        if !matches!(got, (_, Ok(Some(_)))) {
            break;
        }
    }
    Ok(t)
}

// Cut in two at every byte, the header's too.
fn every_byte(rt: &impl Print, text: &[u8], header: usize) -> io::Result<Tally> {
    let mut t = Tally::default();
    // The column line needs no line feed.
    let feed = header.saturating_sub(1);
    for at in 0..=text.len() {
        let cut = cuts::in_two(text, header, at);
        t = if at < feed {
            open_cut_header(rt, t, text, cut)?
        } else {
            play(rt, t, text, cut, None)?
        };
    }
    Ok(t)
}

// Cut in two at every line feed after the header, and replayed.
fn every_line<F: Fn(Tally, Cut) -> io::Result<Tally>>(
    text: &[u8],
    header: usize,
    replay: F,
) -> io::Result<Tally>
    requires { F.IsAlwaysCallable replay }
{
    let mut t = Tally::default();
    for at in header..=text.len() {
        if at == header || at == text.len() || text[at - 1] == b'\n' {
            t = replay(t, cuts::in_two(text, header, at))?;
        }
    }
    Ok(t)
}

// With each seed.
fn every_seed<F: Fn(Tally, u64) -> io::Result<Tally>>(replay: F) -> io::Result<Tally>
    requires { F.IsAlwaysCallable replay }
{
    let mut t = Tally::default();
    for seed in 1..=SEEDS {
        t = replay(t, seed)?;
    }
    Ok(t)
}

// Cut in two to eight parts by chance, and read to the end.
fn some_parts(rt: &impl Print, text: &[u8], header: usize) -> io::Result<Tally> {
    every_seed(|t, seed| {
        let cut = cuts::by_chance(text, header, seed, false);
        play(rt, t, text, cut, None)
    })
}

// The same at line feeds, and beside the joined body.
fn some_parts_joined(rt: &impl Print, text: &[u8], header: usize) -> io::Result<Tally> {
    every_seed(|t, seed| {
        let cut = cuts::by_chance(text, header, seed, true);
        play_joined(rt, t, text, cut)
    })
}

// Cut in two to eight parts by chance, at line feeds every other time, with calls that are drawn.
fn some_calls(rt: &impl Print, text: &[u8], header: usize) -> io::Result<Tally> {
    every_seed(|t, seed| {
        let cut = cuts::by_chance(text, header, seed, seed % 2 == 0);
        play(rt, t, text, cut, Some(seed))
    })
}

// The header of each listing is its first three lines.
fn header_of(text: &[u8]) -> usize {
    scan::line_end(text, scan::line_end(text, scan::line_end(text, 0)))
}

fn listing(rt: &impl Print, text: &[u8]) -> io::Result<()> {
    let header = header_of(text);
    let bytes = every_byte(rt, text, header)?;
    cases::report(rt, bytes, b"listing_every_byte")?;
    let joined = every_line(text, header, |t, cut| play_joined(rt, t, text, cut))?;
    cases::report(rt, joined, b"listing_joined")
}

fn table(rt: &impl Print, text: &[u8]) -> io::Result<()> {
    let header = header_of(text);
    let lines = every_line(text, header, |t, cut| play(rt, t, text, cut, None))?;
    cases::report(rt, lines, b"table_every_line")?;
    let joined = every_line(text, header, |t, cut| play_joined(rt, t, text, cut))?;
    cases::report(rt, joined, b"table_every_line_joined")?;
    let parts = some_parts(rt, text, header)?;
    cases::report(rt, parts, b"table_parts")?;
    let parts_joined = some_parts_joined(rt, text, header)?;
    cases::report(rt, parts_joined, b"table_parts_joined")?;
    let calls = some_calls(rt, text, header)?;
    cases::report(rt, calls, b"table_calls")
}

fn unreadable(rt: &impl Print, text: &[u8]) -> io::Result<()> {
    let header = header_of(text);
    let lines = every_line(text, header, |t, cut| play(rt, t, text, cut, None))?;
    cases::report(rt, lines, b"unreadable_every_line")?;
    let parts = some_parts(rt, text, header)?;
    cases::report(rt, parts, b"unreadable_parts")?;
    let calls = some_calls(rt, text, header)?;
    cases::report(rt, calls, b"unreadable_calls")
}

fn main(rt: HostRuntime) -> io::Result<()> {
    let mut list = [0; 65536];
    let a = cases::read_file(&rt, "listing.txt", &mut list)?;
    listing(&rt, &list[..a])?;
    let b = cases::read_file(&rt, "table.txt", &mut list)?;
    table(&rt, &list[..b])?;
    let c = cases::read_file(&rt, "unreadable.txt", &mut list)?;
    unreadable(&rt, &list[..c])
}
