// The plain reader (01, Reader) as a program, for tests. What a line says it takes from
// `text_dump_line`.
#![tactic(auto)]

ghost use Rattle.std.specs.Prelude.{◌≡◌};
ghost use Rattle.plain_calls.specs.declared.Refusal.TheVariants.{TooFewPlaces};

use columns::Columns;
use elem::Element;
use network::{Asn, IpAddr, NetworkPrefix};
use path_text::AsnsError;
use text_dump_line::{Line, PrefixText, RouteEntry};

// Stays an enum of its own, beside text_dump's Remembered with the same cases: text_dump is tested
// against the plain reader, which knows nothing of it (docs/DECISIONS.md, 19).
#[derive(Clone, Copy)]
pub enum Prefix {
    Nothing,
    Invalid,
    Valid(NetworkPrefix),
}

// What the plain reader keeps: the part's lines left, which are those after the bytes taken, and a
// prefix. A turn and opening begin with no byte taken.
#[derive(Clone, Copy)]
pub struct Plain {
    pub taken: usize,
    pub prefix: Prefix,
}

// What it is fed besides the lines: what the header says, and the timestamp.
#[derive(Clone, Copy)]
pub struct Given {
    pub columns: Columns,
    pub peer_ip: IpAddr,
    pub peer_asn: Asn,
    pub timestamp: f64,
}

// Its numbers are 6 and 7.
#[derive(Clone, Copy, PartialEq, Eq, Debug)]
pub enum Refusal {
    Unreadable,
    TooFewPlaces,
}

impl From<AsnsError> for Refusal {
    ghost from_gives = { λ _ r. r ≡ TooFewPlaces };

    fn from(e: AsnsError) -> Refusal {
        match e {
            AsnsError::TooFewPlaces => Refusal::TooFewPlaces,
        }
    }
}

// What a prefix-bearing line sets.
fn set_by(text: PrefixText, old: Prefix) -> Prefix {
    match text {
        PrefixText::Blank => old,
        PrefixText::Invalid => Prefix::Invalid,
        PrefixText::Valid(p) => Prefix::Valid(p),
    }
}

// A route under a valid prefix. Its AS numbers are put into the places, if these hold them; no line
// has more than 16 here.
fn route(
    given: Given,
    prefix: NetworkPrefix,
    entry: RouteEntry,
    line: &[u8],
    places: &mut [u32],
) -> Result<Element, Refusal> {
    let mut room = [0; 16];
    let path = text_dump_line::path_of(line, entry);
    let count = path_text::put_asns(path, &mut room)?;
    let numbers = cases::first(&room, count);
    let lent = places
        .get_mut(..numbers.len())
        .ok_or(Refusal::TooFewPlaces)?;
    lent.copy_from_slice(numbers);
    Ok(Element {
        announce: true,
        timestamp: given.timestamp,
        peer_ip: given.peer_ip,
        peer_asn: given.peer_asn,
        prefix,
        next_hop: entry.next_hop,
        count,
        origin_asn: numbers.last().copied().map(Asn),
        origin: entry.origin,
        local_pref: entry.local_pref,
        metric: entry.metric,
    })
}

// The plain reader's next: an element, or none at the part's end. After a refusal all is as before.
pub fn next(
    given: Given,
    plain: &mut Plain,
    part: &[u8],
    places: &mut [u32],
) -> Result<Option<Element>, Refusal> {
    let Plain {
        mut taken,
        mut prefix,
    } = *plain;
    let left = cases::part(part, taken, part.len());
    for line in left.split_inclusive(|b| *b == b'\n') {
        taken = taken.wrapping_add(line.len());
        match text_dump_line::line_of(line, given.columns) {
            Line::Unreadable => return Err(Refusal::Unreadable),
            Line::Passed => {}
            Line::Wrapped(p) => prefix = Prefix::Valid(p),
            Line::Route(entry, text) => {
                prefix = set_by(text, prefix);
                if let Prefix::Valid(p) = prefix {
                    let element = route(given, p, entry, line, places)?;
                    *plain = Plain { taken, prefix };
                    return Ok(Some(element));
                }
            }
        }
    }
    *plain = Plain { taken, prefix };
    Ok(None)
}
