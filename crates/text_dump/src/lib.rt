// The reader of a table in parts: opening, next and turn, by a state that each call takes and hands
// back.
#![tactic(auto)]

ghost use Rattle.std.specs.Prelude.{◌≡◌, length, take};
ghost use Rattle.plain_reader.specs.Rules.{replace};
ghost use Rattle.text_dump.specs.State.{plain, valid_remembered, spoilt, turned, moved};
ghost use Rattle.text_dump.specs.Open.{peer_ip, peer_asn, open_of, of_header, told as toldOpened, number as open_number};
ghost use Rattle.text_dump.specs.Rules.{text_of, origin_asn, element_of};
ghost use Rattle.path_text.specs.Path.{asns_of};
ghost use Rattle.text_dump_line.specs.Line.{path_of};
ghost use Rattle.text_dump.specs.Next.{stepped, next as next_of, at_route, Answers, number as next_number};

use columns::Columns;
use elem::Element;
use network::{Asn, IpAddr, NetworkPrefix};
use text_dump_header::{HeaderError, TextDumpHeader};
use text_dump_line::{Line, PrefixText, RouteEntry};

#[derive(Debug, Clone, Copy, PartialEq, Eq)]
pub enum Remembered {
    Nothing,
    Invalid,
    Valid(NetworkPrefix),
}

#[derive(Debug, Clone, Copy, PartialEq)]
pub struct State {
    pub columns: Columns,
    pub peer_ip: IpAddr,
    pub peer_asn: Asn,
    pub timestamp: f64,
    pub remembered: Remembered,
    pub position: usize,
}

// Why no table is opened (01, Where a call says no): an unreadable line comes with its number in
// the text.
#[derive(Debug, Clone, Copy, PartialEq, Eq)]
pub enum OpenError {
    NoTimestamp,
    Unreadable(usize),
    NoColumns,
}

impl OpenError {
    // 01's number of the refusal.
    #[inline(always)]
    pub fn number(self) -> u32
        ensures { result ≡ open_number self }
    {
        match self {
            OpenError::NoTimestamp => 4,
            OpenError::Unreadable(_) => 1,
            OpenError::NoColumns => 2,
        }
    }
}

impl From<HeaderError> for OpenError {
    ghost from_gives = { λ e r. r ≡ of_header e };

    fn from(e: HeaderError) -> OpenError {
        match e {
            HeaderError::Unreadable(line) => OpenError::Unreadable(line),
        }
    }
}

// Why next refuses (01, Where a call says no).
#[derive(Debug, Clone, Copy, PartialEq, Eq)]
pub enum NextError {
    Spoilt,
    Unreadable,
    TooFewPlaces,
}

impl NextError {
    // 01's number of the refusal.
    #[inline(always)]
    pub fn number(self) -> u32
        ensures { result ≡ next_number self }
    {
        match self {
            NextError::Spoilt => 5,
            NextError::Unreadable => 6,
            NextError::TooFewPlaces => 7,
        }
    }
}

fn peer_ip(id: Option<IpAddr>) -> IpAddr
    ensures { result ≡ peer_ip id }
{
    id.unwrap_or(IpAddr::V4(0))
}

fn peer_asn(number: Option<u32>) -> Asn
    ensures { result ≡ peer_asn number }
{
    Asn(number.unwrap_or(0))
}

fn is_valid_remembered(m: Remembered) -> bool
    ensures { result ≡ valid_remembered m }
{
    match m {
        Remembered::Nothing | Remembered::Invalid => true,
        Remembered::Valid(p) => network::is_valid_prefix(p),
    }
}

// What is remembered after a route: any prefix text but a blank one replaces it.
#[tactic(auto, using(crate::proofs::StateLaws::replaces))]
pub fn replaced(text: PrefixText, m: Remembered) -> Remembered
    ensures { plain result ≡ replace (text_of text) (plain m) }
{
    match text {
        PrefixText::Blank => m,
        PrefixText::Invalid => Remembered::Invalid,
        PrefixText::Valid(p) => Remembered::Valid(p),
    }
}

// The last of the first `count` numbers; of all of them where there are fewer.
#[tactic(auto, using(crate::proofs::StateLaws::origin_laws))]
pub fn origin_asn(asns: &[u32], count: usize) -> Option<Asn>
    ensures { result ≡ origin_asn (take count asns.now) }
{
    asns[..count.min(asns.len())].last().map(|asn| Asn(*asn))
}

impl State {
    #[tactic(auto, unfolding(crate::specs::State::spoilt))]
    pub fn is_spoilt(self, part_len: usize) -> bool
        ensures { result ≡ spoilt self part_len }
    {
        part_len < self.position
            || !columns::are_rising(self.columns)
            || !seconds::is_timestamp(self.timestamp)
            || !is_valid_remembered(self.remembered)
    }

    pub fn moved(self, position: usize, remembered: Remembered) -> State
        ensures { result ≡ moved self (record { at = position; remembered = plain remembered }) }
    {
        State {
            remembered,
            position,
            ..self
        }
    }

    pub fn element(
        self,
        prefix: NetworkPrefix,
        entry: RouteEntry,
        count: usize,
        origin_asn: Option<Asn>,
    ) -> Element
        ensures { result ≡ element_of self prefix entry count origin_asn }
    {
        Element {
            announce: true,
            timestamp: self.timestamp,
            peer_ip: self.peer_ip,
            peer_asn: self.peer_asn,
            prefix,
            next_hop: entry.next_hop,
            count,
            origin_asn,
            origin: entry.origin,
            local_pref: entry.local_pref,
            metric: entry.metric,
        }
    }

    #[tactic(auto, using(crate::proofs::OpenLaws::no_timestamp))]
    pub fn open(text: &[u8], timestamp: f64) -> Result<State, OpenError>
        ensures { toldOpened result ≡ open_of timestamp text.now }
    {
        if !seconds::is_timestamp(timestamp) {
            return Err(OpenError::NoTimestamp);
        }
        let (header, position) = text_dump_header::parse_header(text)?;
        let columns = header.columns.ok_or(OpenError::NoColumns)?;
        Ok(State {
            columns,
            peer_ip: peer_ip(header.router_id),
            peer_asn: peer_asn(header.local_as),
            timestamp,
            remembered: Remembered::Nothing,
            position,
        })
    }

    // The element of a route that a line has, whose end this is, if its AS numbers have places.
    fn yielded(
        self,
        prefix: NetworkPrefix,
        entry: RouteEntry,
        line: &[u8],
        end: usize,
        asns: &mut [u32],
    ) -> (State, Result<Option<Element>, NextError>)
        ensures { Answers (stepped self (at_route self (length asns.old) prefix (entry, asns_of (path_of entry line.now)) end)) asns.old result asns.new }
    {
        let path = text_dump_line::path_of(line, entry);
        let Ok(count) = path_text::put_asns(path, asns) else {
            return (self, Err(NextError::TooFewPlaces));
        };
        let origin_asn = origin_asn(asns, count);
        let element = self.element(prefix, entry, count, origin_asn);
        (
            self.moved(end, Remembered::Valid(prefix)),
            Ok(Some(element)),
        )
    }

    // Passes lines until one yields. The state is that after the element's line or at the part's
    // end, and in a refusal the one that was handed in. An element's AS numbers stand in the lent
    // list from place 0 on. The loop is no function of its own: its answer, an enum with a route in
    // one of its variants, would be written to memory and read again at each element.
    #[tactic(auto, using(crate::proofs::NextLaws::next_laws))]
    pub fn next(self, part: &[u8], asns: &mut [u32]) -> (State, Result<Option<Element>, NextError>)
        ensures { Answers (next_of self part.now (length asns.old)) asns.old result asns.new }
    {
        if self.is_spoilt(part.len()) {
            return (self, Err(NextError::Spoilt));
        }
        let mut remembered = self.remembered;
        let mut at = self.position;
        // Stays a while: the library's iterator looks at each byte, scan::line_end at 64 at a time;
        // one of ours would have to tell its place besides, which the state keeps.
        while at < part.len() {
            let start = at;
            at = scan::line_end(part, start);
            match text_dump_line::line_of(&part[start..at], self.columns) {
                Line::Unreadable => {
                    return (self, Err(NextError::Unreadable));
                }
                Line::Passed => {}
                Line::Wrapped(prefix) => {
                    remembered = Remembered::Valid(prefix);
                }
                Line::Route(entry, text) => {
                    remembered = replaced(text, remembered);
                    if let Remembered::Valid(prefix) = remembered {
                        return self.yielded(prefix, entry, &part[start..at], at, asns);
                    }
                }
            }
        }
        (self.moved(part.len(), remembered), Ok(None))
    }

    // To the next part.
    pub fn turn(self) -> State
        ensures { result ≡ turned self }
    {
        self.moved(0, self.remembered)
    }
}
