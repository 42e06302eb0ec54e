// The program table2psv as a function of the bytes at hand: which bytes are to be printed, and what
// is left for when more input has come.
#![tactic(auto)]

mod body;
mod head;
mod route;
mod walk;

ghost use Rattle.std.specs.Prelude.{◌≡◌, false};
ghost use Rattle.psv_stream.specs.Printed.{refusal_text};
ghost use Rattle.psv_stream.specs.Refusal.{number, of_asns, of_element};
ghost use Rattle.psv_stream.specs.Run.{Runs};
ghost use Rattle.psv_stream.specs.Parts.{Puts};
ghost use Rattle.psv_stream.specs.declared.Phase.TheVariants as phase;

use crate::body::run_body;
use crate::head::{is_head, take_head};
use output::Writer;
use path_text::AsnsError;
use psv::ElementError;
use text_dump::State;

// The longest text of an element's line.
const TEXT: usize = 65536;

// The room that a line is printed into: such a text and a line feed.
const LINE: usize = TEXT + 1;

// How many AS numbers a path may have.
const PLACES: usize = 16384;

// Where the program is in its input.
#[derive(Clone, Copy)]
pub enum Phase {
    // The path line.
    Path,
    // A line scanned for the column header. So many lines of the listing have come, and so many of
    // the bytes that are not consumed are theirs.
    Header {
        timestamp: f64,
        lines: u64,
        size: usize,
    },
    // A body line, after so many lines of the listing.
    Body {
        state: State,
        lines: u64,
    },
    // Nothing more.
    Stopped,
}

// Why the program stops (01, Where a call says no).
#[derive(Debug, Clone, Copy, PartialEq, Eq)]
enum Refusal {
    UnreadableHeader,
    NoColumns,
    PathNotUtf8,
    NoTimestamp,
    SpoiltState,
    UnreadableLine,
    TooFewPlaces,
    SpoiltElement,
    ElementTooLong,
    LineTooLong,
}

impl Refusal {
    fn number(self) -> u64
        ensures { result ≡ number self }
    {
        match self {
            Refusal::UnreadableHeader => 1,
            Refusal::NoColumns => 2,
            Refusal::PathNotUtf8 => 3,
            Refusal::NoTimestamp => 4,
            Refusal::SpoiltState => 5,
            Refusal::UnreadableLine => 6,
            Refusal::TooFewPlaces => 7,
            Refusal::SpoiltElement => 8,
            Refusal::ElementTooLong => 9,
            Refusal::LineTooLong => 13,
        }
    }
}

impl From<AsnsError> for Refusal {
    ghost from_gives = { λ e r. r ≡ of_asns e };

    fn from(e: AsnsError) -> Refusal {
        match e {
            AsnsError::TooFewPlaces => Refusal::TooFewPlaces,
        }
    }
}

impl From<ElementError> for Refusal {
    ghost from_gives = { λ e r. r ≡ of_element e };

    fn from(e: ElementError) -> Refusal {
        match e {
            ElementError::Spoilt => Refusal::SpoiltElement,
            ElementError::TooShort => Refusal::ElementTooLong,
        }
    }
}

// What a line comes to; P, its place, is a Phase in the head and a Cursor in the body. The numbers
// come first, so that each stands at the same place in every variant.
#[derive(Clone, Copy)]
enum Step<P> {
    // The line is taken, and `next` is the place of the one after it.
    Took {
        consumed: usize,
        written: usize,
        next: P,
    },
    // So many bytes are written, and they are the last.
    Stops(usize),
    // There is no whole line yet.
    Starved,
    // The line is of another part.
    Leaves,
}

// How far a run came: the new phase, how many bytes of the input are consumed and how many of the
// output written, and whether it wants more input.
#[derive(Clone, Copy)]
pub struct Ran {
    pub phase: Phase,
    pub consumed: usize,
    pub written: usize,
    pub starved: bool,
}

// A run after which nothing more is to come.
#[inline(always)]
fn stopped(consumed: usize, written: usize) -> Ran
    ensures { result ≡ record { phase = phase.Stopped; consumed = consumed; written = written; starved = false } }
{
    Ran {
        phase: Phase::Stopped,
        consumed,
        written,
        starved: false,
    }
}

// Prints a refusal: its length.
fn refuse(why: Refusal, line: u64, out: &mut [u8; LINE]) -> usize
    ensures { Puts (refusal_text (number why) line) out.old out.new result }
{
    let mut w = Writer::new(out);
    w.bytes(b"refused=");
    decimal_display::write_u64(why.number(), &mut w);
    w.bytes(b"\nline=");
    decimal_display::write_u64(line, &mut w);
    w.byte(b'\n');
    w.at
}

// The head, and then the body.
// Stays with the bytes at hand, whether they are the last, and the output as parameters of what
// runs over lines: the bytes are cut anew for each line, and so a struct would be made for each.
pub fn run(phase: Phase, input: &[u8], ended: bool, out: &mut [u8]) -> Ran
    ensures { Runs phase input.now ended out.old result out.new }
{
    let head = take_head(phase, input, ended, out);
    if is_head(head.phase) {
        return head;
    }
    let Phase::Body { state, lines } = head.phase else {
        return head;
    };
    let body = run_body(
        state,
        lines,
        &input[head.consumed..],
        ended,
        &mut out[head.written..],
    );
    Ran {
        consumed: head.consumed + body.consumed,
        written: head.written + body.written,
        ..body
    }
}
