// The body: the lines under the column header, one after another.
ghost use Rattle.std.specs.Prelude.{◌≡◌, ℕ, List, [], ◌∷◌};
ghost use Rattle.scan.specs.Lines.{lines};
ghost use Rattle.text_dump_line.specs.Line.{line_of};
ghost use Rattle.text_dump_line.specs.declared.Line.TheVariants as read;
ghost use Rattle.text_dump.specs.declared.Remembered.TheVariants as remembered;
ghost use Rattle.packed.specs.Packed.{remembered_in};
ghost use Rattle.psv_stream.specs.Refusal.{number};
ghost use Rattle.psv_stream.specs.Run.{Runs};
ghost use Rattle.psv_stream.specs.Parts.{front_of, Fine, Starts, kept_len, Kept, BodyDoes, Keeps, phase_of, BodySteps};
ghost use Rattle.psv_stream.specs.declared.Phase.TheVariants as phase;
ghost use Rattle.psv_stream.specs.declared.Step.TheVariants as step;

use crate::route::print_route;
use crate::walk::{End, Taken, take_lines};
use crate::{LINE, PLACES, Phase, Ran, Refusal, Step, refuse, stopped};
use input::Front;
use network::NetworkPrefix;
use output::Writer;
use packed::Packed;
use psv::Source;
use text_dump::State;
use text_dump_line::{Line, PrefixText, RouteEntry};

// What the loop over the body's lines carries from line to line.
#[derive(Clone, Copy)]
struct Cursor {
    // Where the reading state is in its input.
    position: usize,
    // How many lines of the listing have come.
    number: u64,
    // The length of the cached start (Buffers), 0 while none is cached.
    // Stays a length: a start that is not cached has no bytes, and an Option would say so twice, by
    // None and by Some(0). The same holds of front_len.
    start_len: usize,
    // What the reading state remembers, packed.
    memory: Packed,
}

impl Cursor {
    // Before the first line.
    #[tactic(auto, using(crate::proofs::Bodies::first_phase))]
    fn new(state: State, number: u64) -> Cursor
        ensures phase { phase_of state result ≡ phase.Body state number }
        ensures remembers { remembered_in result.memory ≡ state.remembered }
        ensures none_cached { result.start_len ≡ 0 }
    {
        Cursor {
            position: state.position,
            number,
            start_len: 0,
            memory: packed::pack(state.remembered),
        }
    }
}

// The longest start of a line that is cached.
const START: usize = 160;

// What a run of the body works in.
// Stays apart from the state and the cursor: after a refused line the start may be of its prefix
// and the cursor of the line before it, so what Kept says of the three is no invariant of a struct.
#[derive(Drop)]
struct Buffers {
    // The cached start: what the lines under one prefix begin with. Its first front_len bytes are
    // the front, the same in all lines of the table; the field of the prefix follows.
    start: [u8; START],
    front_len: usize,
    // The AS numbers of a line's path.
    asns: [u32; PLACES],
}

// Prints what the lines of a table begin with: its length, 0 where it has no room.
fn put_start(state: State, out: &mut [u8]) -> usize
    ensures { Starts (front_of state) out.new result state.remembered 0 }
{
    let source = Source {
        announce: true,
        timestamp: state.timestamp,
        peer_ip: state.peer_ip,
        peer_asn: state.peer_asn,
    };
    psv::put_front(source, out).unwrap_or(0)
}

// Fills the cached start of the lines under a prefix, if it is empty and has room: its length then.
#[tactic(auto, using(crate::proofs::Routes::none_started))]
fn start_of(start: &mut [u8], front_len: usize, prefix: NetworkPrefix, start_len: usize) -> usize
    ensures { (front : List ℕ) → Starts front start.old front_len (remembered.Valid prefix) start_len → Starts front start.new front_len (remembered.Valid prefix) result }
{
    if front_len == 0 {
        return 0;
    }
    if 0 < start_len {
        return start_len;
    }
    let mut w = Writer {
        out: start,
        at: front_len,
    };
    psv::write_between(prefix, &mut w);
    if w.at < w.out.len() { w.at } else { 0 }
}

// The cached start survives only a blank prefix.
fn kept_len(text: PrefixText, start_len: usize) -> usize
    ensures { result ≡ kept_len text start_len }
{
    match text {
        PrefixText::Blank => start_len,
        PrefixText::Invalid | PrefixText::Valid(_) => 0,
    }
}

// A line of the body is taken: the reading state is at its end then.
#[inline(always)]
fn took(written: usize, next: Cursor) -> Step<Cursor>
    ensures { result ≡ step.Took next.position written next }
{
    Step::Took {
        consumed: next.position,
        written,
        next,
    }
}

// A line with a route.
fn route_line(
    buffers: &mut Buffers,
    state: State,
    cursor: Cursor,
    text: PrefixText,
    entry: RouteEntry,
    line: &[u8],
    out: &mut [u8; LINE],
) -> Step<Cursor>
    requires line_value { lines line.now ≡ line.now ∷ [] }
    requires text_value { read.Route entry text ≡ line_of state.columns line.now }
    requires kept { Kept state buffers.old.start buffers.old.front_len cursor }
    ensures body_does { BodyDoes state cursor line.now out.old out.new result }
    ensures keeps { Keeps state buffers.new.start buffers.new.front_len result }
{
    let memory = packed::pack_behind(text, cursor.memory);
    let next = Cursor {
        position: line.len(),
        number: cursor.number.wrapping_add(1),
        start_len: 0,
        memory,
    };
    if memory.kind < 2 {
        return took(0, next);
    }
    let prefix = packed::prefix_of(memory);
    let kept = kept_len(text, cursor.start_len);
    let start_len = start_of(&mut buffers.start, buffers.front_len, prefix, kept);
    let start = &buffers.start[..start_len];
    match print_route(start, state, prefix, entry, line, &mut buffers.asns, out) {
        Ok(written) => took(written, Cursor { start_len, ..next }),
        Err(why) => Step::Stops(refuse(why, next.number, out)),
    }
}

// A body line that is not too long.
fn body_line(
    buffers: &mut Buffers,
    state: State,
    cursor: Cursor,
    line: &[u8],
    out: &mut [u8; LINE],
) -> Step<Cursor>
    requires line_value { lines line.now ≡ line.now ∷ [] }
    requires kept { Kept state buffers.old.start buffers.old.front_len cursor }
    ensures body_does { BodyDoes state cursor line.now out.old out.new result }
    ensures keeps { Keeps state buffers.new.start buffers.new.front_len result }
{
    let next = Cursor {
        position: line.len(),
        number: cursor.number.wrapping_add(1),
        ..cursor
    };
    match text_dump_line::line_of(line, state.columns) {
        Line::Unreadable => Step::Stops(refuse(Refusal::UnreadableLine, next.number, out)),
        Line::Passed => took(0, next),
        Line::Wrapped(prefix) => {
            let wrapped = Cursor {
                start_len: 0,
                memory: packed::pack_prefix(prefix),
                ..next
            };
            took(0, wrapped)
        }
        Line::Route(entry, text) => route_line(buffers, state, cursor, text, entry, line, out),
    }
}

fn take_body_line(
    buffers: &mut Buffers,
    state: State,
    cursor: Cursor,
    input: &[u8],
    ended: bool,
    out: &mut [u8; LINE],
) -> Step<Cursor>
    requires { Kept state buffers.old.start buffers.old.front_len cursor }
    ensures steps { BodySteps state cursor input.now ended out.old out.new result }
    ensures keeps { Keeps state buffers.new.start buffers.new.front_len result }
{
    match input::line_at(input, 0, ended) {
        Front::Starved => Step::Starved,
        Front::Nothing => Step::Stops(0),
        Front::TooLong => {
            let number = cursor.number.wrapping_add(1);
            Step::Stops(refuse(Refusal::LineTooLong, number, out))
        }
        Front::Line(end) => body_line(buffers, state, cursor, &input[..end], out),
    }
}

// A run that ends in the body.
#[tactic(auto, using(crate::proofs::Bodies::ran))]
fn body_ran(state: State, taken: Taken<Cursor>, starved: bool) -> Ran
    ensures { result ≡ record { phase = phase_of state taken.place; consumed = taken.consumed; written = taken.written; starved = starved } }
{
    let cursor = taken.place;
    let remembered = packed::unpack(cursor.memory);
    Ran {
        phase: Phase::Body {
            state: state.moved(cursor.position, remembered),
            lines: cursor.number,
        },
        consumed: taken.consumed,
        written: taken.written,
        starved,
    }
}

// Takes lines of the body as long as there is a whole one, and room for what it may print.
fn take_body(
    buffers: &mut Buffers,
    state: State,
    number: u64,
    input: &[u8],
    ended: bool,
    out: &mut [u8],
) -> Ran
    requires fine { Fine state state.remembered }
    requires starts { Starts (front_of state) buffers.old.start buffers.old.front_len state.remembered 0 }
    ensures { Runs (phase.Body state number) input.now ended out.old result out.new }
{
    let first = Cursor::new(state, number);
    let taken = take_lines(
        first,
        input,
        out,
        move |cursor, rest, room|
            requires { Kept state buffers.now.start buffers.now.front_len cursor }
            ensures steps { BodySteps state cursor rest.now ended room.old room.new result }
            ensures keeps { Keeps state buffers.exit.now.start buffers.exit.now.front_len result }
        { take_body_line(buffers, state, cursor, rest, ended, room) },
    );
    match taken.end {
        End::Full | End::Left => body_ran(state, taken, false),
        End::Starved => body_ran(state, taken, true),
        End::Stopped => stopped(taken.consumed, taken.written),
    }
}

// A run from the body on. The front of its lines is printed once, and the field of a prefix once
// for the lines under it.
pub(crate) fn run_body(state: State, number: u64, input: &[u8], ended: bool, out: &mut [u8]) -> Ran
    requires { Fine state state.remembered }
    ensures { Runs (phase.Body state number) input.now ended out.old result out.new }
{
    // All zeros at first and the front put in after, so that the places are cleared once.
    let mut buffers = Buffers {
        start: [0; START],
        front_len: 0,
        asns: [0; PLACES],
    };
    buffers.front_len = put_start(state, &mut buffers.start);
    take_body(&mut buffers, state, number, input, ended, out)
}
