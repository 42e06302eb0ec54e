// The head of the input: the path line and the lines scanned for the column header.
ghost use Rattle.std.specs.Prelude.{◌≡◌, true, ◌++◌};
ghost use Rattle.psv.specs.Line.{header_text};
ghost use Rattle.timestamp.specs.Dates.{infer_timestamp};
ghost use Rattle.text_dump.specs.Open.{open_of};
ghost use Rattle.psv_stream.specs.Printed.{feed, dated, scanned};
ghost use Rattle.psv_stream.specs.Refusal.{number};
ghost use Rattle.psv_stream.specs.Run.{header_bytes};
ghost use Rattle.psv_stream.specs.Parts.{acts, is_head, Puts, Ends, TooLong, Does, Steps, HeadSteps, Heads};

use crate::walk::{End, take_lines};
use crate::{LINE, Phase, Ran, Refusal, Step, refuse, stopped};
use input::Front;
use output::Writer;
use text_dump::{OpenError, State};
use timestamp::InferError;

// What is printed at the input's end.
#[tactic(auto, using(crate::proofs::Lines::end_laws))]
fn at_end(phase: Phase, out: &mut [u8; LINE]) -> usize
    ensures { Ends phase out.old out.new result }
{
    match phase {
        Phase::Path | Phase::Header { .. } => refuse(Refusal::NoColumns, 0, out),
        Phase::Body { .. } | Phase::Stopped => 0,
    }
}

// What is printed of a line that is too long.
#[tactic(auto, using(crate::proofs::Lines::long_laws))]
fn too_long(phase: Phase, out: &mut [u8; LINE]) -> usize
    ensures { TooLong phase out.old out.new result }
{
    match phase {
        Phase::Path => refuse(Refusal::LineTooLong, 0, out),
        Phase::Header { lines, .. } | Phase::Body { lines, .. } => {
            refuse(Refusal::LineTooLong, lines.wrapping_add(1), out)
        }
        Phase::Stopped => 0,
    }
}

fn path_line(line: &[u8], out: &mut [u8; LINE]) -> Step<Phase>
    ensures { Does (dated (infer_timestamp line.now)) line.now out.old out.new result }
{
    match timestamp::infer_timestamp_from_path(line) {
        Ok(date) => Step::Took {
            consumed: line.len(),
            written: 0,
            next: Phase::Header {
                timestamp: date.unwrap_or(0.0),
                lines: 0,
                size: 0,
            },
        },
        Err(InferError::NotUtf8) => Step::Stops(refuse(Refusal::PathNotUtf8, 0, out)),
    }
}

fn put_header(out: &mut [u8; LINE]) -> usize
    ensures { Puts (header_text ++ feed) out.old out.new result }
{
    let at = psv::get_psv_header(out).unwrap_or(0);
    let mut w = Writer { out, at };
    w.byte(b'\n');
    w.at
}

// Tries to open the listing by its first lines, as many as `number` says.
fn header_line(timestamp: f64, number: u64, text: &[u8], out: &mut [u8; LINE]) -> Step<Phase>
    ensures { Does (scanned timestamp number text.now (open_of timestamp text.now)) text.now out.old out.new result }
{
    match State::open(text, timestamp) {
        Ok(state) => Step::Took {
            consumed: text.len(),
            written: put_header(out),
            next: Phase::Body {
                state,
                lines: number,
            },
        },
        Err(OpenError::Unreadable(line)) => Step::Stops(refuse(
            Refusal::UnreadableHeader,
            line as u64,
            out,
        )),
        Err(OpenError::NoTimestamp) => Step::Stops(refuse(Refusal::NoTimestamp, 0, out)),
        Err(OpenError::NoColumns) => {
            let more = number < 64;
            if more {
                return Step::Took {
                    consumed: 0,
                    written: 0,
                    next: Phase::Header {
                        timestamp,
                        lines: number,
                        size: text.len(),
                    },
                };
            }
            Step::Stops(refuse(Refusal::NoColumns, 0, out))
        }
    }
}

// Is the next line taken by the loop over the head? It is until the table is open; under a spoilt
// state too, where a line is only refused.
#[tactic(auto, using(crate::proofs::Lines::head_body))]
pub(crate) fn is_head(phase: Phase) -> bool
    ensures { result ≡ is_head phase }
{
    match phase {
        Phase::Path | Phase::Header { .. } => true,
        Phase::Body { state, .. } => state.turn().is_spoilt(0),
        Phase::Stopped => false,
    }
}

// A line that is not too long; of a header line, the text with all before it.
#[tactic(auto, using(crate::proofs::Lines::on_laws))]
fn on_line(phase: Phase, text: &[u8], out: &mut [u8; LINE]) -> Step<Phase>
    requires { is_head phase ≡ true }
    ensures { Does (acts phase text.now) text.now out.old out.new result }
{
    match phase {
        Phase::Path => path_line(text, out),
        Phase::Header {
            timestamp,
            lines,
            ..
        } => {
            let number = lines.wrapping_add(1);
            header_line(timestamp, number, text, out)
        }
        Phase::Body { lines, .. } => {
            Step::Stops(refuse(Refusal::SpoiltState, lines.wrapping_add(1), out))
        }
        Phase::Stopped => Step::Stops(0),
    }
}

// How many of the bytes at hand are of header lines that have come.
fn header_bytes(phase: Phase) -> usize
    ensures { result ≡ header_bytes phase }
{
    match phase {
        Phase::Header { size, .. } => size,
        Phase::Path | Phase::Body { .. } | Phase::Stopped => 0,
    }
}

#[tactic(auto, using(crate::proofs::Steps::line_laws))]
fn take_line(phase: Phase, input: &[u8], ended: bool, out: &mut [u8; LINE]) -> Step<Phase>
    requires { is_head phase ≡ true }
    ensures { Steps phase input.now ended out.old out.new result }
{
    match input::line_at(input, header_bytes(phase), ended) {
        Front::Starved => Step::Starved,
        Front::Nothing => Step::Stops(at_end(phase, out)),
        Front::TooLong => Step::Stops(too_long(phase, out)),
        Front::Line(end) => on_line(phase, &input[..end], out),
    }
}

// Takes the next line, if it is of the head.
#[tactic(auto, using(crate::proofs::Steps::head_steps))]
#[inline(always)]
fn head_step(phase: Phase, input: &[u8], ended: bool, out: &mut [u8; LINE]) -> Step<Phase>
    ensures { HeadSteps phase input.now ended out.old out.new result }
{
    if !is_head(phase) {
        return Step::Leaves;
    }
    take_line(phase, input, ended, out)
}

// Takes lines of the head as long as there is a whole one, and room for what it may print.
pub(crate) fn take_head(phase: Phase, input: &[u8], ended: bool, out: &mut [u8]) -> Ran
    ensures { Heads phase input.now ended out.old result out.new }
{
    let taken = take_lines(phase, input, out, move |phase, rest, room| {
        head_step(phase, rest, ended, room)
    });
    match taken.end {
        End::Full | End::Left => Ran {
            phase: taken.place,
            consumed: taken.consumed,
            written: taken.written,
            starved: false,
        },
        End::Starved => Ran {
            phase: taken.place,
            consumed: taken.consumed,
            written: taken.written,
            starved: true,
        },
        End::Stopped => stopped(taken.consumed, taken.written),
    }
}
