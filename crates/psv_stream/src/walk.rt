// The loop over lines, for the head and for the body: each passes it what it does with the next
// line, as a closure.
ghost use Rattle.std.specs.Prelude.{◌≡◌, ℕ, ◌+◌, ◌-◌, ◌<◌, ◌≤◌, List, ◌++◌, length, take, drop};
ghost use Rattle.psv_stream.specs.Loop.{TakesStep, NextStep, Ready, GoesOn, Ended};

use crate::{LINE, Step};

// Calls the step, if the output has room for what it may print.
#[inline(always)]
fn next<P: Copy, F: FnMut(P, &[u8], &mut [u8; LINE]) -> Step<P>>(
    step: &mut F,
    place: P,
    input: &[u8],
    out: &mut [u8],
) -> Option<Step<P>>
    requires { TakesStep F.FnMut step.old place input.now (take 65537 out.old) }
    ensures { NextStep F.FnMut step.old place input.now out.old step.new out.new result }
{
    let room = out.first_chunk_mut::<LINE>()?;
    Some(step(place, input, room))
}

// Why no other line is taken.
#[derive(Clone, Copy)]
pub(crate) enum End {
    // The output has no room for what a line may print.
    Full,
    // There is no whole line yet.
    Starved,
    // The last bytes are written.
    Stopped,
    // The next line is of another part.
    Left,
}

// Where the lines taken have come to: the place of the next line, how many bytes are consumed and
// how many written, and why no other is taken.
#[derive(Clone, Copy)]
pub(crate) struct Taken<P> {
    pub(crate) place: P,
    pub(crate) consumed: usize,
    pub(crate) written: usize,
    pub(crate) end: End,
}

// No other line is taken, for this reason.
#[inline(always)]
fn ended<P: Copy>(taken: Taken<P>, end: End) -> Taken<P>
    ensures { result ≡ record { place = taken.place; consumed = taken.consumed; written = taken.written; end = end } }
{
    Taken { end, ..taken }
}

// Takes lines as long as there is a whole one, and room for what it may print. The step answers for
// the line that is next at a place. In proofs, size says how many of the bytes at hand a place has
// read before: it makes what is left fall with each line, also where none of it is consumed.
#[tactic(auto, using(crate::proofs::Walks::walk_laws))]
#[inline(always)]
pub(crate) fn take_lines<P: Copy, F: FnMut(P, &[u8], &mut [u8; LINE]) -> Step<P>>(
    first: P,
    input: &[u8],
    out: &mut [u8],
    mut step: F,
) -> Taken<P>
    ghost size: { P → ℕ }
    requires first { Ready F.FnMut step first }
    requires goes_on { GoesOn F.FnMut size }
    ensures { Ended F.FnMut input.now step first out.old result out.new }
{
    let mut taken = Taken {
        place: first,
        consumed: 0,
        written: 0,
        end: End::Full,
    };
    while let Some(answer) = next(
        &mut step,
        taken.place,
        &input[taken.consumed..],
        &mut out[taken.written..],
    ) {
        match answer {
            Step::Starved => return ended(taken, End::Starved),
            Step::Leaves => return ended(taken, End::Left),
            Step::Stops(n) => {
                taken.written += n;
                return ended(taken, End::Stopped);
            }
            Step::Took {
                consumed,
                written,
                next,
            } => {
                taken.place = next;
                taken.consumed += consumed;
                taken.written += written;
            }
        }
    }
    taken
}
