// The reader and the plain reader side by side, for tests: each call is made on both, and what they
// leave is compared.
#![tactic(auto)]

ghost use Rattle.std.specs.Prelude.{◌≡◌};
ghost use Rattle.network.specs.declared.IpAddr.TheVariants.{V4};

use cases::Tally;
use columns::Columns;
use elem::Element;
use network::{Asn, IpAddr};
use plain_calls::{Given, Plain, Prefix, Refusal};
use std::{fmt, io};
use text_dump::{NextError, Remembered, State};

// What next answers, with the state that it leaves.
pub type Next = (State, Result<Option<Element>, NextError>);

// How many AS places are lent.
pub const PLACES: usize = 16;

// The bits of a float; none for those of a NaN, which are not determined.
fn bits(x: f64) -> Option<u64> {
    if x.is_nan() { None } else { Some(x.to_bits()) }
}

// Whether all fields are equal, the timestamps by their bits: a NaN is equal to a NaN, and -0.0 is
// not to 0.0.
fn equal_states(a: State, b: State) -> bool {
    let timestamp = 0.0;
    bits(a.timestamp) == bits(b.timestamp) && State { timestamp, ..a } == State { timestamp, ..b }
}

// The same of elements.
// Stays beside the states': a trait that sets the timestamp of both would be longer than the two.
fn equal_elements(a: Element, b: Element) -> bool {
    let timestamp = 0.0;
    bits(a.timestamp) == bits(b.timestamp)
        && Element { timestamp, ..a } == Element { timestamp, ..b }
}

// What next answered and left: the state and every place of the list.
#[derive(Clone, Copy, Debug)]
struct Left<'a> {
    answer: Result<Option<Element>, NextError>,
    state: State,
    asns: &'a [u32],
}

impl Left<'_> {
    fn of<'a>(next: Next, asns: &'a [u32]) -> Left<'a> {
        let (state, answer) = next;
        Left {
            answer,
            state,
            asns,
        }
    }

    // Whether both have the same element, with its AS numbers, or the same refusal.
    fn answers_as(self, other: Left) -> bool {
        match (self.answer, other.answer) {
            (Ok(Some(a)), Ok(Some(b))) => {
                equal_elements(a, b)
                    && cases::first(self.asns, a.count) == cases::first(other.asns, b.count)
            }
            (a, b) => a == b,
        }
    }
}

// The number of an answer: 0 an element, 255 End.
pub fn number(n: Next) -> usize {
    match n.1 {
        Ok(Some(_)) => 0,
        Ok(None) => 255,
        Err(refusal) => refusal.number() as usize,
    }
}

pub fn state_in(n: Next) -> State {
    n.0
}

// Whether two are the same; where they are not, both are printed.
fn shown<D: fmt::Debug + Copy>(rt: &impl Print, same: bool, got: D, want: D) -> io::Result<bool> {
    if !same {
        println!(rt; "  is: {got:?}")?;
        println!(rt; "not: {want:?}")?;
    }
    Ok(same)
}

// Whether next gave this element, or this refusal.
pub fn same_answer(
    rt: &impl Print,
    got: Next,
    asns: &[u32],
    want: Next,
    want_asns: &[u32],
) -> io::Result<bool> {
    let got = Left::of(got, asns);
    let want = Left::of(want, want_asns);
    shown(rt, got.answers_as(want), got, want)
}

// Whether next answered as it should, with every field and every place.
pub fn same_next(
    rt: &impl Print,
    got: Next,
    asns: &[u32],
    want: Next,
    want_asns: &[u32],
) -> io::Result<bool> {
    let got = Left::of(got, asns);
    let want = Left::of(want, want_asns);
    let same = got.answers_as(want) && equal_states(got.state, want.state) && got.asns == want.asns;
    shown(rt, same, got, want)
}

pub fn same_state(rt: &impl Print, got: State, want: State) -> io::Result<bool> {
    shown(rt, equal_states(got, want), got, want)
}

// What a listing's header says in these programs, with these columns, and a timestamp.
pub fn given(columns: Columns, timestamp: f64) -> Given
    ensures passed_on { (result.columns ≡ columns) × (result.timestamp ≡ timestamp) }
    ensures peer { (result.peer_ip ≡ V4 3221226238) × (result.peer_asn.0 ≡ 64500) }
{
    Given {
        columns,
        peer_ip: IpAddr::V4(3221226238),
        peer_asn: Asn(64500),
        timestamp,
    }
}

// The state that the plain reader's asks for, where its part begins at `base` in the text that next
// is lent.
fn state_of(given: Given, plain: Plain, base: usize) -> State {
    State {
        columns: given.columns,
        peer_ip: given.peer_ip,
        peer_asn: given.peer_asn,
        timestamp: given.timestamp,
        remembered: match plain.prefix {
            Prefix::Nothing => Remembered::Nothing,
            Prefix::Invalid => Remembered::Invalid,
            Prefix::Valid(p) => Remembered::Valid(p),
        },
        position: base.wrapping_add(plain.taken),
    }
}

// The refusal that the plain reader's asks for.
fn refusal_of(refusal: Refusal) -> NextError {
    match refusal {
        Refusal::Unreadable => NextError::Unreadable,
        Refusal::TooFewPlaces => NextError::TooFewPlaces,
    }
}

// The AS places, and what they hold at first.
pub fn places() -> [u32; PLACES] {
    [305419896; PLACES]
}

// Next with the first k places of the list.
pub fn next_with(state: State, part: &[u8], k: usize, asns: &mut [u32]) -> Next {
    state.next(part, cases::first_mut(asns, k))
}

// A case more in a group, which was right or not.
pub fn count(rt: &impl Print, t: Tally, right: bool) -> io::Result<Tally> {
    let t = t.counted(right);
    if !right {
        println!(rt; "mismatch: case {} of the group", t.cases)?;
    }
    Ok(t)
}

// Both readers after a call, and the AS places of each.
#[derive(Clone, Copy)]
pub struct Both {
    pub given: Given,
    pub state: State,
    pub plain: Plain,
    pub asns: [u32; PLACES],
    pub plain_asns: [u32; PLACES],
    // Whether the call was a next that gave no element.
    pub stopped: bool,
    // Whether it did what it had to.
    pub right: bool,
}

// Opening, which gave this state, with a body that begins at `base`; or a state put together by
// hand.
pub fn begin(
    rt: &impl Print,
    state: State,
    given: Given,
    base: usize,
    prefix: Prefix,
) -> io::Result<Both> {
    let plain = Plain { taken: 0, prefix };
    Ok(Both {
        given,
        state,
        plain,
        asns: places(),
        plain_asns: places(),
        stopped: false,
        right: same_state(rt, state, state_of(given, plain, base))?,
    })
}

// Next with k places, on a part whose body begins at `base`.
pub fn next(rt: &impl Print, b: Both, part: &[u8], base: usize, k: usize) -> io::Result<Both> {
    let Both {
        given,
        state,
        mut plain,
        mut asns,
        mut plain_asns,
        ..
    } = b;
    let body = cases::part(part, base, part.len());
    let answer = plain_calls::next(
        given,
        &mut plain,
        body,
        cases::first_mut(&mut plain_asns, k),
    );
    let want = (state_of(given, plain, base), answer.map_err(refusal_of));
    let got = next_with(state, part, k, &mut asns);
    Ok(Both {
        given,
        state: state_in(got),
        plain,
        asns,
        plain_asns,
        stopped: number(got) != 0,
        right: same_next(rt, got, &asns, want, &plain_asns)?,
    })
}

// Turn to the next part.
pub fn turn(rt: &impl Print, b: Both) -> io::Result<Both> {
    let state = b.state.turn();
    let plain = Plain {
        taken: 0,
        ..b.plain
    };
    Ok(Both {
        state,
        plain,
        stopped: false,
        right: same_state(rt, state, state_of(b.given, plain, 0))?,
        ..b
    })
}
