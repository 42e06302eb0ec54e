// The calls that collector_c exports to other languages: numbers and byte slices alone. State and
// element cross as bytes of fixed lengths (docs/LAYOUT.md).
// Stays numbers, what the calls answer: the C interface has no enums of ours (docs/LAYOUT.md).
#![tactic(auto)]

ghost use Rattle.std.specs.Prelude.{is_some, ◌≡◌, cond, ◌&&◌, ◌++◌, ◌≤◌, None, length, leb, take, drop};
ghost use Rattle.output.specs.Output.{front};
ghost use Rattle.text_dump_header.specs.Header.{header};
ghost use Rattle.text_dump_header.specs.Detect.{detect};
ghost use Rattle.little.specs.Little.{bytes_of, words_in};
ghost use Rattle.codec.specs.Words.{cursor_words};
ghost use Rattle.codec.specs.Spelling.{state_but_time};
ghost use Rattle.collector.specs.Bytes.{state_bytes, element_bytes, state_in};
ghost use Rattle.collector.specs.Exports.{line_at_fault, open_left, turn_left, left, next_left};

use elem::Element;
use text_dump::State;
use text_dump_header::HeaderError;

const STATE_LEN: usize = 128;

const ELEMENT_LEN: usize = 176;

// Where in a state the remembered prefix and, behind it, the position stand.
const CURSOR: usize = 80;

const POSITION: usize = 120;

#[tactic(auto, unfolding(crate::specs::Bytes::state_in))]
fn holds_state(state: &[u8]) -> bool
    ensures { result ≡ leb 128 (length state.now) && is_some (state_in state.now) }
{
    let mut words = [0; 16];
    little::get_words(state, &mut words) && codec::is_state(&words)
}

// With any bits as its timestamp: they are left to next, which refuses a state whose timestamp is
// none, as it refuses bytes that spell no state.
fn get_state(state: &[u8]) -> Option<State>
    ensures { result ≡ cond (leb 128 (length state.now)) (state_but_time (words_in 16 state.now)) None }
{
    let mut words = [0; 16];
    if !little::get_words(state, &mut words) {
        return None;
    }
    codec::state_but_time(&words)
}

#[tactic(auto, unfolding(crate::specs::Bytes::state_bytes))]
fn put_state(s: State, state: &mut [u8])
    ensures { state.new ≡ front (state_bytes s) state.old }
{
    let _ = little::put_words(&codec::state_words(s), state);
}

// All that next can change of a state that the bytes spell.
#[tactic(auto, using(crate::proofs::Helpers::cursor_put))]
fn put_cursor(s: State, state: &mut [u8])
    requires { 128 ≤ length state.old }
    ensures { state.new ≡ take 80 state.old ++ front (bytes_of (cursor_words s.remembered s.position)) (drop 80 state.old) }
{
    let words = codec::cursor_words(s.remembered, s.position);
    let _ = little::put_words(&words, &mut state[CURSOR..]);
}

#[tactic(auto, unfolding(crate::specs::Bytes::element_bytes))]
fn put_element(e: Element, element: &mut [u8])
    ensures { element.new ≡ front (element_bytes e) element.old }
{
    let _ = little::put_words(&codec::element_words(e), element);
}

// 1 for a table, else 0.
pub fn fernweeks_detect(bytes: &[u8]) -> u32
    ensures { result ≡ cond (detect bytes.now) 1 0 }
{
    u32::from(text_dump_header::detect_text_dump(bytes))
}

// The line at fault where opening answers 1, from 1; else 0.
pub fn fernweeks_line_at_fault(text: &[u8]) -> u64
    ensures { result ≡ line_at_fault (header text.now) }
{
    match text_dump_header::parse_header(text) {
        Ok(_) => 0,
        Err(HeaderError::Unreadable(n)) => n as u64,
    }
}

#[tactic(auto, using(crate::proofs::Calls::open_short, crate::proofs::Calls::open_refused))]
pub fn fernweeks_open(text: &[u8], timestamp: f64, state: &mut [u8]) -> u32
    ensures { (result, state.new) ≡ open_left text.now timestamp state.old }
{
    if state.len() < STATE_LEN {
        return 9;
    }
    match State::open(text, timestamp) {
        Ok(s) => {
            put_state(s, state);
            0
        }
        Err(error) => error.number(),
    }
}

#[tactic(auto, using(crate::proofs::Calls::next_short, crate::proofs::Calls::next_no_state))]
pub fn fernweeks_next(state: &mut [u8], part: &[u8], asns: &mut [u32], element: &mut [u8]) -> u32
    ensures { left result state.new asns.new element.new ≡ next_left state.old part.now asns.old element.old }
{
    if state.len() < STATE_LEN || element.len() < ELEMENT_LEN {
        return 9;
    }
    let Some(s) = get_state(state) else {
        return 5;
    };
    let (after, answer) = s.next(part, asns);
    match answer {
        Ok(Some(e)) => {
            put_cursor(after, state);
            put_element(e, element);
            0
        }
        Ok(None) => {
            put_cursor(after, state);
            255
        }
        Err(refusal) => refusal.number(),
    }
}

#[tactic(auto, using(crate::proofs::Calls::turn_short, crate::proofs::Calls::turn_no_state))]
pub fn fernweeks_turn(state: &mut [u8]) -> u32
    ensures { (result, state.new) ≡ turn_left state.old }
{
    if state.len() < STATE_LEN {
        return 9;
    }
    if !holds_state(state) {
        return 5;
    }
    // the position alone: all else is as it was
    let _ = little::put_words(&[0], &mut state[POSITION..]);
    0
}
