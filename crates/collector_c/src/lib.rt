// The calls of collector, exported to C (include/fernweeks.h): numbers and byte slices alone, a
// slice being a pointer and a count. Each says again what the call of the same name says.
#![tactic(auto)]

ghost use Rattle.std.specs.Prelude.{◌≡◌, cond};
ghost use Rattle.text_dump_header.specs.Header.{header};
ghost use Rattle.text_dump_header.specs.Detect.{detect};
ghost use Rattle.collector.specs.Exports.{line_at_fault, open_left, turn_left, left, next_left};

// 1 for a table, else 0.
#[unsafe(no_mangle)]
pub extern "C" fn fernweeks_detect(bytes: &[u8]) -> u32
    ensures { result ≡ cond (detect bytes.now) 1 0 }
{
    collector::fernweeks_detect(bytes)
}

// The line at fault where opening answers 1, from 1; else 0.
#[unsafe(no_mangle)]
pub extern "C" fn fernweeks_line_at_fault(text: &[u8]) -> u64
    ensures { result ≡ line_at_fault (header text.now) }
{
    collector::fernweeks_line_at_fault(text)
}

#[unsafe(no_mangle)]
pub extern "C" fn fernweeks_open(text: &[u8], timestamp: f64, state: &mut [u8]) -> u32
    ensures { (result, state.new) ≡ open_left text.now timestamp state.old }
{
    collector::fernweeks_open(text, timestamp, state)
}

#[unsafe(no_mangle)]
pub extern "C" fn fernweeks_next(
    state: &mut [u8],
    part: &[u8],
    asns: &mut [u32],
    element: &mut [u8],
) -> u32
    ensures { left result state.new asns.new element.new ≡ next_left state.old part.now asns.old element.old }
{
    collector::fernweeks_next(state, part, asns, element)
}

#[unsafe(no_mangle)]
pub extern "C" fn fernweeks_turn(state: &mut [u8]) -> u32
    ensures { (result, state.new) ≡ turn_left state.old }
{
    collector::fernweeks_turn(state)
}
