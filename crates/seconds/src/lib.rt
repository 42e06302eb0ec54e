// The timestamp that state and element hold: an f64 that counts whole seconds from 1970, from the
// year 0 to the year 9999. Here a second is a u64 counted from the start of the year 0.
#![tactic(auto)]

ghost use Rattle.std.specs.Prelude.{◌≡◌, ◌≤◌, length};
ghost use Rattle.output.specs.Writing.{Writes};
ghost use Rattle.output.specs.Output.{front, answer};
ghost use Rattle.seconds.specs.Seconds.{whole_number, second_of, timestamp_of, is_timestamp, float_of_bits, timestamp_of_bits, timestamp_text};

use output::{PutError, Writer};

// The start of 1970.
const EPOCH: u64 = 62167219200;

// The last second of the year 9999, counted from 1970.
const LAST: u64 = 253402300799;

// The whole number that x is. Its float is made again and compared by its bits, so that -0.0 and
// what has a fraction differ.
fn whole_number(x: f64) -> Option<u64>
    ensures { result ≡ whole_number x }
{
    if x > -1.0 && x < 18446744073709551616.0 {
        let n = std::num::truncating_f64_to_u64(x);
        if n <= 9007199254740992 && x.to_bits() == (n as f64).to_bits() {
            return Some(n);
        }
    }
    None
}

// The second of a timestamp; None where t is none.
pub fn second_of(t: f64) -> Option<u64>
    ensures { result ≡ second_of t }
{
    if t < 0.0 {
        return EPOCH.checked_sub(whole_number(-t)?);
    }
    let n = whole_number(t)?;
    if n <= LAST { Some(EPOCH + n) } else { None }
}

pub fn is_timestamp(t: f64) -> bool
    ensures { result ≡ is_timestamp t }
{
    second_of(t).is_some()
}

// The timestamp of a second, exact for every second of the years 0 to 9999; beyond them the nearest
// float.
pub fn timestamp_of(second: u64) -> f64
    ensures { result ≡ timestamp_of second }
{
    if second < EPOCH {
        -std::num::nearest_u64_to_f64(EPOCH - second)
    } else {
        std::num::nearest_u64_to_f64(second - EPOCH)
    }
}

// The float whose bits these are; None for those of a NaN, which are not determined once they are a
// float.
#[tactic(auto, using(crate::proofs::Bits::of_number))]
pub fn float_of_bits(bits: u64) -> Option<f64>
    ensures { result ≡ float_of_bits bits }
{
    let nan = bits % 0x8000_0000_0000_0000 > 0x7ff0_0000_0000_0000;
    if nan {
        None
    } else {
        Some(f64::from_bits(bits))
    }
}

// The timestamp whose bits these are. They come from anywhere.
#[tactic(auto, using(crate::proofs::Bits::of_nan, crate::proofs::Bits::bits_none))]
pub fn timestamp_of_bits(bits: u64) -> Option<f64>
    ensures { result ≡ timestamp_of_bits bits }
{
    let t = float_of_bits(bits)?;
    second_of(t)?;
    Some(t)
}

// The timestamp of a second printed, as Rust's Display prints such an f64.
pub fn timestamp_len(second: u64) -> usize
    ensures { (result ≡ length (timestamp_text second)) × (result ≤ 21) }
{
    decimal_display::difference_len(second, EPOCH)
}

pub fn write_timestamp(second: u64, w: &mut Writer)
    ensures { Writes (timestamp_text second) w.old w.new }
{
    decimal_display::write_difference(second, EPOCH, w);
}

pub fn put_timestamp(second: u64, out: &mut [u8]) -> Result<usize, PutError>
    ensures { (result ≡ answer (timestamp_text second) out.old) × (out.new ≡ front (timestamp_text second) out.old) }
{
    let mut places = [0; 21];
    let mut w = Writer::new(&mut places);
    write_timestamp(second, &mut w);
    output::put(w.text(), out)
}
