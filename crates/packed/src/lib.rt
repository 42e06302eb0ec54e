// The remembered prefix as numbers, for a loop that keeps it: an enum that holds a struct would be
// copied through memory at each turn.
#![tactic(auto)]

ghost use Rattle.std.specs.Prelude.{◌≡◌};
ghost use Rattle.plain_reader.specs.Rules.{replace};
ghost use Rattle.text_dump.specs.State.{plain};
ghost use Rattle.text_dump.specs.Rules.{text_of};
ghost use Rattle.text_dump.specs.declared.Remembered.TheVariants.{Valid};
ghost use Rattle.packed.specs.Packed.{prefix_in, remembered_in};

use network::{IpAddr, NetworkPrefix};
use text_dump::Remembered;
use text_dump_line::PrefixText;

// Stays numbers: an enum that holds the prefix is copied in other pieces than it was written
// in, which stalls the processor (docs/PERFORMANCE.md: -9 %).
// The kind: 0 nothing, 1 invalid text, 2 a prefix; then the version of its address, 4 or 6, the
// address in two halves, and its length.
#[derive(Clone, Copy)]
pub struct Packed {
    pub kind: u64,
    pub version: u64,
    pub upper: u64,
    pub lower: u64,
    pub len: u64,
}

fn no_prefix(kind: u64) -> Packed
    ensures { result ≡ record { kind = kind; version = 4; upper = 0; lower = 0; len = 0 } }
{
    Packed {
        kind,
        version: 4,
        upper: 0,
        lower: 0,
        len: 0,
    }
}

// Stays functions by name, and no From: pack_behind takes two values, so only four of the five
// could be one, and they read as one family.
#[tactic(auto, using(crate::proofs::PackedLaws::kept_laws))]
pub fn pack_prefix(p: NetworkPrefix) -> Packed
    ensures { remembered_in result ≡ Valid p }
{
    match p.addr {
        IpAddr::V4(n) => Packed {
            kind: 2,
            version: 4,
            upper: 0,
            lower: u64::from(n),
            len: u64::from(p.len),
        },
        IpAddr::V6(upper, lower) => Packed {
            kind: 2,
            version: 6,
            upper,
            lower,
            len: u64::from(p.len),
        },
    }
}

#[tactic(auto, unfolding(crate::specs::Packed::remembered_in))]
pub fn pack(m: Remembered) -> Packed
    ensures { remembered_in result ≡ m }
{
    match m {
        Remembered::Nothing => no_prefix(0),
        Remembered::Invalid => no_prefix(1),
        Remembered::Valid(p) => pack_prefix(p),
    }
}

pub fn prefix_of(k: Packed) -> NetworkPrefix
    ensures { result ≡ prefix_in k }
{
    let addr = if k.version == 6 {
        IpAddr::V6(k.upper, k.lower)
    } else {
        IpAddr::V4((k.lower % 4294967296) as u32)
    };
    NetworkPrefix {
        addr,
        len: (k.len % 256) as u8,
    }
}

#[tactic(auto, unfolding(crate::specs::Packed::remembered_in))]
pub fn unpack(k: Packed) -> Remembered
    ensures { result ≡ remembered_in k }
{
    match k.kind {
        0 => Remembered::Nothing,
        1 => Remembered::Invalid,
        _ => Remembered::Valid(prefix_of(k)),
    }
}

// Behind a route with that prefix text.
#[tactic(auto, unfolding(crate::specs::Packed::remembered_in))]
pub fn pack_behind(text: PrefixText, k: Packed) -> Packed
    ensures { plain (remembered_in result) ≡ replace (text_of text) (plain (remembered_in k)) }
{
    match text {
        PrefixText::Blank => k,
        PrefixText::Invalid => no_prefix(1),
        PrefixText::Valid(p) => pack_prefix(p),
    }
}
