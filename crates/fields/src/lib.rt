// What stands in a column, with spaces around it: mostly an IPv4 address, a prefix, a number, or
// nothing. These are read where they stand, with no trimming first; anything else is trimmed and
// read as any text is.
#![tactic(auto)]

ghost use Rattle.std.specs.Prelude.{◌≡◌, ◌+◌, ◌%◌, ◌≤◌, length, drop, ◌==◌, not, IfSome};
ghost use Rattle.std.specs.List.{position};
ghost use Rattle.utf8.specs.Utf8.{all};
ghost use Rattle.text.specs.White.{trim as trimOf};
ghost use Rattle.decimal.specs.Decimal.{read_u32};
ghost use Rattle.network.specs.Address.{read_address};
ghost use Rattle.network.specs.Prefix.{read_prefix};
ghost use Rattle.fields.specs.Fronts.{is_blank, OctetAt, AddressTo, BitsAt};

use network::{IpAddr, NetworkPrefix};
use scan::ByteTest;

struct Space;

impl ByteTest for Space {
    ghost use Rattle.fields.specs.Fronts.{is_blank};

    ghost passing = { is_blank };

    fn passes(b: u8) -> bool {
        b == b' '
    }
}

// The place of the first byte that is no space.
fn first_ink(s: &[u8]) -> Option<usize>
    ensures { result ≡ position (λ b. not (is_blank b)) s.now }
{
    s.iter().position(|b| *b != b' ')
}

// Whether all bytes from `at` on are spaces, with 8 passed over at a time: what is left of a column
// is mostly shorter than 16.
#[tactic(auto, using(crate::proofs::SpaceLaws::all_laws))]
fn all_spaces(s: &[u8], at: usize) -> bool
    requires { at ≤ length s.now }
    ensures { result ≡ all is_blank (drop at s.now) }
{
    let (eights, rest) = s[at..].as_chunks::<8>();
    scan::all_chunks_pass::<Space, 8>(eights) && first_ink(rest).is_none()
}

// A byte less 48, modulo 256: a digit is 0 to 9, any other byte is more.
fn digit(b: u8) -> u32
    ensures { ((result + 48) % 256 ≡ b) × (result ≤ 255) }
{
    u32::from(b.wrapping_sub(b'0'))
}

// One to three digits, at most 255, no leading zero: the octet, and the place after its digits.
// What stands after them is the caller's.
#[tactic(auto, using(crate::proofs::OctetLaws::octet_laws))]
fn octet_at(s: &[u8], at: usize) -> Option<(u32, usize)>
    requires { at + 3 ≤ length s.now }
    ensures { IfSome result (λ p. OctetAt s.now at p.1 p.0) }
{
    let a = digit(s[at]);
    if 9 < a {
        return None;
    }
    let b = digit(s[at + 1]);
    if 9 < b {
        return Some((a, at + 1));
    }
    if a == 0 {
        return None;
    }
    let c = digit(s[at + 2]);
    if 9 < c {
        return Some((a * 10 + b, at + 2));
    }
    let v = a * 100 + b * 10 + c;
    if 255 < v {
        return None;
    }
    Some((v, at + 3))
}

// The address at the front, and the place after it. It has at most 15 bytes: among 16 no end
// needs a test.
#[tactic(auto, using(crate::proofs::FrontLaws::front_laws))]
fn address_front(s: &[u8]) -> Option<(u32, usize)>
    ensures { IfSome result (λ p. AddressTo s.now p.1 p.0) }
{
    if s.len() < 16 {
        return None;
    }
    let mut at = 0;
    let mut a: u32 = 0;
    for _k in 0..3usize {
        let (v, e) = octet_at(s, at)?;
        if s[e] != b'.' {
            return None;
        }
        a = a * 256 + v;
        at = e + 1;
    }
    let (v, e) = octet_at(s, at)?;
    Some((a * 256 + v, e))
}

// '/' and one or two digits, at most 32, where there are three bytes: the length, and the place
// after its digits.
#[tactic(auto, using(crate::proofs::BitsLaws::bits_laws))]
fn bits_at(s: &[u8], at: usize) -> Option<(u8, usize)>
    requires { at ≤ length s.now }
    ensures { IfSome result (λ p. BitsAt s.now at p.1 p.0) }
{
    let [b'/', first, second, ..] = &s[at..] else {
        return None;
    };
    let a = digit(*first);
    if 9 < a {
        return None;
    }
    let b = digit(*second);
    if 9 < b {
        return Some((a as u8, at + 2));
    }
    let n = a * 10 + b;
    if 32 < n {
        return None;
    }
    Some((n as u8, at + 3))
}

// Whether there is nothing but white space. Most columns of prefixes begin with a visible byte,
// which one byte tells.
#[tactic(auto, using(crate::proofs::BlankLaws::blank_laws))]
pub fn is_blank(s: &[u8]) -> bool
    ensures { result ≡ (length (trimOf s.now) == 0) }
{
    if let [0x21..=0x7E, ..] = s {
        return false;
    }
    all_spaces(s, 0) || text::trim_start(s).is_empty()
}

// A number whose digits mostly stand at the front.
#[tactic(auto, using(crate::proofs::NumberLaws::number_laws))]
fn number_in(s: &[u8]) -> Option<u32>
    ensures { result ≡ read_u32 (trimOf s.now) }
{
    if let Some((v, n)) = decimal::digits_at(s, 0)
        && 0 < n
        && all_spaces(s, n)
    {
        return Some(v);
    }
    decimal::read_u32(text::trim(s))
}

// A number with spaces in front: one pass over them tells where it starts, or that the column is
// blank.
#[tactic(auto, using(crate::proofs::BlankLaws::later_laws))]
fn number_behind_spaces(s: &[u8]) -> Option<u32>
    ensures { result ≡ read_u32 (trimOf s.now) }
{
    let i = first_ink(s)?;
    number_in(&s[i..])
}

// Most columns of numbers are blank, and those of a listing's Metric and LocPrf have seven bytes:
// there one test tells.
#[tactic(auto, using(crate::proofs::BlankLaws::number_blank))]
pub fn read_number(s: &[u8]) -> Option<u32>
    ensures { result ≡ read_u32 (trimOf s.now) }
{
    if s.len() == 7 && scan::all_pass::<Space>(&s[..7]) {
        return None;
    }
    number_behind_spaces(s)
}

#[tactic(auto, using(crate::proofs::FieldLaws::address_laws))]
pub fn read_address(s: &[u8]) -> Option<IpAddr>
    ensures { result ≡ read_address (trimOf s.now) }
{
    if let Some((v, e)) = address_front(s)
        && all_spaces(s, e)
    {
        return Some(IpAddr::V4(v));
    }
    network::read_address(text::trim(s))
}

#[tactic(auto, using(crate::proofs::FieldLaws::prefix_laws))]
pub fn read_prefix(s: &[u8]) -> Option<NetworkPrefix>
    ensures { result ≡ read_prefix (trimOf s.now) }
{
    if let Some((v, e)) = address_front(s)
        && let Some((len, f)) = bits_at(s, e)
        && all_spaces(s, f)
    {
        return Some(NetworkPrefix {
            addr: IpAddr::V4(v),
            len,
        });
    }
    network::read_prefix(text::trim(s))
}
