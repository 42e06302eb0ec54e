// IPv4 addresses, read from text as 01 says.
#![tactic(auto)]

ghost use Rattle.std.specs.Prelude.{◌≡◌, ◌≤◌, length};
ghost use Rattle.decimal.specs.Decimal.{behind};
ghost use Rattle.ipv4.specs.Parts.{before};
ghost use Rattle.ipv4.specs.Ipv4.{first_octet, read_ipv4};

// v and n, if the n digits at the front of t, which make v, are an octet: one to three digits, no
// leading zero.
fn octet_of(t: &[u8], n: usize, v: u32) -> Option<(u32, usize)>
    requires { (length (before 46 t.now) ≡ n) × (n ≤ length t.now) × (behind 0 (before 46 t.now) ≡ Some v) × (v ≤ 255) }
    ensures { result ≡ first_octet t.now }
{
    match n {
        1 => Some((v, n)),
        2..=3 if t[0] != b'0' => Some((v, n)),
        _ => None,
    }
}

// The octet at the front of t, up to a '.' or the end, and its length.
#[tactic(auto, using(crate::proofs::Ipv4::dot_length, crate::proofs::Ipv4::dot_value, crate::proofs::Ipv4::last_length, crate::proofs::Ipv4::last_value, crate::proofs::Ipv4::more_length, crate::proofs::Ipv4::no_digit, crate::proofs::Ipv4::more_value, crate::proofs::Ipv4::over))]
fn octet(t: &[u8]) -> Option<(u32, usize)>
    ensures { result ≡ first_octet t.now }
{
    let mut v: u32 = 0;
    for (i, b) in t.iter().enumerate() {
        if *b == b'.' {
            return octet_of(t, i, v);
        }
        if !b.is_ascii_digit() {
            return None;
        }
        v = v * 10 + u32::from(*b - b'0');
        if 255 < v {
            return None;
        }
    }
    octet_of(t, t.len(), v)
}

#[tactic(auto, using(crate::proofs::Ipv4::four_start, crate::proofs::Ipv4::stop, crate::proofs::Ipv4::value_small, crate::proofs::Ipv4::too_few, crate::proofs::Ipv4::whole, crate::proofs::Ipv4::next, crate::proofs::Ipv4::too_many, crate::proofs::Ipv4::room, crate::proofs::Ipv4::room_for, crate::proofs::Ipv4::octets_grow))]
pub fn read_ipv4(s: &[u8]) -> Option<u32>
    ensures { result ≡ read_ipv4 s.now }
{
    let mut rest = s;
    let mut a: u32 = 0;
    for _k in 0..3usize {
        let (v, n) = octet(rest)?;
        a = a * 256 + v;
        rest = rest.get(n + 1..)?;
    }
    let (v, n) = octet(rest)?;
    if n < rest.len() {
        return None;
    }
    Some(a * 256 + v)
}
