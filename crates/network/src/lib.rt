// Addresses and prefixes: their types, and reading them from text as 01 says.
#![tactic(auto)]

ghost use Rattle.std.specs.Prelude.{◌≡◌, ◌≤◌, Some, length};
ghost use Rattle.decimal.specs.Decimal.{below};
ghost use Rattle.network.specs.Address.{read_address};
ghost use Rattle.network.specs.Prefix.{last_place, length_of, length_for, read_prefix, valid_prefix};

#[derive(Debug, Clone, Copy, PartialEq, Eq)]
pub struct Asn(pub u32);

// The address as numbers, upper half first.
#[derive(Debug, Clone, Copy, PartialEq, Eq)]
pub enum IpAddr {
    V4(u32),
    V6(u64, u64),
}

#[derive(Debug, Clone, Copy, PartialEq, Eq)]
pub struct NetworkPrefix {
    pub addr: IpAddr,
    pub len: u8,
}

// A length that the address can have.
#[tactic(auto, using(crate::proofs::Reading::valid_v4, crate::proofs::Reading::valid_v6))]
pub fn is_valid_prefix(p: NetworkPrefix) -> bool
    ensures { result ≡ valid_prefix p }
{
    match p.addr {
        IpAddr::V4(_) => p.len <= 32,
        IpAddr::V6(_, _) => p.len <= 128,
    }
}

#[tactic(auto, using(crate::proofs::Reading::address_v4, crate::proofs::Reading::address_none, crate::proofs::Reading::address_v6))]
pub fn read_address(s: &[u8]) -> Option<IpAddr>
    ensures { result ≡ read_address s.now }
{
    if let Some(n) = ipv4::read_ipv4(s) {
        return Some(IpAddr::V4(n));
    }
    let (upper, lower) = ipv6::read_ipv6(s)?;
    Some(IpAddr::V6(upper, lower))
}

// At most `width` digits, at least one, and at most the number `most`.
#[tactic(auto, using(crate::proofs::Reading::length_long, crate::proofs::Reading::length_none, crate::proofs::Reading::length_over, crate::proofs::Reading::length_some))]
fn read_length(t: &[u8], width: usize, most: u64) -> Option<u8>
    requires { most ≤ 255 }
    ensures { result ≡ length_of width most t.now }
{
    if width < t.len() {
        return None;
    }
    let n = decimal::read_digits(t)?;
    if n <= most { Some(n as u8) } else { None }
}

#[tactic(auto, using(crate::proofs::Reading::length_v4, crate::proofs::Reading::length_v6))]
fn length_for(addr: IpAddr, t: &[u8]) -> Option<u8>
    ensures { result ≡ length_for addr t.now }
{
    match addr {
        IpAddr::V4(_) => read_length(t, 2, 32),
        IpAddr::V6(_, _) => read_length(t, 3, 128),
    }
}

// The place of the last '/': in a prefix it is one of the last four bytes.
fn last_slash(s: &[u8]) -> Option<usize>
    ensures { result ≡ below (length s.now) (Some (last_place 47 s.now)) }
{
    s.iter().rposition(|b| *b == b'/')
}

#[tactic(auto, using(ipv4::proofs::Parts::take_count, crate::proofs::Reading::slash_within, crate::proofs::Reading::prefix_bare, crate::proofs::Reading::prefix_no_address, crate::proofs::Reading::prefix_no_length, crate::proofs::Reading::prefix_some))]
pub fn read_prefix(s: &[u8]) -> Option<NetworkPrefix>
    ensures { result ≡ read_prefix s.now }
{
    let k = last_slash(s)?;
    let addr = read_address(&s[..k])?;
    let len = length_for(addr, &s[k + 1..])?;
    Some(NetworkPrefix { addr, len })
}
