// IPv6 addresses, read from text as RFC 4291 and 01 say.
#![tactic(auto)]

ghost use Rattle.std.specs.Prelude.{◌≡◌, ◌-◌, true, false, Some, [], ◌∷◌, length, replicate};
ghost use Rattle.decimal.specs.Decimal.{below};
ghost use Rattle.ipv4.specs.Ipv4.{ipv4};
ghost use Rattle.ipv6.specs.Ipv6.{hex_digit, group as group_of, last_part, side as side_of, gap as gap_of, filled, as_ipv6, read_ipv6};
ghost use Rattle.ipv6.specs.Groups.{shifted, with_groups, whole_of};

// What a hexadecimal digit stands for.
#[tactic(auto, using(crate::proofs::Ipv6::from_0, crate::proofs::Ipv6::from_A, crate::proofs::Ipv6::from_a, crate::proofs::Ipv6::no_hex_digit))]
fn hex_digit(b: u8) -> Option<u8>
    ensures { result ≡ hex_digit b }
{
    match b {
        b'0'..=b'9' => Some(b - b'0'),
        b'A'..=b'F' => Some(b - b'A' + 10),
        b'a'..=b'f' => Some(b - b'a' + 10),
        _ => None,
    }
}

#[tactic(auto, using(crate::proofs::Ipv6::group_empty, crate::proofs::Ipv6::group_long, crate::proofs::Ipv6::group_from, crate::proofs::Ipv6::group_whole, crate::proofs::Ipv6::group_stop, crate::proofs::Ipv6::group_more, crate::proofs::Ipv6::digit_small, crate::proofs::Ipv6::hex_room, crate::proofs::Ipv6::hex_room_for, crate::proofs::Ipv6::hex_grows))]
fn group(p: &[u8]) -> Option<u16>
    ensures { result ≡ group_of p.now }
{
    if p.is_empty() || 4 < p.len() {
        return None;
    }
    let mut v: u16 = 0;
    for b in p {
        let d = hex_digit(*b)?;
        v = v * 16 + u16::from(d);
    }
    Some(v)
}

// How many groups are read, and the two halves that they make.
#[derive(Clone, Copy)]
struct Groups {
    n: usize,
    upper: u64,
    lower: u64,
}

const NO_GROUPS: Groups = Groups {
    n: 0,
    upper: 0,
    lower: 0,
};

// One group more in a half; what does not fit falls out at the top.
fn shifted(x: u64, g: u16) -> u64
    ensures { result ≡ shifted x g }
{
    x % 0x1_0000_0000_0000 * 0x1_0000 + u64::from(g)
}

impl Groups {
    // One group more; None where there are eight.
    #[tactic(auto, using(crate::proofs::Ipv6::push_full, crate::proofs::Ipv6::push_upper, crate::proofs::Ipv6::push_lower))]
    fn push(self, g: u16) -> Option<Groups>
        ensures { result ≡ with_groups self (Some (g ∷ [])) }
    {
        if 7 < self.n {
            return None;
        }
        let n = self.n + 1;
        if self.n < 4 {
            Some(Groups {
                n,
                upper: shifted(self.upper, g),
                ..self
            })
        } else {
            Some(Groups {
                n,
                lower: shifted(self.lower, g),
                ..self
            })
        }
    }
}

// The place of the first "::".
#[tactic(auto, using(crate::proofs::Ipv6::gap_found))]
fn gap(s: &[u8]) -> Option<usize>
    ensures { result ≡ below (length s.now) (Some (gap_of s.now)) }
{
    scan::find(s, b"::")
}

// The last part of a side: a group, or where that is allowed an IPv4 address.
// Stays a bool, handed on by `side`: it is tested here alone, so that a closure or a type for each
// way would stand for one `if`.
#[tactic(auto, using(crate::proofs::Sides::part_group, crate::proofs::Sides::part_bare, crate::proofs::Sides::part_none, crate::proofs::Sides::part_crowded, crate::proofs::Sides::part_dotted))]
fn last_part(t: &[u8], dotted: bool, r: Groups) -> Option<Groups>
    ensures { result ≡ with_groups r (last_part dotted (group_of t.now) (ipv4 t.now)) }
{
    if let Some(g) = group(t) {
        return r.push(g);
    }
    if !dotted {
        return None;
    }
    let a = ipv4::read_ipv4(t)?;
    r.push((a / 65536) as u16)?.push((a % 65536) as u16)
}

// The groups of s after those of `start`, at most eight in all.
#[tactic(auto, using(crate::proofs::Sides::side_empty))]
fn side(s: &[u8], dotted: bool, start: Groups) -> Option<Groups>
    ensures { result ≡ with_groups start (side_of dotted s.now) }
{
    if s.is_empty() {
        return Some(start);
    }
    // A part is read once the next one is there, since the last may be an IPv4 address.
    let mut parts = s.split(|b| *b == b':');
    let mut last = parts.next()?;
    let mut r = start;
    for part in parts {
        r = r.push(group(last)?)?;
        last = part;
    }
    last_part(last, dotted, r)
}

// Zero groups until there are m.
#[tactic(auto, using(crate::proofs::Sides::fill_full, crate::proofs::Sides::fill_end))]
fn fill(start: Groups, m: usize) -> Option<Groups>
    ensures { result ≡ with_groups start (Some (replicate (m - start.n) 0)) }
{
    let mut r = start;
    for _n in start.n..m {
        r = r.push(0)?;
    }
    Some(r)
}

#[tactic(auto, using(crate::proofs::Sides::whole_yes, crate::proofs::Sides::whole_no))]
fn whole(r: Groups) -> Option<(u64, u64)>
    ensures { result ≡ whole_of r }
{
    (r.n == 8).then_some((r.upper, r.lower))
}

// Left and right of "::", with the zero groups that it stands for. The right side is read once for
// its count.
#[tactic(auto, using(crate::proofs::Sides::around_left, crate::proofs::Sides::around_right, crate::proofs::Sides::count_fits, crate::proofs::Sides::around_many, crate::proofs::Sides::around_unfilled, crate::proofs::Sides::around_over, crate::proofs::Sides::around_whole))]
fn around(left: &[u8], right: &[u8]) -> Option<(u64, u64)>
    ensures { result ≡ as_ipv6 (filled (side_of false left.now) (side_of true right.now)) }
{
    let l = side(left, false, NO_GROUPS)?;
    let r = side(right, true, NO_GROUPS)?;
    if 7 < l.n + r.n {
        return None;
    }
    whole(side(right, true, fill(l, 8 - r.n)?)?)
}

#[tactic(auto, using(crate::proofs::Ipv6::gap_room, crate::proofs::Sides::gap_text, crate::proofs::Sides::plain_none, crate::proofs::Sides::plain_whole))]
pub fn read_ipv6(s: &[u8]) -> Option<(u64, u64)>
    ensures { result ≡ read_ipv6 s.now }
{
    match gap(s) {
        Some(k) => around(&s[..k], &s[k + 2..]),
        None => whole(side(s, true, NO_GROUPS)?),
    }
}
