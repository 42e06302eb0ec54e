// The reading state and the element as words of 64 bits, a slot for each field (docs/LAYOUT.md).
#![tactic(auto)]

ghost use Rattle.std.specs.Prelude.{is_some, ◌≡◌};
ghost use Rattle.std.specs.Float.{binary64};
ghost use Rattle.std.specs.Float.Ieee.{to_bits, of_bits};
ghost use Rattle.codec.specs.Words.{address_words, remembered_words, known, asn_number, number_of, origin_number, state_words, cursor_words, element_words};
ghost use Rattle.codec.specs.Spelling.{address_of, remembered_of, columns_of, state_but_time, state_of};

use columns::Columns;
use elem::{Element, Origin};
use network::{Asn, IpAddr, NetworkPrefix};
use text_dump::{Remembered, State};

// Stays a number, the kind of an address and of what is remembered: the C interface has no enums of
// ours (docs/LAYOUT.md).
#[derive(Clone, Copy)]
struct AddressWords {
    kind: u64,
    upper: u64,
    lower: u64,
}

#[derive(Clone, Copy)]
struct RememberedWords {
    kind: u64,
    addr: AddressWords,
    len: u64,
}

fn address_words(addr: IpAddr) -> AddressWords
    ensures { result ≡ address_words addr }
{
    match addr {
        IpAddr::V4(n) => AddressWords {
            kind: 0,
            upper: 0,
            lower: u64::from(n),
        },
        IpAddr::V6(upper, lower) => AddressWords {
            kind: 1,
            upper,
            lower,
        },
    }
}

fn unused(kind: u64) -> RememberedWords
    ensures { result ≡ record { kind = kind; addr = record { kind = 0; upper = 0; lower = 0 }; len = 0 } }
{
    let addr = AddressWords {
        kind: 0,
        upper: 0,
        lower: 0,
    };
    RememberedWords { kind, addr, len: 0 }
}

fn remembered_words(m: Remembered) -> RememberedWords
    ensures { result ≡ remembered_words m }
{
    match m {
        Remembered::Nothing => unused(0),
        Remembered::Invalid => unused(1),
        Remembered::Valid(p) => {
            let addr = address_words(p.addr);
            RememberedWords {
                kind: 2,
                addr,
                len: u64::from(p.len),
            }
        }
    }
}

// The first word of what may be missing; the second is the number itself, or 0.
#[tactic(auto, unfolding(crate::specs::Words::known))]
fn known(n: Option<u64>) -> u64
    ensures { result ≡ known n }
{
    u64::from(n.is_some())
}

fn asn_number(asn: Option<Asn>) -> Option<u64>
    ensures { result ≡ asn_number asn }
{
    asn.map(|a| u64::from(a.0))
}

// A match with no None in it, so that it is compiled without a branch: which origin comes can't be
// predicted.
fn number_of(origin: Origin) -> u64
    ensures { result ≡ number_of origin }
{
    match origin {
        Origin::IGP => 0,
        Origin::EGP => 1,
        Origin::INCOMPLETE => 2,
    }
}

fn origin_number(o: Option<Origin>) -> Option<u64>
    ensures { result ≡ origin_number o }
{
    o.map(|origin| number_of(origin))
}

fn widened(n: Option<u32>) -> Option<u64>
    ensures { result ≡ n }
{
    n.map(u64::from)
}

// The bits of a NaN are not determined, so they are written here.
fn bits_of(t: f64) -> u64
    ensures { result ≡ to_bits binary64 t }
{
    if t == t {
        t.to_bits()
    } else {
        0x7ff8_0000_0000_0000
    }
}

pub fn state_words(s: State) -> [u64; 16]
    ensures { result ≡ state_words s }
{
    let c = s.columns;
    let peer = address_words(s.peer_ip);
    let bits = bits_of(s.timestamp);
    let m = remembered_words(s.remembered);
    [
        c.next_hop as u64,
        c.metric as u64,
        c.local_pref as u64,
        c.weight as u64,
        c.path as u64,
        peer.kind,
        peer.upper,
        peer.lower,
        s.peer_asn.0 as u64,
        bits,
        m.kind,
        m.addr.kind,
        m.addr.upper,
        m.addr.lower,
        m.len,
        s.position as u64,
    ]
}

// The last six of a state's words: all that changes while a table is read.
pub fn cursor_words(remembered: Remembered, position: usize) -> [u64; 6]
    ensures { result ≡ cursor_words remembered position }
{
    let words = remembered_words(remembered);
    [
        words.kind,
        words.addr.kind,
        words.addr.upper,
        words.addr.lower,
        words.len,
        position as u64,
    ]
}

pub fn element_words(e: Element) -> [u64; 22]
    ensures { result ≡ element_words e }
{
    let bits = bits_of(e.timestamp);
    let peer = address_words(e.peer_ip);
    let prefix = address_words(e.prefix.addr);
    let hop = address_words(e.next_hop);
    let origin_as = asn_number(e.origin_asn);
    let by = origin_number(e.origin);
    let pref = widened(e.local_pref);
    let med = widened(e.metric);
    [
        e.announce as u64,
        bits,
        peer.kind,
        peer.upper,
        peer.lower,
        e.peer_asn.0 as u64,
        prefix.kind,
        prefix.upper,
        prefix.lower,
        e.prefix.len as u64,
        hop.kind,
        hop.upper,
        hop.lower,
        e.count as u64,
        known(origin_as),
        origin_as.unwrap_or(0),
        known(by),
        by.unwrap_or(0),
        known(pref),
        pref.unwrap_or(0),
        known(med),
        med.unwrap_or(0),
    ]
}

#[tactic(auto, using(crate::proofs::Reading::v6_told, crate::proofs::Reading::v4_fits, crate::proofs::Reading::v4_told, crate::proofs::Reading::no_address))]
fn address_of(w: AddressWords) -> Option<IpAddr>
    ensures { result ≡ address_of w.kind w.upper w.lower }
{
    if w.kind == 1 {
        return Some(IpAddr::V6(w.upper, w.lower));
    }
    if w.kind == 0 && w.upper == 0 && w.lower <= 0xffff_ffff {
        return Some(IpAddr::V4(w.lower as u32));
    }
    None
}

#[tactic(auto, using(crate::proofs::Reading::no_prefix, crate::proofs::Reading::too_long, crate::proofs::Reading::valid_told, crate::proofs::Reading::in_use, crate::proofs::Reading::nothing_told, crate::proofs::Reading::invalid_told, crate::proofs::Reading::no_kind))]
fn remembered_of(w: RememberedWords) -> Option<Remembered>
    ensures { result ≡ remembered_of w.kind w.addr.kind w.addr.upper w.addr.lower w.len }
{
    if w.kind == 2 {
        let addr = address_of(w.addr)?;
        let len = u8::try_from(w.len).ok()?;
        return Some(Remembered::Valid(NetworkPrefix { addr, len }));
    }
    if !(w.addr.kind == 0 && w.addr.upper == 0 && w.addr.lower == 0 && w.len == 0) {
        return None;
    }
    match w.kind {
        0 => Some(Remembered::Nothing),
        1 => Some(Remembered::Invalid),
        _ => None,
    }
}

// The float of any bits. What becomes of a NaN's is not determined, so the NaN is made here.
fn float_of(bits: u64) -> f64
    ensures { result ≡ of_bits binary64 bits }
{
    seconds::float_of_bits(bits).unwrap_or(0.0 / 0.0)
}

// The columns of a state, its first five words: any numbers spell some.
fn columns_of(w: &[u64; 16]) -> Columns
    ensures { result ≡ columns_of w.now }
{
    let [next_hop, metric, local_pref, weight, path, ..] = *w;
    Columns {
        next_hop: next_hop as usize,
        metric: metric as usize,
        local_pref: local_pref as usize,
        weight: weight as usize,
        path: path as usize,
    }
}

// The state that the words spell with any bits as its timestamp; None where they spell none. It is
// for next, which refuses what is no timestamp itself.
#[tactic(auto, using(crate::proofs::Reading::no_peer, crate::proofs::Reading::no_asn, crate::proofs::Reading::no_memory, crate::proofs::Reading::state_told))]
pub fn state_but_time(w: &[u64; 16]) -> Option<State>
    ensures { result ≡ state_but_time w.now }
{
    let [
        ..,
        peer_kind,
        peer_upper,
        peer_lower,
        peer_asn,
        bits,
        kind,
        prefix_kind,
        prefix_upper,
        prefix_lower,
        len,
        position,
    ] = *w;
    let peer = AddressWords {
        kind: peer_kind,
        upper: peer_upper,
        lower: peer_lower,
    };
    let peer_ip = address_of(peer)?;
    let peer_asn = Asn(u32::try_from(peer_asn).ok()?);
    let timestamp = float_of(bits);
    let addr = AddressWords {
        kind: prefix_kind,
        upper: prefix_upper,
        lower: prefix_lower,
    };
    let remembered = remembered_of(RememberedWords { kind, addr, len })?;
    Some(State {
        columns: columns_of(w),
        peer_ip,
        peer_asn,
        timestamp,
        remembered,
        position: position as usize,
    })
}

// Whether the words spell a state.
#[tactic(auto, using(crate::proofs::Reading::timed_tested, crate::proofs::Reading::untimed_tested))]
pub fn is_state(w: &[u64; 16]) -> bool
    ensures { result ≡ is_some (state_of w.now) }
{
    seconds::timestamp_of_bits(w[9]).is_some() && state_but_time(w).is_some()
}
