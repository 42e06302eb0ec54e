// The element that a route yields (01, Records), and whether one is spoilt.
#![tactic(auto)]

ghost use Rattle.std.specs.Prelude.{◌≡◌};
ghost use Rattle.elem.specs.Element.{spoilt};

use network::{Asn, IpAddr, NetworkPrefix};

#[derive(Debug, Clone, Copy, PartialEq, Eq)]
pub enum Origin {
    IGP,
    EGP,
    INCOMPLETE,
}

// Its AS numbers are the first `count` of a list that is lent along with it.
#[derive(Debug, Clone, Copy, PartialEq)]
pub struct Element {
    pub announce: bool,
    pub timestamp: f64,
    pub peer_ip: IpAddr,
    pub peer_asn: Asn,
    pub prefix: NetworkPrefix,
    pub next_hop: IpAddr,
    pub count: usize,
    pub origin_asn: Option<Asn>,
    pub local_pref: Option<u32>,
    pub metric: Option<u32>,
    pub origin: Option<Origin>,
}

#[tactic(auto, unfolding(crate::specs::Element::spoilt))]
pub fn is_spoilt_element(e: Element, asns: &[u32]) -> bool
    ensures { result ≡ spoilt e asns.now }
{
    !network::is_valid_prefix(e.prefix)
        || !seconds::is_timestamp(e.timestamp)
        || asns.len() < e.count
}
