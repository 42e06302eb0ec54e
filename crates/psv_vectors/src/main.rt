// Runs the cases of `psv` (data/cases.txt) and prints a line for each group.
//
// A question is a call's name, the element (type, bits of the timestamp, peer and its AS, prefix
// and its length, next hop, AS numbers and their count, origin AS, origin, local preference,
// metric; addresses and AS numbers as bytes), and how many bytes are lent.
#![tactic(auto)]

use cases::{Answer, Program};
use elem::{Element, Origin};
use network::{Asn, IpAddr, NetworkPrefix};
use output::PutError;
use psv::ElementError;
use std::io;
use std::io::Write;

// The N bytes that hexadecimal digits say from a place on; 0 for those that are not there.
fn bytes_at<const N: usize>(hex: &[u8], at: usize) -> [u8; N] {
    let mut bytes = [0; N];
    cases::hex(cases::part(hex, at, hex.len()), &mut bytes);
    bytes
}

// Of 4 or of 16 bytes.
fn address(hex: &[u8]) -> IpAddr {
    if hex.len() / 2 == 4 {
        IpAddr::V4(u32::from_be_bytes(bytes_at(hex, 0)))
    } else {
        IpAddr::V6(
            u64::from_be_bytes(bytes_at(hex, 0)),
            u64::from_be_bytes(bytes_at(hex, 16)),
        )
    }
}

// No NaN can be made of bits; those of one stand for a fraction.
fn timestamp(bits: u64) -> f64 {
    cases::float(bits).unwrap_or(0.5)
}

fn low32(n: usize) -> u32 {
    (n % 0x1_0000_0000) as u32
}

fn low8(n: usize) -> u8 {
    (n % 256) as u8
}

fn origin(name: &[u8]) -> Option<Origin> {
    match name {
        b"i" => Some(Origin::IGP),
        b"e" => Some(Origin::EGP),
        b"?" => Some(Origin::INCOMPLETE),
        _ => None,
    }
}

fn prefix(line: &[u8]) -> NetworkPrefix {
    NetworkPrefix {
        addr: address(cases::field(line, 6)),
        len: low8(cases::number(line, 7)),
    }
}

fn element(line: &[u8]) -> Element {
    Element {
        announce: matches!(cases::field(line, 2), b"A"),
        timestamp: timestamp(cases::number(line, 3) as u64),
        peer_ip: address(cases::field(line, 4)),
        peer_asn: Asn(low32(cases::number(line, 5))),
        prefix: prefix(line),
        next_hop: address(cases::field(line, 8)),
        count: cases::number(line, 10),
        origin_asn: decimal::read_u32(cases::field(line, 11)).map(Asn),
        origin: origin(cases::field(line, 12)),
        local_pref: decimal::read_u32(cases::field(line, 13)),
        metric: decimal::read_u32(cases::field(line, 14)),
    }
}

// The answer, and all bytes that were lent.
fn put_printed(r: Result<usize, ElementError>, bytes: &[u8], out: &mut Answer) -> io::Result<()> {
    match r {
        Ok(n) => write!(out, "wrote {n} ")?,
        Err(ElementError::Spoilt) => write!(out, "refused 8 ")?,
        Err(ElementError::TooShort) => write!(out, "refused 9 ")?,
    }
    out.write_all(bytes)
}

struct PsvCases;

impl Program for PsvCases {
    const ANSWER_LEN: usize = 65536;

    fn answer(&self, line: &[u8], out: &mut Answer) -> io::Result<()> {
        let mut room = [b'.'; 16384];
        let call = cases::field(line, 1);
        if matches!(call, b"header") {
            let bytes = cases::first_mut(&mut room, cases::number(line, 2));
            let r = psv::get_psv_header(bytes).map_err(|PutError::TooShort| ElementError::TooShort);
            return put_printed(r, bytes, out);
        }
        let mut asn_bytes = [0; 4096];
        let mut numbers = [0; 1024];
        let (words, _) = cases::hex(cases::field(line, 9), &mut asn_bytes).as_chunks::<4>();
        for (place, word) in numbers.iter_mut().zip(words) {
            *place = u32::from_be_bytes(*word);
        }
        let asns = cases::first(&numbers, words.len());
        let bytes = cases::first_mut(&mut room, cases::number(line, 15));
        let e = element(line);
        let r = match call {
            b"display" => psv::display_element(e, asns, bytes),
            _ => psv::to_psv(e, asns, bytes),
        };
        put_printed(r, bytes, out)
    }
}

fn main(rt: HostRuntime) -> io::Result<()> {
    cases::run(&rt, "cases.txt", &PsvCases)
}
