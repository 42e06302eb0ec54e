// An element printed as the Rust prints it: the PSV line, its header, and Display.
#![tactic(auto)]

ghost use Rattle.std.specs.Prelude.{ℕ, List, ◌≡◌, ◌≤◌, ◌++◌, ◌+◌, ◌-◌, SomeIff, length, leb};
ghost use Rattle.output.specs.Output.{front, answer};
ghost use Rattle.output.specs.Writing.{Writes};
ghost use Rattle.seconds.specs.Seconds.{second_of};
ghost use Rattle.elem.specs.Element.{spoilt, numbers};
ghost use Rattle.psv.specs.Line.{header_text, type_text, time_text, sequence_text, asn_text, origin_text, number_text, psv_text, display_text, front_text, between_text, begin_text, attributes_of, attributes_text, tail_text, line_text, texts_line, Printed};

use elem::{Element, Origin};
use network::{Asn, IpAddr, NetworkPrefix};
use output::{PutError, Writer};

#[derive(Debug, Clone, Copy, PartialEq, Eq)]
pub enum ElementError {
    Spoilt,
    TooShort,
}

// What a line says of the table that its element comes from.
#[derive(Debug, Clone, Copy, PartialEq)]
pub struct Source {
    pub announce: bool,
    pub timestamp: f64,
    pub peer_ip: IpAddr,
    pub peer_asn: Asn,
}

// What a line says of a route after its path.
#[derive(Debug, Clone, Copy, PartialEq)]
pub struct Attributes {
    pub origin: Option<Origin>,
    pub next_hop: IpAddr,
    pub local_pref: Option<u32>,
    pub metric: Option<u32>,
}

impl From<Element> for Attributes {
    ghost from_gives = { λ e a. a ≡ attributes_of e };

    #[inline(always)]
    fn from(e: Element) -> Attributes {
        Attributes {
            origin: e.origin,
            next_hop: e.next_hop,
            local_pref: e.local_pref,
            metric: e.metric,
        }
    }
}

// What stands before the path.

fn write_type(announce: bool, w: &mut Writer)
    ensures { Writes (type_text announce) w.old w.new }
{
    if announce {
        w.byte(b'A');
    } else {
        w.byte(b'W');
    }
}

#[tactic(auto, unfolding(crate::specs::Line::time_text))]
fn write_time(timestamp: f64, w: &mut Writer)
    ensures { Writes (time_text (second_of timestamp)) w.old w.new }
{
    if let Some(second) = seconds::second_of(timestamp) {
        seconds::write_timestamp(second, w);
    }
}

fn write_front(source: Source, w: &mut Writer)
    ensures { Writes (front_text source.announce source.timestamp source.peer_ip source.peer_asn) w.old w.new }
{
    write_type(source.announce, w);
    w.byte(b'|');
    write_time(source.timestamp, w);
    w.byte(b'|');
    network_display::write_address(source.peer_ip, w);
    w.byte(b'|');
    decimal_display::write_u32(source.peer_asn.0, w);
}

// The field of the prefix, with the bars around it: at most 68 bytes.
pub fn write_between(prefix: NetworkPrefix, w: &mut Writer)
    ensures { Writes (between_text prefix) w.old w.new }
{
    w.byte(b'|');
    network_display::write_prefix(prefix, w);
    w.byte(b'|');
}

fn write_begin(e: Element, w: &mut Writer)
    ensures { Writes (begin_text e) w.old w.new }
{
    let source = Source {
        announce: e.announce,
        timestamp: e.timestamp,
        peer_ip: e.peer_ip,
        peer_asn: e.peer_asn,
    };
    write_front(source, w);
    write_between(e.prefix, w);
}

// What stands after the path. It is inlined where it is printed, so that the writer stays in
// registers.

#[tactic(auto, unfolding(crate::specs::Line::number_text))]
#[inline(always)]
fn write_number(number: Option<u32>, w: &mut Writer)
    ensures { Writes (number_text number) w.old w.new }
{
    if let Some(n) = number {
        decimal_display::write_u32(n, w);
    }
}

#[tactic(auto, unfolding(crate::specs::Line::origin_text))]
#[inline(always)]
fn write_origin(origin: Option<Origin>, w: &mut Writer)
    ensures { Writes (origin_text origin) w.old w.new }
{
    match origin {
        Some(Origin::IGP) => w.bytes(b"IGP"),
        Some(Origin::EGP) => w.bytes(b"EGP"),
        Some(Origin::INCOMPLETE) => w.bytes(b"INCOMPLETE"),
        None => {}
    }
}

#[inline(always)]
fn write_attributes(a: Attributes, w: &mut Writer)
    ensures { Writes (attributes_text a) w.old w.new }
{
    w.byte(b'|');
    write_origin(a.origin, w);
    w.byte(b'|');
    network_display::write_address(a.next_hop, w);
    w.byte(b'|');
    write_number(a.local_pref, w);
    w.byte(b'|');
    write_number(a.metric, w);
    w.bytes(b"||false||");
}

// The tail of Display's line, and to_psv's.
fn write_short_tail(e: Element, w: &mut Writer)
    ensures { Writes (attributes_text (attributes_of e)) w.old w.new }
{
    write_attributes(Attributes::from(e), w);
}

fn write_tail(e: Element, w: &mut Writer)
    ensures { Writes (tail_text e) w.old w.new }
{
    w.byte(b'|');
    write_number(e.origin_asn.map(|asn| asn.0), w);
    write_attributes(Attributes::from(e), w);
    w.byte(b'|');
}

// The line.

// Whether the path has room. Its numbers may be too many to add their lengths up.
fn has_room(numbers: &[u32], room: usize) -> bool
    ensures { result ≡ leb (length (sequence_text numbers.now)) room }
{
    // Most paths have: a number and its space are at most 21 bytes.
    let surely = numbers.len() <= room / 21;
    if surely {
        return true;
    }
    let Some((first, rest)) = numbers.split_first() else {
        return true;
    };
    let Some(mut left) = room.checked_sub(decimal_display::decimal_len(u64::from(*first))) else {
        return false;
    };
    for number in rest {
        let n = 1 + decimal_display::decimal_len(u64::from(*number));
        let Some(after) = left.checked_sub(n) else {
            return false;
        };
        left = after;
    }
    true
}

// The line that ends so: what stands before its path has at most 158 bytes.
fn put_line(e: Element, asns: &[u32], tail: &[u8], out: &mut [u8]) -> Result<usize, ElementError>
    ensures { Printed (spoilt e asns.now) (line_text tail.now e asns.now) out.old result out.new }
{
    if elem::is_spoilt_element(e, asns) {
        return Err(ElementError::Spoilt);
    }
    let mut places = [0; 158];
    let mut begin = Writer::new(&mut places);
    write_begin(e, &mut begin);
    let begin = begin.text();
    let numbers = &asns[..e.count];
    let ends = begin.len() + tail.len();
    let room = out.len().checked_sub(ends).ok_or(ElementError::TooShort)?;
    if !has_room(numbers, room) {
        return Err(ElementError::TooShort);
    }
    let mut w = Writer::new(out);
    w.bytes(begin);
    aspath_display::write_numbers(numbers, b' ', &mut w);
    w.bytes(tail);
    Ok(w.at)
}

// The line whose tail `write` writes, of at most 130 bytes.
#[inline(always)]
fn put_ended<F: FnOnce(Element, &mut Writer)>(
    write: F,
    e: Element,
    asns: &[u32],
    out: &mut [u8],
) -> Result<usize, ElementError>
    requires { F.IsAlwaysCallable write }
    ensures { (t : List ℕ) → length t ≤ 130 → ((v : _) (w : _) → F.post write e v tt w → Writes t v.now w.now) → Printed (spoilt e asns.now) (line_text t e asns.now) out.old result out.new }
{
    let mut places = [0; 130];
    let mut tail = Writer::new(&mut places);
    write(e, &mut tail);
    put_line(e, asns, tail.text(), out)
}

pub fn to_psv(e: Element, asns: &[u32], out: &mut [u8]) -> Result<usize, ElementError>
    ensures { Printed (spoilt e asns.now) (psv_text e asns.now) out.old result out.new }
{
    put_ended(write_tail, e, asns, out)
}

// Display of the element.
pub fn display_element(e: Element, asns: &[u32], out: &mut [u8]) -> Result<usize, ElementError>
    ensures { Printed (spoilt e asns.now) (display_text e asns.now) out.old result out.new }
{
    put_ended(write_short_tail, e, asns, out)
}

// What a line begins with: the same for all elements of a peer and a time.
pub fn put_front(source: Source, out: &mut [u8]) -> Result<usize, PutError>
    ensures { let text = front_text source.announce source.timestamp source.peer_ip source.peer_asn in (result ≡ answer text out.old) × (out.new ≡ front text out.old) }
{
    let mut places = [0; 90];
    let mut w = Writer::new(&mut places);
    write_front(source, &mut w);
    output::put(w.text(), out)
}

// The line of texts that are at hand.

// Whether the attributes and the bars around them, 110 bytes at most, have room. They are measured
// only where that is not sure: to measure an address is to write it.
fn attributes_fit(a: Attributes, room: usize) -> bool
    ensures { result ≡ leb (2 + length (attributes_text a)) room }
{
    let surely = 110 <= room;
    if surely {
        return true;
    }
    let mut places = [0; 108];
    let mut w = Writer::new(&mut places);
    write_attributes(a, &mut w);
    2 + w.text().len() <= room
}

// What three lengths leave of the room; they may be too large to add up.
fn left_of(room: usize, a: usize, b: usize, c: usize) -> Option<usize>
    ensures { SomeIff result (a + b + c ≤ room) (room - (a + b + c)) }
{
    room.checked_sub(a)?.checked_sub(b)?.checked_sub(c)
}

// to_psv's line of texts that are not looked at: what stands before the path, the path and the
// origin AS; and of the attributes.
pub fn put_texts(
    begin: &[u8],
    path: &[u8],
    origin_asn: &[u8],
    attributes: Attributes,
    out: &mut [u8],
) -> Result<usize, PutError>
    ensures { (result ≡ answer (texts_line begin.now path.now origin_asn.now attributes) out.old) × (out.new ≡ front (texts_line begin.now path.now origin_asn.now attributes) out.old) }
{
    let left = left_of(out.len(), begin.len(), path.len(), origin_asn.len());
    let left = left.ok_or(PutError::TooShort)?;
    if !attributes_fit(attributes, left) {
        return Err(PutError::TooShort);
    }
    let mut w = Writer::new(out);
    w.bytes(begin);
    w.bytes(path);
    w.byte(b'|');
    w.bytes(origin_asn);
    write_attributes(attributes, &mut w);
    w.byte(b'|');
    Ok(w.at)
}

pub fn get_psv_header(out: &mut [u8]) -> Result<usize, PutError>
    ensures { (result ≡ answer header_text out.old) × (out.new ≡ front header_text out.old) }
{
    output::put(
        b"type|timestamp|peer_ip|peer_asn|prefix|as_path|origin_asns|origin|next_hop|local_pref|med|communities|atomic|aggr_asn|aggr_ip|only_to_customer",
        out,
    )
}
