// Addresses and prefixes as text.
#![tactic(auto)]

ghost use Rattle.std.specs.Prelude.{◌≡◌, ◌≤◌, length};
ghost use Rattle.output.specs.Writing.{Writes};
ghost use Rattle.output.specs.Output.{front, answer};
ghost use Rattle.network_display.specs.Text.{address_text, prefix_text};

use network::{IpAddr, NetworkPrefix};
use output::{PutError, Writer};

// Stays writers and no Display: the calls put bytes into lent lists, and a Display of a type around
// the address would say by write! what the writers say, and be a second form of each text.
#[tactic(auto, unfolding(crate::specs::Text::address_text))]
#[inline(always)]
pub fn write_address(a: IpAddr, w: &mut Writer)
    ensures { Writes (address_text a) w.old w.new }
{
    // Both are lent another writer, so that ours can stay in registers.
    let mut v = Writer {
        out: w.out,
        at: w.at,
    };
    match a {
        IpAddr::V4(n) => ip_display::write_ipv4(n, &mut v),
        IpAddr::V6(u, l) => ip_display::write_ipv6(u, l, &mut v),
    }
    w.at = v.at;
}

pub fn write_prefix(p: NetworkPrefix, w: &mut Writer)
    ensures { Writes (prefix_text p) w.old w.new }
{
    write_address(p.addr, w);
    w.byte(b'/');
    decimal_display::write_u32(u32::from(p.len), w);
}

// How long the text is: it is written into places of our own.
pub fn address_len(a: IpAddr) -> usize
    ensures { (result ≡ length (address_text a)) × (result ≤ 45) }
{
    let mut places = [0; 45];
    let mut text = Writer::new(&mut places);
    write_address(a, &mut text);
    text.at
}

pub fn put_address(a: IpAddr, out: &mut [u8]) -> Result<usize, PutError>
    ensures { (result ≡ answer (address_text a) out.old) × (out.new ≡ front (address_text a) out.old) }
{
    let mut places = [0; 45];
    let mut w = Writer::new(&mut places);
    write_address(a, &mut w);
    output::put(w.text(), out)
}

#[tactic(auto, using(crate::proofs::Writing::prefix_length))]
pub fn prefix_text_len(p: NetworkPrefix) -> usize
    ensures { (result ≡ length (prefix_text p)) × (result ≤ 66) }
{
    address_len(p.addr) + 1 + decimal_display::decimal_len(u64::from(p.len))
}

pub fn put_prefix(p: NetworkPrefix, out: &mut [u8]) -> Result<usize, PutError>
    ensures { (result ≡ answer (prefix_text p) out.old) × (out.new ≡ front (prefix_text p) out.old) }
{
    let mut places = [0; 66];
    let mut w = Writer::new(&mut places);
    write_prefix(p, &mut w);
    output::put(w.text(), out)
}
