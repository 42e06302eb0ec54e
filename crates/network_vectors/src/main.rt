// Runs the cases of `network` and `network_display` (data/cases.txt) and prints a line for each
// group.
#![tactic(auto)]

use cases::{Answer, InHex, Or, Program};
use network::NetworkPrefix;
use output::Writer;
use std::io;
use std::io::Write;

// Room for an address or a prefix as it is printed.
const TEXT: usize = 128;

// What a call writes.
// Stays in both programs that print so: a public function asks nothing of its callers, and one that
// takes a closure asks that it may be called.
fn put_text<F: FnOnce(&mut Writer)>(write: F, out: &mut Answer) -> io::Result<()>
    requires { F.IsAlwaysCallable write }
{
    let mut text = [0; TEXT];
    let mut w = Writer::new(&mut text);
    write(&mut w);
    out.write_all(w.text())
}

// The address that s says, printed.
// Stays beside the same for a prefix, here and below: one for both would take two closures.
fn put_read_address(s: &[u8], out: &mut Answer) -> io::Result<()> {
    match network::read_address(s) {
        Some(a) => put_text(|w| network_display::write_address(a, w), out),
        None => write!(out, "none"),
    }
}

fn put_read_prefix(s: &[u8], out: &mut Answer) -> io::Result<()> {
    match network::read_prefix(s) {
        Some(p) => put_text(|w| network_display::write_prefix(p, w), out),
        None => write!(out, "none"),
    }
}

// What was answered, and the list after it.
fn put_address(s: &[u8], list: &mut [u8], out: &mut Answer) -> io::Result<()> {
    let Some(a) = network::read_address(s) else {
        return Ok(());
    };
    let r = network_display::put_address(a, list);
    write!(out, "{} {}", Or(r.ok(), "short"), InHex(list))
}

fn put_prefix(s: &[u8], list: &mut [u8], out: &mut Answer) -> io::Result<()> {
    let Some(p) = network::read_prefix(s) else {
        return Ok(());
    };
    let r = network_display::put_prefix(p, list);
    write!(out, "{} {}", Or(r.ok(), "short"), InHex(list))
}

// Whether the address of the prefix s can have the length n.
fn put_valid(s: &[u8], n: usize, out: &mut Answer) -> io::Result<()> {
    let Some(p) = network::read_prefix(s) else {
        return Ok(());
    };
    let q = NetworkPrefix {
        len: (n % 256) as u8,
        ..p
    };
    write!(out, "{}", cases::yes_no(network::is_valid_prefix(q)))
}

fn put_lengths(s: &[u8], out: &mut Answer) -> io::Result<()> {
    let Some(p) = network::read_prefix(s) else {
        return Ok(());
    };
    let address_len = network_display::address_len(p.addr);
    let prefix_len = network_display::prefix_text_len(p);
    write!(out, "{address_len} {prefix_len}")
}

// What a call writes into a list of n places; a list of more than 64 is not there, and nothing is
// answered.
fn put_in_list(name: &[u8], s: &[u8], n: usize, out: &mut Answer) -> io::Result<()> {
    let mut room = [b'.'; 64];
    let Some(list) = room.get_mut(..n) else {
        return Ok(());
    };
    match name {
        b"put_address" => put_address(s, list, out),
        b"put_prefix" => put_prefix(s, list, out),
        _ => Ok(()),
    }
}

struct NetworkCases;

impl Program for NetworkCases {
    fn answer(&self, line: &[u8], out: &mut Answer) -> io::Result<()> {
        let mut bytes = [0; 4096];
        let s = cases::hex(cases::field(line, 1), &mut bytes);
        let n = cases::number(line, 2);
        match cases::field(line, 0) {
            b"starred" | b"rfc4291" | b"rfc5952" | b"addr" => put_read_address(s, out),
            b"starred_prefix" | b"rfc4291_prefix" | b"prefix" => put_read_prefix(s, out),
            b"valid" => put_valid(s, n, out),
            b"lengths" => put_lengths(s, out),
            name => put_in_list(name, s, n, out),
        }
    }
}

fn main(rt: HostRuntime) -> io::Result<()> {
    cases::run(&rt, "cases.txt", &NetworkCases)
}
