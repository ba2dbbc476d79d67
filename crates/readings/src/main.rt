// Readings on the bench, and published vectors, from the compiled code. What it writes is held to the file stdout.
#![tactic(auto)]

use address::{Address, Reading, Station};
use print::Hex;
use protocol::PacketFrameCounter;
use refusal::Refusal;
use std::fmt::Display;
use std::io::{BufWriter, Write};
use std::{fmt, io};

// An answer: what it gives, or the number of its refusal.
#[derive(Drop)]
struct Answered<T>(Result<T, Refusal>);

impl<T: Display> Display for Answered<T> {
    fn fmt<W: fmt::Write>(&self, f: &mut fmt::Formatter<W>) -> fmt::Result {
        match &self.0 {
            Ok(given) => write!(f, "{given}"),
            Err(why) => {
                let number = u8::from(*why);
                write!(f, "refused {number}")
            }
        }
    }
}

// A number in so many hexadecimal digits.
#[derive(Clone, Copy)]
struct Digits<const WIDTH: usize>(u32);

impl<const WIDTH: usize> Display for Digits<WIDTH> {
    fn fmt<W: fmt::Write>(&self, f: &mut fmt::Formatter<W>) -> fmt::Result {
        let number = self.0;
        write!(f, "{number:0WIDTH$x}")
    }
}

// An address that was read.
#[derive(Clone, Copy)]
struct Heard(Reading);

impl Display for Heard {
    fn fmt<W: fmt::Write>(&self, f: &mut fmt::Formatter<W>) -> fmt::Result {
        let read = self.0;
        match read.address {
            Address::Invalid => write!(f, "invalid"),
            Address::Callsign => {
                write!(f, "callsign [")?;
                for character in &read.callsign {
                    f.write_char(char::from(*character))?;
                }
                write!(f, "]")
            }
            Address::Reserved(value) => write!(f, "reserved {value:012x}"),
            Address::Broadcast => write!(f, "broadcast"),
        }
    }
}

// ---- crc

fn crc_of<W: Write>(out: &mut W, label: &str, s: &[u8]) -> io::Result<()> {
    let sum = crc::m17_crc(s);
    writeln!(out, "crc of {label}: {sum:04x}")
}

fn crc_of_all_bytes<W: Write>(out: &mut W) -> io::Result<()> {
    let mut all = [0u8; 256];
    for (byte, n) in all.iter_mut().zip(0..=255u8) {
        *byte = n;
    }
    crc_of(out, "the bytes 0 to 255", &all)
}

// ---- random

// So many zeros, at most 368, xored once and once more.
fn xor_of<W: Write>(out: &mut W, n: usize) -> io::Result<()> {
    let mut zeros = [0u8; 368];
    let s = &mut zeros[..n.min(368)];
    write!(out, "xor of zeros:")?;
    for _ in 0..2 {
        random::random_xor(s);
        write!(out, " {}", Hex(&*s))?;
    }
    writeln!(out)
}

// ---- interleave

fn interleave_of<W: Write>(out: &mut W, s: &[u8]) -> io::Result<()> {
    let placed = interleave::interleave(s);
    writeln!(out, "interleave: {}", Answered(placed.map(Hex)))
}

fn interleave_unit<W: Write>(out: &mut W, place: usize) -> io::Result<()> {
    let mut s = [0u8; 46];
    let _ = bits::set_bit(&mut s, place, 1);
    interleave_of(out, &s)
}

// ---- bits

fn bit_of<W: Write>(out: &mut W, s: &[u8], place: usize) -> io::Result<()> {
    writeln!(out, "bit: {}", Answered(bits::get_bit(s, place)))
}

fn bit_set<W: Write>(out: &mut W, place: usize, value: u8) -> io::Result<()> {
    let mut s = [0xA5u8, 0x5A];
    write!(out, "set: ")?;
    if let Err(why) = bits::set_bit(&mut s, place, value) {
        write!(out, "refused {} ", u8::from(why))?;
    }
    writeln!(out, "{}", Hex(s))
}

// ---- address

fn address_read<W: Write>(out: &mut W, s: &[u8]) -> io::Result<()> {
    let read = address::decode_address(s);
    writeln!(out, "address: {}", Answered(read.map(Heard)))
}

fn address_written<W: Write>(
    out: &mut W,
    label: &str,
    address: Address,
    callsign: &[u8],
) -> io::Result<()> {
    let six = address::encode_address(Station { address, callsign });
    writeln!(out, "write {label}: {}", Answered(six.map(Hex)))
}

// ---- golay

fn golay_of<W: Write>(out: &mut W, value: u16) -> io::Result<()> {
    let word = golay::encode(value).map(Digits::<6>);
    writeln!(out, "golay of {value:03x} {}", Answered(word))
}

fn golay_read<W: Write>(out: &mut W, word: u32) -> io::Result<()> {
    let value = golay::decode(word).map(|value| Digits::<3>(u32::from(value)));
    writeln!(out, "golay read {word:06x} {}", Answered(value))
}

// ---- bodies

fn body<W: Write>(
    out: &mut W,
    label: impl Display + Drop,
    body: Result<[u8; 46], Refusal>,
) -> io::Result<()> {
    writeln!(out, "{label} zeros: {}", Answered(body.map(Hex)))
}

fn packet_body<W: Write>(
    out: &mut W,
    label: impl Display + Drop,
    counter: PacketFrameCounter,
) -> io::Result<()> {
    body(out, label, encode::write_packet(counter, &[0u8; 25]))
}

// kept: this and `final_frame` make another case each: one over both would take it and its words.
fn packet_frame<W: Write>(out: &mut W, index: usize) -> io::Result<()> {
    let counter = PacketFrameCounter::Frame { index };
    packet_body(out, format_args!("packet frame {index} of"), counter)
}

fn final_frame<W: Write>(out: &mut W, payload_len: usize) -> io::Result<()> {
    let counter = PacketFrameCounter::FinalFrame { payload_len };
    packet_body(out, format_args!("final frame of {payload_len}"), counter)
}

fn main(rt: HostRuntime) -> io::Result<()> {
    let mut buffer = BufWriter::new(rt.alloc(), io::writer(&rt))?;
    let out = &mut buffer;
    crc_of(out, "nothing", b"")?;
    crc_of(out, "A", b"A")?;
    crc_of(out, "123456789", b"123456789")?;
    crc_of_all_bytes(out)?;
    for n in [0, 1, 45, 46, 47, 368] {
        xor_of(out, n)?;
    }
    for place in [0, 1, 137, 367] {
        interleave_unit(out, place)?;
    }
    interleave_of(out, &[0u8; 45])?;
    interleave_of(out, &[0u8; 47])?;
    for place in [0, 1, 15, 16] {
        bit_of(out, &[0x80, 0x01], place)?;
    }
    bit_of(out, b"", 0)?;
    for (place, value) in [(0, 0), (1, 1), (15, 255), (16, 1)] {
        bit_set(out, place, value)?;
    }
    address_read(out, &[0, 0, 0, 0, 0, 0])?;
    address_read(out, &[0, 0, 0, 0, 0, 1])?;
    address_read(out, &[0, 0, 0, 0x9F, 0xDD, 0x51])?;
    address_read(out, &[0xEE, 0x6B, 0x27, 0xFF, 0xFF, 0xFF])?;
    address_read(out, &[0xEE, 0x6B, 0x28, 0, 0, 0])?;
    address_read(out, &[0xFF, 0xFF, 0xFF, 0xFF, 0xFF, 0xFE])?;
    address_read(out, &[0xFF, 0xFF, 0xFF, 0xFF, 0xFF, 0xFF])?;
    address_read(out, &[0, 0, 0, 0, 0])?;
    address_written(out, "AB1CD", Address::Callsign, b"AB1CD    ")?;
    address_written(out, "ab1cd", Address::Callsign, b"ab1cd    ")?;
    address_written(out, ".........", Address::Callsign, b".........")?;
    address_written(out, "a foreign byte", Address::Callsign, b"AB!CD    ")?;
    address_written(out, "spaces", Address::Callsign, b"         ")?;
    address_written(out, "eight bytes", Address::Callsign, b"AB1CD   ")?;
    address_written(out, "invalid", Address::Invalid, b"         ")?;
    address_written(out, "broadcast", Address::Broadcast, b"         ")?;
    address_written(out, "40^9", Address::Reserved(0xEE6B28000000), b"         ")?;
    address_written(
        out,
        "40^9 - 1 as reserved",
        Address::Reserved(0xEE6B27FFFFFF),
        b"         ",
    )?;
    address_written(
        out,
        "all ones as reserved",
        Address::Reserved(0xFFFFFFFFFFFF),
        b"         ",
    )?;
    for value in [0, 1, 0xFFF, 0x1000] {
        golay_of(out, value)?;
    }
    for word in [0x0018EB, 0x0018EA, 0x8018EA, 0x8118EA, 0x8118E8, 0x10018EB] {
        golay_read(out, word)?;
    }
    body(out, "header of", encode::write_lsf(&[0u8; 30]))?;
    body(
        out,
        "stream frame of",
        encode::write_stream(0, &[0u8; 5], 0, false, &[0u8; 16]),
    )?;
    for index in [0, 31, 32] {
        packet_frame(out, index)?;
    }
    for payload_len in [25, 26] {
        final_frame(out, payload_len)?;
    }
    out.flush()
}
