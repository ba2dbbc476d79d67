// The codec for C and Rust. A function that can refuse returns 0 or the number of its refusal, and writes what it answers
// through lent memory, which a refusal leaves as it was.
// kept: where the C interface has them so, a number stands for a kind, a flag beside a value, an address or a frame crosses as its fields,
// and two functions stand that differ in a name or a kind.
#![tactic(auto)]

ghost use Rattle.std.specs.Prelude.{◌≡◌, length};
ghost use Rattle.refusal.specs.Number.{said_of};
ghost use Rattle.bits.specs.Bits.{bit};
ghost use Rattle.bits.specs.Places.{get_of, set_of, with_bit};
ghost use Rattle.bits.specs.Reader.{next_of, place_after};
ghost use Rattle.crc.specs.Crc.{crc_from, crc};
ghost use Rattle.random.specs.Random.{xored};
ghost use Rattle.interleave.specs.Interleave.{interleaved_of};
ghost use Rattle.address.specs.Address.{decoded_of as addressReadOf};
ghost use Rattle.golay.specs.Golay.{encoded_of, decoded_of};
ghost use Rattle.m17.specs.Given.{given, there, given_there, lent_said, lent_bytes, of_length};
ghost use Rattle.m17.specs.Fec.{kind_for, coded_of, kind_read_of};
ghost use Rattle.m17.specs.Header.{header_bytes};
ghost use Rattle.m17.specs.Addresses.{address_kind, reserved_of, address_for, station_for, address_written_of, address_memory, AddressLent};

pub mod frames;
pub mod gathered;
pub mod header;
pub mod receiving;

use address::{Address, Station};
use fec::Kind;
use protocol::LsfFrame;
use refusal::Refusal;

// One number of an answer, written where nothing is refused.
fn give_number<T: Copy>(answer: Result<T, Refusal>, out: &mut T) -> u8
    ensures { (result ≡ said_of answer) × (out.new ≡ given answer out.old) }
{
    let said = refusal::said(answer);
    if let Ok(number) = answer {
        *out = number;
    }
    said
}

// The bytes or symbols of an answer, written where nothing is refused. The length of `out` is judged first.
fn give<T: Copy, const N: usize>(answer: Result<[T; N], Refusal>, out: &mut [T]) -> u8
    ensures { (result ≡ lent_said N out.old answer) × (out.new ≡ lent_bytes N out.old answer) }
{
    if out.len() != N {
        return u8::from(Refusal::WrongLength);
    }
    let said = refusal::said(answer);
    if let Ok(bytes) = answer {
        out.copy_from_slice(&bytes);
    }
    said
}

// The bytes of a header that is answered.
fn header_bytes(read: Result<LsfFrame, Refusal>) -> Result<[u8; 30], Refusal>
    ensures { result ≡ header_bytes read }
{
    Ok(read?.bytes)
}

// What may be missing, written where it is there: `read` is 1 with it, 0 without.
fn give_there<T: Copy>(answer: Option<T>, read: &mut u8, out: &mut T)
    ensures { (read.new ≡ there answer) × (out.new ≡ given_there answer out.old) }
{
    *read = u8::from(answer.is_some());
    if let Some(value) = answer {
        *out = value;
    }
}

// A receiver's state. The phase: 0 idle, 1 in a packet expecting frame `count`, 2 gathering with `count` parts.
#[repr(C)]
#[derive(Clone, Copy)]
pub struct M17Receiver {
    pub count: usize,
    pub phase: u8,
    pub parts: [u8; 30],
}

// What a slot is answered with, and the next state.
#[repr(C)]
#[derive(Clone, Copy)]
pub struct M17Received {
    pub number: usize,
    pub next: M17Receiver,
    pub frame_number: u16,
    pub said: u8,
    pub answer: u8,
    pub header: [u8; 30],
    pub lich_idx: u8,
    pub lich_part: [u8; 5],
    pub end_of_stream: u8,
    pub stream_data: [u8; 16],
}

pub fn m17_get_bit(bytes: &[u8], place: usize, out: &mut u8) -> u8
    ensures { (result ≡ said_of (get_of bytes.now place)) × (out.new ≡ given (get_of bytes.now place) out.old) }
{
    give_number(bits::get_bit(bytes, place), out)
}

pub fn m17_set_bit(bytes: &mut [u8], place: usize, value: u8) -> u8
    ensures { (result ≡ said_of (set_of bytes.old place)) × (bytes.new ≡ with_bit bytes.old place value) }
{
    refusal::said(bits::set_bit(bytes, place, value))
}

// The end is no refusal: `read` is 1 with a bit, 0 at the end.
pub fn m17_next_bit(bytes: &[u8], place: &mut usize, read: &mut u8, out: &mut u8)
    ensures { (place.new ≡ place_after bytes.now place.old) × (read.new ≡ there (next_of bytes.now place.old)) × (out.new ≡ given_there (next_of bytes.now place.old) out.old) }
{
    give_there(bits::next_bit(bytes, place), read, out)
}

pub fn m17_crc(input: &[u8]) -> u16
    ensures { result ≡ crc input.now }
{
    crc::m17_crc(input)
}

pub fn m17_crc_update(start: u16, input: &[u8]) -> u16
    ensures { result ≡ crc_from start input.now }
{
    crc::update(start, input)
}

pub fn m17_random_xor(bytes: &mut [u8])
    ensures { bytes.new ≡ xored bytes.old }
{
    random::random_xor(bytes)
}

pub fn m17_interleave(payload: &[u8], out: &mut [u8]) -> u8
    ensures { (result ≡ lent_said 46 out.old (interleaved_of payload.now)) × (out.new ≡ lent_bytes 46 out.old (interleaved_of payload.now)) }
{
    give(interleave::interleave(payload), out)
}

pub fn m17_golay_encode(value: u16, out: &mut u32) -> u8
    ensures { (result ≡ said_of (encoded_of value)) × (out.new ≡ given (encoded_of value) out.old) }
{
    give_number(golay::encode(value), out)
}

pub fn m17_golay_decode(word: u32, out: &mut u16) -> u8
    ensures { (result ≡ said_of (decoded_of word)) × (out.new ≡ given (decoded_of word) out.old) }
{
    give_number(golay::decode(word), out)
}

// kept: numbers and the types of other crates are turned into each other by functions, since an impl of `From` for both is none of this crate's.
fn kind_of(address: Address) -> u8
    ensures { result ≡ address_kind address }
{
    match address {
        Address::Invalid => 0,
        Address::Callsign => 1,
        Address::Reserved(_) => 2,
        Address::Broadcast => 3,
    }
}

fn reserved_of(address: Address) -> u64
    ensures { result ≡ reserved_of address }
{
    match address {
        Address::Reserved(value) => value,
        _ => 0,
    }
}

// An address that was read, with its characters. The length of `out` is judged first.
fn give_address(
    read: Result<address::Reading, Refusal>,
    kind: &mut u8,
    value: &mut u64,
    out: &mut [u8],
) -> u8
    ensures { AddressLent read (address_memory kind.old value.old out.old) result (address_memory kind.new value.new out.new) }
{
    if out.len() != 9 {
        return u8::from(Refusal::WrongLength);
    }
    if let Ok(reading) = read {
        *kind = kind_of(reading.address);
        *value = reserved_of(reading.address);
        out.copy_from_slice(&reading.callsign);
    }
    refusal::said(read)
}

pub fn m17_decode_address(encoded: &[u8], kind: &mut u8, value: &mut u64, callsign: &mut [u8]) -> u8
    ensures { AddressLent (addressReadOf encoded.now) (address_memory kind.old value.old callsign.old) result (address_memory kind.new value.new callsign.new) }
{
    give_address(address::decode_address(encoded), kind, value, callsign)
}

fn address_for(kind: u8, value: u64) -> Result<Address, Refusal>
    ensures { result ≡ address_for kind value }
{
    match kind {
        0 => Ok(Address::Invalid),
        1 => Ok(Address::Callsign),
        2 => Ok(Address::Reserved(value)),
        3 => Ok(Address::Broadcast),
        _ => Err(Refusal::OutOfRange),
    }
}

// What is written: 1 where there are not nine characters, before a kind over 3 is refused with 2.
fn station(kind: u8, value: u64, callsign: &[u8]) -> Result<Station<'_>, Refusal>
    ensures { result ≡ station_for kind value callsign.entry }
{
    if callsign.len() != 9 {
        return Err(Refusal::WrongLength);
    }
    let address = address_for(kind, value)?;
    Ok(Station { address, callsign })
}

#[tactic(auto, unfolding(crate::specs::Addresses::address_written_of))]
fn written_address(kind: u8, value: u64, callsign: &[u8]) -> Result<[u8; 6], Refusal>
    ensures { result ≡ address_written_of kind value callsign.now }
{
    address::encode_address(station(kind, value, callsign)?)
}

pub fn m17_encode_address(kind: u8, value: u64, callsign: &[u8], out: &mut [u8]) -> u8
    ensures { (result ≡ lent_said 6 out.old (address_written_of kind value callsign.now)) × (out.new ≡ lent_bytes 6 out.old (address_written_of kind value callsign.now)) }
{
    give(written_address(kind, value, callsign), out)
}

fn kind_for(kind: u8) -> Result<Kind, Refusal>
    ensures { result ≡ kind_for kind }
{
    match kind {
        0 => Ok(Kind::Header),
        1 => Ok(Kind::Stream),
        2 => Ok(Kind::Packet),
        _ => Err(Refusal::OutOfRange),
    }
}

#[tactic(auto, unfolding(crate::specs::Fec::coded_of))]
fn coded(kind: u8, plain: &[u8]) -> Result<[u8; 46], Refusal>
    ensures { result ≡ coded_of kind plain.now }
{
    fec::encode(kind_for(kind)?, plain)
}

#[tactic(auto, unfolding(crate::specs::Fec::kind_read_of))]
fn read(kind: u8, received: &[u8]) -> Result<[u8; 30], Refusal>
    ensures { result ≡ kind_read_of kind received.now }
{
    fec::decode(kind_for(kind)?, received)
}

pub fn m17_fec_encode(kind: u8, plain: &[u8], out: &mut [u8]) -> u8
    ensures { (result ≡ lent_said 46 out.old (coded_of kind plain.now)) × (out.new ≡ lent_bytes 46 out.old (coded_of kind plain.now)) }
{
    give(coded(kind, plain), out)
}

pub fn m17_fec_decode(kind: u8, received: &[u8], out: &mut [u8]) -> u8
    ensures { (result ≡ lent_said 30 out.old (kind_read_of kind received.now)) × (out.new ≡ lent_bytes 30 out.old (kind_read_of kind received.now)) }
{
    give(read(kind, received), out)
}
