// Symbols to bodies, and bodies to fields.
#![tactic(auto)]

ghost use Rattle.std.specs.Prelude.{◌≡◌, false, ◌+◌, ◌*◌, ◌^◌, ◌<◌, length, get_or, drop};
ghost use Rattle.bits.specs.Bits.{bit, byte_of};
ghost use Rattle.golay.specs.Golay.{decoded_of as golayReadOf};
ghost use Rattle.decode.specs.Lich.{lich_from, word_at, lich_read_of};
ghost use Rattle.decode.specs.Bodies.{unmasked_of, lsf_read_of, stream_from, stream_read_of, counter_from, packet_from, packet_read_of};
ghost use Rattle.decode.specs.Symbols.{pair_of, pairs_of, body_from, body_read_of, initial_of, lsf_parsed_of, stream_parsed_of, packet_parsed_of};

use fec::Kind;
use protocol::{LsfFrame, PacketFrame, PacketFrameCounter, StreamFrame};
use refusal::Refusal;

// What a LICH holds: its counter, and the five bytes of its part.
#[derive(Clone, Copy)]
pub struct LichPart {
    pub counter: u8,
    pub part: [u8; 5],
}

// What word j, of three bytes, reads as.
fn data_at(lich: &[u8; 12], j: usize) -> Result<u16, Refusal>
    requires { j < 4 }
    ensures { result ≡ golayReadOf (word_at lich.now j) }
{
    golay::decode(u32::from_be_bytes([0, lich[3 * j], lich[3 * j + 1], lich[3 * j + 2]]))
}

// Four values of 12 bits: five bytes and the counter.
fn lich_from(a: u16, b: u16, c: u16, d: u16) -> LichPart
    requires { (a < 4096) × (b < 4096) × (c < 4096) × (d < 4096) }
    ensures { result ≡ lich_from (a * 2 ^ 36 + b * 2 ^ 24 + c * 2 ^ 12 + d) }
{
    let v = u64::from(a) * 0x1000000000
        + u64::from(b) * 0x1000000
        + u64::from(c) * 0x1000
        + u64::from(d);
    let [_, _, p0, p1, p2, p3, p4, last] = v.to_be_bytes();
    LichPart {
        counter: last / 32,
        part: [p0, p1, p2, p3, p4],
    }
}

// The counter and the part of a LICH: the first refused word ends the reading.
pub fn decode_lich(lich: &[u8]) -> Result<LichPart, Refusal>
    ensures { result ≡ lich_read_of lich.now }
{
    // kept: `let .. else` serves the refusals, as document 01 has it.
    let Ok(lich) = <&[u8; 12]>::try_from(lich) else {
        return Err(Refusal::WrongLength);
    };
    // kept: taken apart by `let .. else`, as document 01 names the form, where `?` would be shorter.
    let Ok(a) = data_at(lich, 0) else {
        return Err(Refusal::BadGolay);
    };
    let Ok(b) = data_at(lich, 1) else {
        return Err(Refusal::BadGolay);
    };
    let Ok(c) = data_at(lich, 2) else {
        return Err(Refusal::BadGolay);
    };
    let Ok(d) = data_at(lich, 3) else {
        return Err(Refusal::BadGolay);
    };
    Ok(lich_from(a, b, c, d))
}

// The coded bytes of a body: xored, then interleaved.
fn unmask(body: &[u8]) -> Result<[u8; 46], Refusal>
    ensures { result ≡ unmasked_of body.now }
{
    // kept: `let .. else` serves the refusals, as document 01 has it.
    let Ok(mut raw) = <[u8; 46]>::try_from(body) else {
        return Err(Refusal::WrongLength);
    };
    random::random_xor(&mut raw);
    interleave::interleave(&raw)
}

// The header in a body, whatever its CRC.
pub fn read_lsf(body: &[u8]) -> Result<LsfFrame, Refusal>
    ensures { result ≡ lsf_read_of body.now }
{
    let coded = unmask(body)?;
    let bytes = fec::decode(Kind::Header, &coded)?;
    Ok(LsfFrame { bytes })
}

// Frame number with top bit 0x8000 for the end, then 16 bytes.
fn stream_from(lich: LichPart, bytes: &[u8; 30]) -> StreamFrame
    ensures { result ≡ stream_from lich bytes.now }
{
    let LichPart { counter, part } = lich;
    let n = u16::from_be_bytes([bytes[0], bytes[1]]);
    let mut stream_data = [0u8; 16];
    stream_data.copy_from_slice(&bytes[2..18]);
    StreamFrame {
        lich_idx: counter,
        lich_part: part,
        frame_number: n % 0x8000,
        end_of_stream: 0x8000 <= n,
        stream_data,
    }
}

// The stream frame in a body: 96 LICH bits, then 272 coded bits.
pub fn read_stream(body: &[u8]) -> Result<StreamFrame, Refusal>
    ensures { result ≡ stream_read_of body.now }
{
    let coded = unmask(body)?;
    let bytes = fec::decode(Kind::Stream, &coded[12..])?;
    let lich = decode_lich(&coded[..12])?;
    Ok(stream_from(lich, &bytes))
}

// One bit "final", then five bits of number.
// kept: what the last byte of a body says is this crate's: a `From` would stand in `protocol`, and take the coding there.
fn counter_from(x: u8) -> PacketFrameCounter
    ensures { result ≡ counter_from x }
{
    let number = usize::from(x / 4 % 32);
    if 128 <= x {
        return PacketFrameCounter::FinalFrame {
            payload_len: number,
        };
    }
    PacketFrameCounter::Frame { index: number }
}

fn packet_from(bytes: &[u8; 30]) -> PacketFrame
    ensures { result ≡ packet_from bytes.now }
{
    let mut payload = [0u8; 25];
    payload.copy_from_slice(&bytes[..25]);
    PacketFrame {
        payload,
        counter: counter_from(bytes[25]),
    }
}

// The packet frame in a body.
pub fn read_packet(body: &[u8]) -> Result<PacketFrame, Refusal>
    ensures { result ≡ packet_read_of body.now }
{
    let coded = unmask(body)?;
    let bytes = fec::decode(Kind::Packet, &coded)?;
    Ok(packet_from(&bytes))
}

// The pair of bits that a symbol is read as, as a number.
fn pair(x: f32) -> u8
    ensures { (result ≡ 2 * bit (get_or (pair_of x) 0 false) + bit (get_or (pair_of x) 1 false)) × (result < 4) }
{
    if x > 0.667 {
        return 1;
    }
    if x > 0.0 {
        return 0;
    }
    if x > -0.667 {
        return 2;
    }
    3
}

// Byte i of the body: four symbols.
fn byte_from(frame: &[f32; 192], i: usize) -> u8
    requires { i < 46 }
    ensures { result ≡ byte_of (drop (8 * i) (pairs_of (drop 8 frame.now))) }
{
    let at = 8 + 4 * i;
    64 * pair(frame[at]) + 16 * pair(frame[at + 1]) + 4 * pair(frame[at + 2]) + pair(frame[at + 3])
}

// The body of a frame: the eight sync symbols are not looked at.
fn body_from(frame: &[f32; 192]) -> [u8; 46]
    ensures { result ≡ body_from frame.now }
{
    let mut body = [0u8; 46];
    // kept: by the place of each byte: of an array written through `iter_mut().zip(..)` nothing is known afterwards, and the closure of an
    // `array::from_fn` is `proved where its callers give what it asks`, which `frauds/run` does not take for proved.
    for (i, byte) in body.iter_mut().enumerate() {
        *byte = byte_from(frame, i);
    }
    body
}

// The 46 bytes of a body in 192 symbols.
pub fn body_of(symbols: &[f32]) -> Result<[u8; 46], Refusal>
    ensures { result ≡ body_read_of symbols.now }
{
    // kept: `let .. else` serves the refusals, as document 01 has it.
    let Ok(frame) = <&[f32; 192]>::try_from(symbols) else {
        return Err(Refusal::WrongLength);
    };
    Ok(body_from(frame))
}

// The coded bytes of a body in 192 symbols.
pub fn frame_initial_decode(frame: &[f32]) -> Result<[u8; 46], Refusal>
    ensures { result ≡ initial_of frame.now }
{
    let body = body_of(frame)?;
    unmask(&body)
}

// Whole frames.
// kept: three functions that differ in the reader, since m17core has these three names.
pub fn parse_lsf(frame: &[f32]) -> Result<LsfFrame, Refusal>
    ensures { result ≡ lsf_parsed_of frame.now }
{
    let body = body_of(frame)?;
    read_lsf(&body)
}

pub fn parse_stream(frame: &[f32]) -> Result<StreamFrame, Refusal>
    ensures { result ≡ stream_parsed_of frame.now }
{
    let body = body_of(frame)?;
    read_stream(&body)
}

pub fn parse_packet(frame: &[f32]) -> Result<PacketFrame, Refusal>
    ensures { result ≡ packet_parsed_of frame.now }
{
    let body = body_of(frame)?;
    read_packet(&body)
}
