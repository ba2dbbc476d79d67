// Fields to bodies, and bodies to symbols.
#![tactic(auto)]

ghost use Rattle.std.specs.Prelude.{◌≡◌, [], ◌∷◌, ◌++◌, ◌+◌, ◌-◌, ◌/◌, ◌^◌, ◌<◌, ◌≤◌, length, take, replicate, Ok};
ghost use Rattle.bits.specs.Bits.{odd};
ghost use Rattle.encode.specs.Lich.{lich_value, golay_bytes, lich_words, lich_of};
ghost use Rattle.encode.specs.Bodies.{masked, end_mark, stream_fields, lsf_body_of, stream_body_of, packet_body_of};
ghost use Rattle.encode.specs.Symbols.{symbol_of, frame_of, sync_of, symbols_from, body_symbols_of, lsf_symbols_of, stream_symbols_of, packet_symbols_of};

use fec::Kind;
use protocol::{LsfFrame, PacketFrame, PacketFrameCounter, StreamFrame};
use refusal::Refusal;

// One list of bytes behind another.
fn joined<const N: usize>(front: &[u8], back: &[u8]) -> [u8; N]
    requires { length front.now + length back.now ≡ N }
    ensures { result ≡ front.now ++ back.now }
{
    let mut bytes = [0u8; N];
    let (head, tail) = bytes[..].split_at_mut(front.len());
    head.copy_from_slice(front);
    tail.copy_from_slice(back);
    bytes
}

// The three bytes of the codeword of 12 bits, which are never refused.
fn golay_bytes(value: u16) -> [u8; 3]
    requires { value < 4096 }
    ensures { result ≡ golay_bytes value }
{
    let [_, a, b, c] = golay::encode(value).unwrap_or(0).to_be_bytes();
    [a, b, c]
}

// The 48 bits of a LICH as one number.
fn lich_value(counter: u8, part: [u8; 5]) -> u64
    requires { counter ≤ 5 }
    ensures { result ≡ lich_value counter part }
{
    let [a, b, c, d, e] = part;
    u64::from_be_bytes([0, 0, a, b, c, d, e, counter * 32])
}

// The four Golay words of 48 bits.
fn lich_words(value: u64) -> [u8; 12]
    ensures { result ≡ lich_words value }
{
    let a = golay_bytes((value / 0x1000000000 % 4096) as u16);
    let b = golay_bytes((value / 0x1000000 % 4096) as u16);
    let c = golay_bytes((value / 0x1000 % 4096) as u16);
    let d = golay_bytes((value % 4096) as u16);
    let two: [u8; 6] = joined(&a, &b);
    let three: [u8; 9] = joined(&two, &c);
    joined(&three, &d)
}

// A LICH: five bytes and their counter.
pub fn encode_lich(counter: u8, part: &[u8]) -> Result<[u8; 12], Refusal>
    ensures { result ≡ lich_of counter part.now }
{
    // kept: `let .. else` serves the refusals, as document 01 has it.
    let Ok(part) = <[u8; 5]>::try_from(part) else {
        return Err(Refusal::WrongLength);
    };
    if 5 < counter {
        return Err(Refusal::OutOfRange);
    }
    Ok(lich_words(lich_value(counter, part)))
}

// Coded bytes are interleaved, then xored.
fn mask(coded: [u8; 46]) -> Result<[u8; 46], Refusal>
    ensures { result ≡ Ok (masked coded) }
{
    let mut bytes = interleave::interleave(&coded)?;
    random::random_xor(&mut bytes);
    Ok(bytes)
}

// The body of a header's 30 bytes.
pub fn write_lsf(header: &[u8]) -> Result<[u8; 46], Refusal>
    ensures { result ≡ lsf_body_of header.now }
{
    if header.len() != 30 {
        return Err(Refusal::WrongLength);
    }
    let coded = fec::encode(Kind::Header, header)?;
    mask(coded)
}

// The frame number with the end mark in its top bit.
// kept: number and mark side by side, as they are arguments of `write_stream`.
fn marked(frame_number: u16, end_of_stream: bool) -> u16
    requires { frame_number ≤ 32767 }
    ensures { result ≡ frame_number + end_mark end_of_stream }
{
    if end_of_stream {
        return frame_number + 0x8000;
    }
    frame_number
}

// The bytes of a stream frame that are coded.
// kept: number, mark and data side by side, as they are arguments of `write_stream`.
fn stream_fields(frame_number: u16, end_of_stream: bool, stream_data: &[u8]) -> [u8; 18]
    requires { (frame_number ≤ 32767) × (length stream_data.now ≡ 16) }
    ensures { result ≡ stream_fields frame_number end_of_stream stream_data.now }
{
    let number = marked(frame_number, end_of_stream);
    joined(&number.to_be_bytes(), stream_data)
}

// The LICH before the coded bytes.
fn combined(lich: [u8; 12], coded: [u8; 46]) -> [u8; 46]
    ensures { result ≡ lich ++ take 34 coded }
{
    joined(&lich, &coded[..34])
}

// The body of a stream frame.
// kept: five fields, as C has them: slices of any length, which a StreamFrame cannot hold.
pub fn write_stream(
    lich_idx: u8,
    lich_part: &[u8],
    frame_number: u16,
    end_of_stream: bool,
    stream_data: &[u8],
) -> Result<[u8; 46], Refusal>
    ensures { result ≡ stream_body_of lich_idx lich_part.now frame_number end_of_stream stream_data.now }
{
    if lich_part.len() != 5 {
        return Err(Refusal::WrongLength);
    }
    if stream_data.len() != 16 {
        return Err(Refusal::WrongLength);
    }
    if 5 < lich_idx {
        return Err(Refusal::OutOfRange);
    }
    if 32767 < frame_number {
        return Err(Refusal::OutOfRange);
    }
    let lich = encode_lich(lich_idx, lich_part)?;
    let fields = stream_fields(frame_number, end_of_stream, stream_data);
    let coded = fec::encode(Kind::Stream, &fields)?;
    mask(combined(lich, coded))
}

// The first bytes of a payload, zeros up to 25, and the last byte.
fn packet_fields(payload: &[u8], count: usize, last: u8) -> [u8; 26]
    requires { (count ≤ 25) × (length payload.now ≡ 25) }
    ensures { result ≡ take count payload.now ++ replicate (25 - count) 0 ++ (last ∷ []) }
{
    let mut fields = [0u8; 26];
    fields[25] = last;
    fields[..count].copy_from_slice(&payload[..count]);
    fields
}

// The body of a packet frame.
// kept: what the last byte of a body says is this crate's and `decode`'s: a `From` would stand in `protocol`, and take the coding there.
pub fn write_packet(counter: PacketFrameCounter, payload: &[u8]) -> Result<[u8; 46], Refusal>
    ensures { result ≡ packet_body_of counter payload.now }
{
    if payload.len() != 25 {
        return Err(Refusal::WrongLength);
    }
    let fields = match counter {
        PacketFrameCounter::Frame { index } => {
            if 31 < index {
                return Err(Refusal::OutOfRange);
            }
            packet_fields(payload, 25, (index * 4) as u8)
        }
        PacketFrameCounter::FinalFrame { payload_len } => {
            if 25 < payload_len {
                return Err(Refusal::OutOfRange);
            }
            packet_fields(payload, payload_len, (128 + payload_len * 4) as u8)
        }
    };
    let coded = fec::encode(Kind::Packet, &fields)?;
    mask(coded)
}

// The symbol of two bits.
fn symbol(pair: u8) -> f32
    requires { pair < 4 }
    ensures { result ≡ symbol_of (odd (pair / 2)) (odd pair) }
{
    match pair {
        0 => 1.0 / 3.0,
        1 => 1.0,
        2 => -1.0 / 3.0,
        _ => -1.0,
    }
}

// A body behind its sync word.
fn slot_of(sync: [u8; 2], body: &[u8; 46]) -> [u8; 48]
    ensures { result ≡ sync ++ body.now }
{
    joined(&sync, body)
}

// Four symbols for each byte.
fn to_symbols(sync: [u8; 2], body: &[u8; 46]) -> [f32; 192]
    ensures { result ≡ frame_of sync body.now }
{
    let slot = slot_of(sync, body);
    let mut out = [0.0; 192];
    // kept: places by an index: `chunks_exact_mut` and `out.iter_mut().zip(slot.iter().flat_map(..))` were tried, and nothing is known of
    // an array that was written through either.
    for (i, b) in slot.iter().enumerate() {
        out[4 * i] = symbol(*b / 64 % 4);
        out[4 * i + 1] = symbol(*b / 16 % 4);
        out[4 * i + 2] = symbol(*b / 4 % 4);
        out[4 * i + 3] = symbol(*b % 4);
    }
    out
}

// The sync word of a kind.
// kept: numbers, as the receiver matches them: an enum of the four would be made and matched once.
fn sync_of(kind: Kind) -> [u8; 2]
    ensures { result ≡ sync_of kind }
{
    match kind {
        Kind::Header => [0x55, 0xF7],
        Kind::Stream => [0xFF, 0x5D],
        Kind::Packet => [0x75, 0xFF],
    }
}

// The symbols of a body, or its refusal.
pub fn symbols_from(kind: Kind, body: Result<[u8; 46], Refusal>) -> Result<[f32; 192], Refusal>
    ensures { result ≡ symbols_from kind body }
{
    Ok(to_symbols(sync_of(kind), &body?))
}

// The symbols of a body of 46 bytes.
pub fn body_symbols(kind: Kind, body: &[u8]) -> Result<[f32; 192], Refusal>
    ensures { result ≡ body_symbols_of kind body.now }
{
    // kept: `let .. else` serves the refusals, as document 01 has it.
    let Ok(body) = <&[u8; 46]>::try_from(body) else {
        return Err(Refusal::WrongLength);
    };
    Ok(to_symbols(sync_of(kind), body))
}

// The symbols of a header frame.
pub fn encode_lsf(frame: LsfFrame) -> Result<[f32; 192], Refusal>
    ensures { result ≡ lsf_symbols_of frame }
{
    symbols_from(Kind::Header, write_lsf(&frame.bytes))
}

// The symbols of a stream frame.
pub fn encode_stream(frame: StreamFrame) -> Result<[f32; 192], Refusal>
    ensures { result ≡ stream_symbols_of frame }
{
    let body = write_stream(
        frame.lich_idx,
        &frame.lich_part,
        frame.frame_number,
        frame.end_of_stream,
        &frame.stream_data,
    );
    symbols_from(Kind::Stream, body)
}

// The symbols of a packet frame.
pub fn encode_packet(frame: PacketFrame) -> Result<[f32; 192], Refusal>
    ensures { result ≡ packet_symbols_of frame }
{
    symbols_from(Kind::Packet, write_packet(frame.counter, &frame.payload))
}
