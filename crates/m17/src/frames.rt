// LICHs, bodies and symbols for C. A frame crosses as its fields: a number for yes and no, 0 or anything else, and a number beside
// `final_frame` that is an index or a length.
ghost use Rattle.std.specs.Prelude.{◌≡◌};
ghost use Rattle.bits.specs.Places.{flag};
ghost use Rattle.encode.specs.Lich.{lich_of};
ghost use Rattle.encode.specs.Bodies.{lsf_body_of, stream_body_of, packet_body_of};
ghost use Rattle.encode.specs.Symbols.{lsf_symbols_of, stream_symbols_of, packet_symbols_of};
ghost use Rattle.decode.specs.Lich.{lich_read_of};
ghost use Rattle.decode.specs.Bodies.{lsf_read_of, stream_read_of, packet_read_of};
ghost use Rattle.decode.specs.Symbols.{body_read_of, initial_of, lsf_parsed_of, stream_parsed_of, packet_parsed_of};
ghost use Rattle.m17.specs.Given.{lent_said, lent_bytes};
ghost use Rattle.m17.specs.Header.{header_bytes};
ghost use Rattle.m17.specs.Frames.{counter_for, final_of, number_in, lsf_frame, stream_frame, packet_frame, framed_of, lich_memory, LichLent, stream_memory, StreamLent, packet_memory, PacketLent};

use super::{give, header_bytes, kind_for};
use fec::Kind;
use protocol::{PacketFrame, PacketFrameCounter, StreamFrame};
use refusal::Refusal;

// ---- LICHs and bodies

// A stream frame that was read. The lengths of what is lent are judged first.
fn give_stream(
    read: Result<StreamFrame, Refusal>,
    lich_idx: &mut u8,
    lich_part: &mut [u8],
    frame_number: &mut u16,
    end_of_stream: &mut u8,
    stream_data: &mut [u8],
) -> u8
    ensures { StreamLent read (stream_memory lich_idx.old lich_part.old frame_number.old end_of_stream.old stream_data.old) result (stream_memory lich_idx.new lich_part.new frame_number.new end_of_stream.new stream_data.new) }
{
    if lich_part.len() != 5 {
        return u8::from(Refusal::WrongLength);
    }
    if stream_data.len() != 16 {
        return u8::from(Refusal::WrongLength);
    }
    if let Ok(frame) = read {
        *lich_idx = frame.lich_idx;
        *frame_number = frame.frame_number;
        *end_of_stream = u8::from(frame.end_of_stream);
        lich_part.copy_from_slice(&frame.lich_part);
        stream_data.copy_from_slice(&frame.stream_data);
    }
    refusal::said(read)
}

// kept: numbers and the types of other crates are turned into each other by functions, since an impl of `From` for both is none of this crate's.
fn counter_for(final_frame: u8, number: usize) -> PacketFrameCounter
    ensures { result ≡ counter_for final_frame number }
{
    if final_frame != 0 {
        return PacketFrameCounter::FinalFrame {
            payload_len: number,
        };
    }
    PacketFrameCounter::Frame { index: number }
}

fn final_of(counter: PacketFrameCounter) -> u8
    ensures { result ≡ final_of counter }
{
    match counter {
        PacketFrameCounter::Frame { index: _ } => 0,
        PacketFrameCounter::FinalFrame { payload_len: _ } => 1,
    }
}

fn number_in(counter: PacketFrameCounter) -> usize
    ensures { result ≡ number_in counter }
{
    match counter {
        PacketFrameCounter::Frame { index } => index,
        PacketFrameCounter::FinalFrame { payload_len } => payload_len,
    }
}

// A packet frame that was read. The length of what is lent is judged first.
fn give_packet(
    read: Result<PacketFrame, Refusal>,
    final_frame: &mut u8,
    number: &mut usize,
    payload: &mut [u8],
) -> u8
    ensures { PacketLent read (packet_memory final_frame.old number.old payload.old) result (packet_memory final_frame.new number.new payload.new) }
{
    if payload.len() != 25 {
        return u8::from(Refusal::WrongLength);
    }
    if let Ok(frame) = read {
        *final_frame = final_of(frame.counter);
        *number = number_in(frame.counter);
        payload.copy_from_slice(&frame.payload);
    }
    refusal::said(read)
}

pub fn m17_encode_lich(counter: u8, part: &[u8], out: &mut [u8]) -> u8
    ensures { (result ≡ lent_said 12 out.old (lich_of counter part.now)) × (out.new ≡ lent_bytes 12 out.old (lich_of counter part.now)) }
{
    give(encode::encode_lich(counter, part), out)
}

pub fn m17_decode_lich(lich: &[u8], counter: &mut u8, part: &mut [u8]) -> u8
    ensures { LichLent (lich_read_of lich.now) (lich_memory counter.old part.old) result (lich_memory counter.new part.new) }
{
    if part.len() != 5 {
        return u8::from(Refusal::WrongLength);
    }
    let answer = decode::decode_lich(lich);
    if let Ok(read) = answer {
        *counter = read.counter;
        part.copy_from_slice(&read.part);
    }
    refusal::said(answer)
}

pub fn m17_write_lsf(header: &[u8], out: &mut [u8]) -> u8
    ensures { (result ≡ lent_said 46 out.old (lsf_body_of header.now)) × (out.new ≡ lent_bytes 46 out.old (lsf_body_of header.now)) }
{
    give(encode::write_lsf(header), out)
}

pub fn m17_read_lsf(body: &[u8], out: &mut [u8]) -> u8
    ensures { (result ≡ lent_said 30 out.old (header_bytes (lsf_read_of body.now))) × (out.new ≡ lent_bytes 30 out.old (header_bytes (lsf_read_of body.now))) }
{
    give(header_bytes(decode::read_lsf(body)), out)
}

pub fn m17_write_stream(
    lich_idx: u8,
    lich_part: &[u8],
    frame_number: u16,
    end_of_stream: u8,
    stream_data: &[u8],
    out: &mut [u8],
) -> u8
    ensures { (result ≡ lent_said 46 out.old (stream_body_of lich_idx lich_part.now frame_number (flag end_of_stream) stream_data.now)) × (out.new ≡ lent_bytes 46 out.old (stream_body_of lich_idx lich_part.now frame_number (flag end_of_stream) stream_data.now)) }
{
    let done = encode::write_stream(
        lich_idx,
        lich_part,
        frame_number,
        end_of_stream != 0,
        stream_data,
    );
    give(done, out)
}

pub fn m17_read_stream(
    body: &[u8],
    lich_idx: &mut u8,
    lich_part: &mut [u8],
    frame_number: &mut u16,
    end_of_stream: &mut u8,
    stream_data: &mut [u8],
) -> u8
    ensures { StreamLent (stream_read_of body.now) (stream_memory lich_idx.old lich_part.old frame_number.old end_of_stream.old stream_data.old) result (stream_memory lich_idx.new lich_part.new frame_number.new end_of_stream.new stream_data.new) }
{
    give_stream(
        decode::read_stream(body),
        lich_idx,
        lich_part,
        frame_number,
        end_of_stream,
        stream_data,
    )
}

pub fn m17_write_packet(final_frame: u8, number: usize, payload: &[u8], out: &mut [u8]) -> u8
    ensures { (result ≡ lent_said 46 out.old (packet_body_of (counter_for final_frame number) payload.now)) × (out.new ≡ lent_bytes 46 out.old (packet_body_of (counter_for final_frame number) payload.now)) }
{
    give(
        encode::write_packet(counter_for(final_frame, number), payload),
        out,
    )
}

pub fn m17_read_packet(
    body: &[u8],
    final_frame: &mut u8,
    number: &mut usize,
    payload: &mut [u8],
) -> u8
    ensures { PacketLent (packet_read_of body.now) (packet_memory final_frame.old number.old payload.old) result (packet_memory final_frame.new number.new payload.new) }
{
    give_packet(decode::read_packet(body), final_frame, number, payload)
}

// ---- symbols

#[tactic(auto, unfolding(crate::specs::Frames::framed_of))]
fn framed(kind: u8, body: &[u8]) -> Result<[f32; 192], Refusal>
    ensures { result ≡ framed_of kind body.now }
{
    if body.len() != 46 {
        return Err(Refusal::WrongLength);
    }
    encode::body_symbols(kind_for(kind)?, body)
}

pub fn m17_body_to_symbols(kind: u8, body: &[u8], out: &mut [f32]) -> u8
    ensures { (result ≡ lent_said 192 out.old (framed_of kind body.now)) × (out.new ≡ lent_bytes 192 out.old (framed_of kind body.now)) }
{
    give(framed(kind, body), out)
}

pub fn m17_symbols_to_body(symbols: &[f32], out: &mut [u8]) -> u8
    ensures { (result ≡ lent_said 46 out.old (body_read_of symbols.now)) × (out.new ≡ lent_bytes 46 out.old (body_read_of symbols.now)) }
{
    give(decode::body_of(symbols), out)
}

pub fn m17_frame_initial_decode(symbols: &[f32], out: &mut [u8]) -> u8
    ensures { (result ≡ lent_said 46 out.old (initial_of symbols.now)) × (out.new ≡ lent_bytes 46 out.old (initial_of symbols.now)) }
{
    give(decode::frame_initial_decode(symbols), out)
}

#[tactic(auto, unfolding(encode::specs::Symbols::lsf_symbols_of))]
pub fn m17_encode_lsf(header: &[u8], out: &mut [f32]) -> u8
    ensures { (result ≡ lent_said 192 out.old (lsf_symbols_of (lsf_frame header.now))) × (out.new ≡ lent_bytes 192 out.old (lsf_symbols_of (lsf_frame header.now))) }
{
    let body = encode::write_lsf(header);
    give(encode::symbols_from(Kind::Header, body), out)
}

#[tactic(auto, unfolding(encode::specs::Symbols::stream_symbols_of))]
pub fn m17_encode_stream(
    lich_idx: u8,
    lich_part: &[u8],
    frame_number: u16,
    end_of_stream: u8,
    stream_data: &[u8],
    out: &mut [f32],
) -> u8
    ensures { (result ≡ lent_said 192 out.old (stream_symbols_of (stream_frame lich_idx lich_part.now frame_number end_of_stream stream_data.now))) × (out.new ≡ lent_bytes 192 out.old (stream_symbols_of (stream_frame lich_idx lich_part.now frame_number end_of_stream stream_data.now))) }
{
    let body = encode::write_stream(
        lich_idx,
        lich_part,
        frame_number,
        end_of_stream != 0,
        stream_data,
    );
    give(encode::symbols_from(Kind::Stream, body), out)
}

#[tactic(auto, unfolding(encode::specs::Symbols::packet_symbols_of))]
pub fn m17_encode_packet(final_frame: u8, number: usize, payload: &[u8], out: &mut [f32]) -> u8
    ensures { (result ≡ lent_said 192 out.old (packet_symbols_of (packet_frame final_frame number payload.now))) × (out.new ≡ lent_bytes 192 out.old (packet_symbols_of (packet_frame final_frame number payload.now))) }
{
    let body = encode::write_packet(counter_for(final_frame, number), payload);
    give(encode::symbols_from(Kind::Packet, body), out)
}

pub fn m17_parse_lsf(symbols: &[f32], out: &mut [u8]) -> u8
    ensures { (result ≡ lent_said 30 out.old (header_bytes (lsf_parsed_of symbols.now))) × (out.new ≡ lent_bytes 30 out.old (header_bytes (lsf_parsed_of symbols.now))) }
{
    give(header_bytes(decode::parse_lsf(symbols)), out)
}

pub fn m17_parse_stream(
    symbols: &[f32],
    lich_idx: &mut u8,
    lich_part: &mut [u8],
    frame_number: &mut u16,
    end_of_stream: &mut u8,
    stream_data: &mut [u8],
) -> u8
    ensures { StreamLent (stream_parsed_of symbols.now) (stream_memory lich_idx.old lich_part.old frame_number.old end_of_stream.old stream_data.old) result (stream_memory lich_idx.new lich_part.new frame_number.new end_of_stream.new stream_data.new) }
{
    give_stream(
        decode::parse_stream(symbols),
        lich_idx,
        lich_part,
        frame_number,
        end_of_stream,
        stream_data,
    )
}

pub fn m17_parse_packet(
    symbols: &[f32],
    final_frame: &mut u8,
    number: &mut usize,
    payload: &mut [u8],
) -> u8
    ensures { PacketLent (packet_parsed_of symbols.now) (packet_memory final_frame.old number.old payload.old) result (packet_memory final_frame.new number.new payload.new) }
{
    give_packet(decode::parse_packet(symbols), final_frame, number, payload)
}
