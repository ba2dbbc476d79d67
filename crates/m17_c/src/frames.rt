// LICHs, bodies and symbols for C. A frame crosses as its fields: a number for yes and no, 0 or anything else, and a number beside
// `final_frame` that is an index or a length.
ghost use Rattle.std.specs.Prelude.{◌≡◌};
ghost use Rattle.bits.specs.Places.{flag};
ghost use Rattle.encode.specs.Lich.{lich_of};
ghost use Rattle.encode.specs.Bodies.{lsf_body_of, stream_body_of, packet_body_of};
ghost use Rattle.encode.specs.Symbols.{lsf_symbols_of, stream_symbols_of, packet_symbols_of};
ghost use Rattle.decode.specs.Lich.{lich_read_of};
ghost use Rattle.decode.specs.Bodies.{lsf_read_of, stream_read_of, packet_read_of};
ghost use Rattle.decode.specs.Symbols.{body_read_of, initial_of, lsf_parsed_of, stream_parsed_of, packet_parsed_of};
ghost use Rattle.m17.specs.Given.{lent_said, lent_bytes};
ghost use Rattle.m17.specs.Header.{header_bytes};
ghost use Rattle.m17.specs.Frames.{counter_for, lsf_frame, stream_frame, packet_frame, framed_of, lich_memory, LichLent, stream_memory, StreamLent, packet_memory, PacketLent};

#[unsafe(no_mangle)]
pub extern "C" fn m17_encode_lich(counter: u8, part: &[u8], out: &mut [u8]) -> u8
    ensures { (result ≡ lent_said 12 out.old (lich_of counter part.now)) × (out.new ≡ lent_bytes 12 out.old (lich_of counter part.now)) }
{
    m17::frames::m17_encode_lich(counter, part, out)
}

#[unsafe(no_mangle)]
pub extern "C" fn m17_decode_lich(lich: &[u8], counter: &mut u8, part: &mut [u8]) -> u8
    ensures { LichLent (lich_read_of lich.now) (lich_memory counter.old part.old) result (lich_memory counter.new part.new) }
{
    m17::frames::m17_decode_lich(lich, counter, part)
}

#[unsafe(no_mangle)]
pub extern "C" fn m17_write_lsf(header: &[u8], out: &mut [u8]) -> u8
    ensures { (result ≡ lent_said 46 out.old (lsf_body_of header.now)) × (out.new ≡ lent_bytes 46 out.old (lsf_body_of header.now)) }
{
    m17::frames::m17_write_lsf(header, out)
}

#[unsafe(no_mangle)]
pub extern "C" fn m17_read_lsf(body: &[u8], out: &mut [u8]) -> u8
    ensures { (result ≡ lent_said 30 out.old (header_bytes (lsf_read_of body.now))) × (out.new ≡ lent_bytes 30 out.old (header_bytes (lsf_read_of body.now))) }
{
    m17::frames::m17_read_lsf(body, out)
}

#[unsafe(no_mangle)]
pub extern "C" fn m17_write_stream(
    lich_idx: u8,
    lich_part: &[u8],
    frame_number: u16,
    end_of_stream: u8,
    stream_data: &[u8],
    out: &mut [u8],
) -> u8
    ensures { (result ≡ lent_said 46 out.old (stream_body_of lich_idx lich_part.now frame_number (flag end_of_stream) stream_data.now)) × (out.new ≡ lent_bytes 46 out.old (stream_body_of lich_idx lich_part.now frame_number (flag end_of_stream) stream_data.now)) }
{
    m17::frames::m17_write_stream(
        lich_idx,
        lich_part,
        frame_number,
        end_of_stream,
        stream_data,
        out,
    )
}

#[unsafe(no_mangle)]
pub extern "C" fn m17_read_stream(
    body: &[u8],
    lich_idx: &mut u8,
    lich_part: &mut [u8],
    frame_number: &mut u16,
    end_of_stream: &mut u8,
    stream_data: &mut [u8],
) -> u8
    ensures { StreamLent (stream_read_of body.now) (stream_memory lich_idx.old lich_part.old frame_number.old end_of_stream.old stream_data.old) result (stream_memory lich_idx.new lich_part.new frame_number.new end_of_stream.new stream_data.new) }
{
    m17::frames::m17_read_stream(
        body,
        lich_idx,
        lich_part,
        frame_number,
        end_of_stream,
        stream_data,
    )
}

#[unsafe(no_mangle)]
pub extern "C" fn m17_write_packet(
    final_frame: u8,
    number: usize,
    payload: &[u8],
    out: &mut [u8],
) -> u8
    ensures { (result ≡ lent_said 46 out.old (packet_body_of (counter_for final_frame number) payload.now)) × (out.new ≡ lent_bytes 46 out.old (packet_body_of (counter_for final_frame number) payload.now)) }
{
    m17::frames::m17_write_packet(final_frame, number, payload, out)
}

#[unsafe(no_mangle)]
pub extern "C" fn m17_read_packet(
    body: &[u8],
    final_frame: &mut u8,
    number: &mut usize,
    payload: &mut [u8],
) -> u8
    ensures { PacketLent (packet_read_of body.now) (packet_memory final_frame.old number.old payload.old) result (packet_memory final_frame.new number.new payload.new) }
{
    m17::frames::m17_read_packet(body, final_frame, number, payload)
}

#[unsafe(no_mangle)]
pub extern "C" fn m17_body_to_symbols(kind: u8, body: &[u8], out: &mut [f32]) -> u8
    ensures { (result ≡ lent_said 192 out.old (framed_of kind body.now)) × (out.new ≡ lent_bytes 192 out.old (framed_of kind body.now)) }
{
    m17::frames::m17_body_to_symbols(kind, body, out)
}

#[unsafe(no_mangle)]
pub extern "C" fn m17_symbols_to_body(symbols: &[f32], out: &mut [u8]) -> u8
    ensures { (result ≡ lent_said 46 out.old (body_read_of symbols.now)) × (out.new ≡ lent_bytes 46 out.old (body_read_of symbols.now)) }
{
    m17::frames::m17_symbols_to_body(symbols, out)
}

#[unsafe(no_mangle)]
pub extern "C" fn m17_frame_initial_decode(symbols: &[f32], out: &mut [u8]) -> u8
    ensures { (result ≡ lent_said 46 out.old (initial_of symbols.now)) × (out.new ≡ lent_bytes 46 out.old (initial_of symbols.now)) }
{
    m17::frames::m17_frame_initial_decode(symbols, out)
}

#[unsafe(no_mangle)]
pub extern "C" fn m17_encode_lsf(header: &[u8], out: &mut [f32]) -> u8
    ensures { (result ≡ lent_said 192 out.old (lsf_symbols_of (lsf_frame header.now))) × (out.new ≡ lent_bytes 192 out.old (lsf_symbols_of (lsf_frame header.now))) }
{
    m17::frames::m17_encode_lsf(header, out)
}

#[unsafe(no_mangle)]
pub extern "C" fn m17_encode_stream(
    lich_idx: u8,
    lich_part: &[u8],
    frame_number: u16,
    end_of_stream: u8,
    stream_data: &[u8],
    out: &mut [f32],
) -> u8
    ensures { (result ≡ lent_said 192 out.old (stream_symbols_of (stream_frame lich_idx lich_part.now frame_number end_of_stream stream_data.now))) × (out.new ≡ lent_bytes 192 out.old (stream_symbols_of (stream_frame lich_idx lich_part.now frame_number end_of_stream stream_data.now))) }
{
    m17::frames::m17_encode_stream(
        lich_idx,
        lich_part,
        frame_number,
        end_of_stream,
        stream_data,
        out,
    )
}

#[unsafe(no_mangle)]
pub extern "C" fn m17_encode_packet(
    final_frame: u8,
    number: usize,
    payload: &[u8],
    out: &mut [f32],
) -> u8
    ensures { (result ≡ lent_said 192 out.old (packet_symbols_of (packet_frame final_frame number payload.now))) × (out.new ≡ lent_bytes 192 out.old (packet_symbols_of (packet_frame final_frame number payload.now))) }
{
    m17::frames::m17_encode_packet(final_frame, number, payload, out)
}

#[unsafe(no_mangle)]
pub extern "C" fn m17_parse_lsf(symbols: &[f32], out: &mut [u8]) -> u8
    ensures { (result ≡ lent_said 30 out.old (header_bytes (lsf_parsed_of symbols.now))) × (out.new ≡ lent_bytes 30 out.old (header_bytes (lsf_parsed_of symbols.now))) }
{
    m17::frames::m17_parse_lsf(symbols, out)
}

#[unsafe(no_mangle)]
pub extern "C" fn m17_parse_stream(
    symbols: &[f32],
    lich_idx: &mut u8,
    lich_part: &mut [u8],
    frame_number: &mut u16,
    end_of_stream: &mut u8,
    stream_data: &mut [u8],
) -> u8
    ensures { StreamLent (stream_parsed_of symbols.now) (stream_memory lich_idx.old lich_part.old frame_number.old end_of_stream.old stream_data.old) result (stream_memory lich_idx.new lich_part.new frame_number.new end_of_stream.new stream_data.new) }
{
    m17::frames::m17_parse_stream(
        symbols,
        lich_idx,
        lich_part,
        frame_number,
        end_of_stream,
        stream_data,
    )
}

#[unsafe(no_mangle)]
pub extern "C" fn m17_parse_packet(
    symbols: &[f32],
    final_frame: &mut u8,
    number: &mut usize,
    payload: &mut [u8],
) -> u8
    ensures { PacketLent (packet_parsed_of symbols.now) (packet_memory final_frame.old number.old payload.old) result (packet_memory final_frame.new number.new payload.new) }
{
    m17::frames::m17_parse_packet(symbols, final_frame, number, payload)
}
