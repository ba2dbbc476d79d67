// What ours answers to the bytes of a record, in the bytes that a record has for it. The whole record is handed in.
ghost use Rattle.std.specs.Prelude.{◌≡◌, length};

use address::{Address, Reading, Station};
use protocol::{
    DataType, EncryptionType, LsfFrame, Mode, PacketFrame, PacketFrameCounter, StreamFrame,
};
use refusal::Refusal;

// ---- read

pub fn header_read(record: &[u8; 77]) -> Result<[u8; 30], Refusal> {
    let frame = decode::read_lsf(&record[..46])?;
    let bytes = frame.bytes;
    Ok(bytes)
}

fn stream_fields(frame: &StreamFrame) -> [u8; 25] {
    let mut fields = [0u8; 25];
    fields[1..6].copy_from_slice(&frame.lich_part);
    fields[9..].copy_from_slice(&frame.stream_data);
    let [high, low] = frame.frame_number.to_be_bytes();
    fields[0] = frame.lich_idx;
    fields[6] = high;
    fields[7] = low;
    fields[8] = u8::from(frame.end_of_stream);
    fields
}

// kept: this, `packet_read` and `address_read` differ in two functions each: one over both would be longer.
pub fn stream_read(record: &[u8; 72]) -> Result<[u8; 25], Refusal> {
    let frame = decode::read_stream(&record[..46])?;
    Ok(stream_fields(&frame))
}

fn packet_fields(frame: &PacketFrame) -> [u8; 27] {
    let (is_final, number) = match frame.counter {
        PacketFrameCounter::Frame { index } => (0, index),
        PacketFrameCounter::FinalFrame { payload_len } => (1, payload_len),
    };
    let mut fields = [0u8; 27];
    fields[0] = is_final;
    fields[1] = (number % 256) as u8;
    fields[2..].copy_from_slice(&frame.payload);
    fields
}

pub fn packet_read(record: &[u8; 74]) -> Result<[u8; 27], Refusal> {
    let frame = decode::read_packet(&record[..46])?;
    Ok(packet_fields(&frame))
}

// ---- written

pub fn header_written(record: &[u8; 77]) -> Result<[u8; 46], Refusal> {
    encode::write_lsf(&record[..30])
}

pub fn stream_written(record: &[u8; 72]) -> Result<[u8; 46], Refusal> {
    let number = u16::from_be_bytes([record[6], record[7]]);
    let is_end = record[8] != 0;
    encode::write_stream(record[0], &record[1..6], number, is_end, &record[9..25])
}

pub fn packet_written(record: &[u8; 74]) -> Result<[u8; 46], Refusal> {
    let number = usize::from(record[1]);
    let counter = match record[0] {
        0 => PacketFrameCounter::Frame { index: number },
        _ => PacketFrameCounter::FinalFrame {
            payload_len: number,
        },
    };
    encode::write_packet(counter, &record[2..27])
}

// ---- addresses

fn address_fields(read: &Reading) -> [u8; 16] {
    let (kind, value) = match read.address {
        Address::Invalid => (0, 0),
        Address::Callsign => (1, 0),
        Address::Reserved(value) => (2, value),
        Address::Broadcast => (3, 0),
    };
    let mut fields = [0u8; 16];
    fields[0] = kind;
    fields[1..7].copy_from_slice(&value.to_be_bytes()[2..]);
    fields[7..].copy_from_slice(&read.callsign);
    fields
}

pub fn address_read(record: &[u8; 23]) -> Result<[u8; 16], Refusal> {
    let read = address::decode_address(&record[..6])?;
    Ok(address_fields(&read))
}

// The address of a kind, a value of six bytes and nine characters.
// kept: the kind is the file's number, and the file has no refusal for one.
fn station<'a>(kind: u8, six: &[u8], callsign: &'a [u8]) -> Station<'a>
    requires { length six.now ≡ 6 }
{
    let mut value = [0u8; 8];
    value[2..].copy_from_slice(six);
    let address = match kind {
        0 => Address::Invalid,
        1 => Address::Callsign,
        2 => Address::Reserved(u64::from_be_bytes(value)),
        _ => Address::Broadcast,
    };
    Station { address, callsign }
}

pub fn address_written(record: &[u8; 23]) -> Result<[u8; 6], Refusal> {
    address::encode_address(station(record[0], &record[1..7], &record[7..16]))
}

// ---- header fields

// kept: which setter it was is the file's number.
pub fn header_set(record: &[u8; 78]) -> Result<[u8; 30], Refusal> {
    let number = record[1];
    let station = station(number, &record[2..8], &record[8..17]);
    let header = LsfFrame::from_bytes(&record[17..47])?;
    let changed = match record[0] {
        1 => header.set_destination(station)?,
        0 | 2 => header.set_source(station)?,
        3 => header.set_mode(Mode::try_from(number).unwrap_or(Mode::Stream)),
        4 => header.set_data_type(DataType::try_from(number).unwrap_or(DataType::VoiceAndData)),
        5 => header.set_encryption_type(EncryptionType::try_from(number).unwrap_or(
            EncryptionType::Other,
        )),
        _ => header.set_channel_access_number(number)?,
    };
    let bytes = changed.bytes;
    Ok(bytes)
}
