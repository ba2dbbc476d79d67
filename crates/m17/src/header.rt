// Headers for C. A header is a buffer of 30 bytes; a setter changes it in place and renews its CRC.
ghost use Rattle.std.specs.Prelude.{◌≡◌, take, drop};
ghost use Rattle.refusal.specs.Number.{said_of};
ghost use Rattle.crc.specs.Crc.{crc};
ghost use Rattle.protocol.specs.Fields.{destination_bytes, source_bytes, mode_bits, data_bits, encryption_bits, channel_bits, field};
ghost use Rattle.m17.specs.Given.{given, lent_said, lent_bytes, of_length};
ghost use Rattle.m17.specs.Addresses.{address_memory, AddressLent};
ghost use Rattle.m17.specs.Header.{of_header, address_at, with_number, with_address, stations_for, new_for};

use super::{give, give_address, give_number, header_bytes, station};
use address::Station;
use protocol::{DataType, EncryptionType, LsfFrame, Mode};
use refusal::Refusal;

pub fn m17_check_crc(header: &[u8], out: &mut u16) -> u8
    ensures { (result ≡ said_of (of_header header.now (crc header.now))) × (out.new ≡ given (of_header header.now (crc header.now)) out.old) }
{
    let sum = LsfFrame::from_bytes(header).map(|frame| frame.check_crc());
    give_number(sum, out)
}

pub fn m17_destination(header: &[u8], kind: &mut u8, value: &mut u64, callsign: &mut [u8]) -> u8
    ensures { AddressLent (address_at 0 header.now) (address_memory kind.old value.old callsign.old) result (address_memory kind.new value.new callsign.new) }
{
    let destination = LsfFrame::from_bytes(header).map(|frame| frame.destination());
    give_address(destination, kind, value, callsign)
}

pub fn m17_source(header: &[u8], kind: &mut u8, value: &mut u64, callsign: &mut [u8]) -> u8
    ensures { AddressLent (address_at 6 header.now) (address_memory kind.old value.old callsign.old) result (address_memory kind.new value.new callsign.new) }
{
    let source = LsfFrame::from_bytes(header).map(|frame| frame.source());
    give_address(source, kind, value, callsign)
}

#[tactic(auto, using(crate::proofs::Numbered::mode_named))]
pub fn m17_mode(header: &[u8], out: &mut u8) -> u8
    ensures { (result ≡ said_of (of_header header.now (field mode_bits header.now))) × (out.new ≡ given (of_header header.now (field mode_bits header.now)) out.old) }
{
    let mode = LsfFrame::from_bytes(header).map(|frame| u8::from(frame.mode()));
    give_number(mode, out)
}

pub fn m17_data_type(header: &[u8], out: &mut u8) -> u8
    ensures { (result ≡ said_of (of_header header.now (field data_bits header.now))) × (out.new ≡ given (of_header header.now (field data_bits header.now)) out.old) }
{
    let data_type = LsfFrame::from_bytes(header).map(|frame| u8::from(frame.data_type()));
    give_number(data_type, out)
}

pub fn m17_encryption_type(header: &[u8], out: &mut u8) -> u8
    ensures { (result ≡ said_of (of_header header.now (field encryption_bits header.now))) × (out.new ≡ given (of_header header.now (field encryption_bits header.now)) out.old) }
{
    let encryption = LsfFrame::from_bytes(header).map(|frame| u8::from(frame.encryption_type()));
    give_number(encryption, out)
}

pub fn m17_channel_access_number(header: &[u8], out: &mut u8) -> u8
    ensures { (result ≡ said_of (of_header header.now (field channel_bits header.now))) × (out.new ≡ given (of_header header.now (field channel_bits header.now)) out.old) }
{
    let number = LsfFrame::from_bytes(header).map(|frame| frame.channel_access_number());
    give_number(number, out)
}

pub fn m17_meta(header: &[u8], out: &mut [u8]) -> u8
    ensures { (result ≡ lent_said 14 out.old (of_header header.now (take 14 (drop 14 header.now)))) × (out.new ≡ lent_bytes 14 out.old (of_header header.now (take 14 (drop 14 header.now)))) }
{
    // kept: no `give`: a `Result` of fourteen bytes goes over the stack, which takes twice as long.
    if out.len() != 14 {
        return u8::from(Refusal::WrongLength);
    }
    let frame = LsfFrame::from_bytes(header);
    if let Ok(frame) = frame {
        out.copy_from_slice(&frame.meta());
    }
    refusal::said(frame)
}

// kept: `with_source` and the like differ in one setter: a function over the setter would take it with its contract, and be longer than both.
fn with_destination(
    header: &[u8],
    kind: u8,
    value: u64,
    callsign: &[u8],
) -> Result<[u8; 30], Refusal>
    ensures { result ≡ of_length 30 header.now (with_address destination_bytes kind value callsign.now header.now) }
{
    let frame = LsfFrame::from_bytes(header)?;
    let destination = station(kind, value, callsign)?;
    Ok(frame.set_destination(destination)?.bytes)
}

pub fn m17_set_destination(header: &mut [u8], kind: u8, value: u64, callsign: &[u8]) -> u8
    ensures { (result ≡ lent_said 30 header.old (with_address destination_bytes kind value callsign.now header.old)) × (header.new ≡ lent_bytes 30 header.old (with_address destination_bytes kind value callsign.now header.old)) }
{
    give(with_destination(header, kind, value, callsign), header)
}

fn with_source(header: &[u8], kind: u8, value: u64, callsign: &[u8]) -> Result<[u8; 30], Refusal>
    ensures { result ≡ of_length 30 header.now (with_address source_bytes kind value callsign.now header.now) }
{
    let frame = LsfFrame::from_bytes(header)?;
    let source = station(kind, value, callsign)?;
    Ok(frame.set_source(source)?.bytes)
}

pub fn m17_set_source(header: &mut [u8], kind: u8, value: u64, callsign: &[u8]) -> u8
    ensures { (result ≡ lent_said 30 header.old (with_address source_bytes kind value callsign.now header.old)) × (header.new ≡ lent_bytes 30 header.old (with_address source_bytes kind value callsign.now header.old)) }
{
    give(with_source(header, kind, value, callsign), header)
}

fn with_mode(header: &[u8], mode: u8) -> Result<[u8; 30], Refusal>
    ensures { result ≡ of_length 30 header.now (with_number 1 mode_bits mode header.now) }
{
    let frame = LsfFrame::from_bytes(header)?;
    Ok(frame.set_mode(Mode::try_from(mode)?).bytes)
}

pub fn m17_set_mode(header: &mut [u8], mode: u8) -> u8
    ensures { (result ≡ lent_said 30 header.old (with_number 1 mode_bits mode header.old)) × (header.new ≡ lent_bytes 30 header.old (with_number 1 mode_bits mode header.old)) }
{
    give(with_mode(header, mode), header)
}

fn with_data_type(header: &[u8], data_type: u8) -> Result<[u8; 30], Refusal>
    ensures { result ≡ of_length 30 header.now (with_number 3 data_bits data_type header.now) }
{
    let frame = LsfFrame::from_bytes(header)?;
    Ok(frame.set_data_type(DataType::try_from(data_type)?).bytes)
}

pub fn m17_set_data_type(header: &mut [u8], data_type: u8) -> u8
    ensures { (result ≡ lent_said 30 header.old (with_number 3 data_bits data_type header.old)) × (header.new ≡ lent_bytes 30 header.old (with_number 3 data_bits data_type header.old)) }
{
    give(with_data_type(header, data_type), header)
}

fn with_encryption_type(header: &[u8], encryption_type: u8) -> Result<[u8; 30], Refusal>
    ensures { result ≡ of_length 30 header.now (with_number 3 encryption_bits encryption_type header.now) }
{
    let frame = LsfFrame::from_bytes(header)?;
    Ok(
        frame
            .set_encryption_type(EncryptionType::try_from(encryption_type)?)
            .bytes,
    )
}

pub fn m17_set_encryption_type(header: &mut [u8], encryption_type: u8) -> u8
    ensures { (result ≡ lent_said 30 header.old (with_number 3 encryption_bits encryption_type header.old)) × (header.new ≡ lent_bytes 30 header.old (with_number 3 encryption_bits encryption_type header.old)) }
{
    give(with_encryption_type(header, encryption_type), header)
}

fn with_channel_access_number(header: &[u8], number: u8) -> Result<[u8; 30], Refusal>
    ensures { result ≡ of_length 30 header.now (with_number 15 channel_bits number header.now) }
{
    let frame = LsfFrame::from_bytes(header)?;
    Ok(frame.set_channel_access_number(number)?.bytes)
}

pub fn m17_set_channel_access_number(header: &mut [u8], number: u8) -> u8
    ensures { (result ≡ lent_said 30 header.old (with_number 15 channel_bits number header.old)) × (header.new ≡ lent_bytes 30 header.old (with_number 15 channel_bits number header.old)) }
{
    give(with_channel_access_number(header, number), header)
}

// The stations of a new header. Both lengths are judged before either kind.
fn stations<'a>(
    source_kind: u8,
    source_value: u64,
    source: &'a [u8],
    destination_kind: u8,
    destination_value: u64,
    destination: &'a [u8],
) -> Result<(Station<'a>, Station<'a>), Refusal>
    ensures { result ≡ stations_for source_kind source_value source.entry destination_kind destination_value destination.entry }
{
    if destination.len() != 9 {
        return Err(Refusal::WrongLength);
    }
    let from = station(source_kind, source_value, source)?;
    let to = station(destination_kind, destination_value, destination)?;
    Ok((from, to))
}

#[tactic(auto, unfolding(crate::specs::Header::new_for))]
pub fn m17_new_voice(
    source_kind: u8,
    source_value: u64,
    source: &[u8],
    destination_kind: u8,
    destination_value: u64,
    destination: &[u8],
    out: &mut [u8],
) -> u8
    ensures { (result ≡ lent_said 30 out.old (new_for Mode.Stream DataType.Voice source_kind source_value source.now destination_kind destination_value destination.now)) × (out.new ≡ lent_bytes 30 out.old (new_for Mode.Stream DataType.Voice source_kind source_value source.now destination_kind destination_value destination.now)) }
{
    let voice = stations(
        source_kind,
        source_value,
        source,
        destination_kind,
        destination_value,
        destination,
    );
    let made = voice.and_then(|(from, to)| LsfFrame::new_voice(from, to));
    give(header_bytes(made), out)
}

#[tactic(auto, unfolding(crate::specs::Header::new_for))]
pub fn m17_new_packet(
    source_kind: u8,
    source_value: u64,
    source: &[u8],
    destination_kind: u8,
    destination_value: u64,
    destination: &[u8],
    out: &mut [u8],
) -> u8
    ensures { (result ≡ lent_said 30 out.old (new_for Mode.Packet DataType.Data source_kind source_value source.now destination_kind destination_value destination.now)) × (out.new ≡ lent_bytes 30 out.old (new_for Mode.Packet DataType.Data source_kind source_value source.now destination_kind destination_value destination.now)) }
{
    let packet = stations(
        source_kind,
        source_value,
        source,
        destination_kind,
        destination_value,
        destination,
    );
    let made = packet.and_then(|(from, to)| LsfFrame::new_packet(from, to));
    give(header_bytes(made), out)
}
