// Header fields, frames, and gathered LICH parts. Bytes 12 and 13 of a header, high byte first, are its type.
#![tactic(auto)]

ghost use Rattle.std.specs.Prelude.{◌≡◌, ◌+◌, ◌≤◌, ◌<◌, ◌^◌, length, take, drop};
ghost use Rattle.laws.specs.Value.{value_of};
ghost use Rattle.crc.specs.Crc.{crc};
ghost use Rattle.address.specs.Address.{address_of};
ghost use Rattle.protocol.specs.Numbers.{mode_number, mode_of, ModeOf, data_number, data_of, DataOf, encryption_number, encryption_of, EncryptionOf};
ghost use Rattle.protocol.specs.Fields.{bytes_from, type_bits, destination_bytes, source_bytes, type_bytes, mode_bits, data_bits, encryption_bits, channel_bits, fields_of, field, renewed, set_field};
ghost use Rattle.protocol.specs.Header.{header, from_of, address_set_of, channel_set_of, new_of};
ghost use Rattle.protocol.specs.Lich.{empty, flags_set, part_said, after_set, assembled_of};

use address::{Reading, Station};
use refusal::Refusal;
use std::fmt;

#[derive(Clone, Copy, PartialEq, Eq)]
pub enum Mode {
    Packet,
    Stream,
}

impl fmt::Display for Mode {
    fn fmt<W: fmt::Write>(&self, f: &mut fmt::Formatter<W>) -> fmt::Result {
        f.write_str(match self {
            Mode::Packet => "packet",
            Mode::Stream => "stream",
        })
    }
}

impl From<Mode> for u8 {
    ghost from_gives = { λ mode n. n ≡ mode_number mode };

    fn from(mode: Mode) -> u8 {
        match mode {
            Mode::Packet => 0,
            Mode::Stream => 1,
        }
    }
}

// 2 for a number over 1.
// kept: three of these are alike: one text for them would be a macro that writes impls, which the gate refuses.
impl TryFrom<u8> for Mode {
    type Error = Refusal;

    ghost try_from_gives = { ModeOf };

    fn try_from(number: u8) -> Result<Mode, Refusal> {
        if 1 < number {
            return Err(Refusal::OutOfRange);
        }
        Ok(Mode::of(number))
    }
}

impl Mode {
    // Of the type bits. kept: no number is refused here, so it is no `TryFrom`, and a `From` cannot stand beside one.
    fn of(bits: u8) -> Mode
        ensures { result ≡ mode_of bits }
    {
        match bits {
            0 => Mode::Packet,
            _ => Mode::Stream,
        }
    }
}

#[derive(Clone, Copy, PartialEq, Eq)]
pub enum DataType {
    Reserved,
    Data,
    Voice,
    VoiceAndData,
}

impl fmt::Display for DataType {
    fn fmt<W: fmt::Write>(&self, f: &mut fmt::Formatter<W>) -> fmt::Result {
        f.write_str(match self {
            DataType::Reserved => "reserved",
            DataType::Data => "data",
            DataType::Voice => "voice",
            DataType::VoiceAndData => "voice+data",
        })
    }
}

impl From<DataType> for u8 {
    ghost from_gives = { λ data_type n. n ≡ data_number data_type };

    fn from(data_type: DataType) -> u8 {
        match data_type {
            DataType::Reserved => 0,
            DataType::Data => 1,
            DataType::Voice => 2,
            DataType::VoiceAndData => 3,
        }
    }
}

// 2 for a number over 3.
impl TryFrom<u8> for DataType {
    type Error = Refusal;

    ghost try_from_gives = { DataOf };

    fn try_from(number: u8) -> Result<DataType, Refusal> {
        if 3 < number {
            return Err(Refusal::OutOfRange);
        }
        Ok(DataType::of(number))
    }
}

impl DataType {
    // Of the type bits. kept: no number is refused here, so it is no `TryFrom`, and a `From` cannot stand beside one.
    fn of(bits: u8) -> DataType
        ensures { result ≡ data_of bits }
    {
        match bits {
            0 => DataType::Reserved,
            1 => DataType::Data,
            2 => DataType::Voice,
            _ => DataType::VoiceAndData,
        }
    }
}

#[derive(Clone, Copy, PartialEq, Eq)]
pub enum EncryptionType {
    None,
    Scrambler,
    Aes,
    Other,
}

impl fmt::Display for EncryptionType {
    fn fmt<W: fmt::Write>(&self, f: &mut fmt::Formatter<W>) -> fmt::Result {
        f.write_str(match self {
            EncryptionType::None => "none",
            EncryptionType::Scrambler => "scrambler",
            EncryptionType::Aes => "aes",
            EncryptionType::Other => "other",
        })
    }
}

impl From<EncryptionType> for u8 {
    ghost from_gives = { λ encryption_type n. n ≡ encryption_number encryption_type };

    fn from(encryption_type: EncryptionType) -> u8 {
        match encryption_type {
            EncryptionType::None => 0,
            EncryptionType::Scrambler => 1,
            EncryptionType::Aes => 2,
            EncryptionType::Other => 3,
        }
    }
}

// 2 for a number over 3.
impl TryFrom<u8> for EncryptionType {
    type Error = Refusal;

    ghost try_from_gives = { EncryptionOf };

    fn try_from(number: u8) -> Result<EncryptionType, Refusal> {
        if 3 < number {
            return Err(Refusal::OutOfRange);
        }
        Ok(EncryptionType::of(number))
    }
}

impl EncryptionType {
    // Of the type bits. kept: no number is refused here, so it is no `TryFrom`, and a `From` cannot stand beside one.
    fn of(bits: u8) -> EncryptionType
        ensures { result ≡ encryption_of bits }
    {
        match bits {
            0 => EncryptionType::None,
            1 => EncryptionType::Scrambler,
            2 => EncryptionType::Aes,
            _ => EncryptionType::Other,
        }
    }
}

// A header.
#[derive(Clone, Copy)]
pub struct LsfFrame {
    pub bytes: [u8; 30],
}

// The value of the type bytes.
fn type_of(bytes: [u8; 30]) -> u16
    ensures { result ≡ field type_bytes bytes }
{
    u16::from_be_bytes([bytes[12], bytes[13]])
}

// The CRC renewed.
fn renew(mut bytes: [u8; 30]) -> [u8; 30]
    ensures { result ≡ renewed (fields_of bytes) }
{
    let crc = crc::m17_crc(&bytes[..28]).to_be_bytes();
    // kept: byte by byte, here and in `set_type_bits`: wrong programs change one of them.
    bytes[28..].copy_from_slice(&[crc[0], crc[1]]);
    bytes
}

// Bytes from `at` on set, and the CRC renewed.
fn with_bytes(mut bytes: [u8; 30], at: usize, part: &[u8]) -> [u8; 30]
    requires { at + length part.now ≤ 28 }
    ensures { result ≡ set_field (bytes_from at (length part.now)) (value_of part.now) bytes }
{
    bytes[at..at + part.len()].copy_from_slice(part);
    renew(bytes)
}

impl LsfFrame {
    // A header of thirty bytes.
    pub fn from_bytes(bytes: &[u8]) -> Result<LsfFrame, Refusal>
        ensures { result ≡ from_of bytes.now }
    {
        // kept: `let .. else` serves the refusals, as document 01 has it, and the name is the one that callers know.
        let Ok(bytes) = <[u8; 30]>::try_from(bytes) else {
            return Err(Refusal::WrongLength);
        };
        Ok(LsfFrame { bytes })
    }

    // The CRC of all thirty bytes: zero for a valid header.
    pub fn check_crc(self) -> u16
        ensures { result ≡ crc self.bytes }
    {
        crc::m17_crc(&self.bytes)
    }

    // The address in six bytes from `at` on.
    fn address_at(self, at: usize) -> Reading
        requires { at + 6 ≤ 30 }
        ensures { result ≡ address_of (value_of (take 6 (drop at self.bytes))) }
    {
        let mut six = [0u8; 6];
        six.copy_from_slice(&self.bytes[at..at + 6]);
        Reading::from(six)
    }

    // Six bytes from `at` on set to an address, and the CRC renewed.
    fn set_address(mut self, at: usize, station: Station<'_>) -> Result<LsfFrame, Refusal>
        requires { at + 6 ≤ 28 }
        ensures { result ≡ address_set_of (bytes_from at 6) station.entry.address station.entry.callsign.now self.bytes }
    {
        let six = address::encode_address(station)?;
        self.bytes = with_bytes(self.bytes, at, &six);
        Ok(self)
    }

    // Type bits: `width` of them from bit `low` on.
    fn type_bits(self, low: u32, width: u32) -> u8
        requires { (low + width < 16) × (width ≤ 8) }
        ensures value { result ≡ field (type_bits low width) self.bytes }
        ensures bound { result < 2 ^ width }
    {
        ((type_of(self.bytes) >> low) % (1 << width)) as u8
    }

    // The same bits set, and the CRC renewed.
    fn set_type_bits(mut self, low: u32, width: u32, value: u8) -> LsfFrame
        requires { (low + width < 16) × (value < 2 ^ width) }
        ensures { result ≡ header (set_field (type_bits low width) value self.bytes) }
    {
        let old = type_of(self.bytes);
        let above = old >> (low + width) << (low + width);
        let below = old % (1 << low);
        let new = above + (u16::from(value) << low) + below;
        let two = new.to_be_bytes();
        self.bytes = with_bytes(self.bytes, 12, &[two[0], two[1]]);
        self
    }

    // The address in bytes 0 to 5.
    pub fn destination(self) -> Reading
        ensures { result ≡ address_of (value_of (take 6 self.bytes)) }
    {
        self.address_at(0)
    }

    // The address in bytes 6 to 11.
    pub fn source(self) -> Reading
        ensures { result ≡ address_of (value_of (take 6 (drop 6 self.bytes))) }
    {
        self.address_at(6)
    }

    // Type bit 0.
    pub fn mode(self) -> Mode
        ensures { result ≡ mode_of (field mode_bits self.bytes) }
    {
        Mode::of(self.type_bits(0, 1))
    }

    // Type bits 1 and 2.
    pub fn data_type(self) -> DataType
        ensures { result ≡ data_of (field data_bits self.bytes) }
    {
        DataType::of(self.type_bits(1, 2))
    }

    // Type bits 3 and 4.
    pub fn encryption_type(self) -> EncryptionType
        ensures { result ≡ encryption_of (field encryption_bits self.bytes) }
    {
        EncryptionType::of(self.type_bits(3, 2))
    }

    // Type bits 7 to 10.
    pub fn channel_access_number(self) -> u8
        ensures { result ≡ field channel_bits self.bytes }
    {
        self.type_bits(7, 4)
    }

    // Bytes 14 to 27.
    pub fn meta(self) -> [u8; 14]
        ensures { result ≡ take 14 (drop 14 self.bytes) }
    {
        let mut meta = [0u8; 14];
        meta.copy_from_slice(&self.bytes[14..28]);
        meta
    }

    // Bytes 0 to 5 set.
    pub fn set_destination(self, station: Station<'_>) -> Result<LsfFrame, Refusal>
        ensures { result ≡ address_set_of destination_bytes station.entry.address station.entry.callsign.now self.bytes }
    {
        self.set_address(0, station)
    }

    // Bytes 6 to 11 set.
    pub fn set_source(self, station: Station<'_>) -> Result<LsfFrame, Refusal>
        ensures { result ≡ address_set_of source_bytes station.entry.address station.entry.callsign.now self.bytes }
    {
        self.set_address(6, station)
    }

    // Type bit 0 set.
    pub fn set_mode(self, mode: Mode) -> LsfFrame
        ensures { result ≡ header (set_field mode_bits (mode_number mode) self.bytes) }
    {
        self.set_type_bits(0, 1, u8::from(mode))
    }

    // Type bits 1 and 2 set.
    pub fn set_data_type(self, data_type: DataType) -> LsfFrame
        ensures { result ≡ header (set_field data_bits (data_number data_type) self.bytes) }
    {
        self.set_type_bits(1, 2, u8::from(data_type))
    }

    // Type bits 3 and 4 set.
    pub fn set_encryption_type(self, encryption_type: EncryptionType) -> LsfFrame
        ensures { result ≡ header (set_field encryption_bits (encryption_number encryption_type) self.bytes) }
    {
        self.set_type_bits(3, 2, u8::from(encryption_type))
    }

    // Type bits 7 to 10 set.
    pub fn set_channel_access_number(self, number: u8) -> Result<LsfFrame, Refusal>
        ensures { result ≡ channel_set_of number self.bytes }
    {
        if 15 < number {
            return Err(Refusal::OutOfRange);
        }
        Ok(self.set_type_bits(7, 4, number))
    }

    // A header for voice in a stream.
    pub fn new_voice(source: Station<'_>, destination: Station<'_>) -> Result<LsfFrame, Refusal>
        ensures { result ≡ new_of Mode.Stream DataType.Voice source.entry.address source.entry.callsign.now destination.entry.address destination.entry.callsign.now }
    {
        new_header(Mode::Stream, DataType::Voice, source, destination)
    }

    // A header for data in a packet.
    pub fn new_packet(source: Station<'_>, destination: Station<'_>) -> Result<LsfFrame, Refusal>
        ensures { result ≡ new_of Mode.Packet DataType.Data source.entry.address source.entry.callsign.now destination.entry.address destination.entry.callsign.now }
    {
        new_header(Mode::Packet, DataType::Data, source, destination)
    }
}

// A header all zero but for the addresses, the mode and the data type. Both lengths are judged before either address.
// kept: a struct of the two stations would be made only to be taken apart here.
fn new_header(
    mode: Mode,
    data_type: DataType,
    source: Station<'_>,
    destination: Station<'_>,
) -> Result<LsfFrame, Refusal>
    ensures { result ≡ new_of mode data_type source.entry.address source.entry.callsign.now destination.entry.address destination.entry.callsign.now }
{
    if source.callsign.len() != 9 {
        return Err(Refusal::WrongLength);
    }
    if destination.callsign.len() != 9 {
        return Err(Refusal::WrongLength);
    }
    let blank = LsfFrame { bytes: [0u8; 30] };
    let sent = blank.set_source(source)?;
    let both = sent.set_destination(destination)?;
    Ok(
        both.set_mode(mode)
            .set_data_type(data_type)
            .set_encryption_type(EncryptionType::None),
    )
}

// A stream frame.
#[derive(Clone, Copy)]
pub struct StreamFrame {
    // Which LICH part is in this frame, from 0 to 5.
    pub lich_idx: u8,
    pub lich_part: [u8; 5],
    // Which frame of the transmission this is, from 0 on.
    pub frame_number: u16,
    // Whether this is the last frame of the transmission.
    pub end_of_stream: bool,
    pub stream_data: [u8; 16],
}

// What a packet frame counts.
#[derive(Clone, Copy)]
pub enum PacketFrameCounter {
    // Any frame but the last: which one it is, from 0 to 31. All 25 bytes are filled.
    Frame { index: usize },
    // The last frame: how many bytes are filled.
    FinalFrame { payload_len: usize },
}

// A packet frame.
#[derive(Clone, Copy)]
pub struct PacketFrame {
    pub payload: [u8; 25],
    pub counter: PacketFrameCounter,
}

// LICH parts gathered: part c is bytes 5c to 5c + 4, and flag c says whether it was set.
// kept: C gathers the parts in these two arrays, and the bytes are the header once all six are set.
#[derive(Clone, Copy)]
pub struct LichCollection {
    pub bytes: [u8; 30],
    pub set: [bool; 6],
}

impl LichCollection {
    // No part is set.
    pub fn new() -> LichCollection
        ensures { result ≡ empty }
    {
        LichCollection {
            bytes: [0u8; 30],
            set: [false; 6],
        }
    }

    // How many parts are set.
    pub fn valid_segments(self) -> usize
        ensures { result ≡ flags_set self.set }
    {
        let mut set = 0;
        // kept: a loop: `filter(..).count()` was tried, and takes three times as long.
        for flag in self.set.iter() {
            set += usize::from(*flag);
        }
        set
    }

    // Part `counter` set. On a refusal the collection is as it was.
    pub fn set_segment(&mut self, counter: u8, part: &[u8]) -> Result<(), Refusal>
        ensures { (result ≡ part_said counter part.now) × (self.new ≡ after_set counter part.now self.old) }
    {
        if part.len() != 5 {
            return Err(Refusal::WrongLength);
        }
        if 5 < counter {
            return Err(Refusal::OutOfRange);
        }
        let c = usize::from(counter);
        self.bytes[5 * c..5 * c + 5].copy_from_slice(part);
        self.set[c] = true;
        Ok(())
    }

    // The header, where all six parts are set. None where it is not yet.
    pub fn try_assemble(self) -> Option<[u8; 30]>
        ensures { result ≡ assembled_of self }
    {
        if self.valid_segments() == 6 {
            return Some(self.bytes);
        }
        None
    }
}
