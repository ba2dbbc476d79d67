// Headers for C. A header is a buffer of 30 bytes; a setter changes it in place and renews its CRC.
ghost use Rattle.std.specs.Prelude.{◌≡◌, take, drop};
ghost use Rattle.refusal.specs.Number.{said_of};
ghost use Rattle.crc.specs.Crc.{crc};
ghost use Rattle.protocol.specs.Fields.{destination_bytes, source_bytes, mode_bits, data_bits, encryption_bits, channel_bits, field};
ghost use Rattle.m17.specs.Given.{given, lent_said, lent_bytes};
ghost use Rattle.m17.specs.Addresses.{address_memory, AddressLent};
ghost use Rattle.m17.specs.Header.{of_header, address_at, with_number, with_address, new_for};

use protocol::{DataType, Mode};

#[unsafe(no_mangle)]
pub extern "C" fn m17_check_crc(header: &[u8], out: &mut u16) -> u8
    ensures { (result ≡ said_of (of_header header.now (crc header.now))) × (out.new ≡ given (of_header header.now (crc header.now)) out.old) }
{
    m17::header::m17_check_crc(header, out)
}

#[unsafe(no_mangle)]
pub extern "C" fn m17_destination(
    header: &[u8],
    kind: &mut u8,
    value: &mut u64,
    callsign: &mut [u8],
) -> u8
    ensures { AddressLent (address_at 0 header.now) (address_memory kind.old value.old callsign.old) result (address_memory kind.new value.new callsign.new) }
{
    m17::header::m17_destination(header, kind, value, callsign)
}

#[unsafe(no_mangle)]
pub extern "C" fn m17_source(
    header: &[u8],
    kind: &mut u8,
    value: &mut u64,
    callsign: &mut [u8],
) -> u8
    ensures { AddressLent (address_at 6 header.now) (address_memory kind.old value.old callsign.old) result (address_memory kind.new value.new callsign.new) }
{
    m17::header::m17_source(header, kind, value, callsign)
}

#[unsafe(no_mangle)]
pub extern "C" fn m17_mode(header: &[u8], out: &mut u8) -> u8
    ensures { (result ≡ said_of (of_header header.now (field mode_bits header.now))) × (out.new ≡ given (of_header header.now (field mode_bits header.now)) out.old) }
{
    m17::header::m17_mode(header, out)
}

#[unsafe(no_mangle)]
pub extern "C" fn m17_data_type(header: &[u8], out: &mut u8) -> u8
    ensures { (result ≡ said_of (of_header header.now (field data_bits header.now))) × (out.new ≡ given (of_header header.now (field data_bits header.now)) out.old) }
{
    m17::header::m17_data_type(header, out)
}

#[unsafe(no_mangle)]
pub extern "C" fn m17_encryption_type(header: &[u8], out: &mut u8) -> u8
    ensures { (result ≡ said_of (of_header header.now (field encryption_bits header.now))) × (out.new ≡ given (of_header header.now (field encryption_bits header.now)) out.old) }
{
    m17::header::m17_encryption_type(header, out)
}

#[unsafe(no_mangle)]
pub extern "C" fn m17_channel_access_number(header: &[u8], out: &mut u8) -> u8
    ensures { (result ≡ said_of (of_header header.now (field channel_bits header.now))) × (out.new ≡ given (of_header header.now (field channel_bits header.now)) out.old) }
{
    m17::header::m17_channel_access_number(header, out)
}

#[unsafe(no_mangle)]
pub extern "C" fn m17_meta(header: &[u8], out: &mut [u8]) -> u8
    ensures { (result ≡ lent_said 14 out.old (of_header header.now (take 14 (drop 14 header.now)))) × (out.new ≡ lent_bytes 14 out.old (of_header header.now (take 14 (drop 14 header.now)))) }
{
    m17::header::m17_meta(header, out)
}

#[unsafe(no_mangle)]
pub extern "C" fn m17_set_destination(
    header: &mut [u8],
    kind: u8,
    value: u64,
    callsign: &[u8],
) -> u8
    ensures { (result ≡ lent_said 30 header.old (with_address destination_bytes kind value callsign.now header.old)) × (header.new ≡ lent_bytes 30 header.old (with_address destination_bytes kind value callsign.now header.old)) }
{
    m17::header::m17_set_destination(header, kind, value, callsign)
}

#[unsafe(no_mangle)]
pub extern "C" fn m17_set_source(header: &mut [u8], kind: u8, value: u64, callsign: &[u8]) -> u8
    ensures { (result ≡ lent_said 30 header.old (with_address source_bytes kind value callsign.now header.old)) × (header.new ≡ lent_bytes 30 header.old (with_address source_bytes kind value callsign.now header.old)) }
{
    m17::header::m17_set_source(header, kind, value, callsign)
}

#[unsafe(no_mangle)]
pub extern "C" fn m17_set_mode(header: &mut [u8], mode: u8) -> u8
    ensures { (result ≡ lent_said 30 header.old (with_number 1 mode_bits mode header.old)) × (header.new ≡ lent_bytes 30 header.old (with_number 1 mode_bits mode header.old)) }
{
    m17::header::m17_set_mode(header, mode)
}

#[unsafe(no_mangle)]
pub extern "C" fn m17_set_data_type(header: &mut [u8], data_type: u8) -> u8
    ensures { (result ≡ lent_said 30 header.old (with_number 3 data_bits data_type header.old)) × (header.new ≡ lent_bytes 30 header.old (with_number 3 data_bits data_type header.old)) }
{
    m17::header::m17_set_data_type(header, data_type)
}

#[unsafe(no_mangle)]
pub extern "C" fn m17_set_encryption_type(header: &mut [u8], encryption_type: u8) -> u8
    ensures { (result ≡ lent_said 30 header.old (with_number 3 encryption_bits encryption_type header.old)) × (header.new ≡ lent_bytes 30 header.old (with_number 3 encryption_bits encryption_type header.old)) }
{
    m17::header::m17_set_encryption_type(header, encryption_type)
}

#[unsafe(no_mangle)]
pub extern "C" fn m17_set_channel_access_number(header: &mut [u8], number: u8) -> u8
    ensures { (result ≡ lent_said 30 header.old (with_number 15 channel_bits number header.old)) × (header.new ≡ lent_bytes 30 header.old (with_number 15 channel_bits number header.old)) }
{
    m17::header::m17_set_channel_access_number(header, number)
}

#[unsafe(no_mangle)]
pub extern "C" fn m17_new_voice(
    source_kind: u8,
    source_value: u64,
    source: &[u8],
    destination_kind: u8,
    destination_value: u64,
    destination: &[u8],
    out: &mut [u8],
) -> u8
    ensures { (result ≡ lent_said 30 out.old (new_for Mode.Stream DataType.Voice source_kind source_value source.now destination_kind destination_value destination.now)) × (out.new ≡ lent_bytes 30 out.old (new_for Mode.Stream DataType.Voice source_kind source_value source.now destination_kind destination_value destination.now)) }
{
    m17::header::m17_new_voice(
        source_kind,
        source_value,
        source,
        destination_kind,
        destination_value,
        destination,
        out,
    )
}

#[unsafe(no_mangle)]
pub extern "C" fn m17_new_packet(
    source_kind: u8,
    source_value: u64,
    source: &[u8],
    destination_kind: u8,
    destination_value: u64,
    destination: &[u8],
    out: &mut [u8],
) -> u8
    ensures { (result ≡ lent_said 30 out.old (new_for Mode.Packet DataType.Data source_kind source_value source.now destination_kind destination_value destination.now)) × (out.new ≡ lent_bytes 30 out.old (new_for Mode.Packet DataType.Data source_kind source_value source.now destination_kind destination_value destination.now)) }
{
    m17::header::m17_new_packet(
        source_kind,
        source_value,
        source,
        destination_kind,
        destination_value,
        destination,
        out,
    )
}
