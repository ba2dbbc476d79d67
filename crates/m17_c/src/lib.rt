// The codec for C and Rust, as a static library: each function of m17 under its own name, with its own clauses.
// kept: numbers for kinds, fields for frames, and functions that differ in a name are the C interface.
#![tactic(auto)]

ghost use Rattle.std.specs.Prelude.{◌≡◌};
ghost use Rattle.refusal.specs.Number.{said_of};
ghost use Rattle.bits.specs.Places.{get_of, set_of, with_bit};
ghost use Rattle.bits.specs.Reader.{next_of, place_after};
ghost use Rattle.crc.specs.Crc.{crc_from, crc};
ghost use Rattle.random.specs.Random.{xored};
ghost use Rattle.interleave.specs.Interleave.{interleaved_of};
ghost use Rattle.address.specs.Address.{decoded_of as addressReadOf};
ghost use Rattle.golay.specs.Golay.{encoded_of, decoded_of};
ghost use Rattle.m17.specs.Given.{given, there, given_there, lent_said, lent_bytes};
ghost use Rattle.m17.specs.Fec.{coded_of, kind_read_of};
ghost use Rattle.m17.specs.Addresses.{address_written_of, address_memory, AddressLent};

mod frames;
mod gathered;
mod header;
mod receiving;

#[unsafe(no_mangle)]
pub extern "C" fn m17_get_bit(bytes: &[u8], place: usize, out: &mut u8) -> u8
    ensures { (result ≡ said_of (get_of bytes.now place)) × (out.new ≡ given (get_of bytes.now place) out.old) }
{
    m17::m17_get_bit(bytes, place, out)
}

#[unsafe(no_mangle)]
pub extern "C" fn m17_set_bit(bytes: &mut [u8], place: usize, value: u8) -> u8
    ensures { (result ≡ said_of (set_of bytes.old place)) × (bytes.new ≡ with_bit bytes.old place value) }
{
    m17::m17_set_bit(bytes, place, value)
}

// The end is no refusal: `read` is 1 with a bit, 0 at the end.
#[unsafe(no_mangle)]
pub extern "C" fn m17_next_bit(bytes: &[u8], place: &mut usize, read: &mut u8, out: &mut u8)
    ensures { (place.new ≡ place_after bytes.now place.old) × (read.new ≡ there (next_of bytes.now place.old)) × (out.new ≡ given_there (next_of bytes.now place.old) out.old) }
{
    m17::m17_next_bit(bytes, place, read, out)
}

#[unsafe(no_mangle)]
pub extern "C" fn m17_crc(input: &[u8]) -> u16
    ensures { result ≡ crc input.now }
{
    m17::m17_crc(input)
}

#[unsafe(no_mangle)]
pub extern "C" fn m17_crc_update(start: u16, input: &[u8]) -> u16
    ensures { result ≡ crc_from start input.now }
{
    m17::m17_crc_update(start, input)
}

#[unsafe(no_mangle)]
pub extern "C" fn m17_random_xor(bytes: &mut [u8])
    ensures { bytes.new ≡ xored bytes.old }
{
    m17::m17_random_xor(bytes)
}

#[unsafe(no_mangle)]
pub extern "C" fn m17_interleave(payload: &[u8], out: &mut [u8]) -> u8
    ensures { (result ≡ lent_said 46 out.old (interleaved_of payload.now)) × (out.new ≡ lent_bytes 46 out.old (interleaved_of payload.now)) }
{
    m17::m17_interleave(payload, out)
}

#[unsafe(no_mangle)]
pub extern "C" fn m17_golay_encode(value: u16, out: &mut u32) -> u8
    ensures { (result ≡ said_of (encoded_of value)) × (out.new ≡ given (encoded_of value) out.old) }
{
    m17::m17_golay_encode(value, out)
}

#[unsafe(no_mangle)]
pub extern "C" fn m17_golay_decode(word: u32, out: &mut u16) -> u8
    ensures { (result ≡ said_of (decoded_of word)) × (out.new ≡ given (decoded_of word) out.old) }
{
    m17::m17_golay_decode(word, out)
}

#[unsafe(no_mangle)]
pub extern "C" fn m17_decode_address(
    encoded: &[u8],
    kind: &mut u8,
    value: &mut u64,
    callsign: &mut [u8],
) -> u8
    ensures { AddressLent (addressReadOf encoded.now) (address_memory kind.old value.old callsign.old) result (address_memory kind.new value.new callsign.new) }
{
    m17::m17_decode_address(encoded, kind, value, callsign)
}

#[unsafe(no_mangle)]
pub extern "C" fn m17_encode_address(kind: u8, value: u64, callsign: &[u8], out: &mut [u8]) -> u8
    ensures { (result ≡ lent_said 6 out.old (address_written_of kind value callsign.now)) × (out.new ≡ lent_bytes 6 out.old (address_written_of kind value callsign.now)) }
{
    m17::m17_encode_address(kind, value, callsign, out)
}

#[unsafe(no_mangle)]
pub extern "C" fn m17_fec_encode(kind: u8, plain: &[u8], out: &mut [u8]) -> u8
    ensures { (result ≡ lent_said 46 out.old (coded_of kind plain.now)) × (out.new ≡ lent_bytes 46 out.old (coded_of kind plain.now)) }
{
    m17::m17_fec_encode(kind, plain, out)
}

#[unsafe(no_mangle)]
pub extern "C" fn m17_fec_decode(kind: u8, received: &[u8], out: &mut [u8]) -> u8
    ensures { (result ≡ lent_said 30 out.old (kind_read_of kind received.now)) × (out.new ≡ lent_bytes 30 out.old (kind_read_of kind received.now)) }
{
    m17::m17_fec_decode(kind, received, out)
}
