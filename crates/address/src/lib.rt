// Addresses: six bytes, high byte first, are a number, and the number says whose address it is.
#![tactic(auto)]

ghost use Rattle.std.specs.Prelude.{◌≡◌, cond, ltb, ◌<◌, ◌^◌, length, IfSome, IfOk};
ghost use Rattle.laws.specs.Value.{value_of, in_bytes};
ghost use Rattle.address.specs.Callsign.{alphabet, digit_of, callsign_of, callsign_value};
ghost use Rattle.address.specs.Address.{without_callsign, address_of, decoded_of, address_value, writable, encoded_of};

use refusal::Refusal;

// An address. The nine characters of a callsign stand beside it.
// kept: where arrays are answered document 01 asks for a struct beside the enum: `Station` has it to write, `Reading` where it was read.
#[derive(Clone, Copy)]
pub enum Address {
    Invalid,
    Callsign,
    Reserved(u64),
    Broadcast,
}

// An address to write, with the characters of a callsign beside it. They are looked at only where it is one, but for their length.
// kept: a slice and no array: C hands any number of characters, and each public function that writes refuses with 1 what is not nine of them.
#[derive(Clone, Copy)]
pub struct Station<'a> {
    pub address: Address,
    pub callsign: &'a [u8],
}

// An address that was read. The characters are nine zeros unless it is a callsign.
// kept: nine zeros where there are no characters: C has them so.
#[derive(Clone, Copy)]
pub struct Reading {
    pub address: Address,
    pub callsign: [u8; 9],
}

const ALPHABET: [u8; 40] = *b" ABCDEFGHIJKLMNOPQRSTUVWXYZ0123456789-/.";

// The whole table, so that a loop copies it once.
fn characters() -> [u8; 40]
    ensures { result ≡ alphabet }
{
    ALPHABET
}

// The number that six bytes are.
fn value_of(encoded: [u8; 6]) -> u64
    ensures { result ≡ value_of encoded }
{
    let [a, b, c, d, e, f] = encoded;
    u64::from_be_bytes([0, 0, a, b, c, d, e, f])
}

// The six bytes of a number.
fn bytes_of(value: u64) -> [u8; 6]
    requires { value < 2 ^ 48 }
    ensures { result ≡ in_bytes 6 value }
{
    let [_, _, a, b, c, d, e, f] = value.to_be_bytes();
    [a, b, c, d, e, f]
}

// The nine characters of a number, the least digit first.
fn decode_base_40(value: u64) -> [u8; 9]
    ensures { result ≡ callsign_of 9 value }
{
    let alphabet = characters();
    let mut callsign = [b' '; 9];
    let mut left = value;
    for c in callsign.iter_mut() {
        *c = alphabet[(left % 40) as usize];
        left /= 40;
    }
    callsign
}

// The place of a byte in the alphabet, lower case taken as upper. None where it has none.
fn digit_of(byte: u8) -> Option<u64>
    ensures { result ≡ cond (ltb (digit_of byte) 40) (Some (digit_of byte)) None }
{
    let c = byte.to_ascii_uppercase();
    // kept: `let .. else`, here and below: what a foreign byte comes to stands in a line of its own, which wrong programs change.
    let Some(place) = characters().iter().position(|x| *x == c) else {
        return None;
    };
    Some(place as u64)
}

// The number of nine characters. None where one of them is none, or all are spaces.
fn encode_base_40(callsign: &[u8]) -> Option<u64>
    requires { length callsign.now ≡ 9 }
    ensures value { result ≡ cond (writable Address.Callsign callsign.now) (Some (callsign_value callsign.now)) None }
    ensures bound { IfSome result (λ value. value < 2 ^ 48) }
{
    let mut number = 0;
    for c in callsign.iter().rev() {
        let Some(digit) = digit_of(*c) else {
            return None;
        };
        number = number * 40 + digit;
    }
    if number == 0 {
        return None;
    }
    Some(number)
}

fn without_callsign(address: Address) -> Reading
    ensures { result ≡ without_callsign address }
{
    Reading {
        address,
        callsign: [0u8; 9],
    }
}

// The address of a value.
fn address_of(value: u64) -> Reading
    ensures { result ≡ address_of value }
{
    if value == 0 {
        return without_callsign(Address::Invalid);
    }
    if value <= 0xEE6B27FFFFFF {
        return Reading {
            address: Address::Callsign,
            callsign: decode_base_40(value),
        };
    }
    if value <= 0xFFFFFFFFFFFE {
        return without_callsign(Address::Reserved(value));
    }
    without_callsign(Address::Broadcast)
}

// The address in six bytes.
impl From<[u8; 6]> for Reading {
    ghost from_gives = { λ six read. read ≡ address_of (value_of six) };

    fn from(six: [u8; 6]) -> Reading {
        address_of(value_of(six))
    }
}

// The address in a buffer: 1 where that has not six bytes.
pub fn decode_address(encoded: &[u8]) -> Result<Reading, Refusal>
    ensures { result ≡ decoded_of encoded.now }
{
    // kept: `let .. else` serves the refusals, as document 01 has it.
    let Ok(six) = <[u8; 6]>::try_from(encoded) else {
        return Err(Refusal::WrongLength);
    };
    Ok(Reading::from(six))
}

// The value of an address. Only a callsign's characters are looked at.
fn value_to_write(station: Station<'_>) -> Result<u64, Refusal>
    requires { length station.callsign.now ≡ 9 }
    ensures value { let a = station.entry.address in let s = station.entry.callsign.now in
        result ≡ cond (writable a s) (Ok (address_value a s)) (Err Refusal.BadAddress) }
    ensures bound { IfOk result (λ value. value < 2 ^ 48) }
{
    match station.address {
        Address::Invalid => Ok(0),
        Address::Callsign => encode_base_40(station.callsign).ok_or(Refusal::BadAddress),
        Address::Reserved(value) => {
            if value < 0xEE6B28000000 {
                return Err(Refusal::BadAddress);
            }
            if 0xFFFFFFFFFFFE < value {
                return Err(Refusal::BadAddress);
            }
            Ok(value)
        }
        Address::Broadcast => Ok(0xFFFFFFFFFFFF),
    }
}

// The six bytes of an address.
pub fn encode_address(station: Station<'_>) -> Result<[u8; 6], Refusal>
    ensures { result ≡ encoded_of station.entry.address station.entry.callsign.now }
{
    if station.callsign.len() != 9 {
        return Err(Refusal::WrongLength);
    }
    Ok(bytes_of(value_to_write(station)?))
}
