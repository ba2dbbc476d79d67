// The bits of bytes: bit 0 is the top bit of byte 0.
#![tactic(auto)]

ghost use Rattle.std.specs.Prelude.{◌≡◌, false, ◌*◌, ◌<◌, length, get_or};
ghost use Rattle.std.specs.Iterator.{at_most};
ghost use Rattle.bits.specs.Bits.{bits_of, bit, byte_of, bytes_of};
ghost use Rattle.bits.specs.Places.{get_of, set_of, with_bit};
ghost use Rattle.bits.specs.Reader.{Reads, next_of, place_after, bits_left};

use refusal::Refusal;

fn peek(bytes: &[u8], place: usize) -> u8
    requires { place < 8 * length bytes.now }
    ensures { result ≡ bit (get_or (bits_of bytes.now) place false) }
{
    (bytes[place / 8] >> (7 - place % 8)) % 2
}

fn put(bytes: &mut [u8], place: usize, value: u8)
    requires { place < 8 * length bytes.old }
    ensures { bytes.new ≡ with_bit bytes.old place value }
{
    let at = place / 8;
    let existing = bytes[at];
    let mask: u8 = 1 << (7 - place % 8);
    if value == 0 {
        bytes[at] = existing & !mask;
    } else {
        bytes[at] = existing | mask;
    }
}

// The bit at a place.
pub fn get_bit(bytes: &[u8], place: usize) -> Result<u8, Refusal>
    ensures { result ≡ get_of bytes.now place }
{
    if bytes.len() <= place / 8 {
        return Err(Refusal::OutOfRange);
    }
    Ok(peek(bytes, place))
}

// The bit at a place becomes 0 where the value is 0, and 1 where it is any other.
pub fn set_bit(bytes: &mut [u8], place: usize, value: u8) -> Result<(), Refusal>
    ensures { (result ≡ set_of bytes.old place) × (bytes.new ≡ with_bit bytes.old place value) }
{
    if place / 8 < bytes.len() {
        put(bytes, place, value);
        return Ok(());
    }
    Err(Refusal::OutOfRange)
}

// Bits in order: a lent slice, and the place of the bit that comes next.
#[derive(Clone, Copy)]
pub struct BitsIterator<'a> {
    pub bits: &'a [u8],
    pub idx: usize,
}

// The next bit, or the end, which leaves the place as it is. No place comes after the last of usize, so no bit is read there.
pub fn next_bit(bytes: &[u8], place: &mut usize) -> Option<u8>
    ensures { (result ≡ next_of bytes.now place.old) × (place.new ≡ place_after bytes.now place.old) }
{
    let next = place.checked_add(1)?;
    let bit = get_bit(bytes, *place).ok()?;
    *place = next;
    Some(bit)
}

impl<'a> BitsIterator<'a> {
    // A reader at a place: 0 reads all.
    pub fn new(bits: &'a [u8], idx: usize) -> BitsIterator<'a>
        ensures { (result.bits ≡ bits.entry) × (result.idx ≡ idx) }
    {
        BitsIterator { bits, idx }
    }
}

impl<'a> Iterator for BitsIterator<'a> {
    type Item = u8;

    ghost next_gives = { Reads };

    ghost remaining = { λ s. at_most (bits_left s) };

    fn next(&mut self) -> Option<u8> {
        next_bit(self.bits, &mut self.idx)
    }
}

// The byte of fewer than eight bits: a bit that is missing is 0.
fn last_byte(bits: &[bool]) -> u8
    ensures { result ≡ byte_of bits.now }
{
    let mut byte = 0;
    // kept: by the place: `get(k)` shows where a bit may be missing; with eight zeros chained and eight bits taken, that would be in the iterator.
    for k in 0..8 {
        byte = 2 * byte + u8::from(bits.get(k).copied().unwrap_or(false));
    }
    byte
}

// The byte of the first eight bits.
// kept: two functions of one contract: with `last_byte` alone 46 bytes are packed in 184 ns and not 153, a fifth longer.
fn byte_of(bits: &[bool]) -> u8
    ensures { result ≡ byte_of bits.now }
{
    match bits {
        [a, b, c, d, e, f, g, h, ..] => {
            128 * u8::from(*a)
                + 64 * u8::from(*b)
                + 32 * u8::from(*c)
                + 16 * u8::from(*d)
                + 8 * u8::from(*e)
                + 4 * u8::from(*f)
                + 2 * u8::from(*g)
                + u8::from(*h)
        }
        _ => last_byte(bits),
    }
}

// The bits packed, and zeros past them.
pub fn pack(bits: &[bool], out: &mut [u8])
    ensures { out.new ≡ bytes_of (length out.old) bits.now }
{
    let mut left = bits;
    // kept: the rest by hand: of bytes written through `out.iter_mut().zip(bits.chunks(8))` nothing is known afterwards.
    for byte in out.iter_mut() {
        *byte = byte_of(left);
        left = &left[8.min(left.len())..];
    }
}
