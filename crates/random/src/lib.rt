// Randomiser for frame payloads.
#![tactic(auto)]

ghost use Rattle.std.specs.Prelude.{◌≡◌};
ghost use Rattle.random.specs.Random.{random_seq, xored};

static RANDOM_SEQ: [u8; 46] = [
    0xD6, 0xB5, 0xE2, 0x30, 0x82, 0xFF, 0x84, 0x62, 0xBA, 0x4E, 0x96, 0x90, 0xD8, 0x98, 0xDD, 0x5D,
    0x0C, 0xC8, 0x52, 0x43, 0x91, 0x1D, 0xF8, 0x6E, 0x68, 0x2F, 0x35, 0xDA, 0x14, 0xEA, 0xCD, 0x76,
    0x19, 0x8D, 0xD5, 0x80, 0xD1, 0x33, 0x87, 0x13, 0x57, 0x18, 0x2D, 0x29, 0x78, 0xC3,
];

fn sequence() -> &'static [u8; 46]
    ensures { result.now ≡ random_seq }
{
    &RANDOM_SEQ
}

// Each byte is xored with the sequence's byte at its place mod 46.
pub fn random_xor(bytes: &mut [u8])
    ensures { bytes.new ≡ xored bytes.old }
{
    let seq = sequence();
    // kept: the place mod 46 is the document's rule, and `sequence().iter().cycle()` would hide it behind an iterator that has no end.
    for (i, byte) in bytes.iter_mut().enumerate() {
        *byte ^= seq[i % 46];
    }
}
