// Interleaving: bit i of 368 goes to place MAPPING[i].
#![tactic(auto)]

ghost use Rattle.std.specs.Prelude.{◌≡◌, length};
ghost use Rattle.laws.specs.Tabled.{tabled};
ghost use Rattle.bits.specs.Bits.{bits_of};
ghost use Rattle.interleave.specs.Interleave.{mapped, interleaved, interleaved_of};

use bits::BitsIterator;
use refusal::Refusal;

static MAPPING: [usize; 368] = [
    0, 137, 90, 227, 180, 317, 270, 39, 360, 129, 82, 219, 172, 309, 262, 31, 352, 121, 74, 211,
    164, 301, 254, 23, 344, 113, 66, 203, 156, 293, 246, 15, 336, 105, 58, 195, 148, 285, 238, 7,
    328, 97, 50, 187, 140, 277, 230, 367, 320, 89, 42, 179, 132, 269, 222, 359, 312, 81, 34, 171,
    124, 261, 214, 351, 304, 73, 26, 163, 116, 253, 206, 343, 296, 65, 18, 155, 108, 245, 198, 335,
    288, 57, 10, 147, 100, 237, 190, 327, 280, 49, 2, 139, 92, 229, 182, 319, 272, 41, 362, 131,
    84, 221, 174, 311, 264, 33, 354, 123, 76, 213, 166, 303, 256, 25, 346, 115, 68, 205, 158, 295,
    248, 17, 338, 107, 60, 197, 150, 287, 240, 9, 330, 99, 52, 189, 142, 279, 232, 1, 322, 91, 44,
    181, 134, 271, 224, 361, 314, 83, 36, 173, 126, 263, 216, 353, 306, 75, 28, 165, 118, 255, 208,
    345, 298, 67, 20, 157, 110, 247, 200, 337, 290, 59, 12, 149, 102, 239, 192, 329, 282, 51, 4,
    141, 94, 231, 184, 321, 274, 43, 364, 133, 86, 223, 176, 313, 266, 35, 356, 125, 78, 215, 168,
    305, 258, 27, 348, 117, 70, 207, 160, 297, 250, 19, 340, 109, 62, 199, 152, 289, 242, 11, 332,
    101, 54, 191, 144, 281, 234, 3, 324, 93, 46, 183, 136, 273, 226, 363, 316, 85, 38, 175, 128,
    265, 218, 355, 308, 77, 30, 167, 120, 257, 210, 347, 300, 69, 22, 159, 112, 249, 202, 339, 292,
    61, 14, 151, 104, 241, 194, 331, 284, 53, 6, 143, 96, 233, 186, 323, 276, 45, 366, 135, 88,
    225, 178, 315, 268, 37, 358, 127, 80, 217, 170, 307, 260, 29, 350, 119, 72, 209, 162, 299, 252,
    21, 342, 111, 64, 201, 154, 291, 244, 13, 334, 103, 56, 193, 146, 283, 236, 5, 326, 95, 48,
    185, 138, 275, 228, 365, 318, 87, 40, 177, 130, 267, 220, 357, 310, 79, 32, 169, 122, 259, 212,
    349, 302, 71, 24, 161, 114, 251, 204, 341, 294, 63, 16, 153, 106, 243, 196, 333, 286, 55, 8,
    145, 98, 235, 188, 325, 278, 47,
];

// The whole table.
fn mapping() -> &'static [usize; 368]
    ensures { result.now ≡ tabled mapped 368 }
{
    &MAPPING
}

// Each bit in order is put at its place.
fn placed_bits(payload: &[u8]) -> [bool; 368]
    requires { length payload.now ≡ 46 }
    ensures { result ≡ interleaved (bits_of payload.now) }
{
    let mut new = [false; 368];
    for (place, bit) in mapping().iter().zip(BitsIterator::new(payload, 0)) {
        new[*place] = bit == 1;
    }
    new
}

// The bits of 46 bytes, each at its place.
pub fn interleave(payload: &[u8]) -> Result<[u8; 46], Refusal>
    ensures { result ≡ interleaved_of payload.now }
{
    if payload.len() != 46 {
        return Err(Refusal::WrongLength);
    }
    let mut bytes = [0u8; 46];
    bits::pack(&placed_bits(payload), &mut bytes);
    Ok(bytes)
}
