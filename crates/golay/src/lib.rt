// The extended Golay(24,12) code, for the outside crate cai_golay.
#![tactic(auto)]

ghost use Rattle.std.specs.Prelude.{◌≡◌, ℕ, ◌*◌, ◌/◌, ◌^◌, ◌<◌, MatchOption, Ok, Err};
ghost use Rattle.laws.specs.Tabled.{tabled};
ghost use Rattle.refusal.specs.declared.Refusal.TheVariants.{BadGolay};
ghost use Rattle.golay.specs.Golay.{golay, is_word, near_below, encoded_of, decoded_of};

use refusal::Refusal;

// The codewords of data whose lower six bits are zero.
static UPPER: [u32; 64] = [
    0x000000, 0x040D99, 0x0803DA, 0x0C0E43, 0x1007B4, 0x140A2D, 0x18046E, 0x1C09F7, 0x200F68,
    0x2402F1, 0x280CB2, 0x2C012B, 0x3008DC, 0x340545, 0x380B06, 0x3C069F, 0x40063B, 0x440BA2,
    0x4805E1, 0x4C0878, 0x50018F, 0x540C16, 0x580255, 0x5C0FCC, 0x600953, 0x6404CA, 0x680A89,
    0x6C0710, 0x700EE7, 0x74037E, 0x780D3D, 0x7C00A4, 0x800C75, 0x8401EC, 0x880FAF, 0x8C0236,
    0x900BC1, 0x940658, 0x98081B, 0x9C0582, 0xA0031D, 0xA40E84, 0xA800C7, 0xAC0D5E, 0xB004A9,
    0xB40930, 0xB80773, 0xBC0AEA, 0xC00A4E, 0xC407D7, 0xC80994, 0xCC040D, 0xD00DFA, 0xD40063,
    0xD80E20, 0xDC03B9, 0xE00526, 0xE408BF, 0xE806FC, 0xEC0B65, 0xF00292, 0xF40F0B, 0xF80148,
    0xFC0CD1,
];

// The codewords of data of six bits.
static LOWER: [u32; 64] = [
    0x000000, 0x0018EB, 0x00293E, 0x0031D5, 0x004A97, 0x00527C, 0x0063A9, 0x007B42, 0x008DC6,
    0x00952D, 0x00A4F8, 0x00BC13, 0x00C751, 0x00DFBA, 0x00EE6F, 0x00F684, 0x010367, 0x011B8C,
    0x012A59, 0x0132B2, 0x0149F0, 0x01511B, 0x0160CE, 0x017825, 0x018EA1, 0x01964A, 0x01A79F,
    0x01BF74, 0x01C436, 0x01DCDD, 0x01ED08, 0x01F5E3, 0x0206CD, 0x021E26, 0x022FF3, 0x023718,
    0x024C5A, 0x0254B1, 0x026564, 0x027D8F, 0x028B0B, 0x0293E0, 0x02A235, 0x02BADE, 0x02C19C,
    0x02D977, 0x02E8A2, 0x02F049, 0x0305AA, 0x031D41, 0x032C94, 0x03347F, 0x034F3D, 0x0357D6,
    0x036603, 0x037EE8, 0x03886C, 0x039087, 0x03A152, 0x03B9B9, 0x03C2FB, 0x03DA10, 0x03EBC5,
    0x03F32E,
];

fn upper() -> &'static [u32; 64]
    ensures { result.now ≡ tabled (λ (k : ℕ). golay (k * 64)) 64 }
{
    &UPPER
}

fn lower() -> &'static [u32; 64]
    ensures { result.now ≡ tabled golay 64 }
{
    &LOWER
}

// The code is linear: a codeword is that of the upper six bits xored with that of the lower.
fn word_of(value: u32) -> u32
    requires { value < 4096 }
    ensures { result ≡ golay value }
{
    let high = upper();
    let low = lower();
    high[(value / 64) as usize] ^ low[(value % 64) as usize]
}

fn is_word(word: u32) -> bool
    requires { word < 2 ^ 24 }
    ensures { result ≡ is_word word }
{
    word_of(word / 4096) == word
}

// One, two or three places are flipped until a codeword is found: nested loops left by a label, as document 01 names the form.
fn nearest(word: u32) -> Option<u32>
    requires { word < 2 ^ 24 }
    ensures { MatchOption result (near_below 4096 word ≡ Err BadGolay) (λ hit. (hit < 2 ^ 24) × (near_below 4096 word ≡ Ok (hit / 4096))) }
{
    'search: {
        if is_word(word) {
            break 'search Some(word);
        }
        for i in 0..24u32 {
            let a = word ^ (1 << i);
            if is_word(a) {
                break 'search Some(a);
            }
            for j in i + 1..24 {
                let b = a ^ (1 << j);
                if is_word(b) {
                    break 'search Some(b);
                }
                for k in j + 1..24 {
                    let c = b ^ (1 << k);
                    if is_word(c) {
                        break 'search Some(c);
                    }
                }
            }
        }
        None
    }
}

// The codeword of the data.
pub fn encode(value: u16) -> Result<u32, Refusal>
    ensures { result ≡ encoded_of value }
{
    if 4096 <= value {
        return Err(Refusal::OutOfRange);
    }
    Ok(word_of(u32::from(value)))
}

// The data of the only codeword within three flipped bits.
pub fn decode(word: u32) -> Result<u16, Refusal>
    ensures { result ≡ decoded_of word }
{
    if 0x1000000 <= word {
        return Err(Refusal::BadGolay);
    }
    let hit = nearest(word).ok_or(Refusal::BadGolay)?;
    Ok((hit / 4096) as u16)
}
