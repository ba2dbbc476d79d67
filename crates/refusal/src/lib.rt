// The numbers under which the desk says no.
#![tactic(auto)]

ghost use Rattle.std.specs.Prelude.{◌≡◌};
ghost use Rattle.refusal.specs.Number.{number_of, said_of};

use std::error::Error;
use std::fmt;

// One name for each number, in the order of the numbers 1 to 15. Nothing gives 13 to 15 yet.
#[derive(Clone, Copy, Debug, PartialEq, Eq)]
pub enum Refusal {
    // 1: a buffer isn't as long as called for.
    WrongLength,
    // 2: a field to write, or a bit place, is out of range.
    OutOfRange,
    // 3: the nearest word is too far off.
    TooFar,
    // 4: a Golay word is within three flips of no codeword.
    BadGolay,
    // 5: a header's CRC is not zero.
    BadHeader,
    // 6: a callsign or a reserved value that is none.
    BadAddress,
    // 7: the sync is none of the four.
    UnknownSync,
    // 8: a packet slot out of turn, or no packet open.
    OutOfTurn,
    // 9: a final length of 0 or over 25.
    BadFinal,
    // 10: a packet under three bytes.
    TooShort,
    // 11: a packet's CRC is not zero.
    BadPacket,
    // 12: a state with n over 32 or k over 5.
    BadState,
    // 13: a sample that is not finite or is too large.
    BadSample,
    // 14: a call after the end.
    Ended,
    // 15: no room for one more.
    Full,
}

// The number of a refusal.
impl From<Refusal> for u8 {
    ghost from_gives = { λ why n. n ≡ number_of why };

    fn from(why: Refusal) -> u8 {
        match why {
            Refusal::WrongLength => 1,
            Refusal::OutOfRange => 2,
            Refusal::TooFar => 3,
            Refusal::BadGolay => 4,
            Refusal::BadHeader => 5,
            Refusal::BadAddress => 6,
            Refusal::UnknownSync => 7,
            Refusal::OutOfTurn => 8,
            Refusal::BadFinal => 9,
            Refusal::TooShort => 10,
            Refusal::BadPacket => 11,
            Refusal::BadState => 12,
            Refusal::BadSample => 13,
            Refusal::Ended => 14,
            Refusal::Full => 15,
        }
    }
}

// What a refusal means, in words.
impl fmt::Display for Refusal {
    fn fmt<W: fmt::Write>(&self, f: &mut fmt::Formatter<W>) -> fmt::Result {
        f.write_str(match self {
            Refusal::WrongLength => "buffer of another length",
            Refusal::OutOfRange => "field out of range",
            Refusal::TooFar => "nearest word over six bits off",
            Refusal::BadGolay => "Golay word over three bits off",
            Refusal::BadHeader => "header CRC not zero",
            Refusal::BadAddress => "no such address",
            Refusal::UnknownSync => "sync none of the four",
            Refusal::OutOfTurn => "packet slot out of turn or no packet open",
            Refusal::BadFinal => "final length 0 or over 25",
            Refusal::TooShort => "packet under three bytes",
            Refusal::BadPacket => "packet CRC not zero",
            Refusal::BadState => "state out of range",
            Refusal::BadSample => "sample not finite or too large",
            Refusal::Ended => "call after the end",
            Refusal::Full => "no room for one more",
        })
    }
}

impl Error for Refusal {}

// The number of an answer: 0 where it is no refusal.
pub fn said<T: Copy>(answer: Result<T, Refusal>) -> u8
    ensures { result ≡ said_of answer }
{
    match answer {
        Ok(_) => 0,
        Err(why) => u8::from(why),
    }
}
