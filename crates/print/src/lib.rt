// What the programs share: bytes put into a buffer one after another, and bytes in hexadecimal digits.
#![tactic(auto)]

ghost use Rattle.std.specs.Prelude.{◌+◌, ◌≡◌};
ghost use Rattle.print.specs.Appended.{room_for, appended};

use std::convert::AsSlice;
use std::fmt;

// `s` is put into `to` from place `at` on. What finds no room is left out. Answers the place behind it.
pub fn append(to: &mut [u8], at: usize, s: &[u8]) -> usize
    ensures { (result ≡ at + room_for to.old at s.now) × (to.new ≡ appended to.old at s.now) }
{
    let n = s.len().min(to.len().saturating_sub(at));
    if n == 0 {
        return at;
    }
    to[at..at + n].copy_from_slice(&s[..n]);
    at + n
}

// Two hexadecimal digits for each byte.
#[derive(Clone, Copy)]
pub struct Hex<B>(pub B);

impl<B: AsSlice<u8>> fmt::Display for Hex<B> {
    fn fmt<W: fmt::Write>(&self, f: &mut fmt::Formatter<W>) -> fmt::Result {
        for byte in self.0.as_slice() {
            write!(f, "{byte:02x}")?;
        }
        Ok(())
    }
}
