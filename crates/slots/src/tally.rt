// How many slots of each kind there were.
use receiver::{Answer, Late};
use refusal::Refusal;
use std::fmt;
use std::fmt::Display;

// Place n of `refused` counts the refusals of number n. kept: a refusal's number is its place. No recording is so long that a count comes round to 0.
#[derive(Clone, Copy)]
pub struct Tally {
    slots: u64,
    headers: u64,
    packets: u64,
    late: u64,
    refused: [u64; 16],
}

// kept: one line, as in `replay`.
fn count(n: &mut u64) {
    *n = n.wrapping_add(1);
}

impl Tally {
    pub fn new() -> Tally {
        Tally {
            slots: 0,
            headers: 0,
            packets: 0,
            late: 0,
            refused: [0; 16],
        }
    }

    // One slot more, and its number.
    pub fn next_slot(&mut self) -> u64 {
        count(&mut self.slots);
        self.slots
    }

    // The answer to a slot, counted.
    pub fn count(&mut self, answer: Result<Answer, Refusal>) {
        match answer {
            Ok(Answer::Header(_)) => count(&mut self.headers),
            Ok(Answer::Packet(_)) => count(&mut self.packets),
            Ok(Answer::Stream(_, Late::Header(_))) => count(&mut self.late),
            Ok(_) => {}
            Err(why) => count(&mut self.refused[usize::from(u8::from(why) % 16)]),
        }
    }
}

// The counts, and those of the refusals that came.
impl Display for Tally {
    fn fmt<W: fmt::Write>(&self, f: &mut fmt::Formatter<W>) -> fmt::Result {
        let Tally {
            slots,
            headers,
            packets,
            late,
            refused,
        } = *self;
        write!(
            f,
            "summary: slots {slots}, headers {headers}, packets {packets}, late {late}"
        )?;
        for (number, count) in refused.iter().enumerate() {
            if *count != 0 {
                write!(f, ", refused-{number} {count}")?;
            }
        }
        Ok(())
    }
}
