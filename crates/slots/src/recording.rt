// A recording, read slot by slot to its end.
use crate::answers::{rest_line, say};
use crate::lines::Lines;
use crate::tally::Tally;
use receiver::Receiver;
use std::io;
use std::io::{Read, Write};

// Why a recording was not read to its end: it could not be read, or a line could not be written.
#[derive(Drop)]
pub enum Failure {
    Input(io::Error),
    Output(io::Error),
}

// Reads until the slot is full, the input ends or a read fails. Gives how many bytes there were. Each turn brings a byte or more.
// kept: `read_exact` does not say how many bytes there were before the end, and reads again where it was interrupted.
fn fill<R: Read>(input: &mut R, slot: &mut [u8]) -> io::Result<usize> {
    let mut done = 0;
    for _ in 0..slot.len() {
        match input.read(&mut slot[done..])? {
            0 => break,
            got => done += got,
        }
        if done == slot.len() {
            break;
        }
    }
    Ok(done)
}

// The lines at the end of a recording, after so many bytes that are no slot.
fn last_lines<W: Write>(lines: &mut Lines<'_, W>, tally: Tally, bytes: usize) -> io::Result<()> {
    let mut after = tally;
    if 0 < bytes {
        rest_line(lines, after.next_slot(), bytes)?;
    }
    lines.write(tally)
}

// kept: a proved loop has to end, and nothing says that a recording does: no run uses up the turns.
pub fn read_recording<R: Read, W: Write>(
    input: &mut R,
    lines: &mut Lines<'_, W>,
) -> Result<(), Failure> {
    let mut receiver = Receiver::new();
    let mut memory = [0u8; 825];
    let mut tally = Tally::new();
    for _ in 0..u64::MAX {
        let mut slot = [0u8; 48];
        let bytes = fill(input, &mut slot).map_err(Failure::Input)?;
        if bytes < slot.len() {
            return last_lines(lines, tally, bytes).map_err(Failure::Output);
        }
        let got = receiver.receive(&slot, &mut memory);
        receiver = got.next;
        let n = tally.next_slot();
        tally.count(got.answer);
        say(lines, n, got.answer, &memory).map_err(Failure::Output)?;
    }
    Ok(())
}
