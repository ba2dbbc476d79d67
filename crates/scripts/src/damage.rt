// Flipped bits, and which refusal comes first.
use super::run::Run;
use std::io;
use std::io::Write;

fn six_flips<W: Write>(out: &mut W) -> io::Result<()> {
    let run = Run::start(out, "six flips in each slot of a packet", 27)?;
    let open = run.flipped(3, 50, 6)?.open()?.flipped(10, 41, 6)?.piece(0)?;
    open.flipped(7, 60, 6)?
        .last(1, 2)?
        .flipped(100, 40, 6)?
        .stream(1, 0)?;
    Ok(())
}

fn seven_flips<W: Write>(out: &mut W) -> io::Result<()> {
    let run = Run::start(out, "seven flips in a slot of a packet", 77)?;
    let none = run.flipped(3, 50, 7)?.open()?.piece(0)?;
    let shut = none
        .open()?
        .piece(0)?
        .flipped(10, 50, 7)?
        .piece(1)?
        .piece(2)?;
    let last = shut.open()?.pieces(0, 3)?.flipped(10, 50, 7)?.last(3, 2)?;
    last.last(3, 2)?.flipped(100, 40, 7)?.stream(1, 0)?;
    Ok(())
}

fn golay_words<W: Write>(out: &mut W) -> io::Result<()> {
    let run = Run::start(
        out,
        "three flips in each word of a LICH and six beside it, then four in one word",
        0,
    )?;
    let read = run
        .stream(1, 0)?
        .flipped(4, 8, 18)?
        .stream(1, 1)?
        .flipped(0, 1, 4)?
        .stream(1, 2)?;
    let shut = read
        .stream(1, 0)?
        .flipped(24, 7, 4)?
        .stream(1, 1)?
        .stream(1, 2)?;
    let more = shut.stream(1, 0)?.flipped(48, 5, 4)?.stream(1, 1)?;
    more.stream(1, 0)?
        .flipped(72, 3, 4)?
        .stream(1, 1)?
        .flipped(0, 6, 62)?
        .stream(1, 0)?;
    Ok(())
}

fn order<W: Write>(out: &mut W) -> io::Result<()> {
    let run = Run::start(out, "which refusal comes first, in a packet", 3)?;
    let nine = run.open()?.last(0, 0)?.open()?.hand(0, 26)?;
    let ten = nine.open()?.last(0, 1)?.open()?.last(0, 2)?;
    let eleven = ten.open()?.last(0, 4)?.open()?.last(0, 3)?;
    eleven.hand(0, 31)?.flipped(10, 50, 7)?.hand(0, 31)?;
    Ok(())
}

pub fn all<W: Write>(out: &mut W) -> io::Result<()> {
    six_flips(out)?;
    seven_flips(out)?;
    golay_words(out)?;
    order(out)
}
