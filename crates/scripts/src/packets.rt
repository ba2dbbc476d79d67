// Packets whole, broken and refused.
use super::run::Run;
use super::slots::PACKET;
use receiver::Phase;
use std::io;
use std::io::Write;

fn clean<W: Write>(out: &mut W, total: usize) -> io::Result<()> {
    Run::start(out, "a clean packet", total)?
        .open()?
        .packet(total)?;
    Ok(())
}

fn frame_lost<W: Write>(out: &mut W) -> io::Result<()> {
    let run = Run::start(out, "frame 1 lost, then the whole packet", 77)?;
    let lost = run.open()?.piece(0)?.pieces(2, 3)?.last(3, 2)?;
    lost.open()?.packet(77)?;
    Ok(())
}

fn frame_doubled<W: Write>(out: &mut W) -> io::Result<()> {
    let run = Run::start(out, "frame 1 twice in a packet", 77)?;
    run.open()?.pieces(0, 2)?.pieces(1, 3)?.last(3, 2)?;
    Ok(())
}

fn frames_swapped<W: Write>(out: &mut W) -> io::Result<()> {
    let run = Run::start(out, "frames 1 and 2 swapped in a packet", 77)?;
    run.open()?.piece(0)?.piece(2)?.piece(1)?.last(3, 2)?;
    Ok(())
}

fn header_lost<W: Write>(out: &mut W) -> io::Result<()> {
    let run = Run::start(out, "the header lost of a packet", 27)?;
    run.packet(27)?;
    Ok(())
}

fn final_lost<W: Write>(out: &mut W) -> io::Result<()> {
    let run = Run::start(out, "the final frame lost of a packet", 53)?;
    let open = run.open()?.pieces(0, 2)?;
    open.send(28).header(2, PACKET, 0)?.packet(28)?;
    Ok(())
}

fn out_of_turn<W: Write>(out: &mut W) -> io::Result<()> {
    let run = Run::start(out, "frames out of turn of a packet", 77)?;
    let shut = run.piece(0)?.last(0, 3)?.piece(31)?.open()?.piece(1)?;
    shut.open()?.piece(31)?.open()?.piece(0)?.piece(0)?;
    Ok(())
}

fn second_shorter<W: Write>(out: &mut W) -> io::Result<()> {
    let run = Run::start(out, "one of 28 bytes after a packet", 77)?;
    let first = run.open()?.packet(77)?;
    first.send(28).header(2, PACKET, 0)?.packet(28)?.last(1, 3)?;
    Ok(())
}

fn header_inside<W: Write>(out: &mut W) -> io::Result<()> {
    let run = Run::start(out, "a header inside a packet", 77)?;
    let open = run.open()?.piece(0)?.header(2, PACKET, 0)?.piece(1)?;
    let again = open.open()?.pieces(0, 2)?.header(2, PACKET, 0)?;
    again.send(26).packet(26)?;
    Ok(())
}

fn pieces_mixed<W: Write>(out: &mut W) -> io::Result<()> {
    let run = Run::start(out, "a piece of another packet inside a packet", 77)?;
    let mixed = run.open()?.piece(0)?.send(78).piece(1)?.send(77).piece(2)?;
    mixed.last(3, 2)?;
    Ok(())
}

fn wrong_sum<W: Write>(out: &mut W) -> io::Result<()> {
    let run = Run::start(out, "a wrong CRC in a packet", 77)?;
    let shut = run.open()?.pieces(0, 3)?.send(78).last(3, 2)?.last(3, 2)?;
    shut.send(3).open()?.last(0, 4)?.open()?.last(0, 3)?;
    Ok(())
}

fn bad_final<'a, W: Write>(run: Run<'a, W>, len: u8) -> io::Result<Run<'a, W>> {
    run.open()?.piece(0)?.hand(1, len)
}

fn final_lengths<W: Write>(out: &mut W) -> io::Result<()> {
    let run = Run::start(
        out,
        "final lengths that are none, and rubbish after a length, in a packet",
        30,
    )?;
    let a = bad_final(run.open()?.piece(0)?.last(1, 0)?, 26)?;
    let b = bad_final(bad_final(a, 27)?, 28)?;
    let c = bad_final(bad_final(b, 29)?, 30)?;
    let d = bad_final(bad_final(c, 31)?, 0)?;
    d.open()?.piece(0)?.hand(1, 5)?;
    Ok(())
}

fn full_memory<W: Write>(out: &mut W) -> io::Result<()> {
    let run = Run::start(
        out,
        "frame 31 stored, and then no frame but a final one, in a packet",
        825,
    )?;
    let full = run.open()?.pieces(0, 32)?.hand(32, 0)?;
    let shut = full.state(Phase::Packet(32), 0, 0)?.piece(31)?;
    shut.state(Phase::Packet(32), 0, 0)?
        .piece(0)?
        .state(Phase::Packet(32), 0, 0)?
        .last(32, 25)?;
    Ok(())
}

pub fn all<W: Write>(out: &mut W) -> io::Result<()> {
    for total in [1, 2, 3, 25, 26, 800, 824, 825] {
        clean(out, total)?;
    }
    frame_lost(out)?;
    frame_doubled(out)?;
    frames_swapped(out)?;
    header_lost(out)?;
    final_lost(out)?;
    out_of_turn(out)?;
    second_shorter(out)?;
    header_inside(out)?;
    pieces_mixed(out)?;
    wrong_sum(out)?;
    final_lengths(out)?;
    full_memory(out)
}
