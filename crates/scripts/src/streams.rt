// Headers, and headers gathered from streams.
use super::run::Run;
use super::slots;
use super::slots::{PACKET, STREAM};
use std::io;
use std::io::Write;

fn stream_header<W: Write>(out: &mut W) -> io::Result<()> {
    let run = Run::start(out, "a stream header, also inside a packet", 27)?;
    let idle = run.header(1, STREAM, 0)?.piece(0)?.open()?.piece(0)?;
    idle.header(2, STREAM, 0)?.last(1, 2)?;
    Ok(())
}

fn bad_header<W: Write>(out: &mut W) -> io::Result<()> {
    let run = Run::start(out, "a header with a bad CRC, also inside a packet", 27)?;
    let shut = run.header(1, PACKET, 1)?.piece(0)?.open()?.piece(0)?;
    let none = shut.header(2, PACKET, 0x80)?.last(1, 2)?.streams(1, 0, 2)?;
    none.header(1, STREAM, 1)?
        .stream(1, 2)?
        .flipped(3, 50, 7)?
        .header(1, PACKET, 1)?;
    Ok(())
}

fn all_zero<W: Write>(out: &mut W) -> io::Result<()> {
    let run = Run::start(
        out,
        "the body of all-zero fields under each sync, in a packet",
        27,
    )?;
    let open = run.zeros(0x55F7)?.zeros(0x75FF)?.open()?.zeros(0x75FF)?;
    open.zeros(0xFF5D)?.zeros(0x555D)?.zeros(0x55F7)?;
    Ok(())
}

fn joined<W: Write>(out: &mut W, from: u16, to: u16) -> io::Result<()> {
    Run::start(out, "eleven slots of a stream", 0)?.streams(1, from, to)?;
    Ok(())
}

fn senders_mixed<W: Write>(out: &mut W) -> io::Result<()> {
    let run = Run::start(out, "two senders in turn, then half and half, then one", 0)?;
    let turns = run
        .stream(1, 0)?
        .stream(2, 0)?
        .stream(1, 1)?
        .stream(2, 1)?
        .stream(1, 2)?;
    let halves = turns.stream(2, 2)?.streams(1, 6, 9)?.streams(2, 3, 6)?;
    halves.streams(2, 6, 12)?;
    Ok(())
}

fn slot_lost<W: Write>(out: &mut W) -> io::Result<()> {
    let run = Run::start(out, "a stream slot lost, one doubled, and six lost", 0)?;
    let lost = run.streams(1, 0, 3)?.streams(1, 4, 12)?;
    let doubled = lost.streams(1, 12, 15)?.streams(1, 14, 18)?;
    doubled.streams(1, 18, 21)?.streams(1, 27, 30)?;
    Ok(())
}

fn between_parts<W: Write>(out: &mut W) -> io::Result<()> {
    let run = Run::start(out, "other slots between the parts, with a packet", 27)?;
    let far = run
        .streams(1, 0, 3)?
        .flipped(100, 40, 7)?
        .stream(1, 3)?
        .streams(1, 3, 6)?;
    let sync = far.streams(1, 6, 9)?.sync(0x5555, 0)?.streams(1, 9, 12)?;
    let packet = sync.streams(1, 12, 15)?.piece(0)?.streams(1, 15, 18)?;
    let end = packet.streams(1, 18, 23)?.sync(0x555D, 0)?.stream(1, 23)?;
    end.streams(1, 24, 29)?.header(1, STREAM, 0)?.stream(1, 29)?;
    Ok(())
}

fn spoiled<W: Write>(out: &mut W) -> io::Result<()> {
    let run = Run::start(
        out,
        "six parts whose CRC is not zero, then a packet header's parts",
        0,
    )?;
    let six = run.parts(slots::header(1, STREAM, 1), 0, 6)?;
    six.parts(slots::header(3, PACKET, 0), 6, 12)?.piece(0)?;
    Ok(())
}

fn other_counters<W: Write>(out: &mut W) -> io::Result<()> {
    let run = Run::start(
        out,
        "counters 6 and 7, and the five bits after a counter",
        0,
    )?;
    let six = run
        .streams(1, 0, 4)?
        .twisted(0x040)?
        .stream(1, 4)?
        .stream(1, 5)?;
    let seven = six.streams(1, 6, 11)?.twisted(0x040)?.stream(1, 11)?;
    seven
        .streams(1, 12, 14)?
        .twisted(0x01F)?
        .stream(1, 14)?
        .streams(1, 15, 18)?;
    Ok(())
}

fn stream_in_packet<W: Write>(out: &mut W) -> io::Result<()> {
    let run = Run::start(out, "stream slots inside a packet", 53)?;
    let starts = run.open()?.piece(0)?.stream(1, 0)?.piece(1)?.stream(1, 1)?;
    starts
        .open()?
        .piece(0)?
        .stream(1, 1)?
        .piece(1)?
        .stream(1, 0)?
        .last(2, 3)?;
    Ok(())
}

fn stream_ends<W: Write>(out: &mut W) -> io::Result<()> {
    let run = Run::start(out, "end marks, and the greatest frame number", 0)?;
    let h = slots::header(1, STREAM, 0);
    run.streams(1, 32760, 32765)?
        .part(h, 32765, true)?
        .part(h, 32767, false)?
        .part(h, 32767, true)?;
    Ok(())
}

pub fn all<W: Write>(out: &mut W) -> io::Result<()> {
    stream_header(out)?;
    bad_header(out)?;
    all_zero(out)?;
    for from in 0..6 {
        joined(out, from, from + 11)?;
    }
    senders_mixed(out)?;
    slot_lost(out)?;
    between_parts(out)?;
    spoiled(out)?;
    other_counters(out)?;
    stream_in_packet(out)?;
    stream_ends(out)
}
