// Sync words, lengths, and states built by hand.
use super::run::Run;
use receiver::Phase;
use std::io;
use std::io::Write;

fn unknown_syncs<W: Write>(out: &mut W) -> io::Result<()> {
    let run = Run::start(out, "unknown syncs, also inside a packet", 53)?;
    let none = run
        .sync(0, 0)?
        .sync(0xFFFF, 0xFF)?
        .sync(0x55F6, 0)?
        .sync(0xFF5C, 0)?
        .sync(0x75FE, 0)?;
    let turned = none
        .sync(0x555F, 0)?
        .sync(0xF755, 0)?
        .sync(0x5DFF, 0)?
        .sync(0xDF55, 0)?;
    turned
        .open()?
        .piece(0)?
        .sync(0x5555, 0x55)?
        .piece(1)?
        .last(2, 3)?;
    Ok(())
}

fn ends<W: Write>(out: &mut W) -> io::Result<()> {
    let run = Run::start(
        out,
        "end of transmission with any body, also inside a packet",
        53,
    )?;
    let idle = run.sync(0x555D, 0)?.sync(0x555D, 0xFF)?.open()?.piece(0)?;
    idle.sync(0x555D, 0x5A)?
        .piece(1)?
        .stream(1, 0)?
        .sync(0x555D, 1)?
        .stream(1, 1)?;
    Ok(())
}

fn lengths<W: Write>(out: &mut W) -> io::Result<()> {
    let run = Run::start(
        out,
        "slots and memories of other lengths inside a packet",
        53,
    )?;
    let idle = run.cut(0, 47, 825)?.open()?.piece(0)?;
    let slots = idle.cut(1, 47, 825)?.cut(1, 49, 825)?.cut(1, 0, 825)?;
    let rooms = slots
        .cut(1, 48, 824)?
        .cut(1, 48, 826)?
        .cut(1, 47, 824)?
        .cut(1, 48, 0)?;
    rooms.piece(1)?.cut(2, 48, 826)?.last(2, 3)?;
    Ok(())
}

fn lengths_between_parts<W: Write>(out: &mut W) -> io::Result<()> {
    let run = Run::start(
        out,
        "slots and memories of other lengths between the parts, with a packet",
        53,
    )?;
    run.streams(1, 0, 3)?
        .cut(0, 47, 825)?
        .cut(0, 48, 826)?
        .streams(1, 3, 6)?;
    Ok(())
}

fn bad_packet_state<W: Write>(out: &mut W) -> io::Result<()> {
    let run = Run::start(out, "a state with n over 32, and a packet", 3)?;
    let bad = run
        .state(Phase::Packet(33), 0, 0)?
        .piece(0)?
        .last(0, 3)?
        .open()?;
    let more = bad
        .stream(1, 0)?
        .sync(0x555D, 0)?
        .sync(0, 0)?
        .cut(0, 47, 825)?
        .cut(0, 48, 824)?;
    let most = more
        .state(Phase::Packet(18446744073709551615), 0, 0x77)?
        .sync(0, 0)?;
    most.state(Phase::Idle, 0, 0x77)?.open()?.packet(3)?;
    Ok(())
}

fn bad_gathering_state<W: Write>(out: &mut W) -> io::Result<()> {
    let run = Run::start(out, "a state with k over 5, and a packet", 3)?;
    let bad = run
        .state(Phase::Gathering(6), 0, 0x77)?
        .streams(1, 0, 1)?
        .sync(0, 0)?
        .piece(0)?;
    let good = bad
        .open()?
        .cut(0, 49, 825)?
        .state(Phase::Gathering(0), 0, 0x77)?;
    good.stream(1, 1)?
        .state(Phase::Gathering(0), 0, 0x77)?
        .streams(1, 0, 6)?;
    Ok(())
}

fn rubbish<W: Write>(out: &mut W) -> io::Result<()> {
    let run = Run::start(
        out,
        "a state with rubbish beyond its parts, and a packet",
        28,
    )?;
    let three = run
        .streams(1, 0, 3)?
        .state(Phase::Gathering(3), 15, 0x77)?
        .cut(0, 47, 825)?;
    let late = three.streams(1, 3, 6)?.streams(1, 6, 11)?;
    let five = late.state(Phase::Gathering(5), 25, 0x77)?.stream(1, 11)?;
    let open = five.open()?.piece(0)?.state(Phase::Packet(1), 0, 0x77)?;
    open.last(1, 3)?;
    Ok(())
}

pub fn all<W: Write>(out: &mut W) -> io::Result<()> {
    unknown_syncs(out)?;
    ends(out)?;
    lengths(out)?;
    lengths_between_parts(out)?;
    bad_packet_state(out)?;
    bad_gathering_state(out)?;
    rubbish(out)
}
