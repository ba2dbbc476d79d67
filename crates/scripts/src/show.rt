// What the receiver answers, which state comes next and what became of memory, in words and hex.
use print::Hex;
use protocol::StreamFrame;
use receiver::{Answer, Late, Phase, Receiver};
use refusal::Refusal;
use std::io;
use std::io::Write;

// The packet that memory begins with.
fn packet<W: Write>(out: &mut W, memory: &[u8], total: usize) -> io::Result<()> {
    write!(out, "packet of {total}")?;
    if let Some(bytes) = memory.get(..total) {
        write!(out, " {}", Hex(bytes))?;
    }
    Ok(())
}

fn fields<W: Write>(out: &mut W, frame: &StreamFrame) -> io::Result<()> {
    let counter = frame.lich_idx;
    let part = Hex(&frame.lich_part);
    let number = frame.frame_number;
    let content = Hex(&frame.stream_data);
    write!(out, "fields {counter} {part} number {number:04x} {content}")?;
    if frame.end_of_stream {
        write!(out, " last")?;
    }
    Ok(())
}

fn late<W: Write>(out: &mut W, brings: Late) -> io::Result<()> {
    match brings {
        Late::Nothing => Ok(()),
        Late::Header(bytes) => write!(out, " late header {}", Hex(bytes)),
        Late::Spoiled => write!(out, " spoiled"),
    }
}

pub fn answer<W: Write>(
    out: &mut W,
    said: Result<Answer, Refusal>,
    memory: &[u8],
) -> io::Result<()> {
    write!(out, ": ")?;
    match said {
        Ok(Answer::Header(bytes)) => write!(out, "header {}", Hex(bytes)),
        Ok(Answer::Stored(n)) => write!(out, "stored {n}"),
        Ok(Answer::Packet(total)) => packet(out, memory, total),
        Ok(Answer::Stream(frame, brings)) => {
            fields(out, &frame)?;
            late(out, brings)
        }
        Ok(Answer::Ended) => write!(out, "end"),
        Err(why) => write!(out, "refused {}", u8::from(why)),
    }
}

pub fn state<W: Write>(out: &mut W, next: Receiver) -> io::Result<()> {
    let parts = next.parts;
    let is_gathering = match next.phase {
        Phase::Idle => {
            write!(out, " | idle")?;
            false
        }
        Phase::Packet(n) => {
            write!(out, " | packet {n}")?;
            false
        }
        Phase::Gathering(k) => {
            write!(out, " | gathering {k}")?;
            true
        }
    };
    // Bytes that are to be zeros show only where they are not.
    if is_gathering || parts.iter().any(|byte| *byte != 0) {
        write!(out, " {}", Hex(parts))?;
    }
    Ok(())
}

// The first and the last place that differ.
fn differing(old: &[u8], new: &[u8]) -> Option<(usize, usize)> {
    let first = old.iter().zip(new.iter()).position(|(a, b)| a != b)?;
    let last = old.iter().zip(new.iter()).rposition(|(a, b)| a != b)?;
    Some((first, last))
}

// Which places of memory changed: the first and the last, or a dash.
pub fn changes<W: Write>(out: &mut W, old: &[u8], new: &[u8]) -> io::Result<()> {
    match differing(old, new) {
        Some((first, last)) => writeln!(out, " | {first} to {last}"),
        None => writeln!(out, " | -"),
    }
}
