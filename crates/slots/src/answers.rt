// The lines that a slot's answer is said in. An error is that of a line that could not be written.
use crate::lines::Lines;
use crate::words::{Header, Printable, Stream};
use print::Hex;
use protocol::{LsfFrame, StreamFrame};
use receiver::{Answer, Late};
use refusal::Refusal;
use std::io;
use std::io::Write;

// A packet's two lines, both without its two CRC bytes.
// kept: a slot's number goes beside the lines, since the summary is a line with none.
fn packet_lines<W: Write>(
    lines: &mut Lines<'_, W>,
    n: u64,
    total: usize,
    memory: &[u8],
) -> io::Result<()> {
    let content = &memory[..total.saturating_sub(2).min(memory.len())];
    let hex = Hex(content);
    lines.write(format_args!("{n:04} packet: total {total}, content {hex}"))?;
    let text = Printable(content);
    lines.write(format_args!("{n:04} text: {text}"))
}

// A line for the frame, and one where it is the sixth of six parts.
fn stream_lines<W: Write>(
    lines: &mut Lines<'_, W>,
    n: u64,
    frame: StreamFrame,
    late: Late,
) -> io::Result<()> {
    let fields = Stream(frame);
    lines.write(format_args!("{n:04} stream: {fields}"))?;
    match late {
        Late::Nothing => Ok(()),
        Late::Header(bytes) => {
            let fields = Header(LsfFrame { bytes });
            lines.write(format_args!("{n:04} late: {fields}"))
        }
        Late::Spoiled => lines.write(format_args!("{n:04} spoiled: late header CRC not zero")),
    }
}

// The line of what is left at the end, where that is no whole slot.
pub fn rest_line<W: Write>(lines: &mut Lines<'_, W>, n: u64, bytes: usize) -> io::Result<()> {
    lines.write(format_args!("{n:04} rest: bytes {bytes}"))
}

// The lines of slot n.
pub fn say<W: Write>(
    lines: &mut Lines<'_, W>,
    n: u64,
    answer: Result<Answer, Refusal>,
    memory: &[u8],
) -> io::Result<()> {
    match answer {
        Ok(Answer::Header(bytes)) => {
            let fields = Header(LsfFrame { bytes });
            lines.write(format_args!("{n:04} header: {fields}"))
        }
        Ok(Answer::Stored(piece)) => lines.write(format_args!("{n:04} stored: piece {piece}")),
        Ok(Answer::Packet(total)) => packet_lines(lines, n, total, memory),
        Ok(Answer::Stream(frame, late)) => stream_lines(lines, n, frame, late),
        Ok(Answer::Ended) => lines.write(format_args!("{n:04} end: of transmission")),
        Err(why) => {
            let number = u8::from(why);
            lines.write(format_args!("{n:04} refused {number}: {why}"))
        }
    }
}
