// What the receiver's answers are called.
use address::{Address, Reading};
use print::Hex;
use protocol::{LsfFrame, StreamFrame};
use std::fmt;
use std::fmt::Display;

// Bytes as text, with a dot for what is not printable ASCII.
#[derive(Clone, Copy)]
pub struct Printable<'a>(pub &'a [u8]);

impl Display for Printable<'_> {
    fn fmt<W: fmt::Write>(&self, f: &mut fmt::Formatter<W>) -> fmt::Result {
        for byte in self.0 {
            let shown = match *byte {
                b' '..=b'~' => char::from(*byte),
                _ => '.',
            };
            f.write_char(shown)?;
        }
        Ok(())
    }
}

// A callsign without the spaces at its end.
fn trimmed(callsign: &[u8; 9]) -> &[u8] {
    callsign.trim_ascii_end()
}

// An address that was read. kept: `readings` shows one otherwise, a callsign whole and in brackets.
#[derive(Clone, Copy)]
struct Whose(Reading);

impl Display for Whose {
    fn fmt<W: fmt::Write>(&self, f: &mut fmt::Formatter<W>) -> fmt::Result {
        let read = self.0;
        match read.address {
            Address::Invalid => write!(f, "invalid"),
            Address::Callsign => write!(f, "callsign {}", Printable(trimmed(&read.callsign))),
            Address::Reserved(value) => write!(f, "reserved {value:012x}"),
            Address::Broadcast => write!(f, "broadcast"),
        }
    }
}

// A header's fields.
#[derive(Clone, Copy)]
pub struct Header(pub LsfFrame);

impl Display for Header {
    fn fmt<W: fmt::Write>(&self, f: &mut fmt::Formatter<W>) -> fmt::Result {
        let frame = self.0;
        let destination = Whose(frame.destination());
        let source = Whose(frame.source());
        write!(f, "destination {destination}, source {source}")?;
        let mode = frame.mode();
        let data_type = frame.data_type();
        let encryption = frame.encryption_type();
        write!(
            f,
            ", mode {mode}, datatype {data_type}, encryption {encryption}"
        )?;
        let channel = frame.channel_access_number();
        let meta = Hex(frame.meta());
        write!(f, ", channel {channel}, meta {meta}")
    }
}

// A stream frame's fields.
#[derive(Clone, Copy)]
pub struct Stream(pub StreamFrame);

impl Display for Stream {
    fn fmt<W: fmt::Write>(&self, f: &mut fmt::Formatter<W>) -> fmt::Result {
        let frame = self.0;
        let counter = frame.lich_idx;
        let part = Hex(&frame.lich_part);
        write!(f, "counter {counter}, part {part}")?;
        let number = frame.frame_number;
        let end = if frame.end_of_stream { "yes" } else { "no" };
        let content = Hex(&frame.stream_data);
        write!(f, ", frame {number}, end {end}, data {content}")
    }
}
