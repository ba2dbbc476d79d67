// slots: says what each slot of a recording holds.
//
// The recording is slots of 48 bytes, one after another, in the file that the argument names, or on standard input where there is
// none. One receiver takes them in order. Each line on standard output is
//
//     NNNN kind: field value, field value
//
// with the slot's number, from 0001 on. Bytes and reserved addresses are in hexadecimal, all other numbers in decimal. The kinds and
// their fields:
//
//     header: destination, source, mode, datatype, encryption, channel, meta
//     stored: piece
//     packet: total, content (without its two CRC bytes)
//     text: the content once more, with a dot for each byte that is not printable ASCII
//     stream: counter, part, frame, end, data
//     late: a late header's fields, as for header
//     spoiled: the six parts gathered are no header
//     end: of transmission
//     refused N: what the number means
//     rest: bytes, of a slot that the recording does not have whole
//
// An address is "callsign" and its characters, "reserved" and its number, "broadcast" or "invalid". A packet has two lines, packet and
// text; a stream slot has a second line, late or spoiled, where it is the sixth of six parts. The last line has no slot's number: it is
// "summary: " with the counts of slots, headers, packets and late headers (late), and of each refusal that came (refused-N).
//
// The exit status is 0 where the recording was read to its end; 1 where it could not be read or a line could not be written, and standard
// error says why; 2 for more than one argument.
#![tactic(auto)]

mod answers;
mod lines;
mod recording;
mod tally;
mod words;

use lines::Lines;
use recording::{Failure, read_recording};
use std::env::{Env, FillError};
use std::io::Read;
use std::process::ExitCode;
use std::rt::Runtime;
use std::{fs, io, str};

// Says on standard error what failed and why.
// kept: `replay` has the same: shared, it would be a public function that promises nothing.
fn fail(rt: &impl Runtime, what: &str, why: io::Error) -> ExitCode {
    let _ = eprintln!(rt; "{what}: {why}");
    ExitCode::FAILURE
}

fn read_input<I: Read>(rt: &impl Runtime, input: &mut I, name: &str) -> ExitCode {
    match read_recording(input, &mut Lines::new(&mut io::writer(rt))) {
        Ok(()) => ExitCode::SUCCESS,
        Err(Failure::Input(why)) => fail(rt, name, why),
        Err(Failure::Output(why)) => fail(rt, "standard output", why),
    }
}

fn read_file(rt: &impl Runtime, path: &str) -> ExitCode {
    match fs::open(rt, path) {
        Ok(mut file) => read_input(rt, &mut file, path),
        Err(why) => fail(rt, path, why),
    }
}

// Today's library opens a file by a name that is text.
fn read_named(rt: &impl Runtime, name: &[u8]) -> ExitCode {
    match str::from_utf8(name) {
        Ok(path) => read_file(rt, path),
        Err(_) => fail(
            rt,
            "the file's name",
            io::Error::from(io::ErrorKind::InvalidData),
        ),
    }
}

fn main(rt: HostRuntime) -> ExitCode {
    if !matches!(rt.arg(2, &mut []), Err(FillError::NotPresent)) {
        let _ = eprintln!(rt; "usage: slots [RECORDING]");
        return ExitCode::from(2);
    }
    let mut name = [0u8; 4096];
    match rt.arg(1, &mut name) {
        Ok(n) => read_named(&rt, &name[..n]),
        Err(FillError::NotPresent) => read_input(&rt, &mut rt.reader(), "standard input"),
        Err(_) => fail(
            &rt,
            "the file's name",
            io::Error::from(io::ErrorKind::InvalidData),
        ),
    }
}
