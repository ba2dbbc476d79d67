// replay: asks again what the Rust was asked, and compares the answers.
//
// The argument names a file of m17core's recorded answers: a line of text, then records, each a byte for its kind, the bytes asked about
// and the answer. `data/README.md` has every field. A line on standard output for each kind says how many records there were and how
// many of them were answered, were refused and differ; before these, the first record that differs is named by its place in the file.
#![tactic(auto)]

mod asked;
mod kinds;
mod records;
mod replayed;

use replayed::replay;
use std::env::{Env, FillError};
use std::io::{BufReader, BufWriter, Write};
use std::process::ExitCode;
use std::rt::Runtime;
use std::{fs, io, str};

// Says on standard error what failed and why.
// kept: `slots` has the same: shared, it would be a public function that promises nothing.
fn fail(rt: &impl Runtime, what: &str, why: io::Error) -> ExitCode {
    let _ = eprintln!(rt; "{what}: {why}");
    ExitCode::FAILURE
}

fn replay_file(rt: &impl Runtime, path: &str) -> io::Result<()> {
    let mut answers = BufReader::new(rt.alloc(), fs::open(rt, path)?)?;
    let mut out = BufWriter::new(rt.alloc(), io::writer(rt))?;
    replay(&mut answers, &mut out)?;
    out.flush()
}

// Today's library opens a file by a name that is text.
fn replay_named(rt: &impl Runtime, name: &[u8]) -> ExitCode {
    match str::from_utf8(name) {
        Ok(path) => match replay_file(rt, path) {
            Ok(()) => ExitCode::SUCCESS,
            Err(why) => fail(rt, path, why),
        },
        Err(_) => fail(
            rt,
            "the file's name",
            io::Error::from(io::ErrorKind::InvalidData),
        ),
    }
}

fn main(rt: HostRuntime) -> ExitCode {
    let mut name = [0u8; 4096];
    let named = rt.arg(1, &mut name);
    if !matches!(rt.arg(2, &mut []), Err(FillError::NotPresent)) {
        let _ = eprintln!(rt; "usage: replay ANSWERS");
        return ExitCode::SUCCESS;
    }
    match named {
        Ok(n) => replay_named(&rt, &name[..n]),
        Err(FillError::NotPresent) => {
            let _ = eprintln!(rt; "usage: replay ANSWERS");
            ExitCode::SUCCESS
        }
        Err(_) => fail(
            &rt,
            "the file's name",
            io::Error::from(io::ErrorKind::InvalidData),
        ),
    }
}
