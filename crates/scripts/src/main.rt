// Scripts of slots, each fed to one receiver from its start, from the compiled code. What it writes is held to the file stdout, which
// expected.py beside it made from document 01 alone.
#![tactic(auto)]

mod damage;
mod packets;
mod run;
mod show;
mod slots;
mod states;
mod streams;

use std::io;
use std::io::{BufWriter, Write};

fn main(rt: HostRuntime) -> io::Result<()> {
    let mut buffer = BufWriter::new(rt.alloc(), io::writer(&rt))?;
    let out = &mut buffer;
    packets::all(out)?;
    damage::all(out)?;
    streams::all(out)?;
    states::all(out)?;
    out.flush()
}
