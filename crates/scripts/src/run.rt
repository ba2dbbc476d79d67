// A receiver being fed from its start, each slot and what comes of it on one line.
use super::slots::Damage;
use super::{show, slots};
use receiver::{Phase, Receiver};
use std::io;
use std::io::Write;

// What is said goes to `out`. Packet memory holds 0xA5 at the start. `sent` is the packet that pieces are cut from. kept: two packets, of one length. The next slot is damaged.
#[derive(Drop)]
pub struct Run<'a, W: Write> {
    out: &'a mut W,
    receiver: Receiver,
    memory: [u8; 825],
    sent: [u8; 825],
    damage: Damage,
}

// One slot: the answer, the next state, and what became of memory, of which there are at most 826 bytes.
fn receive<W: Write>(
    out: &mut W,
    receiver: Receiver,
    slot: &[u8],
    memory: &mut [u8],
) -> io::Result<Receiver> {
    let mut old = [0u8; 826];
    let n = memory.len().min(826);
    old[..n].copy_from_slice(&memory[..n]);
    let got = receiver.receive(slot, memory);
    show::answer(out, got.answer, memory)?;
    show::state(out, got.next)?;
    show::changes(out, &old[..n], memory)?;
    Ok(got.next)
}

// A slot of any length up to 49 bytes, and as much memory, up to 826 bytes, as is called for.
fn receive_cut<W: Write>(
    out: &mut W,
    receiver: Receiver,
    slot: [u8; 48],
    len: usize,
    room: usize,
) -> io::Result<Receiver> {
    let mut long = [0u8; 49];
    long[..48].copy_from_slice(&slot);
    let mut memory = [0xA5u8; 826];
    receive(
        out,
        receiver,
        &long[..len.min(49)],
        &mut memory[..room.min(826)],
    )
}

impl<'a, W: Write> Run<'a, W> {
    // A receiver at its start, and a packet of so many bytes to send, if any.
    pub fn start(out: &'a mut W, label: &str, total: usize) -> io::Result<Run<'a, W>> {
        write!(out, "# {label}")?;
        if 0 < total {
            write!(out, " of {total} bytes")?;
        }
        writeln!(out)?;
        Ok(Run {
            out,
            receiver: Receiver::new(),
            memory: [0xA5u8; 825],
            sent: slots::packet(total),
            damage: Damage::NONE,
        })
    }

    // From here on another packet is sent.
    pub fn send(mut self, total: usize) -> Run<'a, W> {
        let sent = slots::packet(total);
        self.sent = sent;
        self
    }

    // A state built by hand: of the parts as they are so many bytes, and then one byte over and over.
    pub fn state(mut self, phase: Phase, kept: usize, fill: u8) -> io::Result<Run<'a, W>> {
        let old = self.receiver;
        let known = old.parts;
        let parts = slots::littered(known, kept, fill);
        let made = Receiver { phase, parts };
        self.receiver = made;
        write!(self.out, "state by hand")?;
        show::state(self.out, made)?;
        writeln!(self.out)?;
        Ok(self)
    }

    // In the next slot so many coded bits are flipped, from the first by steps.
    pub fn flipped(mut self, first: u8, step: u8, flips: usize) -> io::Result<Run<'a, W>> {
        write!(self.out, "{flips} flips, ")?;
        self.damage.first = first;
        self.damage.step = step;
        self.damage.flips = flips;
        Ok(self)
    }

    // In the next slot the last word of the LICH has other data.
    pub fn twisted(mut self, value: u16) -> io::Result<Run<'a, W>> {
        write!(self.out, "twist {value:03x}, ")?;
        self.damage.twist = value;
        Ok(self)
    }

    // The slot, damaged as was asked for.
    pub fn slot(mut self, clean: [u8; 48]) -> io::Result<Run<'a, W>> {
        let fed = self.damage.done_to(clean);
        let receiver = self.receiver;
        let mut memory = self.memory;
        self.receiver = receive(self.out, receiver, &fed, &mut memory)?;
        self.memory = memory;
        self.damage = Damage::NONE;
        Ok(self)
    }

    // A sender's header with these type bits, its CRC xored with `spoil`. kept: type bits are no kind, and may be any.
    pub fn header(self, sender: u8, kind: u8, spoil: u8) -> io::Result<Run<'a, W>> {
        write!(self.out, "header")?;
        self.slot(slots::header_slot(slots::header(sender, kind, spoil)))
    }

    // Sender 1's packet header.
    pub fn open(self) -> io::Result<Run<'a, W>> {
        self.header(1, slots::PACKET, 0)
    }

    pub fn piece(self, k: usize) -> io::Result<Run<'a, W>> {
        write!(self.out, "piece {k}")?;
        let piece = slots::piece_slot(&self.sent, k);
        self.slot(piece)
    }

    pub fn pieces(self, from: usize, to: usize) -> io::Result<Run<'a, W>> {
        let mut run = self;
        for k in from..to {
            run = run.piece(k)?;
        }
        Ok(run)
    }

    // A final frame: so many bytes of frame k.
    pub fn last(self, k: usize, len: usize) -> io::Result<Run<'a, W>> {
        write!(self.out, "final {len}")?;
        let last = slots::final_slot(&self.sent, k, len);
        self.slot(last)
    }

    // Frame k as a final frame made by hand, of any length below 32.
    pub fn hand(self, k: usize, len: u8) -> io::Result<Run<'a, W>> {
        let n = len % 32;
        write!(self.out, "final by hand {n}")?;
        let last = slots::raw_slot(&self.sent, k, 128 + n * 4);
        self.slot(last)
    }

    // The frames of a packet of so many bytes.
    pub fn packet(self, total: usize) -> io::Result<Run<'a, W>> {
        if total == 0 {
            return Ok(self);
        }
        let n = (total - 1) / 25;
        self.pieces(0, n)?.last(n, total - 25 * n)
    }

    // The i-th stream slot of the sender of a header.
    pub fn part(self, header: [u8; 30], i: u16, end: bool) -> io::Result<Run<'a, W>> {
        write!(self.out, "stream {i}")?;
        self.slot(slots::stream_slot(header, i, end))
    }

    pub fn parts(self, header: [u8; 30], from: u16, to: u16) -> io::Result<Run<'a, W>> {
        let mut run = self;
        for i in from..to {
            run = run.part(header, i, false)?;
        }
        Ok(run)
    }

    // Stream slots of a sender, from one up to another. kept: `stream` is one of them: a range of one could pass the last number.
    pub fn streams(self, sender: u8, from: u16, to: u16) -> io::Result<Run<'a, W>> {
        self.parts(slots::header(sender, slots::STREAM, 0), from, to)
    }

    pub fn stream(self, sender: u8, i: u16) -> io::Result<Run<'a, W>> {
        self.part(slots::header(sender, slots::STREAM, 0), i, false)
    }

    // The body that an all-zero header, stream or packet frame 0 has, under any sync word.
    pub fn zeros(self, sync: u16) -> io::Result<Run<'a, W>> {
        write!(self.out, "zeros {sync:04x}")?;
        self.slot(slots::zeros(sync))
    }

    // Any sync word, and a body all of one byte.
    pub fn sync(self, word: u16, body: u8) -> io::Result<Run<'a, W>> {
        write!(self.out, "sync {word:04x}")?;
        self.slot(slots::slot(word, [body; 46]))
    }

    // Piece k with so many bytes of slot and of memory.
    pub fn cut(mut self, k: usize, len: usize, room: usize) -> io::Result<Run<'a, W>> {
        write!(self.out, "piece {k} in {len} bytes, memory of {room}")?;
        let piece = slots::piece_slot(&self.sent, k);
        let receiver = self.receiver;
        self.receiver = receive_cut(self.out, receiver, piece, len, room)?;
        Ok(self)
    }
}
