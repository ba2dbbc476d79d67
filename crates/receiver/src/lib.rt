// The slot receiver: what a slot of 48 bytes says is read by `decode`, and then taken as the automaton has it.
#![tactic(auto)]

ghost use Rattle.std.specs.Prelude.{◌≡◌, [], ◌++◌, ◌+◌, ◌*◌, ◌≤◌, length, take, true, Result, Ok, Err};
ghost use Rattle.automaton.specs.Seen.{head, piece, final};
ghost use Rattle.automaton.specs.Step.{put, idle, in_packet, kept};
ghost use Rattle.decode.specs.Bodies.{lsf_read_of, stream_read_of, packet_read_of};
ghost use Rattle.receiver.specs.See.{header_seen, seen_stream, stream_seen, packet_seen};
ghost use Rattle.receiver.specs.Receiver.{state_of, within, gathered, padded, receiver_for, outcome_of, unchanged, taken, received_of, memory_of};

use protocol::{LsfFrame, Mode, PacketFrameCounter, StreamFrame};
use refusal::Refusal;

// What is open.
#[derive(Clone, Copy)]
pub enum Phase {
    Idle,
    // A packet, expecting this frame.
    Packet(usize),
    // So many LICH parts.
    Gathering(usize),
}

// A receiver's state. Part c is bytes 5c to 5c + 4 of `parts`.
// kept: the parts stand beside the phase that counts them, since C holds the two so and hands them back as it was given them.
#[derive(Clone, Copy)]
pub struct Receiver {
    pub phase: Phase,
    pub parts: [u8; 30],
}

// What a stream slot brings beside its fields.
// kept: three cases by name, for that the parts are no header is said beside the fields, and is no refusal.
#[derive(Clone, Copy)]
pub enum Late {
    Nothing,
    // The six parts gathered are a header.
    Header([u8; 30]),
    // They are none.
    Spoiled,
}

#[derive(Clone, Copy)]
pub enum Answer {
    // A header's bytes.
    Header([u8; 30]),
    // A piece is stored: its number.
    Stored(usize),
    // A packet is handed out: so many bytes from the start of packet memory.
    Packet(usize),
    // Stream fields, and what they bring.
    Stream(StreamFrame, Late),
    Ended,
}

// The answer, and the next state.
#[derive(Clone, Copy)]
pub struct Received {
    pub answer: Result<Answer, Refusal>,
    pub next: Receiver,
}

// `b` put into memory from place `at` on.
fn store(memory: &mut [u8], at: usize, b: &[u8])
    requires { at + length b.now ≤ length memory.old }
    ensures { memory.new ≡ put at b.now memory.old }
{
    memory[at..at + b.len()].copy_from_slice(b);
}

// What is said where no part is gathered then.
fn told(answer: Answer, phase: Phase) -> (Answer, Receiver)
    ensures { result ≡ (answer, record { phase = phase; parts = padded [] }) }
{
    let next = Receiver {
        phase,
        parts: [0u8; 30],
    };
    (answer, next)
}

// What comes of a step: where it is refused nothing is open then.
fn outcome(step: Result<(Answer, Receiver), Refusal>) -> Received
    ensures { result ≡ outcome_of step }
{
    match step {
        Ok((answer, next)) => Received {
            answer: Ok(answer),
            next,
        },
        Err(why) => Received {
            answer: Err(why),
            next: Receiver::new(),
        },
    }
}

// A header of good CRC: one that is no stream's opens a packet.
fn header_step(frame: LsfFrame) -> (Answer, Receiver)
    ensures { outcome_of (Ok result) ≡ taken idle [] (head frame.bytes) }
{
    let phase = match frame.mode() {
        Mode::Stream => Phase::Idle,
        Mode::Packet => Phase::Packet(0),
    };
    told(Answer::Header(frame.bytes), phase)
}

// The body of a header slot.
fn header_slot(body: &[u8]) -> Result<(Answer, Receiver), Refusal>
    ensures { outcome_of result ≡ taken idle [] (header_seen (lsf_read_of body.now)) }
{
    let frame = decode::read_lsf(body)?;
    if frame.check_crc() != 0 {
        return Err(Refusal::BadHeader);
    }
    Ok(header_step(frame))
}

// How many parts are gathered.
fn count(phase: Phase) -> usize
    ensures { result ≡ gathered phase }
{
    match phase {
        Phase::Idle => 0,
        Phase::Packet(_) => 0,
        Phase::Gathering(k) => k,
    }
}

// The first c parts, one more, and zeros.
fn with_part(parts: [u8; 30], c: usize, part: [u8; 5]) -> [u8; 30]
    requires { c ≤ 5 }
    ensures { (result ≡ padded (take (5 * c) parts ++ part)) × (length (take (5 * c) parts ++ part) ≡ 5 * c + 5) }
{
    let mut p = [0u8; 30];
    store(&mut p, 0, &parts[..5 * c]);
    store(&mut p, 5 * c, &part);
    p
}

// A packet frame that is not final, where frame n is expected.
fn piece_step(
    n: usize,
    number: usize,
    frame: &[u8; 25],
    memory: &mut [u8],
) -> Result<(Answer, Receiver), Refusal>
    requires { 25 * n + 25 ≤ length memory.old }
    ensures { (outcome_of result ≡ taken (in_packet n) memory.old (piece number frame.now)) × (memory.new ≡ kept (in_packet n) memory.old (piece number frame.now)) }
{
    if number != n {
        return Err(Refusal::OutOfTurn);
    }
    store(memory, 25 * n, frame);
    Ok(told(Answer::Stored(n), Phase::Packet(n + 1)))
}

// A final packet frame after n frames: it is stored only when the packet is handed out.
fn final_step(
    n: usize,
    len: usize,
    frame: &[u8; 25],
    memory: &mut [u8],
) -> Result<(Answer, Receiver), Refusal>
    requires { 25 * n + 25 ≤ length memory.old }
    ensures { (outcome_of result ≡ taken (in_packet n) memory.old (final len frame.now)) × (memory.new ≡ kept (in_packet n) memory.old (final len frame.now)) }
{
    if len == 0 {
        return Err(Refusal::BadFinal);
    }
    if 25 < len {
        return Err(Refusal::BadFinal);
    }
    let at = 25 * n;
    let total = at + len;
    if total < 3 {
        return Err(Refusal::TooShort);
    }
    let last = &frame[..len];
    let sum = crc::m17_crc(&memory[..at]);
    if crc::update(sum, last) != 0 {
        return Err(Refusal::BadPacket);
    }
    store(memory, at, last);
    Ok(told(Answer::Packet(total), Phase::Idle))
}

// Is the state one that a receiver comes to?
fn is_within(phase: Phase) -> bool
    ensures { result ≡ within phase }
{
    match phase {
        Phase::Idle => true,
        Phase::Packet(n) => n <= 32,
        Phase::Gathering(k) => k <= 5,
    }
}

// A receiver whose state is one that it comes to.
#[derive(Clone, Copy)]
struct Checked {
    receiver: Receiver,
    ghost within: { within receiver.phase ≡ true },
}

impl Checked {
    // A stream frame: counter 0 starts gathering, counter k adds a part, any other stops it.
    fn stream_step(self, frame: StreamFrame) -> (Answer, Receiver)
        ensures { outcome_of (Ok result) ≡ taken (state_of self.receiver) [] (seen_stream frame) }
    {
        let counter = usize::from(frame.lich_idx);
        if counter != 0 && counter != count(self.receiver.phase) {
            // kept: `told` says the same: the state stands here in full, where the wrong program that keeps the parts changes it.
            let (phase, parts) = (Phase::Idle, [0u8; 30]);
            return (
                Answer::Stream(frame, Late::Nothing),
                Receiver { phase, parts },
            );
        }
        let parts = with_part(self.receiver.parts, counter, frame.lich_part);
        if counter != 5 {
            let next = Receiver {
                phase: Phase::Gathering(counter + 1),
                parts,
            };
            return (Answer::Stream(frame, Late::Nothing), next);
        }
        if crc::m17_crc(&parts) != 0 {
            return told(Answer::Stream(frame, Late::Spoiled), Phase::Idle);
        }
        told(Answer::Stream(frame, Late::Header(parts)), Phase::Idle)
    }

    // The body of a stream slot.
    fn stream_slot(self, body: &[u8]) -> Result<(Answer, Receiver), Refusal>
        ensures { outcome_of result ≡ taken (state_of self.receiver) [] (stream_seen (stream_read_of body.now)) }
    {
        let frame = decode::read_stream(body)?;
        Ok(self.stream_step(frame))
    }

    // The body of a packet slot.
    fn packet_slot(self, body: &[u8], memory: &mut [u8]) -> Result<(Answer, Receiver), Refusal>
        requires { length memory.old ≡ 825 }
        ensures { (outcome_of result ≡ taken (state_of self.receiver) memory.old (packet_seen (packet_read_of body.now))) × (memory.new ≡ kept (state_of self.receiver) memory.old (packet_seen (packet_read_of body.now))) }
    {
        let frame = decode::read_packet(body)?;
        let Phase::Packet(n) = self.receiver.phase else {
            return Err(Refusal::OutOfTurn);
        };
        match frame.counter {
            PacketFrameCounter::Frame { index } => piece_step(n, index, &frame.payload, memory),
            PacketFrameCounter::FinalFrame { payload_len } => final_step(
                n,
                payload_len,
                &frame.payload,
                memory,
            ),
        }
    }
}

impl Receiver {
    // A receiver at its start.
    pub fn new() -> Receiver
        ensures { result ≡ receiver_for idle }
    {
        Receiver {
            phase: Phase::Idle,
            parts: [0u8; 30],
        }
    }

    fn unchanged(self, why: Refusal) -> Received
        ensures { result ≡ unchanged why self }
    {
        Received {
            answer: Err(why),
            next: self,
        }
    }

    // A slot of 48 bytes, with 825 bytes of packet memory.
    pub fn receive(self, slot: &[u8], memory: &mut [u8]) -> Received
        ensures { (result ≡ received_of self slot.now memory.old) × (memory.new ≡ memory_of self slot.now memory.old) }
    {
        if slot.len() != 48 {
            return self.unchanged(Refusal::WrongLength);
        }
        if memory.len() != 825 {
            return self.unchanged(Refusal::WrongLength);
        }
        if !is_within(self.phase) {
            return self.unchanged(Refusal::BadState);
        }
        let checked = Checked { receiver: self };
        let sync = u16::from_be_bytes([slot[0], slot[1]]);
        let body = &slot[2..];
        // kept: sync words as numbers: an enum of the four would be made and matched here alone.
        match sync {
            0x55F7 => outcome(header_slot(body)),
            0xFF5D => outcome(checked.stream_slot(body)),
            0x75FF => outcome(checked.packet_slot(body, memory)),
            0x555D => outcome(Ok(told(Answer::Ended, Phase::Idle))),
            _ => outcome(Err(Refusal::UnknownSync)),
        }
    }
}
