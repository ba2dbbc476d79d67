// The slot receiver for C. Its state crosses as a struct by value, and comes back in the struct that is answered.
ghost use Rattle.std.specs.Prelude.{◌≡◌};
ghost use Rattle.refusal.specs.Number.{said_of};
ghost use Rattle.automaton.specs.Step.{idle};
ghost use Rattle.receiver.specs.Receiver.{receiver_for, received_of, memory_of};
ghost use Rattle.m17.specs.Receiving.{phase_from, held_by, phase_number, phase_count, state_for, next_for, crossed};
ghost use Rattle.receiver.specs.Numbers.{late_number, answer_number, answer_count, header_in, stream_in};

use super::{M17Received, M17Receiver};
use protocol::StreamFrame;
use receiver::{Answer, Late, Phase, Received, Receiver};
use refusal::Refusal;

// kept: numbers and the types of other crates are turned into each other by functions, since an impl of `From` for both is none of this crate's.
// Any other phase is one that the receiver refuses with 12.
fn phase_for(phase: u8, count: usize) -> Phase
    ensures { result ≡ phase_from phase count }
{
    match phase {
        0 => Phase::Idle,
        1 => Phase::Packet(count),
        2 => Phase::Gathering(count),
        // kept: lengths are judged before the state, so a phase that is none goes in as one that is refused with 12.
        _ => Phase::Packet(33),
    }
}

fn phase_number(phase: Phase) -> u8
    ensures { result ≡ phase_number phase }
{
    match phase {
        Phase::Idle => 0,
        Phase::Packet(_) => 1,
        Phase::Gathering(_) => 2,
    }
}

fn phase_count(phase: Phase) -> usize
    ensures { result ≡ phase_count phase }
{
    match phase {
        Phase::Idle => 0,
        Phase::Packet(n) => n,
        Phase::Gathering(k) => k,
    }
}

// The receiver that a state tells.
impl From<M17Receiver> for Receiver {
    ghost from_gives = { λ state receiver. receiver ≡ held_by state };

    fn from(state: M17Receiver) -> Receiver {
        let parts = state.parts;
        Receiver {
            phase: phase_for(state.phase, state.count),
            parts,
        }
    }
}

// The state that tells of a receiver.
impl From<Receiver> for M17Receiver {
    ghost from_gives = { λ receiver state. state ≡ state_for receiver };

    fn from(receiver: Receiver) -> M17Receiver {
        let parts = receiver.parts;
        M17Receiver {
            count: phase_count(receiver.phase),
            phase: phase_number(receiver.phase),
            parts,
        }
    }
}

fn late_number(late: Late) -> u8
    ensures { result ≡ late_number late }
{
    match late {
        Late::Nothing => 4,
        Late::Header(_) => 5,
        Late::Spoiled => 6,
    }
}

fn answer_number(answer: Result<Answer, Refusal>) -> u8
    ensures { result ≡ answer_number answer }
{
    match answer {
        Ok(Answer::Header(_)) => 1,
        Ok(Answer::Stored(_)) => 2,
        Ok(Answer::Packet(_)) => 3,
        Ok(Answer::Stream(_, late)) => late_number(late),
        Ok(Answer::Ended) => 7,
        Err(_) => 0,
    }
}

fn answer_count(answer: Result<Answer, Refusal>) -> usize
    ensures { result ≡ answer_count answer }
{
    match answer {
        Ok(Answer::Stored(k)) => k,
        Ok(Answer::Packet(total)) => total,
        _ => 0,
    }
}

// The header that an answer carries, or zeros.
fn header_in(answer: Result<Answer, Refusal>) -> [u8; 30]
    ensures { result ≡ header_in answer }
{
    match answer {
        Ok(Answer::Header(header)) => header,
        Ok(Answer::Stream(_, Late::Header(header))) => header,
        _ => [0u8; 30],
    }
}

// The stream frame that an answer carries, or zeros.
fn stream_in(answer: Result<Answer, Refusal>) -> StreamFrame
    ensures { result ≡ stream_in answer }
{
    match answer {
        Ok(Answer::Stream(frame, _)) => frame,
        _ => StreamFrame {
            lich_idx: 0,
            lich_part: [0u8; 5],
            frame_number: 0,
            end_of_stream: false,
            stream_data: [0u8; 16],
        },
    }
}

// 1 and 12 leave the state as it was given.
fn next_for(answer: Result<Answer, Refusal>, state: M17Receiver, next: Receiver) -> M17Receiver
    ensures { result ≡ next_for (said_of answer) state next }
{
    match answer {
        Err(Refusal::WrongLength | Refusal::BadState) => state,
        _ => M17Receiver::from(next),
    }
}

fn cross(state: M17Receiver, got: Received) -> M17Received
    ensures { result ≡ crossed state got }
{
    let header = header_in(got.answer);
    let stream = stream_in(got.answer);
    let lich_part = stream.lich_part;
    let stream_data = stream.stream_data;
    M17Received {
        number: answer_count(got.answer),
        next: next_for(got.answer, state, got.next),
        frame_number: stream.frame_number,
        said: refusal::said(got.answer),
        answer: answer_number(got.answer),
        header,
        lich_idx: stream.lich_idx,
        lich_part,
        end_of_stream: u8::from(stream.end_of_stream),
        stream_data,
    }
}

pub fn m17_receiver_new() -> M17Receiver
    ensures { result ≡ state_for (receiver_for idle) }
{
    M17Receiver::from(Receiver::new())
}

pub fn m17_receive(state: M17Receiver, slot: &[u8], memory: &mut [u8]) -> M17Received
    ensures { (result ≡ crossed state (received_of (held_by state) slot.now memory.old)) × (memory.new ≡ memory_of (held_by state) slot.now memory.old) }
{
    cross(state, Receiver::from(state).receive(slot, memory))
}
