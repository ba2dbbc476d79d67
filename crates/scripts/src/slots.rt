// Headers, packets and slots, made by our writers, or by hand where our writers refuse.
use fec::Kind;
use protocol::PacketFrameCounter;
use refusal::Refusal;

// Low type bits of a header.
pub const PACKET: u8 = 2;

pub const STREAM: u8 = 5;

// Bytes that rise by a step from a first one.
fn fill(s: &mut [u8], start: u8, step: u8) {
    let mut byte = start;
    for place in s {
        *place = byte;
        byte = byte.wrapping_add(step);
    }
}

// The first bytes of the parts, and then one byte over and over.
pub fn littered(parts: [u8; 30], kept: usize, fill: u8) -> [u8; 30] {
    let mut p = [fill; 30];
    let kept = kept.min(30);
    p[..kept].copy_from_slice(&parts[..kept]);
    p
}

// A sender's header with these low type bits, which are no kind (kept: they may be any): the two bytes of its CRC come last, xored with `spoil`.
pub fn header(sender: u8, kind: u8, spoil: u8) -> [u8; 30] {
    let mut data = [0u8; 28];
    fill(&mut data, sender, 7);
    data[12] = 0;
    data[13] = kind;
    let [high, low] = crc::m17_crc(&data).to_be_bytes();
    let mut h = [0u8; 30];
    h[..28].copy_from_slice(&data);
    h[28] = high;
    h[29] = low ^ spoil;
    h
}

// Bytes up to `end`, and their CRC in the two before it.
fn seal(s: &mut [u8], end: usize) {
    if 2 <= end && end <= s.len() {
        let sum = crc::m17_crc(&s[..end - 2]);
        s[end - 2..end].copy_from_slice(&sum.to_be_bytes());
    }
}

// A packet of so many bytes in all, and other bytes after it. All but its CRC are even, so that over 0xA5 each shows.
pub fn packet(total: usize) -> [u8; 825] {
    let mut s = [0u8; 825];
    fill(&mut s, (total % 128 * 2) as u8, 6);
    seal(&mut s, total);
    s
}

// Frame k of a packet. kept: a packet and a frame's number: a struct of both would be made at each call.
fn payload(sent: &[u8; 825], k: usize) -> [u8; 25] {
    let mut b = [0u8; 25];
    if k <= 32 {
        b.copy_from_slice(&sent[25 * k..25 * k + 25]);
    }
    b
}

// A body behind its sync word.
pub fn slot(sync: u16, body: [u8; 46]) -> [u8; 48] {
    let mut s = [0u8; 48];
    let [high, low] = sync.to_be_bytes();
    s[0] = high;
    s[1] = low;
    s[2..].copy_from_slice(&body);
    s
}

// What our writers refuse is a body of zeros.
fn written(sync: u16, body: Result<[u8; 46], Refusal>) -> [u8; 48] {
    slot(sync, body.unwrap_or([0; 46]))
}

pub fn header_slot(h: [u8; 30]) -> [u8; 48] {
    written(0x55F7, encode::write_lsf(&h))
}

fn packet_slot(sent: &[u8; 825], k: usize, counter: PacketFrameCounter) -> [u8; 48] {
    written(0x75FF, encode::write_packet(counter, &payload(sent, k)))
}

pub fn piece_slot(sent: &[u8; 825], k: usize) -> [u8; 48] {
    packet_slot(sent, k, PacketFrameCounter::Frame { index: k })
}

pub fn final_slot(sent: &[u8; 825], k: usize, len: usize) -> [u8; 48] {
    packet_slot(sent, k, PacketFrameCounter::FinalFrame { payload_len: len })
}

fn raw_body(fields: &[u8; 26]) -> Result<[u8; 46], Refusal> {
    let coded = fec::encode(Kind::Packet, fields)?;
    let mut body = interleave::interleave(&coded)?;
    random::random_xor(&mut body);
    Ok(body)
}

// A packet frame with any last byte and no zeros past its length.
pub fn raw_slot(sent: &[u8; 825], k: usize, last: u8) -> [u8; 48] {
    let mut fields = [0u8; 26];
    fields[..25].copy_from_slice(&payload(sent, k));
    fields[25] = last;
    written(0x75FF, raw_body(&fields))
}

// RANDOM_SEQ as a body.
pub fn zeros(sync: u16) -> [u8; 48] {
    let mut body = [0u8; 46];
    random::random_xor(&mut body);
    slot(sync, body)
}

// The i-th stream slot of a sender with this header: it counts 0 to 5 round and round.
pub fn stream_slot(h: [u8; 30], i: u16, end: bool) -> [u8; 48] {
    let counter = (i % 6) as u8;
    let at = 5 * usize::from(counter);
    let mut content = [0u8; 16];
    fill(&mut content, (i % 256) as u8 ^ h[0], 17);
    written(
        0xFF5D,
        encode::write_stream(counter, &h[at..at + 5], i, end, &content),
    )
}

// Damage to a slot: so many coded bits flipped, from the first by steps, and the data of the last Golay word of a LICH changed.
#[derive(Clone, Copy)]
pub struct Damage {
    pub first: u8,
    pub step: u8,
    pub flips: usize,
    pub twist: u16,
}

// Coded bit i of a body is flipped: it stands at 45i + 92i², which is 45i + 92 (i mod 2), mod 368.
fn flip(s: &mut [u8; 48], i: usize) {
    let k = i % 368;
    let place = (45 * k + 92 * (k % 2)) % 368;
    s[2 + place / 8] ^= 128 >> (place % 8);
}

impl Damage {
    pub const NONE: Damage = Damage {
        first: 0,
        step: 0,
        flips: 0,
        twist: 0,
    };

    fn flipped(self, s: &mut [u8; 48]) {
        let mut i = usize::from(self.first);
        for _ in 0..self.flips {
            flip(s, i);
            i = i % 368 + usize::from(self.step);
        }
    }

    // The word stays a codeword, since the sum of two is one.
    fn twisted(self, s: &mut [u8; 48]) {
        let mut word = golay::encode(self.twist).unwrap_or(0);
        for i in (72..96).rev() {
            if word % 2 == 1 {
                flip(s, i);
            }
            word /= 2;
        }
    }

    // The slot, damaged.
    pub fn done_to(self, slot: [u8; 48]) -> [u8; 48] {
        let mut s = slot;
        self.flipped(&mut s);
        self.twisted(&mut s);
        s
    }
}
