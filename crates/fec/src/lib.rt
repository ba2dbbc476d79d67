// The convolutional code, its three puncturings, and the reading of the nearest word.
#![tactic(auto)]

ghost use Rattle.std.specs.Prelude.{◌≡◌, Bool, true, false, [], ◌∷◌, ℕ, ◌+◌, ◌*◌, ◌≤◌, ◌<◌, min, length, get_or, take, option_map};
ghost use Rattle.bits.specs.Bits.{bit, bits_of};
ghost use Rattle.fec.specs.Code.{◌⊕◌, sends, sent, code, flushed};
ghost use Rattle.fec.specs.Nearest.{differ, read_of};
ghost use Rattle.fec.specs.Kinds.{plan_of, encoded_of, decoded_of};
ghost use Rattle.fec.specs.Search.{Outputs, count, sofar, costs_at, price, shelf, grown, Rows, Lowest, source, Traced, Stored};

use refusal::Refusal;

#[derive(Clone, Copy)]
pub enum Puncture {
    One,
    Two,
    Three,
}

// What a step sends of its two coded bits.
#[derive(Clone, Copy)]
pub enum Sends {
    Both,
    First,
    Second,
}

#[derive(Clone, Copy)]
pub enum Kind {
    Header,
    Stream,
    Packet,
}

// What a kind is made of.
#[derive(Clone, Copy)]
pub struct Plan {
    // The bytes of its data.
    pub bytes: usize,
    // How many of their bits are coded.
    pub bits: usize,
    pub puncture: Puncture,
    // The bytes that its coded bits fill.
    pub coded: usize,
    // The farthest word that is still answered.
    pub limit: u8,
}

fn plan_of(kind: Kind) -> Plan
    ensures { result ≡ plan_of kind }
{
    match kind {
        Kind::Header => Plan {
            bytes: 30,
            bits: 240,
            puncture: Puncture::One,
            coded: 46,
            limit: 6,
        },
        Kind::Stream => Plan {
            bytes: 18,
            bits: 144,
            puncture: Puncture::Two,
            coded: 34,
            limit: 6,
        },
        Kind::Packet => Plan {
            bytes: 26,
            bits: 206,
            puncture: Puncture::Three,
            coded: 46,
            limit: 6,
        },
    }
}

#[tactic(auto, unfolding(crate::specs::Code::sends))]
fn sent_at(p: Puncture, t: usize) -> Sends
    ensures { result ≡ sends p t }
{
    match p {
        Puncture::One => {
            let r = t % 61;
            if r % 2 == 0 {
                Sends::Both
            } else if r < 30 {
                Sends::Second
            } else {
                Sends::First
            }
        }
        Puncture::Two => {
            if t % 6 == 5 {
                Sends::First
            } else {
                Sends::Both
            }
        }
        Puncture::Three => {
            if t % 4 == 3 {
                Sends::First
            } else {
                Sends::Both
            }
        }
    }
}

// The two coded bits of each transition: its input bit is i / 16, and i % 16 are the four bits before it, the latest first.
const OUTPUTS: [[u8; 2]; 32] = [
    [0, 0],
    [1, 1],
    [1, 0],
    [0, 1],
    [0, 1],
    [1, 0],
    [1, 1],
    [0, 0],
    [0, 1],
    [1, 0],
    [1, 1],
    [0, 0],
    [0, 0],
    [1, 1],
    [1, 0],
    [0, 1],
    [1, 1],
    [0, 0],
    [0, 1],
    [1, 0],
    [1, 0],
    [0, 1],
    [0, 0],
    [1, 1],
    [1, 0],
    [0, 1],
    [0, 0],
    [1, 1],
    [1, 1],
    [0, 0],
    [0, 1],
    [1, 0],
];

fn outputs() -> [[u8; 2]; 32]
    ensures { Outputs result }
{
    OUTPUTS
}

// How many of the coded bits that are sent are other than those received.
#[tactic(auto, unfolding(crate::specs::Nearest::differ), using(crate::proofs::Packed::bit_unlike))]
fn unlike_sent(e: Sends, g1: bool, g2: bool, x: bool, y: bool) -> u8
    ensures { result ≡ differ (sent e g1 g2) (x ∷ y ∷ []) }
{
    match e {
        Sends::Both => u8::from(g1 != x) + u8::from(g2 != y),
        Sends::First => u8::from(g1 != x),
        Sends::Second => u8::from(g2 != x),
    }
}

// What each transition costs where x is received, or x and y.
fn price(e: Sends, x: bool, y: bool) -> [u8; 32]
    ensures { (i : ℕ) → i < 32 → get_or result i 0 ≡ price e x y i }
{
    let mut costs = [0; 32];
    // kept: `outputs().map(..)` was tried: its closure would want a clause of its own, and what it holds followed through 32 calls.
    for (i, [g1, g2]) in outputs().iter().enumerate() {
        costs[i] = unlike_sent(e, *g1 == 1, *g2 == 1, x, y);
    }
    costs
}

fn prices() -> [[u8; 32]; 8]
    ensures { (e : Sends) (x y : Bool) (i : ℕ) → i < 32 → get_or (get_or result (shelf e x y) []) i 0 ≡ price e x y i }
{
    [
        price(Sends::Both, false, false),
        price(Sends::Both, false, true),
        price(Sends::Both, true, false),
        price(Sends::Both, true, true),
        price(Sends::First, false, false),
        price(Sends::First, true, false),
        price(Sends::Second, false, false),
        price(Sends::Second, true, false),
    ]
}

// The bit at a place.
// kept: `bits::get_bit` tests the place again, and with it writing and reading a body take a tenth longer; one of `bits` without the test would be
// public with a `requires`.
fn bit_at(bytes: &[u8], place: usize) -> bool
    requires { place < 8 * length bytes.now }
    ensures { result ≡ get_or (bits_of bytes.now) place false }
{
    (bytes[place / 8] >> (7 - place % 8)) % 2 == 1
}

// Where the reading goes on, and which row of prices holds for what was received.
#[derive(Clone, Copy)]
struct Heard {
    pub at: usize,
    pub row: usize,
}

// kept: what bounds the bytes received stands here and in `forward`: a struct of them and the place would be made anew at each step.
// The row is a number: the prices are made once, and a row is found by its place.
fn hear(rx: &[u8], at: usize, e: Sends) -> Heard
    requires { (at + count e ≤ 8 * length rx.now) × (length rx.now ≤ 46) }
    ensures { (result.at ≡ at + count e) × (result.row ≡ shelf e (get_or (bits_of rx.now) at false) (get_or (bits_of rx.now) (at + 1) false)) }
{
    match e {
        Sends::Both => Heard {
            at: at + 2,
            row: 2 * usize::from(bit_at(rx, at)) + usize::from(bit_at(rx, at + 1)),
        },
        Sends::First => Heard {
            at: at + 1,
            row: 4 + usize::from(bit_at(rx, at)),
        },
        Sends::Second => Heard {
            at: at + 1,
            row: 6 + usize::from(bit_at(rx, at)),
        },
    }
}

// The least cost to each state.
fn bests(old: &[u8; 32]) -> [u8; 16]
    ensures { (s : ℕ) → s < 16 → get_or result s 0 ≡ min (get_or old.now (2 * s) 0) (get_or old.now (2 * s + 1) 0) }
{
    let mut bests = [0; 16];
    // kept: two neighbours by their places: of bytes written through `bests.iter_mut().zip(old.chunks_exact(2))` nothing is known afterwards.
    for (s, best) in bests.iter_mut().enumerate() {
        *best = old[2 * s].min(old[2 * s + 1]);
    }
    bests
}

// One step: the least cost of each transition from those of the step before.
fn next_row(old: &[u8; 32], cost: &[u8; 32]) -> [u8; 32]
    ensures { (i : ℕ) → i < 32 → get_or result i 0 ≡ grown old.now cost.now i }
{
    let mut new = [0; 32];
    // kept: both halves by the state: one loop over the transitions becomes no vector instructions, and takes nine times as long.
    for (s, best) in bests(old).iter().enumerate() {
        new[s] = best.saturating_add(cost[s]);
        new[s + 16] = best.saturating_add(cost[s + 16]);
    }
    new
}

// The rows of all steps.
fn forward(rx: &[u8], steps: usize, p: Puncture) -> [[u8; 32]; 244]
    requires { (sofar (sends p) steps ≤ 8 * length rx.now) × (length rx.now ≤ 46) × (steps ≤ 244) }
    ensures { Rows (costs_at (sends p) (bits_of rx.now)) result steps }
{
    let cost = prices();
    let mut table = [[0; 32]; 244];
    let mut row = [255; 32];
    row[0] = 0;
    let mut at = 0;
    // kept: by the step, which also says what is sent: with `table[..steps].iter_mut().enumerate()` the proof did not close.
    for step in 0..steps {
        let heard = hear(rx, at, sent_at(p, step));
        at = heard.at;
        row = next_row(&row, &cost[heard.row]);
        table[step] = row;
    }
    table
}

// The first place of the least.
fn first_least(row: &[u8; 32]) -> usize
    ensures { Lowest row.now result }
{
    let mut best = 0;
    let mut low = row[0];
    // kept: `row.iter().enumerate().min_by_key(..)` says which of equals it takes only call by call, and answers an Option that is never None here.
    for (i, x) in row.iter().enumerate() {
        if *x < low {
            best = i;
            low = *x;
        }
    }
    best
}

// The transition before a state: the odd one among equals.
fn earlier(row: &[u8; 32], s: usize) -> usize
    requires { s < 16 }
    ensures { (result ≡ source row.now s) × (result < 32) }
{
    if row[2 * s] < row[2 * s + 1] {
        2 * s
    } else {
        2 * s + 1
    }
}

// The word traced back from its last transition.
fn backward(table: &[[u8; 32]; 244], n: usize, last: usize) -> [bool; 244]
    requires { (n ≤ 240) × (last < 32) }
    ensures { Traced table.now n last result × (length result ≡ 244) }
{
    let mut word = [false; 244];
    let mut i = last;
    word[n + 3] = 15 < i;
    // kept: both arrays by the step: of bits written through a part's `iter_mut().zip(..).rev()` nothing is known afterwards.
    for step in (0..n + 3).rev() {
        i = earlier(&table[step], i % 16);
        word[step] = 15 < i;
    }
    word
}

// The nearest word, where its distance is within the limit.
// kept: three fields of a `Plan`: this is proved once over any puncturing, count and limit, as document 01 asks, and a `Plan` holds more.
fn search(rx: &[u8], n: usize, p: Puncture, limit: u8) -> Option<[bool; 244]>
    requires { (sofar (sends p) (n + 4) ≤ 8 * length rx.now) × (length rx.now ≤ 46) × (n ≤ 240) × (limit < 255) }
    ensures { option_map (take n) result ≡ read_of (sends p) n limit (bits_of rx.now) }
{
    let table = forward(rx, n + 4, p);
    let row = &table[n + 3];
    let last = first_least(row);
    if limit < row[last] {
        return None;
    }
    Some(backward(&table, n, last))
}

// The first n bits of the nearest word.
pub fn decode(kind: Kind, received: &[u8]) -> Result<[u8; 30], Refusal>
    ensures { result ≡ decoded_of kind received.now }
{
    let plan = plan_of(kind);
    if received.len() != plan.coded {
        return Err(Refusal::WrongLength);
    }
    let word = search(received, plan.bits, plan.puncture, plan.limit).ok_or(Refusal::TooFar)?;
    let mut bytes = [0u8; 30];
    bits::pack(&word[..plan.bits], &mut bytes);
    Ok(bytes)
}

// Bit t of the first n, 0 past them.
fn input_at(plain: &[u8], n: usize, t: usize) -> bool
    requires { n ≤ 8 * length plain.now }
    ensures { result ≡ get_or (flushed (take n (bits_of plain.now))) t false }
{
    t < n && bit_at(plain, t)
}

// What a step sends is stored from `at` on. Returns the next place.
fn put_sent(out: &mut [bool], at: usize, e: Sends, g1: bool, g2: bool) -> usize
    requires { at + count e ≤ length out.old }
    ensures { (result ≡ at + count e) × Stored out.old out.new at result (sent e g1 g2) }
{
    match e {
        Sends::Both => {
            out[at] = g1;
            out[at + 1] = g2;
            at + 2
        }
        Sends::First => {
            out[at] = g1;
            at + 1
        }
        Sends::Second => {
            out[at] = g2;
            at + 1
        }
    }
}

// The coded bits of n bits and four zeros.
// kept: two fields of a `Plan`: this is proved once over any puncturing and count, as document 01 asks. There is no heap, so the bits are an array and
// the place that comes next.
fn code_bits(plain: &[u8], n: usize, p: Puncture) -> [bool; 368]
    requires { (n ≤ 240) × (n ≤ 8 * length plain.now) × (sofar (sends p) (n + 4) ≤ 368) }
    ensures { (k : ℕ) → get_or result k false ≡ get_or (code (sends p) (flushed (take n (bits_of plain.now)))) k false }
{
    let mut out = [false; 368];
    let mut at = 0;
    let [mut b1, mut b2, mut b3, mut b4] = [false; 4];
    for t in 0..n + 4 {
        let b = input_at(plain, n, t);
        let g1 = b ^ b3 ^ b4;
        let g2 = b ^ b1 ^ b2 ^ b4;
        at = put_sent(&mut out, at, sent_at(p, t), g1, g2);
        [b1, b2, b3, b4] = [b, b1, b2, b3];
    }
    out
}

// The coded bits of the data's first n bits.
pub fn encode(kind: Kind, plain: &[u8]) -> Result<[u8; 46], Refusal>
    ensures { result ≡ encoded_of kind plain.now }
{
    let plan = plan_of(kind);
    if plain.len() != plan.bytes {
        return Err(Refusal::WrongLength);
    }
    let mut bytes = [0u8; 46];
    bits::pack(&code_bits(plain, plan.bits, plan.puncture), &mut bytes);
    Ok(bytes)
}
