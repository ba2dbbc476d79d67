// Gathered LICH parts for C: 30 bytes, and a byte for each of six flags.
ghost use Rattle.std.specs.Prelude.{◌≡◌};
ghost use Rattle.refusal.specs.Number.{said_of, made_of};
ghost use Rattle.protocol.specs.Lich.{flags_set};
ghost use Rattle.m17.specs.Given.{given, there, given_there};
ghost use Rattle.m17.specs.Gathered.{flagged, flag_bytes, flags_for, collection_for, set_for, assembled_for};

use super::give_number;
use protocol::LichCollection;
use refusal::Refusal;

fn flagged(bytes: [u8; 6]) -> [bool; 6]
    ensures { result ≡ flagged bytes }
{
    bytes.map(|byte| byte != 0)
}

fn flag_bytes(flags: [bool; 6]) -> [u8; 6]
    ensures { result ≡ flag_bytes flags }
{
    flags.map(|flag| u8::from(flag))
}

fn flags_of(set: &[u8]) -> Result<[bool; 6], Refusal>
    ensures { result ≡ flags_for set.now }
{
    let bytes = <[u8; 6]>::try_from(set).map_err(|_| Refusal::WrongLength)?;
    Ok(flagged(bytes))
}

fn collection(parts: &[u8], set: &[u8]) -> Result<LichCollection, Refusal>
    ensures { result ≡ collection_for parts.now set.now }
{
    let bytes = <[u8; 30]>::try_from(parts).map_err(|_| Refusal::WrongLength)?;
    let set = flags_of(set)?;
    Ok(LichCollection { bytes, set })
}

fn valid_segments(set: &[u8]) -> Result<u8, Refusal>
    ensures { result ≡ made_of flags_set (flags_for set.now) }
{
    let set = flags_of(set)?;
    let bytes = [0u8; 30];
    Ok(LichCollection { bytes, set }.valid_segments() as u8)
}

pub fn m17_valid_segments(set: &[u8], out: &mut u8) -> u8
    ensures { (result ≡ said_of (made_of flags_set (flags_for set.now))) × (out.new ≡ given (made_of flags_set (flags_for set.now)) out.old) }
{
    give_number(valid_segments(set), out)
}

pub fn m17_set_segment(parts: &mut [u8], set: &mut [u8], counter: u8, part: &[u8]) -> u8
    ensures { (result ≡ said_of (set_for counter part.now parts.old set.old)) × (parts.new ≡ given (made_of (λ new. new.bytes) (set_for counter part.now parts.old set.old)) parts.old) × (set.new ≡ given (made_of (λ new. flag_bytes new.set) (set_for counter part.now parts.old set.old)) set.old) }
{
    // kept: the collection stays in place: handed on in a `Result` it takes a third longer.
    let gathered = collection(parts, set);
    let Ok(mut new) = gathered else {
        return refusal::said(gathered);
    };
    let answer = new.set_segment(counter, part);
    if answer.is_ok() {
        set.copy_from_slice(&flag_bytes(new.set));
        parts.copy_from_slice(&new.bytes);
    }
    refusal::said(answer)
}

pub fn m17_try_assemble(parts: &[u8], set: &[u8], assembled: &mut u8, out: &mut [u8]) -> u8
    ensures { (result ≡ said_of (assembled_for parts.now set.now out.old)) × (assembled.new ≡ given (made_of there (assembled_for parts.now set.now out.old)) assembled.old) × (out.new ≡ given (made_of (λ header. given_there header out.old) (assembled_for parts.now set.now out.old)) out.old) }
{
    if out.len() != 30 {
        return u8::from(Refusal::WrongLength);
    }
    let gathered = collection(parts, set);
    if let Ok(lich) = gathered {
        let header = lich.try_assemble();
        *assembled = u8::from(header.is_some());
        if let Some(bytes) = header {
            out.copy_from_slice(&bytes);
        }
    }
    refusal::said(gathered)
}
