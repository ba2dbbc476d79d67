// Gathered LICH parts for C: 30 bytes, and a byte for each of six flags.
ghost use Rattle.std.specs.Prelude.{◌≡◌};
ghost use Rattle.refusal.specs.Number.{said_of, made_of};
ghost use Rattle.protocol.specs.Lich.{flags_set};
ghost use Rattle.m17.specs.Given.{given, there, given_there};
ghost use Rattle.m17.specs.Gathered.{flag_bytes, flags_for, set_for, assembled_for};

#[unsafe(no_mangle)]
pub extern "C" fn m17_valid_segments(set: &[u8], out: &mut u8) -> u8
    ensures { (result ≡ said_of (made_of flags_set (flags_for set.now))) × (out.new ≡ given (made_of flags_set (flags_for set.now)) out.old) }
{
    m17::gathered::m17_valid_segments(set, out)
}

#[unsafe(no_mangle)]
pub extern "C" fn m17_set_segment(parts: &mut [u8], set: &mut [u8], counter: u8, part: &[u8]) -> u8
    ensures { (result ≡ said_of (set_for counter part.now parts.old set.old)) × (parts.new ≡ given (made_of (λ new. new.bytes) (set_for counter part.now parts.old set.old)) parts.old) × (set.new ≡ given (made_of (λ new. flag_bytes new.set) (set_for counter part.now parts.old set.old)) set.old) }
{
    m17::gathered::m17_set_segment(parts, set, counter, part)
}

#[unsafe(no_mangle)]
pub extern "C" fn m17_try_assemble(
    parts: &[u8],
    set: &[u8],
    assembled: &mut u8,
    out: &mut [u8],
) -> u8
    ensures { (result ≡ said_of (assembled_for parts.now set.now out.old)) × (assembled.new ≡ given (made_of there (assembled_for parts.now set.now out.old)) assembled.old) × (out.new ≡ given (made_of (λ header. given_there header out.old) (assembled_for parts.now set.now out.old)) out.old) }
{
    m17::gathered::m17_try_assemble(parts, set, assembled, out)
}
