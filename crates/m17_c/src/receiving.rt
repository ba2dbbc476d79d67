// The slot receiver for C. Its state crosses as a struct by value, and comes back in the struct that is answered.
ghost use Rattle.std.specs.Prelude.{◌≡◌};
ghost use Rattle.automaton.specs.Step.{idle};
ghost use Rattle.receiver.specs.Receiver.{receiver_for, received_of, memory_of};
ghost use Rattle.m17.specs.Receiving.{held_by, state_for, crossed};

use m17::{M17Received, M17Receiver};

#[unsafe(no_mangle)]
pub extern "C" fn m17_receiver_new() -> M17Receiver
    ensures { result ≡ state_for (receiver_for idle) }
{
    m17::receiving::m17_receiver_new()
}

#[unsafe(no_mangle)]
pub extern "C" fn m17_receive(state: M17Receiver, slot: &[u8], memory: &mut [u8]) -> M17Received
    ensures { (result ≡ crossed state (received_of (held_by state) slot.now memory.old)) × (memory.new ≡ memory_of (held_by state) slot.now memory.old) }
{
    m17::receiving::m17_receive(state, slot, memory)
}
