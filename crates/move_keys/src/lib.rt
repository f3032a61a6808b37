// Sessions by key. 02: "A message goes only to the live session 1 to 3 with its key, or starts one where no live session has it; another target,
// and any target of a message without that int, is 15".
#![tactic(auto)]

ghost use Rattle.std.specs.Prelude.{◌≡◌};
ghost use Rattle.move_keys.specs.Finding.{IntAt, MessageKey, HoldsKey, IsHeld, GoesTo, Finds};

use move_targets::Target;

// The int of the tree at `at`.
fn int_at(message: &[u8], at: usize) -> Option<u32>
    ensures { IntAt message.now at result }
{
    if tree::head_at(message, at)?.basic != scalar::INT {
        return None;
    }
    Some(wire::u32_at(message, at + 5))
}

// The key of the message: the int child of its root with that id.
fn key_of(message: &[u8], id: u16) -> Option<u32>
    ensures { MessageKey message.now id result }
{
    int_at(message, tree::down(message, 0, id)?)
}

// Is session n of service q live, and does it hold the key x?
#[tactic(auto, using(move_targets::specs::SessionLaws::slot_read), unfolding(state::specs::Bytes::read_slot, state::specs::Bytes::read_session))]
fn holds_key(state: &[u8], q: u16, n: u16, x: u32) -> bool
    ensures { HoldsKey state.now q n x result }
{
    let at = state::slot_start(q, n);
    wire::byte_at(state, at) != 0 && wire::u32_at(state, at + state::KEY) == x
}

// Does one of the live sessions 1 to 3 of service q hold the key x?
fn is_held(state: &[u8], q: u16, x: u32) -> bool
    ensures { IsHeld state.now q x result }
{
    holds_key(state, q, 1, x) || holds_key(state, q, 2, x) || holds_key(state, q, 3, x)
}

// Does a message with the key x go to session n of service q by its target?
fn goes_to(state: &[u8], q: u16, n: u16, target: Target, x: u32) -> bool
    ensures { GoesTo state.now q n target x result }
{
    match target {
        Target::NoTarget | Target::QueueFull => false,
        Target::Queued => n != 0 && holds_key(state, q, n, x),
        Target::Starts(..) => !is_held(state, q, x),
    }
}

// Does the message go to session n of service q by its target? In a service that is not keyed any target will do.
pub fn find(
    file: &[u8],
    state: &[u8],
    q: u16,
    n: u16,
    target: Target,
    message: &[u8],
) -> Option<u32>
    ensures { Finds file.now state.now q n target message.now result }
{
    let id = network_rows::service_key(file, q);
    if id == 0 {
        return Some(0);
    }
    let x = key_of(message, id)?;
    if goes_to(state, q, n, target, x) {
        Some(x)
    } else {
        None
    }
}
