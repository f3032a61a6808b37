// The queue of a session in the bytes of a state: reading an entry, the oldest message of an operation, taking one out, queueing one more.
// `slot` is where the session's slot starts. docs/STATE.md has the bytes.
#![tactic(auto)]

ghost use Rattle.std.specs.Prelude.{◌≡◌, ◌+◌, ◌≤◌, ◌<◌, length};
ghost use Rattle.wire.specs.Wire.{part, with_part};
ghost use Rattle.state.specs.Places.{slot_size, message_room, entry_start};
ghost use Rattle.state.specs.Bytes.{padded, read_entry, read_session};
ghost use Rattle.state_destinations.specs.Meaning.{reply_of};
ghost use Rattle.state_queues.specs.Queue.{message_span, oldest_in, removed, entry_head, pushed};

use state_destinations::Destination;

// The place and the length of some bytes.
#[derive(Clone, Copy)]
pub struct Span {
    pub start: usize,
    pub len: usize,
}

// Where the reply to the message of the entry k goes.
#[tactic(auto, unfolding(state::specs::Bytes::read_entry))]
pub fn entry_reply(state: &[u8], slot: usize, k: usize) -> Option<Destination>
    requires { (slot + slot_size ≤ length state.now) × (k < 4) }
    ensures { reply_of result ≡ (read_entry state.now (entry_start slot k)).reply_to }
{
    let at = state::entry_start(slot, k);
    state_destinations::read_reply(state, wire::byte_at(state, at + 1), at + 4)
}

// The operation (O row) of the entry that starts at `at`.
#[tactic(auto, unfolding(state::specs::Bytes::read_entry))]
fn operation_at(state: &[u8], at: usize) -> u16
    ensures { result ≡ (read_entry state.now at).operation }
{
    u16::from(wire::byte_at(state, at)).saturating_sub(1)
}

// Where the message of the entry k stands, and how many bytes it takes.
#[tactic(auto, unfolding(crate::specs::Queue::message_span))]
pub fn entry_message(state: &[u8], slot: usize, k: usize) -> Span
    requires { (slot + slot_size ≤ length state.now) × (k < 4) }
    ensures { result ≡ message_span state.now slot k }
{
    let at = state::entry_start(slot, k);
    Span {
        start: at + 8,
        len: usize::from(wire::u16_at(state, at + 2)),
    }
}

// How many messages the queue holds: its entries are used up to the first that is not.
pub fn count(state: &[u8], slot: usize) -> usize
    requires { slot + slot_size ≤ length state.now }
    ensures { (result ≡ length (read_session state.now slot).queue) × (result ≤ 4) }
{
    for k in 0..4 {
        if wire::byte_at(state, state::entry_start(slot, k)) == 0 {
            return k;
        }
    }
    4
}

// The oldest message of the operation w.
pub fn oldest(state: &[u8], slot: usize, w: u16) -> Option<usize>
    requires { slot + slot_size ≤ length state.now }
    ensures { result ≡ oldest_in w (read_session state.now slot).queue }
{
    for k in 0..count(state, slot) {
        if operation_at(state, state::entry_start(slot, k)) == w {
            return Some(k);
        }
    }
    None
}

// Takes the entry k out of the queue: the entries after it move up, and the last one is unused.
pub fn remove(state: &mut [u8], slot: usize, k: usize)
    requires { (slot + slot_size ≤ length state.old) × (k < 4) }
    ensures { state.new ≡ removed state.old slot k }
{
    let at = state::entry_start(slot, k);
    let last = at + state::ENTRY * (3 - k);
    let end = last + state::ENTRY;
    state.copy_within(at + state::ENTRY..end, at);
    state[last..end].fill(0);
}

// Writes what an entry holds before its message, 8 bytes: the operation w, where the reply goes, the message's length.
fn put_head(state: &mut [u8], at: usize, w: u16, to: Option<Destination>, len: u16)
    requires { (at + 8 ≤ length state.old) × (w < 255) }
    ensures { state.new ≡ with_part state.old at (entry_head w (reply_of to) len) }
{
    wire::put_u8(state, at, (w + 1) as u8);
    wire::put_u8(state, at + 1, state_destinations::reply_kind(to));
    wire::put_u16(state, at + 2, len);
    state_destinations::write_reply(state, at + 4, to);
}

// Writes an entry's message, the `len` bytes of `message` from `start` on, and zeros.
fn put_message(state: &mut [u8], at: usize, message: &[u8], start: usize, len: usize)
    requires { (at + message_room ≤ length state.old) × (start + len ≤ length message.now) × (len ≤ message_room) }
    ensures { state.new ≡ with_part state.old at (padded message_room (part message.now start len)) }
{
    let mid = at + len;
    let end = at + state::MESSAGE_ROOM;
    state[at..mid].copy_from_slice(&message[start..start + len]);
    state[mid..end].fill(0);
}

// Queues one more message, the `len` bytes of `message` from `start` on, at the first unused entry; a full queue stays.
pub fn push(
    state: &mut [u8],
    slot: usize,
    w: u16,
    to: Option<Destination>,
    message: &[u8],
    start: usize,
    len: usize,
)
    requires { (slot + slot_size ≤ length state.old) × (w < 255) × (start + len ≤ length message.now) × (len ≤ message_room) }
    ensures { state.new ≡ pushed state.old slot w (reply_of to) (part message.now start len) }
{
    let k = count(state, slot);
    if 4 <= k {
        return;
    }
    let at = state::entry_start(slot, k);
    put_head(state, at, w, to, len as u16);
    put_message(state, at + 8, message, start, len);
}
