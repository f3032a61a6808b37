// Refusal 14: "The state bytes stand for no state of this file's shape." `stands` decides it for every file that none of 2 to 5 refuses.
#![tactic(auto)]

ghost use Rattle.std.specs.Prelude.{◌≡◌, true, false, ◌+◌, ◌*◌, ◌≤◌, ◌<◌};
ghost use Rattle.network_syntax.specs.Keys.{is_keyed};
ghost use Rattle.network.specs.Layout.{behaviour_count};
ghost use Rattle.network.specs.Decode.{network_of};
ghost use Rattle.state.specs.Places.{slot_size, entry_size};
ghost use Rattle.state.specs.Bytes.{read_queue, read_state};
ghost use Rattle.state.specs.Shape.{suits_reply, suits_queue, has_no_key, keys_differ, suits_keys, suits_all_keys};
ghost use Rattle.state_destinations.specs.Meaning.{reply_of};
ghost use Rattle.state_shape.specs.Stands.{suits_entry, TopRow, SessionTells, SlotTells, Tells};

use state_destinations::Destination;

// Has a message a destination of this file exactly if its operation is two-way?
fn reply_suits(file: &[u8], twoway: bool, to: Option<Destination>) -> bool
    ensures { result ≡ suits_reply (network_of file.now) (behaviour_count file.now) twoway (reply_of to) }
{
    match to {
        None => !twoway,
        Some(d) => twoway && state_rows::is_destination(file, d),
    }
}

// Is a queued message, whose entry starts at `at`, of an input of the service q, with a destination exactly if that is two-way?
// `row` is the O row of its operation.
#[tactic(auto, using(crate::proofs::QueueLaws::entry_laws))]
fn entry_suits(file: &[u8], s: &[u8], q: u8, row: u16, at: usize) -> bool
    requires { at + 8 ≤ 0x100000000 }
    ensures { result ≡ suits_entry file.now s.now q row at }
{
    let to = state_destinations::read_reply(s, wire::byte_at(s, at + 1), at + 4);
    row < network_layout::operation_count(file)
        && network_rows::operation_service(file, row) == q
        && network_rows::operation_direction(file, row) == 0
        && reply_suits(file, network_rows::operation_two_way(file, row) == 1, to)
}

// Do the queued messages, of up to n entries from `at` on, suit the service q?
fn queue_suits(file: &[u8], s: &[u8], q: u8, at: usize, n: usize) -> bool
    requires { at + entry_size * n ≤ 0x100000000 }
    ensures { result ≡ suits_queue (network_of file.now) (behaviour_count file.now) q (read_queue s.now n at) }
{
    for k in 0..n {
        let place = at + state::ENTRY * k;
        let code = wire::byte_at(s, place);
        if code == 0 {
            return true;
        }
        if !entry_suits(file, s, q, u16::from(code) - 1, place) {
            return false;
        }
    }
    true
}

// The B row that a session runs, 65,535 for none: the client in session 0, the starter in sessions 1 to 3.
fn top_row(file: &[u8], q: u16, n: u8) -> u16
    requires { n ≤ 3 }
    ensures { TopRow file.now q n result }
{
    if network_layout::service_count(file) <= q {
        return 65535;
    }
    if n == 0 {
        return network_rows::client_row(file, q);
    }
    network_rows::starter_row(file, q)
}

// Does the live session n of the service q, whose slot starts at `at`, suit what it runs?
fn session_suits(file: &[u8], s: &[u8], q: u8, n: u8, at: usize) -> bool
    requires { (n ≤ 3) × (at + slot_size ≤ 0x100000000) }
    ensures { SessionTells file.now s.now q n at result }
{
    let r = top_row(file, u16::from(q), n);
    if r == 65535 {
        return false;
    }
    if !queue_suits(file, s, q, at + state::QUEUE, 4) {
        return false;
    }
    let marks = state_rows::rows_of(file, r);
    state_rows::rows_suit(file, s, &marks, at + state::ROWS)
}

// Is the slot k in the form of a slot, and free or live with what suits the file?
#[tactic(auto, unfolding(state::specs::Bytes::read_slot))]
fn slot_stands(file: &[u8], s: &[u8], k: u8) -> bool
    requires { k < 16 }
    ensures { SlotTells file.now s.now k result }
{
    let at = state::SLOT * usize::from(k);
    state_form::slot_form(s, at)
        && (wire::byte_at(s, at) == 0 || session_suits(file, s, k / 4, k % 4, at))
}

// Has session n of service q, if it is live, no key?
#[tactic(auto, unfolding(state::specs::Bytes::read_state, state::specs::Bytes::read_slot, state::specs::Bytes::read_session))]
fn no_key(s: &[u8], q: u16, n: u16) -> bool
    requires { (q < 4) × (n < 4) }
    ensures { result ≡ has_no_key (read_state s.now q n) }
{
    let at = state::slot_start(q, n);
    wire::byte_at(s, at) == 0 || wire::u32_at(s, at + state::KEY) == 0
}

// Have the sessions n and m of service q, if both are live, different keys?
#[tactic(auto, unfolding(state::specs::Bytes::read_state, state::specs::Bytes::read_slot, state::specs::Bytes::read_session))]
fn keys_differ(s: &[u8], q: u16, n: u16, m: u16) -> bool
    requires { (q < 4) × (n < 4) × (m < 4) }
    ensures { result ≡ keys_differ (read_state s.now q n) (read_state s.now q m) }
{
    let at = state::slot_start(q, n);
    let to = state::slot_start(q, m);
    wire::byte_at(s, at) == 0
        || wire::byte_at(s, to) == 0
        || wire::u32_at(s, at + state::KEY) != wire::u32_at(s, to + state::KEY)
}

// 02: "no two live sessions of a service hold one key": of the keyed service q, whose session 0 has none.
fn keys_apart(s: &[u8], q: u16) -> bool
    requires { q < 4 }
    ensures { result ≡ suits_keys true (read_state s.now q) }
{
    no_key(s, q, 0) && keys_differ(s, q, 1, 2) && keys_differ(s, q, 1, 3) && keys_differ(s, q, 2, 3)
}

// Have the sessions of the service q, which is not keyed, no keys?
fn no_keys(s: &[u8], q: u16) -> bool
    requires { q < 4 }
    ensures { result ≡ suits_keys false (read_state s.now q) }
{
    no_key(s, q, 0) && no_key(s, q, 1) && no_key(s, q, 2) && no_key(s, q, 3)
}

// Is the service q keyed? One that the file does not have is not.
#[tactic(auto, using(crate::proofs::KeyLaws::keyed_laws))]
fn is_keyed(file: &[u8], q: u16) -> bool
    ensures { result ≡ is_keyed (network_of file.now) q }
{
    q < network_layout::service_count(file) && network_rows::service_key(file, q) != 0
}

// Do the keys of the sessions of service q suit it?
fn keys_suit(file: &[u8], s: &[u8], q: u16) -> bool
    requires { q < 4 }
    ensures { result ≡ suits_keys (is_keyed (network_of file.now) q) (read_state s.now q) }
{
    if is_keyed(file, q) {
        return keys_apart(s, q);
    }
    no_keys(s, q)
}

// Those of every service?
fn all_keys_suit(file: &[u8], s: &[u8]) -> bool
    ensures { result ≡ suits_all_keys (network_of file.now) (read_state s.now) 4 }
{
    for q in (0u16..4).rev() {
        if !keys_suit(file, s, q) {
            return false;
        }
    }
    true
}

// Do the bytes stand for a state of this file's shape?
pub fn stands(file: &[u8], state: &[u8]) -> bool
    ensures { Tells file.now state.now result }
{
    tree::octets(state);
    if state.len() != 65536 {
        return false;
    }
    for k in (0u8..16).rev() {
        if !slot_stands(file, state, k) {
            return false;
        }
    }
    all_keys_suit(file, state)
}
