// Receiving. 01: "receive: a ready input (in a choice it settles the branch) takes the oldest queued message of its operation and replaces the
// subtree." `slot` is where the session's slot starts. Everything is tested before the first byte of the state is written.
#![tactic(auto)]

ghost use Rattle.std.specs.Prelude.{◌≡◌, ◌+◌, ◌≤◌, ◌<◌, length};
ghost use Rattle.state.specs.Places.{slot_size, tree_room, entry_start};
ghost use Rattle.state.specs.Bytes.{read_entry};
ghost use Rattle.move_rules.specs.Moves.{receive_move};
ghost use Rattle.state.specs.Session.{received_by};
ghost use Rattle.move_frame.specs.Made.{Made};
ghost use Rattle.state_progress.specs.Meaning.{meaning};
ghost use Rattle.move_receive.specs.Receiving.{settled_bytes, stored_bytes, Takes, ReceivesInput, ReceivesAt};

use move_readiness::Reached;
use network_rows::InputRow;
use refusal::{Outcome, Refusal};
use state_progress::Progress;

// The entry of the oldest message of O row o, and the length of the session's tree with it at the path of P row p, in the scratch buffer;
// 15 without a message, 18 past a tree's limits.
fn take(
    scratch: &mut [u8],
    file: &[u8],
    state: &[u8],
    slot: usize,
    o: u16,
    p: u16,
) -> Result<(usize, u16), Refusal>
    requires { (slot + slot_size ≤ length state.now) × (2304 ≤ length scratch.old) }
    ensures { Takes file.now state.now slot o p scratch.new result }
{
    let k = state_queues::oldest(state, slot, o).ok_or(Refusal::MoveNotAllowed)?;
    let m = state_queues::entry_message(state, slot, k);
    if 336 < m.len {
        return Err(Refusal::Stuck);
    }
    let message = &state[m.start..m.start + m.len];
    let ids = network_rows::path_row(file, p);
    let n = state_trees::replace(scratch, state, slot, ids, message).ok_or(Refusal::Stuck)?;
    if 1024 < n {
        return Err(Refusal::Stuck);
    }
    Ok((k, n))
}

// The input's progress once it has the message of the entry k.
fn progress_after(state: &[u8], slot: usize, k: usize) -> Progress
    requires { (slot + slot_size ≤ length state.now) × (k < 4) }
    ensures { meaning result ≡ received_by (read_entry state.now (entry_start slot k)).reply_to }
{
    state_progress::received_by(state_queues::entry_reply(state, slot, k))
}

// "in a choice it settles the branch"
fn settle(state: &mut [u8], slot: usize, x: Option<(u16, u8)>)
    requires { slot + slot_size ≤ length state.old }
    ensures { state.new ≡ settled_bytes state.old slot x }
{
    if let Some((c, k)) = x {
        if c < 256 {
            state_progress::put_row(state, slot, c, Progress::Taken(k));
        }
    }
}

// The stores: the tree of n bytes, the queue without the entry k, the settled branch, the progress y of row i.
fn store(
    state: &mut [u8],
    slot: usize,
    tree: &[u8],
    n: u16,
    k: usize,
    x: Option<(u16, u8)>,
    i: u16,
    y: Progress,
)
    requires { (slot + slot_size ≤ length state.old) × (n ≤ tree_room) × (n ≤ length tree.now) × (k < 4) × (i < 256) }
    ensures { state.new ≡ stored_bytes state.old slot tree.now n k x i (meaning y) }
{
    state_slots::put_tree(state, slot, tree, n);
    state_queues::remove(state, slot, k);
    settle(state, slot, x);
    state_progress::put_row(state, slot, i, y);
}

// The input of row i, of O row o, into the path of P row p.
fn receive_input(
    file: &[u8],
    state: &mut [u8],
    q: u16,
    slot: usize,
    i: u16,
    x: Option<(u16, u8)>,
    o: u16,
    p: u16,
    twoway: bool,
) -> Outcome
    requires { (slot + slot_size ≤ length state.old) × (slot < 65536) × (i < 256) }
    ensures { ReceivesInput file.now q slot i x o p twoway state.old state.new result }
{
    if !state_progress::is_undone(state, slot, i) {
        return refusal::refused(Refusal::MoveNotAllowed);
    }
    if !check_operations::permits(file, q, true, twoway, o) {
        return refusal::refused(Refusal::MoveNotAllowed);
    }
    let mut scratch = [0u8; 2304];
    match take(&mut scratch, file, state, slot, o, p) {
        Err(why) => refusal::refused(why),
        Ok((k, n)) => {
            let y = progress_after(state, slot, k);
            store(state, slot, &scratch, n, k, x, i, y);
            refusal::done(0)
        }
    }
}

// The row i, if it is an input.
fn receive_at(
    file: &[u8],
    state: &mut [u8],
    q: u16,
    slot: usize,
    i: u16,
    x: Option<(u16, u8)>,
) -> Outcome
    requires { (slot + slot_size ≤ length state.old) × (slot < 65536) }
    ensures { ReceivesAt file.now q slot i x state.old state.new result }
{
    if 255 < i {
        return refusal::refused(Refusal::MoveNotAllowed);
    }
    match network_rows::input_of(file, i) {
        InputRow::OneWay(o, p) => receive_input(file, state, q, slot, i, x, o, p, false),
        InputRow::RequestResponse(o, p, _, _) => {
            receive_input(file, state, q, slot, i, x, o, p, true)
        }
        InputRow::Nothing => refusal::refused(Refusal::MoveNotAllowed),
    }
}

// Row r of session n of service q receives.
pub fn receive_move(file: &[u8], state: &mut [u8], q: u16, n: u16, r: u16) -> Outcome
    requires { length state.old ≡ 65536 }
    ensures { Made file.now (λ N G. receive_move N G q n r) state.old state.new result }
{
    let Some((slot, b)) = move_frame::session_at(file, state, q, n) else {
        return refusal::refused(Refusal::MoveNotAllowed);
    };
    match move_readiness::reach(file, state, slot, r, b) {
        Reached::Unreached => refusal::refused(Refusal::MoveNotAllowed),
        Reached::Reached(i) => receive_at(file, state, q, slot, i, None),
        Reached::Offered(c, k, i) => receive_at(file, state, q, slot, i, Some((c, k))),
    }
}
