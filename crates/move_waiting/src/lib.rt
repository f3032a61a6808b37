// Rows that wait for their replies. 01, Moves: "A solicit-response then waits"; a reply goes to "its waiting row", where it "replaces the
// subtree", and an outer reply is "bytes for a row waiting on an outside location".
#![tactic(auto)]

ghost use Rattle.std.specs.Prelude.{◌≡◌, ◌+◌, ◌≤◌, ◌<◌, length};
ghost use Rattle.move_waiting.specs.Waiting.{HasRow, WaitsAt, SenderInside, settled, PutsReply, TakesReply};
ghost use Rattle.state.specs.Places.{slot_size, tree_room};

use network_rows::OutputRow;
use refusal::{Outcome, Refusal};
use state_progress::Progress;

// Who replies: an outsider, or row r of the session in a slot.
#[derive(Clone, Copy)]
pub enum Sender {
    Outsider,
    Row(usize, u16),
}

// Is row r one of the behaviour of B row b?
pub fn has_row(file: &[u8], b: u16, r: u16) -> bool
    ensures { HasRow file.now b r result }
{
    r <= 255 && state_rows::rows_of(file, b)[usize::from(r)] != 0
}

// Does row r of the session of service q in the slot, which runs B row b, wait for its reply?
pub fn waiting_at(
    file: &[u8],
    state: &[u8],
    slot: usize,
    b: u16,
    q: u16,
    r: u16,
) -> Option<(u16, u16)>
    requires { slot < 65536 }
    ensures { WaitsAt file.now state.now slot b q r result }
{
    if !has_row(file, b, r) {
        return None;
    }
    let OutputRow::SolicitResponse(o, _, x) = network_rows::output_of(file, r) else {
        return None;
    };
    let Progress::Waits = state_progress::row_progress(state, slot, r) else {
        return None;
    };
    if !check_operations::permits(file, q, false, true, o) {
        return None;
    }
    Some((o, x))
}

// Stores the first n bytes of `tree` as the session's tree, and its row r as done.
fn put_reply(state: &mut [u8], slot: usize, r: u16, tree: &[u8], n: u16)
    requires { (slot + slot_size ≤ length state.old) × (r < 256) × (n ≤ tree_room) × (n ≤ length tree.now) }
    ensures { PutsReply state.old slot r tree.now n state.new }
{
    state_slots::put_tree(state, slot, tree, n);
    state_progress::put_row(state, slot, r, Progress::Done);
}

// The row that replies is done.
fn settle(state: &mut [u8], from: Sender)
    requires { SenderInside (length state.old) from }
    ensures { state.new ≡ settled state.old from }
{
    if let Sender::Row(at, r) = from {
        state_progress::put_row(state, at, r, Progress::Done);
    }
}

// The waiting row r of the session in the slot takes the message as its reply, at the path of P row `path`, and the row that replies is done; 18
// where the tree would pass its limits.
pub fn take_reply(
    file: &[u8],
    state: &mut [u8],
    from: Sender,
    slot: usize,
    r: u16,
    path: u16,
    message: &[u8],
) -> Outcome
    requires { SenderInside (length state.old) from × (slot + slot_size ≤ length state.old) × (r < 256) }
    ensures { TakesReply file.now state.old from slot r path message.now state.new result }
{
    let mut tree = [0u8; 2304];
    let Some(n) = state_trees::replace_at(&mut tree, file, path, state, slot, message) else {
        return refusal::refused(Refusal::Stuck);
    };
    settle(state, from);
    put_reply(state, slot, r, &tree, n);
    refusal::done(0)
}
