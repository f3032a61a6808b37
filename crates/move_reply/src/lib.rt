// The move reply. 01, Moves: "reply: a request-response whose body is done answers its waiting row; for an outsider, the u32 reply number and
// then the message go to the start of the out buffer."
#![tactic(auto)]

ghost use Rattle.std.specs.Prelude.{◌≡◌, ◌++◌, ◌+◌, ◌≤◌, ◌<◌, length};
ghost use Rattle.tree_edit.specs.Wrote.{Wrote};
ghost use Rattle.state.specs.Places.{slot_size, tree_room};
ghost use Rattle.wire.specs.Wire.{u32_bytes};
ghost use Rattle.move_rules.specs.Moves.{reply_move};
ghost use Rattle.move_frame.specs.Made.{MadeOut};
ghost use Rattle.move_reply.specs.Replying.{ReplyingAt, ReadsReply, RepliesOutside, RepliesInside};

use move_waiting::Sender;
use network_rows::InputRow;
use refusal::{Outcome, Refusal};
use state_destinations::Destination;
use state_progress::Progress;

// Is row r of the session of service q in the slot, which runs B row b, a request-response whose body is done?
fn replying_at(file: &[u8], state: &[u8], slot: usize, b: u16, q: u16, r: u16) -> Option<(u16, u16)>
    requires { slot < 65536 }
    ensures { ReplyingAt file.now state.now slot b q r result }
{
    if !move_waiting::has_row(file, b, r) {
        return None;
    }
    let InputRow::RequestResponse(o, _, c, d) = network_rows::input_of(file, r) else {
        return None;
    };
    if !move_readiness::is_done(file, state, slot, d) {
        return None;
    }
    if !check_operations::permits(file, q, true, true, o) {
        return None;
    }
    Some((o, c))
}

// Writes what stands at the path of P row c in the session's tree to the start of out, as a tree alone.
fn read_reply(out: &mut [u8], file: &[u8], state: &[u8], slot: usize, c: u16) -> Option<usize>
    requires { (slot + slot_size ≤ length state.now) × (tree_room ≤ length out.old) }
    ensures { ReadsReply file.now state.now slot c out.new result }
{
    let s = state_slots::tree_of(state, slot);
    let ids = network_rows::path_row(file, c);
    if 1024 < s.len() {
        return None;
    }
    if !tree::path_ok(ids) {
        return None;
    }
    if !tree::is_tree(s, 6, 48) {
        return None;
    }
    tree::follow(s, ids)?;
    Some(tree_edit::subtree(out, s, ids))
}

// Writes the reply number and the bytes of m to the start of out, and gives the place past them.
fn put_answer(out: &mut [u8], number: u32, m: &[u8]) -> usize
    requires { 4 + length m.now ≤ length out.old }
    ensures { Wrote out.old out.new 0 result result (u32_bytes number ++ m.now) }
{
    wire::put_u32(out, 0, number);
    tree_edit::append(out, 4, m, 0, m.len())
}

// Row r of the session in the slot replies to an outsider with what stands at the path of P row c.
fn reply_outside(
    file: &[u8],
    state: &mut [u8],
    out: &mut [u8],
    slot: usize,
    r: u16,
    o: u16,
    c: u16,
    number: u32,
) -> Outcome
    requires { (slot + slot_size ≤ length state.old) × (r < 256) }
    ensures { RepliesOutside file.now state.old slot r o c number state.new out.old out.new result }
{
    if out.len() < 512 {
        return refusal::refused(Refusal::BufferSize);
    }
    let mut m = [0u8; 1024];
    let Some(n) = read_reply(&mut m, file, state, slot, c) else {
        return refusal::refused(Refusal::Stuck);
    };
    let t = network_rows::reply_type(file, o);
    if let Err(why) = move_fitting::passes(&m[..n], file, t, Refusal::MessageMisfit) {
        return refusal::refused(why);
    }
    if 508 < n {
        return refusal::refused(Refusal::MessageMisfit);
    }
    state_progress::put_row(state, slot, r, Progress::Done);
    refusal::done(put_answer(out, number, &m[..n]))
}

// Row r of the session in the slot replies to row r2 of session n2 of service q2 with what stands at the path of P row c.
fn reply_inside(
    file: &[u8],
    state: &mut [u8],
    slot: usize,
    r: u16,
    c: u16,
    q2: u16,
    n2: u16,
    r2: u16,
) -> Outcome
    requires { (length state.old ≡ 65536) × (slot + slot_size ≤ 65536) × (r < 256) }
    ensures { RepliesInside file.now state.old slot r c q2 n2 r2 state.new result }
{
    let Some((to, b2)) = move_frame::session_at(file, state, q2, n2) else {
        return refusal::refused(Refusal::MoveNotAllowed);
    };
    let Some((o2, p)) = move_waiting::waiting_at(file, state, to, b2, q2, r2) else {
        return refusal::refused(Refusal::MoveNotAllowed);
    };
    let mut m = [0u8; 1024];
    let Some(n) = read_reply(&mut m, file, state, slot, c) else {
        return refusal::refused(Refusal::Stuck);
    };
    let t = network_rows::reply_type(file, o2);
    if let Err(why) = move_fitting::passes(&m[..n], file, t, Refusal::MessageMisfit) {
        return refusal::refused(why);
    }
    move_waiting::take_reply(file, state, Sender::Row(slot, r), to, r2, p, &m[..n])
}

// Row r of session n of service q replies: 15 unless it is received and its body is done, 18, 19; a reply to an outsider is written out.
pub fn reply_move(file: &[u8], state: &mut [u8], out: &mut [u8], q: u16, n: u16, r: u16) -> Outcome
    requires { length state.old ≡ 65536 }
    ensures { MadeOut file.now (λ N G. reply_move N G q n r) state.old state.new
        out.old out.new result }
{
    let Some((slot, b)) = move_frame::session_at(file, state, q, n) else {
        return refusal::refused(Refusal::MoveNotAllowed);
    };
    let Some((o, c)) = replying_at(file, state, slot, b, q, r) else {
        return refusal::refused(Refusal::MoveNotAllowed);
    };
    let Progress::Received(d) = state_progress::row_progress(state, slot, r) else {
        return refusal::refused(Refusal::MoveNotAllowed);
    };
    match d {
        Destination::Outsider(number) => reply_outside(file, state, out, slot, r, o, c, number),
        Destination::WaitingRow(q2, n2, r2) => reply_inside(
            file,
            state,
            slot,
            r,
            c,
            u16::from(q2),
            u16::from(n2),
            r2,
        ),
    }
}
