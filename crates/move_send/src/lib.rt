// The move send. 01, Moves: "send, with a target session: to the input it meets, queued at a live one, or starting a free 1 to 3 ..". "To a
// location outside (target 0) the message alone goes to the start of the out buffer." Everything is tested before the first store.
#![tactic(auto)]

ghost use Rattle.std.specs.Prelude.{◌≡◌, ◌+◌, ◌%◌, ◌≤◌, ◌<◌, length};
ghost use Rattle.state_progress.specs.Meaning.{meaning};
ghost use Rattle.state_destinations.specs.Meaning.{reply_of};
ghost use Rattle.move_rules.specs.Moves.{send_move};
ghost use Rattle.move_frame.specs.Made.{MadeOut};
ghost use Rattle.move_evaluation.specs.Writing.{bytes_written};
ghost use Rattle.move_send.specs.Sending.{after_sending, reply_back, written_verdict, OutputAt, SendingAt, WritesMessage, SendsOutside, SendsInside, SendsBy};
ghost use Rattle.state.specs.Places.{slot_size, tree_room};

use move_evaluation::Fault;
use move_readiness::Reached;
use network_rows::OutputRow;
use refusal::{Outcome, Refusal};
use state_destinations::Destination;
use state_progress::Progress;

// B row i, if it is an output.
fn output_at(file: &[u8], i: u16) -> Option<(u16, u16, bool)>
    ensures { OutputAt file.now i result }
{
    match network_rows::output_of(file, i) {
        OutputRow::Notification(o, e) => Some((o, e, false)),
        OutputRow::SolicitResponse(o, e, _) => Some((o, e, true)),
        OutputRow::Nothing => None,
    }
}

// What the reached row i of the session of service q in the slot may send.
fn sending_at(file: &[u8], state: &[u8], slot: usize, q: u16, i: u16) -> Option<(u16, u16, bool)>
    requires { slot < 65536 }
    ensures { SendingAt file.now state.now slot q i result }
{
    if 255 < i {
        return None;
    }
    let (o, e, twoway) = output_at(file, i)?;
    let Progress::Undone = state_progress::row_progress(state, slot, i) else {
        return None;
    };
    if !check_operations::permits(file, q, false, twoway, o) {
        return None;
    }
    Some((o, e, twoway))
}

// The sender's progress once sent: done, or waiting for its reply.
fn after_sending(twoway: bool) -> Progress
    ensures { meaning result ≡ after_sending twoway }
{
    if twoway {
        return Progress::Waits;
    }
    Progress::Done
}

// Where the reply goes: to the row i of session n of service q.
fn reply_back(twoway: bool, q: u16, n: u16, i: u16) -> Option<Destination>
    ensures { reply_of result ≡ reply_back twoway (q % 256) (n % 256) i }
{
    if twoway {
        return Some(Destination::WaitingRow((q % 256) as u8, (n % 256) as u8, i));
    }
    None
}

// Writes the value of E row e in the session's tree to the start of out, as a tree alone.
fn write_message(
    out: &mut [u8],
    file: &[u8],
    state: &[u8],
    slot: usize,
    e: u16,
) -> Result<usize, Fault>
    requires { (slot + slot_size ≤ length state.now) × (tree_room ≤ length out.old) }
    ensures { WritesMessage file.now state.now slot e out.new result }
{
    let s = state_slots::tree_of(state, slot);
    move_evaluation::write_value(out, s, move_evaluation::evaluate(file, s, e))
}

// Row i of the session in the slot sends the value of E row e by O row o to a location outside.
fn send_outside(
    file: &[u8],
    state: &mut [u8],
    out: &mut [u8],
    slot: usize,
    i: u16,
    o: u16,
    e: u16,
    to: u16,
    after: Progress,
) -> Outcome
    requires { (slot + slot_size ≤ length state.old) × (i < 256) }
    ensures { SendsOutside file.now state.old slot i o e to (meaning after) state.new
        out.old out.new result }
{
    if out.len() < 512 {
        return refusal::refused(Refusal::BufferSize);
    }
    if to != 0 {
        return refusal::refused(Refusal::MoveNotAllowed);
    }
    let mut m = [0u8; 1024];
    let n = match write_message(&mut m, file, state, slot, e) {
        Ok(n) => n,
        Err(fault) => return refusal::refused(move_evaluation::refusal_of(fault)),
    };
    let t = network_rows::request_type(file, o);
    if let Err(why) = move_fitting::passes(&m[..n], file, t, Refusal::MessageMisfit) {
        return refusal::refused(why);
    }
    if 512 < n {
        return refusal::refused(Refusal::MessageMisfit);
    }
    state_progress::put_row(state, slot, i, after);
    refusal::done(tree_edit::append(out, 0, &m[..n], 0, n))
}

// The length of the message, 0 where there is none; and what it answers itself, 18 or 22 where there is none.
fn message_length(w: Result<usize, Fault>) -> usize
    ensures { result ≡ bytes_written w }
{
    match w {
        Ok(n) => n,
        Err(_) => 0,
    }
}

fn message_verdict(w: Result<usize, Fault>) -> Result<(), Refusal>
    ensures { result ≡ written_verdict w }
{
    match w {
        Ok(_) => Ok(()),
        Err(fault) => Err(move_evaluation::refusal_of(fault)),
    }
}

// Row i of the session in the slot sends the value of E row e to session `to` by the input of O row k.
fn send_inside(
    file: &[u8],
    state: &mut [u8],
    slot: usize,
    i: u16,
    k: u16,
    e: u16,
    to: u16,
    after: Progress,
    back: Option<Destination>,
) -> Outcome
    requires { (length state.old ≡ 65536) × (slot + slot_size ≤ 65536) × (i < 256) }
    ensures { SendsInside file.now state.old slot i k e to (meaning after) (reply_of back) state.new result }
{
    let mut m = [0u8; 1024];
    let mut tree = [0u8; 2304];
    let w = write_message(&mut m, file, state, slot, e);
    let n = message_length(w);
    let own = message_verdict(w);
    match move_delivery::admit(
        &mut tree,
        file,
        state,
        k,
        to,
        &m[..n],
        own,
        Refusal::MessageMisfit,
    ) {
        Err(why) => refusal::refused(why),
        Ok(y) => {
            state_progress::put_row(state, slot, i, after);
            move_delivery::store(state, k, back, &m[..n], y, &tree);
            refusal::done(0)
        }
    }
}

// Row i of the session in the slot sends the value of E row e by O row o.
fn send_by(
    file: &[u8],
    state: &mut [u8],
    out: &mut [u8],
    slot: usize,
    i: u16,
    o: u16,
    e: u16,
    to: u16,
    after: Progress,
    back: Option<Destination>,
) -> Outcome
    requires { (length state.old ≡ 65536) × (slot + slot_size ≤ 65536) × (i < 256) }
    ensures { SendsBy file.now state.old slot i o e to (meaning after) (reply_of back) state.new
        out.old out.new result }
{
    if !check_operations::in_file(file, network_rows::operation_location(file, o)) {
        return send_outside(file, state, out, slot, i, o, e, to, after);
    }
    let Some(k) = check_operations::met_input(file, o) else {
        return refusal::refused(Refusal::MoveNotAllowed);
    };
    send_inside(file, state, slot, i, k, e, to, after, back)
}

// Row r of session n of service q sends, with the target session `to`: 15, 16, 18, 22, 19; a message to a location outside is written out.
pub fn send_move(
    file: &[u8],
    state: &mut [u8],
    out: &mut [u8],
    q: u16,
    n: u16,
    r: u16,
    to: u16,
) -> Outcome
    requires { length state.old ≡ 65536 }
    ensures { MadeOut file.now (λ N G. send_move N G q n r to) state.old state.new
        out.old out.new result }
{
    let Some((slot, b)) = move_frame::session_at(file, state, q, n) else {
        return refusal::refused(Refusal::MoveNotAllowed);
    };
    let Reached::Reached(i) = move_readiness::reach(file, state, slot, r, b) else {
        return refusal::refused(Refusal::MoveNotAllowed);
    };
    let Some((o, e, twoway)) = sending_at(file, state, slot, q, i) else {
        return refusal::refused(Refusal::MoveNotAllowed);
    };
    let after = after_sending(twoway);
    let back = reply_back(twoway, q, n, i);
    send_by(file, state, out, slot, i, o, e, to, after, back)
}
