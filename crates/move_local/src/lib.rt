// Local moves. 01, Moves: "local: a ready assign, if or while; assign sets one root value and keeps children." Every test comes before the
// first store, and an assigned tree is made in a scratch buffer, so a refusal leaves the state as it was.
#![tactic(auto)]

ghost use Rattle.std.specs.Prelude.{◌≡◌, ◌+◌, ◌≤◌, ◌<◌, length};
ghost use Rattle.scalar.specs.Value.{SoundText};
ghost use Rattle.scalar.specs.Scalar.{value_of};
ghost use Rattle.refusal.specs.Refusal.{done_with, refused_by};
ghost use Rattle.refusal.specs.declared.Refusal.TheVariants.{MoveNotAllowed};
ghost use Rattle.network.specs.Decode.{behaviour_of};
ghost use Rattle.network_rows.specs.declared.BehaviourRow.{BehaviourRow};
ghost use Rattle.state.specs.Places.{slot_size, tree_room};
ghost use Rattle.state.specs.Session.{done, taken};
ghost use Rattle.state.specs.Bytes.{read_session};
ghost use Rattle.state_progress.specs.Meaning.{meaning};
ghost use Rattle.state_progress.specs.Stored.{row_stored};
ghost use Rattle.state_reopening.specs.Reopening.{rows_below, with_undone};
ghost use Rattle.move_rules.specs.Readiness.{is_done};
ghost use Rattle.move_rules.specs.Moves.{local_move};
ghost use Rattle.move_frame.specs.Made.{Made};
ghost use Rattle.move_local.specs.Local.{ready_while, Decides, SetsRoot, AssignsValue, RefusesValue, MadeBy, RowMade};
ghost use Rattle.state_slots.specs.Slots.{tree_stored};

use move_evaluation::Fault;
use move_readiness::Reached;
use network_rows::BehaviourRow;
use refusal::{Outcome, Refusal};
use scalar::Operand;
use state_progress::Progress;

// 15: "The move is not allowed by the list above".
fn not_allowed() -> Outcome
    ensures { result ≡ refused_by MoveNotAllowed }
{
    refusal::refused(Refusal::MoveNotAllowed)
}

// "a while whose body is done is again"
fn is_ready_while(file: &[u8], state: &[u8], slot: usize, r: u16, b: u16) -> bool
    requires { slot < 65536 }
    ensures { result ≡ ready_while ((read_session state.now slot).progress r)
        (is_done (read_session state.now slot).progress (behaviour_of file.now b)) }
{
    match state_progress::row_progress(state, slot, r) {
        Progress::Undone => true,
        Progress::Done => false,
        Progress::Waits => false,
        Progress::Taken(_) => move_readiness::is_done(file, state, slot, b),
        Progress::Received(_) => false,
    }
}

// What the condition of E row e says in the tree of the slot's session.
fn condition_at(file: &[u8], state: &[u8], slot: usize, e: u16) -> Result<bool, Fault>
    requires { slot + slot_size ≤ length state.now }
    ensures { Decides file.now state.now slot e result }
{
    move_evaluation::condition(move_evaluation::evaluate(
        file,
        state_slots::tree_of(state, slot),
        e,
    ))
}

// Row r gets a progress, and the move is done.
fn settle(state: &mut [u8], slot: usize, r: u16, p: Progress) -> Outcome
    requires { (slot + slot_size ≤ length state.old) × (r < 256) }
    ensures { (state.new ≡ row_stored state.old slot r (meaning p)) × (result ≡ done_with 0) }
{
    state_progress::put_row(state, slot, r, p);
    refusal::done(0)
}

// A ready if takes its part.
fn decide(file: &[u8], state: &mut [u8], slot: usize, r: u16, e: u16, a: u16, b: u16) -> Outcome
    requires { (slot + slot_size ≤ length state.old) × (slot < 65536) × (r < 256) }
    ensures { MadeBy (BehaviourRow.If e a b) file.now state.old state.new slot r result }
{
    if !state_progress::is_undone(state, slot, r) {
        return not_allowed();
    }
    match condition_at(file, state, slot, e) {
        Ok(true) => settle(state, slot, r, Progress::Taken(0)),
        Ok(false) => settle(state, slot, r, Progress::Taken(1)),
        Err(fault) => refusal::refused(move_evaluation::refusal_of(fault)),
    }
}

// The while of row r takes its body, whose rows are undone again.
fn take_body(file: &[u8], state: &mut [u8], slot: usize, r: u16, b: u16) -> Outcome
    requires { (slot + slot_size ≤ length state.old) × (r < 256) }
    ensures { (state.new ≡ row_stored (with_undone (rows_below file.now b) slot state.old) slot r (taken 0)) × (result ≡ done_with 0) }
{
    state_reopening::reopen(file, state, slot, b);
    settle(state, slot, r, Progress::Taken(0))
}

// A ready while takes its body, or is done.
fn repeat(file: &[u8], state: &mut [u8], slot: usize, r: u16, e: u16, b: u16) -> Outcome
    requires { (slot + slot_size ≤ length state.old) × (slot < 65536) × (r < 256) }
    ensures { MadeBy (BehaviourRow.While e b) file.now state.old state.new slot r result }
{
    if !is_ready_while(file, state, slot, r, b) {
        return not_allowed();
    }
    match condition_at(file, state, slot, e) {
        Ok(true) => take_body(file, state, slot, r, b),
        Ok(false) => settle(state, slot, r, Progress::Done),
        Err(fault) => refusal::refused(move_evaluation::refusal_of(fault)),
    }
}

// The tree of the slot's session with the value v set at P row p, in the scratch buffer.
fn set_root(
    out: &mut [u8],
    file: &[u8],
    state: &[u8],
    slot: usize,
    p: u16,
    v: Operand,
) -> Option<u16>
    requires { (slot + slot_size ≤ length state.now) × (2304 ≤ length out.old) × SoundText (value_of v) }
    ensures { SetsRoot file.now state.now slot p v out.new result }
{
    let mut leaf = [0u8; 21];
    let n = move_evaluation::write_leaf(&mut leaf, v);
    state_trees::assign(
        out,
        state,
        slot,
        network_rows::path_row(file, p),
        &leaf[..n],
    )
}

// The slot's session gets the tree of the first n bytes, and row r is done.
fn store(state: &mut [u8], slot: usize, r: u16, tree: &[u8], n: u16) -> Outcome
    requires { (slot + slot_size ≤ length state.old) × (r < 256) × (n ≤ tree_room) × (n ≤ length tree.now) }
    ensures { (state.new ≡ row_stored (tree_stored state.old slot tree.now n) slot r done) × (result ≡ done_with 0) }
{
    state_slots::put_tree(state, slot, tree, n);
    settle(state, slot, r, Progress::Done)
}

// Row r assigns the value v to P row p. 18: "an assign .. would take a tree past 48 nodes or 6 levels". A session's tree has 1,013 bytes at
// most, so the test of its length only keeps the store inside the slot.
fn assign_value(file: &[u8], state: &mut [u8], slot: usize, r: u16, p: u16, v: Operand) -> Outcome
    requires { (slot + slot_size ≤ length state.old) × (slot < 65536) × (r < 256) × SoundText (value_of v) }
    ensures { AssignsValue file.now state.old state.new slot r p v result }
{
    let mut tree = [0u8; 2304];
    match set_root(&mut tree, file, state, slot, p, v) {
        Some(n) => {
            if 1024 < n {
                return refusal::refused(Refusal::Stuck);
            }
            store(state, slot, r, &tree, n)
        }
        None => refusal::refused(Refusal::Stuck),
    }
}

// The value that would be assigned to P row p is outside its width, and v is of its kind: 18 as above, then 22.
fn refuse_value(file: &[u8], state: &[u8], slot: usize, p: u16, v: Operand) -> Outcome
    requires { (slot + slot_size ≤ length state.now) × SoundText (value_of v) }
    ensures { RefusesValue file.now state.now slot p result }
{
    let mut tree = [0u8; 2304];
    match set_root(&mut tree, file, state, slot, p, v) {
        Some(_) => refusal::refused(Refusal::OutOfRange),
        None => refusal::refused(Refusal::Stuck),
    }
}

// A ready assign: the root value of E row e. 18: "A value read is missing, an operand .. is of the wrong kind".
fn assign(file: &[u8], state: &mut [u8], slot: usize, r: u16, p: u16, e: u16) -> Outcome
    requires { (slot + slot_size ≤ length state.old) × (slot < 65536) × (r < 256) }
    ensures { MadeBy (BehaviourRow.Assign p e) file.now state.old state.new slot r result }
{
    if !state_progress::is_undone(state, slot, r) {
        return not_allowed();
    }
    let x = move_evaluation::evaluate(file, state_slots::tree_of(state, slot), e);
    match x.source {
        Ok(_) => assign_value(file, state, slot, r, p, x.root),
        Err(Fault::Missing) => refusal::refused(Refusal::Stuck),
        Err(Fault::Wrong) => refusal::refused(Refusal::Stuck),
        Err(Fault::Outside) => refuse_value(file, state, slot, p, x.root),
    }
}

// B row r, which is reached.
fn local_row(file: &[u8], state: &mut [u8], slot: usize, r: u16) -> Outcome
    requires { (slot + slot_size ≤ length state.old) × (slot < 65536) × (r < 256) }
    ensures { RowMade file.now state.old state.new slot r result }
{
    match network_rows::behaviour_row(file, r) {
        BehaviourRow::If(e, a, b) => decide(file, state, slot, r, e, a, b),
        BehaviourRow::While(e, b) => repeat(file, state, slot, r, e, b),
        BehaviourRow::Assign(p, e) => assign(file, state, slot, r, p, e),
        _ => not_allowed(),
    }
}

// Row r in session n of service q, if it is reached and no input of a choice.
pub fn local_move(file: &[u8], state: &mut [u8], q: u16, n: u16, r: u16) -> Outcome
    requires { length state.old ≡ 65536 }
    ensures { Made file.now (λ N G. local_move N G q n r) state.old state.new result }
{
    let Some((slot, b)) = move_frame::session_at(file, state, q, n) else {
        return not_allowed();
    };
    match move_readiness::reach(file, state, slot, r, b) {
        Reached::Unreached => not_allowed(),
        Reached::Reached(i) => {
            if 256 <= i {
                return not_allowed();
            }
            local_row(file, state, slot, i)
        }
        Reached::Offered(_, _, _) => not_allowed(),
    }
}
