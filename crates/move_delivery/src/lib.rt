// A message at its target session. 01, Moves: "queued at a live one, or starting a free 1 to 3, whose first starter branch of that operation
// receives it". `admit` decides all of it and stores nothing; `store` cannot fail, so a refusal leaves the state as it was.
#![tactic(auto)]

ghost use Rattle.std.specs.Prelude.{◌≡◌, ◌+◌, ◌≤◌, ◌<◌, length};
ghost use Rattle.network.specs.Rows.{operation_service};
ghost use Rattle.state.specs.Places.{slot_size, tree_room};
ghost use Rattle.state_progress.specs.Meaning.{meaning};
ghost use Rattle.state_destinations.specs.Meaning.{reply_of};
ghost use Rattle.move_delivery.specs.Delivery.{Permitted, Allowed, LetsIn, StartTree, StartsBy, StartsSession, Queues, PlacesMessage, Admits};
ghost use Rattle.move_delivery.specs.Delivery.{StoresStart, Storable, Stores};

use move_targets::Target;
use network_rows::InputRow;
use refusal::Refusal;
use state_destinations::Destination;
use state_progress::Progress;

// Where an admitted message goes: into the queue of the live session of the slot; or it starts the session of the free slot, by branch k of
// the choice c, with input row a, a tree of n bytes and the key x.
#[derive(Clone, Copy)]
pub enum Arrival {
    Queued(usize),
    Starts(usize, u16, u8, u16, u16, u32),
}

// 15: does 6 pass the starter's input, B row a, in service q?
fn permitted(file: &[u8], q: u16, a: u16) -> Result<(), Refusal>
    ensures { Permitted file.now q a result }
{
    if move_targets::permits_input(file, q, a) {
        return Ok(());
    }
    Err(Refusal::MoveNotAllowed)
}

// 15 and 16: may a message go to its target in service q?
fn allowed(file: &[u8], q: u16, target: Target) -> Result<(), Refusal>
    ensures { Allowed file.now q target result }
{
    match target {
        Target::NoTarget => Err(Refusal::MoveNotAllowed), // 15
        Target::QueueFull => Err(Refusal::QueueFull), // 16
        Target::Queued => Ok(()),
        Target::Starts(_, _, a) => permitted(file, q, a),
    }
}

// May the message in: 15 and 16 by its target in service q, its own verdict, then 17 or 19 at the type of T row r?
fn lets_in(
    file: &[u8],
    q: u16,
    target: Target,
    message: &[u8],
    r: u16,
    own: Result<(), Refusal>,
    other: Refusal,
) -> Result<(), Refusal>
    ensures { LetsIn file.now q target message.now r own other result }
{
    allowed(file, q, target)?;
    own?;
    move_fitting::passes(message, file, r, other)
}

// Writes the tree of a new session that receives the message into the path of P row p to the start of out.
fn start_tree(out: &mut [u8], file: &[u8], p: u16, message: &[u8]) -> Option<u16>
    requires { 2304 ≤ length out.old }
    ensures { StartTree file.now p message.now out.new result }
{
    let mut slot = [0u8; state::SLOT];
    state_slots::begin(&mut slot, 0);
    state_trees::replace_at(out, file, p, &slot, 0, message)
}

// 18 of a message that starts the session of the free slot, with the key x: input row a receives it into the path of P row p.
fn start_by(
    out: &mut [u8],
    file: &[u8],
    slot: usize,
    c: u16,
    k: u8,
    a: u16,
    p: u16,
    message: &[u8],
    x: u32,
) -> Result<Arrival, Refusal>
    requires { 2304 ≤ length out.old }
    ensures { StartsBy file.now slot c k a p message.now x out.new result }
{
    let n = start_tree(out, file, p, message).ok_or(Refusal::Stuck)?;
    if 255 < c {
        return Err(Refusal::MoveNotAllowed);
    }
    if 255 < a {
        return Err(Refusal::MoveNotAllowed);
    }
    Ok(Arrival::Starts(slot, c, k, a, n, x))
}

// The same by the input of B row a.
fn start(
    out: &mut [u8],
    file: &[u8],
    slot: usize,
    c: u16,
    k: u8,
    a: u16,
    message: &[u8],
    x: u32,
) -> Result<Arrival, Refusal>
    requires { 2304 ≤ length out.old }
    ensures { StartsSession file.now slot c k a message.now x out.new result }
{
    match network_rows::input_of(file, a) {
        InputRow::OneWay(_, p) => start_by(out, file, slot, c, k, a, p, message, x),
        InputRow::RequestResponse(_, p, _, _) => start_by(out, file, slot, c, k, a, p, message, x),
        InputRow::Nothing => Err(Refusal::MoveNotAllowed),
    }
}

// Queues the message of O row i at the live session of the slot. A message has 336 bytes at most and a file 64 operations, so the tests only
// keep the store inside the entry.
fn queue(slot: usize, i: u16, message: &[u8]) -> Result<Arrival, Refusal>
    ensures { Queues slot i message.now result }
{
    if 254 < i {
        return Err(Refusal::MoveNotAllowed);
    }
    if state::MESSAGE_ROOM < message.len() {
        return Err(Refusal::MoveNotAllowed);
    }
    Ok(Arrival::Queued(slot))
}

// Where a message of the input of O row i of service q, which was let in, goes to session n by its target; 18 past a tree's limits. A session that
// it starts keeps the key x.
fn place(
    out: &mut [u8],
    file: &[u8],
    q: u16,
    i: u16,
    n: u16,
    target: Target,
    message: &[u8],
    x: u32,
) -> Result<Arrival, Refusal>
    requires { (2304 ≤ length out.old) × (q ≡ operation_service file.now i) }
    ensures { PlacesMessage file.now i n target message.now x out.new result }
{
    if 3 < q {
        return Err(Refusal::MoveNotAllowed);
    }
    if 3 < n {
        return Err(Refusal::MoveNotAllowed);
    }
    let slot = state::slot_start(q, n);
    match target {
        Target::NoTarget => Err(Refusal::MoveNotAllowed),
        Target::QueueFull => Err(Refusal::QueueFull),
        Target::Queued => queue(slot, i, message),
        Target::Starts(c, k, a) => start(out, file, slot, c, k, a, message, x),
    }
}

// A message for the input of O row i, to session n of its service. `own` is what the message itself answers (18 of a value), `other` the refusal
// of bytes that are no message. After 19 its key is tried, 15. The tree of a session that starts is written to the start of out.
pub fn admit(
    out: &mut [u8],
    file: &[u8],
    state: &[u8],
    i: u16,
    n: u16,
    message: &[u8],
    own: Result<(), Refusal>,
    other: Refusal,
) -> Result<Arrival, Refusal>
    requires { 2304 ≤ length out.old }
    ensures { Admits file.now state.now i n message.now own other out.new result }
{
    let target = move_targets::target_of(file, state, i, n);
    let q = u16::from(network_rows::operation_service(file, i));
    let r = network_rows::request_type(file, i);
    lets_in(file, q, target, message, r, own, other)?;
    let x = move_keys::find(file, state, q, n, target, message).ok_or(Refusal::MoveNotAllowed)?;
    place(out, file, q, i, n, target, message, x)
}

// Makes a new session of the free slot, with the first n bytes of `tree` as its tree, branch k of the choice c taken, the input a received and
// the key x.
fn store_start(
    state: &mut [u8],
    slot: usize,
    tree: &[u8],
    n: u16,
    c: u16,
    k: u8,
    a: u16,
    after: Progress,
    x: u32,
)
    requires { (slot + slot_size ≤ length state.old) × (n ≤ tree_room) × (n ≤ length tree.now) × (c < 256) × (a < 256) }
    ensures { StoresStart state.old slot tree.now n c k a (meaning after) x state.new }
{
    state_slots::begin(state, slot);
    state_slots::put_tree(state, slot, tree, n);
    state_progress::put_row(state, slot, c, Progress::Taken(k));
    state_progress::put_row(state, slot, a, after);
    state_slots::put_key(state, slot, x);
}

// Stores an admitted message of O row i where it arrives; its reply goes to `to`, and `tree` is what `admit` wrote.
pub fn store(
    state: &mut [u8],
    i: u16,
    to: Option<Destination>,
    message: &[u8],
    y: Arrival,
    tree: &[u8],
)
    requires { (length state.old ≡ 65536) × Storable i message.now y × (2304 ≤ length tree.now) }
    ensures { Stores i (reply_of to) message.now tree.now y state.old state.new }
{
    match y {
        Arrival::Queued(slot) => {
            state_queues::push(state, slot, i, to, message, 0, message.len());
        }
        Arrival::Starts(slot, c, k, a, n, x) => {
            store_start(
                state,
                slot,
                tree,
                n,
                c,
                k,
                a,
                state_progress::received_by(to),
                x,
            );
        }
    }
}
