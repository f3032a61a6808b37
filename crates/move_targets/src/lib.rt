// Whom a message meets. 01, Moves: "send, with a target session: to the input it meets, queued at a live one, or starting a free 1 to 3, whose
// first starter branch of that operation receives it."
#![tactic(auto)]

ghost use Rattle.std.specs.Prelude.{◌≡◌, ◌+◌, ◌*◌, ◌≤◌, ◌<◌, length};
ghost use Rattle.network.specs.Decode.{operation_of, network_of};
ghost use Rattle.state.specs.Places.{entry_size};
ghost use Rattle.state.specs.Bytes.{read_queue};
ghost use Rattle.move_rules.specs.Moves.{is_input_named, input_named};
ghost use Rattle.check_operations.specs.Meeting.{operation_met};
ghost use Rattle.move_targets.specs.Answers.{runs_row, RunsIn, NamesInput, StartsAmong, StartsFrom, PermitsInput, FreeTarget, live_target, SlotTarget, Targets};

use network_rows::InputRow;

// How a message gets to a session: 15; 16; queued; or it starts the session, as above.
#[derive(Clone, Copy)]
pub enum Target {
    NoTarget,
    QueueFull,
    Queued,
    Starts(u16, u8, u16),
}

// Is O row i an input of service q with that id?
#[tactic(auto, unfolding(network::specs::Decode::operation_of))]
fn named(file: &[u8], q: u16, id: u16, i: u16) -> bool
    ensures { result ≡ is_input_named q id (operation_of file.now i) }
{
    u16::from(network_rows::operation_service(file, i)) == q
        && network_rows::operation_direction(file, i) == 0
        && network_rows::operation_id(file, i) == id
}

// The input that an outsider names: "outer message (service, operation id, ..)".
pub fn named_input(file: &[u8], q: u16, id: u16) -> Option<u16>
    ensures { operation_met file.now result ≡ input_named (network_of file.now) q id }
{
    for i in 0..network_layout::operation_count(file) {
        if named(file, q, id, i) {
            return Some(i);
        }
    }
    None
}

// S: "65535 for none".
fn runs_row(v: u16) -> Option<u16>
    ensures { result ≡ runs_row v }
{
    if v == 65535 {
        return None;
    }
    Some(v)
}

// What session n of service q runs: the client in session 0, the starter in sessions 1 to 3.
pub fn behaviour_in(file: &[u8], q: u16, n: u16) -> Option<u16>
    ensures { RunsIn file.now q n result }
{
    if network_layout::service_count(file) <= q {
        return None;
    }
    if n == 0 {
        return runs_row(network_rows::client_row(file, q));
    }
    if 3 < n {
        return None;
    }
    runs_row(network_rows::starter_row(file, q))
}

// Does the input of B row a name the operation of O row w?
fn names_input(file: &[u8], w: u16, a: u16) -> bool
    ensures { NamesInput file.now w a result }
{
    match network_rows::input_of(file, a) {
        InputRow::OneWay(o, _) | InputRow::RequestResponse(o, _, _, _) => o == w,
        InputRow::Nothing => false,
    }
}

// Of the choice c, the first of the n branches whose input names O row w; the row of the first branch stands at `at`.
fn start_among(file: &[u8], w: u16, c: u16, at: usize, n: u8) -> Option<(u16, u8, u16)>
    requires { at + 10 * n < 2000000 }
    ensures { StartsAmong file.now w c at 0 n result }
{
    for k in 0..n {
        let a = network_rows::branch_at(file, at + 10 * usize::from(k)).input;
        if names_input(file, w, a) {
            return Some((c, k, a));
        }
    }
    None
}

// The first branch of the starter of B row r whose input names O row w.
pub fn start_from(file: &[u8], w: u16, r: u16) -> Option<(u16, u8, u16)>
    ensures { StartsFrom file.now w r result }
{
    let row = network_layout::behaviour_at(file, r);
    let first = wire::u16_at(file, row + 2);
    let n = wire::u16_at(file, row + 4);
    if !network_rows::is_choice(network_rows::kind_at(file, r)) {
        return None;
    }
    if 8 < n {
        return None;
    }
    let at = network_layout::behaviour_at(file, first);
    start_among(file, w, r, at, n as u8)
}

// Does 6 pass the input of B row a in service q?
pub fn permits_input(file: &[u8], q: u16, a: u16) -> bool
    ensures { PermitsInput file.now q a result }
{
    match network_rows::input_of(file, a) {
        InputRow::OneWay(o, _) => check_operations::permits(file, q, true, false, o),
        InputRow::RequestResponse(o, _, _, _) => check_operations::permits(file, q, true, true, o),
        InputRow::Nothing => false,
    }
}

// How many of the n queue entries from `at` on are used: those before the first unused one.
fn queue_length(state: &[u8], at: usize, n: u16) -> u16
    requires { at + entry_size * n < 2000000000 }
    ensures { (result ≡ length (read_queue state.now n at)) × (result ≤ n) }
{
    for k in 0..n {
        if wire::byte_at(state, at + state::ENTRY * usize::from(k)) == 0 {
            return k;
        }
    }
    n
}

// A live session, whose slot starts at `at`, queues "up to four messages".
fn live_target(state: &[u8], at: usize) -> Target
    requires { at < 1900000000 }
    ensures { result ≡ live_target state.now at }
{
    if queue_length(state, at + state::QUEUE, 4) < 4 {
        return Target::Queued;
    }
    Target::QueueFull
}

// A free session n is started, if it is one of 1 to 3, by the starter of B row r.
fn free_target(file: &[u8], w: u16, n: u16, r: u16) -> Target
    ensures { FreeTarget file.now w n r result }
{
    if n == 0 {
        return Target::NoTarget;
    }
    match start_from(file, w, r) {
        Some((c, k, a)) => Target::Starts(c, k, a),
        None => Target::NoTarget,
    }
}

// How a message of O row w gets to session n of service q, which runs B row r.
fn slot_target(file: &[u8], state: &[u8], w: u16, q: u16, n: u16, r: u16) -> Target
    ensures { SlotTarget file.now state.now w q n r result }
{
    let at = state::slot_start(q, n);
    if wire::byte_at(state, at) == 0 {
        return free_target(file, w, n, r);
    }
    live_target(state, at)
}

// How a message of the input of O row i gets to session n of its service.
pub fn target_of(file: &[u8], state: &[u8], i: u16, n: u16) -> Target
    ensures { Targets file.now state.now i n result }
{
    let q = u16::from(network_rows::operation_service(file, i));
    match behaviour_in(file, q, n) {
        Some(r) => slot_target(file, state, i, q, n, r),
        None => Target::NoTarget,
    }
}
