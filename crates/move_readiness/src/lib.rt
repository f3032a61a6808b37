// Which rows are done and which are reached: 01, Moves, "A row is *ready* when ..", "A nil is done, and so is ..". A row's progress is read
// from the slot of the state that starts at `slot`. Sub-behaviours are later rows: `left` counts the rows left, so the walks end on any bytes.
#![tactic(auto)]

ghost use Rattle.std.specs.Prelude.{◌≡◌, ◌+◌, ◌*◌, ◌<◌, ◌≤◌, true, false, Some, None};
ghost use Rattle.network.specs.Decode.{behaviour_to, behaviour_of};
ghost use Rattle.network_rows.specs.declared.BehaviourRow.{BehaviourRow};
ghost use Rattle.state.specs.Bytes.{read_session};
ghost use Rattle.move_rules.specs.Readiness.{unless_done, unless_received, unless_taken, is_done};
ghost use Rattle.move_readiness.specs.Parts.{branch_row_at, branch_deciders, deciders_in, deciders_of, in_order, branch_ways, ways_in, ways_of};
ghost use Rattle.move_readiness.specs.Reaching.{Offers, ReachesReceived, ReachesServed, ReachesInputs, ReachesRow, ReachTells};

use network_rows::BehaviourRow;
use state_progress::Progress;

// Whether a row is done, or the rows that decide it: that one, or both.
#[derive(Clone, Copy)]
pub enum Deciders {
    Settled(bool),
    One(u16),
    Both(u16, u16),
}

// The rows through which a reached row is passed; or the branches of a choice whose inputs are offered, by first row and count.
#[derive(Clone, Copy)]
pub enum Ways {
    Nowhere,
    One(u16),
    Two(u16, u16),
    Inputs(u16, u16),
}

// How a row is reached: not at all; as itself; or as an input of a choice in which no branch is taken (the choice's row, the branch's
// number, the input's row).
#[derive(Clone, Copy)]
pub enum Reached {
    Unreached,
    Reached(u16),
    Offered(u16, u8, u16),
}

// Does the row's progress say done?
fn marked_done(state: &[u8], slot: usize, r: u16) -> bool
    requires { slot < 65536 }
    ensures { result ≡ unless_done ((read_session state.now slot).progress r) false true }
{
    matches!(state_progress::row_progress(state, slot, r), Progress::Done)
}

// Was the row received?
fn marked_received(state: &[u8], slot: usize, r: u16) -> bool
    requires { slot < 65536 }
    ensures { result ≡ unless_received ((read_session state.now slot).progress r) false true }
{
    matches!(
        state_progress::row_progress(state, slot, r),
        Progress::Received(_)
    )
}

fn taken_part(state: &[u8], slot: usize, r: u16) -> Option<u8>
    requires { slot < 65536 }
    ensures { result ≡ unless_taken ((read_session state.now slot).progress r) None Some }
{
    match state_progress::row_progress(state, slot, r) {
        Progress::Taken(k) => Some(k),
        _ => None,
    }
}

// The place of the branch k of the n from row `first` on; past the last one, the last.
#[tactic(auto, unfolding(crate::specs::Parts::branch_row_at, network::specs::Layout::behaviour_at))]
fn branch_at(file: &[u8], first: u16, n: u16, k: u8) -> usize
    requires { 0 < n }
    ensures { (result ≡ branch_row_at file.now first n k) × (result < 2000000) }
{
    network_layout::behaviour_at(file, first) + 10 * usize::from(u16::from(k).min(n - 1))
}

#[tactic(auto, unfolding(crate::specs::Parts::branch_deciders))]
fn branch_deciders(file: &[u8], first: u16, n: u16, k: u8) -> Deciders
    ensures { result ≡ branch_deciders file.now first n k }
{
    if n == 0 {
        return Deciders::Settled(true);
    }
    let b = network_rows::branch_at(file, branch_at(file, first, n, k));
    Deciders::Both(b.input, b.follow)
}

#[tactic(auto, unfolding(crate::specs::Parts::deciders_in))]
fn choice_deciders(file: &[u8], state: &[u8], slot: usize, r: u16, first: u16, n: u16) -> Deciders
    requires { slot < 65536 }
    ensures { result ≡ deciders_in file.now ((read_session state.now slot).progress r) (BehaviourRow.Choice first n) }
{
    match taken_part(state, slot, r) {
        None => Deciders::Settled(false),
        Some(k) => branch_deciders(file, first, n, k),
    }
}

#[tactic(auto, unfolding(crate::specs::Parts::deciders_in))]
fn if_deciders(file: &[u8], state: &[u8], slot: usize, r: u16, e: u16, a: u16, b: u16) -> Deciders
    requires { slot < 65536 }
    ensures { result ≡ deciders_in file.now ((read_session state.now slot).progress r) (BehaviourRow.If e a b) }
{
    match taken_part(state, slot, r) {
        None => Deciders::Settled(false),
        Some(0) => Deciders::One(a),
        Some(_) => Deciders::One(b),
    }
}

#[tactic(auto, unfolding(crate::specs::Parts::deciders_of, crate::specs::Parts::deciders_in))]
fn deciders_of(file: &[u8], state: &[u8], slot: usize, r: u16) -> Deciders
    requires { slot < 65536 }
    ensures { result ≡ deciders_of file.now (read_session state.now slot).progress r }
{
    match network_rows::behaviour_row(file, r) {
        BehaviourRow::OneWay(..)
        | BehaviourRow::RequestResponse(..)
        | BehaviourRow::Notification(..)
        | BehaviourRow::SolicitResponse(..)
        | BehaviourRow::While(..)
        | BehaviourRow::Assign(..) => Deciders::Settled(marked_done(state, slot, r)),
        BehaviourRow::If(e, a, b) => if_deciders(file, state, slot, r, e, a, b),
        BehaviourRow::Sequence(a, b) | BehaviourRow::Parallel(a, b) => Deciders::Both(a, b),
        BehaviourRow::Choice(first, n) => choice_deciders(file, state, slot, r, first, n),
        BehaviourRow::Nil | BehaviourRow::Branch(..) | BehaviourRow::Unknown => {
            Deciders::Settled(true)
        }
    }
}

// Is B row r done, with so many rows left for its sub-behaviours?
fn done_row(file: &[u8], state: &[u8], slot: usize, r: u16, left: u16) -> bool
    requires { slot < 65536 }
    ensures { result ≡ is_done (read_session state.now slot).progress (behaviour_to file.now left r) }
{
    if left == 0 {
        return true;
    }
    match deciders_of(file, state, slot, r) {
        Deciders::Settled(x) => x,
        Deciders::One(a) => done_row(file, state, slot, a, left - 1),
        Deciders::Both(a, b) => {
            done_row(file, state, slot, a, left - 1) && done_row(file, state, slot, b, left - 1)
        }
    }
}

// Is B row r done? In a file in which each row is used once every row below r is looked at once at most.
#[tactic(auto, unfolding(network::specs::Decode::behaviour_of))]
pub fn is_done(file: &[u8], state: &[u8], slot: usize, r: u16) -> bool
    requires { slot < 65536 }
    ensures { result ≡ is_done (read_session state.now slot).progress (behaviour_of file.now r) }
{
    done_row(file, state, slot, r, network_layout::behaviour_count(file))
}

// Through the first, and the second if the first is done.
#[tactic(auto, unfolding(crate::specs::Parts::in_order))]
fn in_order(file: &[u8], state: &[u8], slot: usize, a: u16, b: u16) -> Ways
    requires { slot < 65536 }
    ensures { result ≡ in_order file.now (read_session state.now slot).progress a b }
{
    if is_done(file, state, slot, a) {
        return Ways::Two(a, b);
    }
    Ways::One(a)
}

#[tactic(auto, unfolding(crate::specs::Parts::branch_ways))]
fn branch_ways(file: &[u8], state: &[u8], slot: usize, first: u16, n: u16, k: u8) -> Ways
    requires { slot < 65536 }
    ensures { result ≡ branch_ways file.now (read_session state.now slot).progress first n k }
{
    if n == 0 {
        return Ways::Nowhere;
    }
    let b = network_rows::branch_at(file, branch_at(file, first, n, k));
    in_order(file, state, slot, b.input, b.follow)
}

#[tactic(auto, unfolding(crate::specs::Parts::ways_in))]
fn choice_ways(file: &[u8], state: &[u8], slot: usize, r: u16, first: u16, n: u16) -> Ways
    requires { slot < 65536 }
    ensures { result ≡ ways_in file.now (read_session state.now slot).progress r (BehaviourRow.Choice first n) }
{
    match taken_part(state, slot, r) {
        None => Ways::Inputs(first, n),
        Some(k) => branch_ways(file, state, slot, first, n, k),
    }
}

#[tactic(auto, unfolding(crate::specs::Parts::ways_in))]
fn if_ways(file: &[u8], state: &[u8], slot: usize, r: u16, e: u16, a: u16, b: u16) -> Ways
    requires { slot < 65536 }
    ensures { result ≡ ways_in file.now (read_session state.now slot).progress r (BehaviourRow.If e a b) }
{
    match taken_part(state, slot, r) {
        None => Ways::Nowhere,
        Some(0) => Ways::One(a),
        Some(_) => Ways::One(b),
    }
}

#[tactic(auto, unfolding(crate::specs::Parts::ways_in))]
fn while_ways(file: &[u8], state: &[u8], slot: usize, r: u16, e: u16, b: u16) -> Ways
    requires { slot < 65536 }
    ensures { result ≡ ways_in file.now (read_session state.now slot).progress r (BehaviourRow.While e b) }
{
    match taken_part(state, slot, r) {
        None => Ways::Nowhere,
        Some(_) => Ways::One(b),
    }
}

#[tactic(auto, unfolding(crate::specs::Parts::ways_in))]
fn response_ways(
    file: &[u8],
    state: &[u8],
    slot: usize,
    r: u16,
    o: u16,
    p: u16,
    c: u16,
    d: u16,
) -> Ways
    requires { slot < 65536 }
    ensures { result ≡ ways_in file.now (read_session state.now slot).progress r (BehaviourRow.RequestResponse o p c d) }
{
    if marked_received(state, slot, r) {
        return Ways::One(d);
    }
    Ways::Nowhere
}

#[tactic(auto, unfolding(crate::specs::Parts::ways_of, crate::specs::Parts::ways_in))]
fn ways_of(file: &[u8], state: &[u8], slot: usize, r: u16) -> Ways
    requires { slot < 65536 }
    ensures { result ≡ ways_of file.now (read_session state.now slot).progress r }
{
    match network_rows::behaviour_row(file, r) {
        BehaviourRow::RequestResponse(o, p, c, d) => response_ways(
            file, state, slot, r, o, p, c, d,
        ),
        BehaviourRow::If(e, a, b) => if_ways(file, state, slot, r, e, a, b),
        BehaviourRow::While(e, b) => while_ways(file, state, slot, r, e, b),
        BehaviourRow::Sequence(a, b) => in_order(file, state, slot, a, b),
        BehaviourRow::Parallel(a, b) => Ways::Two(a, b),
        BehaviourRow::Choice(first, n) => choice_ways(file, state, slot, r, first, n),
        _ => Ways::Nowhere,
    }
}

// "each input of a ready choice": the input i among the n branches, whose rows stand from `at` on, of the choice c.
fn offer(file: &[u8], c: u16, i: u16, at: usize, n: u8) -> Reached
    requires { at + 10 * n < 2000000 }
    ensures { Offers file.now c 0 i at n result }
{
    for k in 0..n {
        let a = network_rows::branch_at(file, at + 10 * usize::from(k)).input;
        if i == a {
            return Reached::Offered(c, k, a);
        }
    }
    Reached::Unreached
}

// The row i from input a down, if a is received.
#[cycle(reach_inputs_reach_received_reach_row_reach_served)]
fn reach_received(file: &[u8], state: &[u8], slot: usize, i: u16, a: u16, left: u16) -> Reached
    requires { slot < 65536 }
    ensures { ReachesReceived file.now (read_session state.now slot).progress i a left result }
{
    if marked_received(state, slot, a) {
        return reach_row(file, state, slot, i, a, left);
    }
    Reached::Unreached
}

// The row i from a received input down, among the n branches whose rows stand from `at` on.
#[cycle(reach_inputs_reach_received_reach_row_reach_served)]
fn reach_served(
    file: &[u8],
    state: &[u8],
    slot: usize,
    i: u16,
    at: usize,
    n: u8,
    left: u16,
) -> Reached
    requires { (slot < 65536) × (at + 10 * n < 2000000) }
    ensures { ReachesServed file.now (read_session state.now slot).progress i at n left result }
{
    if n == 0 {
        return Reached::Unreached;
    }
    let a = network_rows::branch_at(file, at).input;
    match reach_received(file, state, slot, i, a, left) {
        Reached::Unreached => reach_served(file, state, slot, i, at + 10, n - 1, left),
        found => found,
    }
}

// The row i among the inputs, or from a received one down, of the n branches from row `first` on, of the choice r.
#[cycle(reach_inputs_reach_received_reach_row_reach_served)]
fn reach_inputs(
    file: &[u8],
    state: &[u8],
    slot: usize,
    i: u16,
    r: u16,
    first: u16,
    n: u16,
    left: u16,
) -> Reached
    requires { slot < 65536 }
    ensures { ReachesInputs file.now (read_session state.now slot).progress i r first n left result }
{
    if 8 < n {
        return Reached::Unreached;
    }
    let at = network_layout::behaviour_at(file, first);
    match offer(file, r, i, at, n as u8) {
        Reached::Unreached => reach_served(file, state, slot, i, at, n as u8, left),
        found => found,
    }
}

// The row i from row r down, with so many rows left.
#[cycle(reach_inputs_reach_received_reach_row_reach_served)]
fn reach_row(file: &[u8], state: &[u8], slot: usize, i: u16, r: u16, left: u16) -> Reached
    requires { slot < 65536 }
    ensures { ReachesRow file.now (read_session state.now slot).progress i r left result }
{
    if left == 0 {
        return Reached::Unreached;
    }
    if i == r {
        return Reached::Reached(r);
    }
    match ways_of(file, state, slot, r) {
        Ways::Nowhere => Reached::Unreached,
        Ways::One(a) => reach_row(file, state, slot, i, a, left - 1),
        Ways::Two(a, b) => match reach_row(file, state, slot, i, a, left - 1) {
            Reached::Unreached => reach_row(file, state, slot, i, b, left - 1),
            found => found,
        },
        Ways::Inputs(first, n) => reach_inputs(file, state, slot, i, r, first, n, left - 1),
    }
}

// The row i from row r down. Each row below r is passed once at most; each sequence on the way asks besides whether its first part is done.
pub fn reach(file: &[u8], state: &[u8], slot: usize, i: u16, r: u16) -> Reached
    requires { slot < 65536 }
    ensures { ReachTells file.now (read_session state.now slot).progress i r result }
{
    reach_row(
        file,
        state,
        slot,
        i,
        r,
        network_layout::behaviour_count(file),
    )
}
