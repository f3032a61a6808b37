// The progress of a session's rows, which is part of refusal 14: "the progress of rows and where replies go". A row of what the session
// runs has a progress of its kind, any other row none. Every function is exact on any bytes.
#![tactic(auto)]

ghost use Rattle.std.specs.Prelude.{◌≡◌, ◌+◌, ◌*◌, ◌≤◌, ◌<◌};
ghost use Rattle.network.specs.Layout.{behaviour_count};
ghost use Rattle.network.specs.Decode.{network_of};
ghost use Rattle.state.specs.Places.{row_size, rows_size};
ghost use Rattle.state.specs.Bytes.{read_progress};
ghost use Rattle.state.specs.Shape.{is_destination};
ghost use Rattle.state_destinations.specs.Meaning.{destination_of};
ghost use Rattle.network_row_parts.specs.RowSets.{itself_row, rows_to};
ghost use Rattle.state_rows.specs.Marks.{Adds, AddsBranches, RowsOf};
ghost use Rattle.state_rows.specs.Allowed.{allowing, allowed_by, allowed_at, allows, permitted};

use network_row_parts::Subs;
use network_rows::BehaviourRow;
use state_destinations::Destination;
use state_progress::Progress;

// What progress a row can have besides undone: done, waiting for its reply, received, or one of so many parts taken.
#[derive(Clone, Copy)]
pub struct Allowed {
    pub done: bool,
    pub waits: bool,
    pub received: bool,
    pub parts: u16,
}

// Marks row r.
fn mark(marks: &mut [u8; 256], r: usize)
    ensures { Adds (itself_row r) marks.old marks.new }
{
    if r < 256 {
        marks[r] = 1;
    }
}

// Marks the rows of the behaviour of B row r; so many rows are left for its sub-behaviours.
#[cycle(mark_branches_mark_row)]
fn mark_row(s: &[u8], marks: &mut [u8; 256], r: u16, left: u16)
    ensures { Adds (rows_to s.now left r) marks.old marks.new }
{
    mark(marks, usize::from(r));
    if left == 0 {
        return;
    }
    match network_row_parts::subs_of(s, r) {
        Subs::Nothing => (),
        Subs::One(a) => mark_row(s, marks, a, left - 1),
        Subs::Two(a, b) => {
            mark_row(s, marks, a, left - 1);
            mark_row(s, marks, b, left - 1);
        }
        Subs::Run(first, n) => mark_branches(s, marks, usize::from(first), n, left - 1),
    }
}

// Marks the rows of the n branches from row r on.
#[cycle(mark_branches_mark_row)]
fn mark_branches(s: &[u8], marks: &mut [u8; 256], r: usize, n: u16, left: u16)
    requires { r + n < 150000 }
    ensures { AddsBranches s.now r n left marks.old marks.new }
{
    mark(marks, r);
    if n == 0 {
        return;
    }
    let b = network_rows::branch_at(s, network_layout::start(s, 3) + 10 * r);
    mark_row(s, marks, b.input, left);
    mark_row(s, marks, b.follow, left);
    if n == 1 {
        return;
    }
    mark_branches(s, marks, r + 1, n - 1, left);
}

// A mark on each row of the behaviour of B row r.
pub fn rows_of(file: &[u8], r: u16) -> [u8; 256]
    ensures { RowsOf file.now r result }
{
    let mut marks = [0u8; 256];
    mark_row(file, &mut marks, r, network_layout::behaviour_count(file));
    marks
}

fn allowing(done: bool, waits: bool, received: bool, parts: u16) -> Allowed
    ensures { result ≡ allowing done waits received parts }
{
    Allowed {
        done,
        waits,
        received,
        parts,
    }
}

// What progress a row of each kind can have.
fn allowed_by(row: BehaviourRow) -> Allowed
    ensures { result ≡ allowed_by row }
{
    match row {
        BehaviourRow::OneWay(..) | BehaviourRow::Notification(..) | BehaviourRow::Assign(..) => {
            allowing(true, false, false, 0)
        }
        BehaviourRow::RequestResponse(..) => allowing(true, false, true, 0),
        BehaviourRow::SolicitResponse(..) => allowing(true, true, false, 0),
        BehaviourRow::If(..) => allowing(false, false, false, 2),
        BehaviourRow::While(..) => allowing(true, false, false, 1),
        BehaviourRow::Choice(_, n) => allowing(false, false, false, n),
        _ => allowing(false, false, false, 0),
    }
}

// What progress row i can have in a session that runs the marked rows.
#[tactic(auto, unfolding(crate::specs::Allowed::allowed_at, crate::specs::Marks::marked))]
fn allowed_at(file: &[u8], marks: &[u8; 256], i: u16) -> Allowed
    requires { i < 256 }
    ensures { result ≡ allowed_at file.now marks.now i }
{
    let k = usize::from(i);
    if marks[k] == 0 {
        return allowing(false, false, false, 0);
    }
    allowed_by(network_rows::behaviour_row(file, i))
}

// Is it a destination of replies in this file?
#[tactic(auto, using(crate::proofs::SuitLaws::service_lengths))]
pub fn is_destination(file: &[u8], d: Destination) -> bool
    ensures { result ≡ is_destination (network_of file.now) (behaviour_count file.now) (destination_of d) }
{
    match d {
        Destination::Outsider(_) => true,
        Destination::WaitingRow(q, n, r) => {
            u16::from(q) < network_layout::service_count(file)
                && n <= 3
                && r < network_layout::behaviour_count(file)
        }
    }
}

// Is the progress that stands at `at` one of those?
#[tactic(auto, unfolding(crate::specs::Allowed::allows))]
fn permits(file: &[u8], s: &[u8], a: Allowed, at: usize) -> bool
    requires { at + row_size ≤ 0x100000000 }
    ensures { result ≡ allows (network_of file.now) (behaviour_count file.now) a (read_progress s.now at) }
{
    match state_progress::progress_at(s, at) {
        Progress::Undone => true,
        Progress::Done => a.done,
        Progress::Waits => a.waits,
        Progress::Taken(k) => u16::from(k) < a.parts,
        Progress::Received(d) => a.received && is_destination(file, d),
    }
}

// Does the progress of row i suit a session that runs the marked rows?
#[tactic(auto, unfolding(crate::specs::Allowed::allows, state::specs::Bytes::read_progress))]
fn row_suits(file: &[u8], s: &[u8], marks: &[u8; 256], at: usize, i: u16) -> bool
    requires { (i < 256) × (at + rows_size ≤ 0x100000000) }
    ensures { result ≡ allows (network_of file.now) (behaviour_count file.now)
        (allowed_at file.now marks.now i) (read_progress s.now (at + row_size * i)) }
{
    let place = at + state::ROW * usize::from(i);
    wire::byte_at(s, place) == 0 || permits(file, s, allowed_at(file, marks, i), place)
}

// Does the progress of each row suit a session that runs the marked rows? The rows' progress starts at `at`.
pub fn rows_suit(file: &[u8], s: &[u8], marks: &[u8; 256], at: usize) -> bool
    requires { at + rows_size ≤ 0x100000000 }
    ensures { result ≡ permitted file.now marks.now s.now at 256 }
{
    for i in (0u16..256).rev() {
        if !row_suits(file, s, marks, at, i) {
            return false;
        }
    }
    true
}
