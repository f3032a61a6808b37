// The progress of a row in a state's bytes, read and written. Reading is total: it gives what the bytes say, whatever they are.
#![tactic(auto)]

ghost use Rattle.std.specs.Prelude.{◌≡◌, ◌∷◌, ◌+◌, ◌≤◌, ◌<◌, length};
ghost use Rattle.wire.specs.Wire.{with_part};
ghost use Rattle.state.specs.Places.{slot_size, row_size};
ghost use Rattle.state.specs.Bytes.{read_progress, read_session, reply_bytes, progress_bytes};
ghost use Rattle.state.specs.Shape.{is_undone};
ghost use Rattle.state_destinations.specs.Meaning.{reply_of};
ghost use Rattle.state.specs.Session.{received_by};
ghost use Rattle.state_progress.specs.Meaning.{meaning};
ghost use Rattle.state_progress.specs.Stored.{row_stored};

use state_destinations::Destination;

// Undone, done or waiting; the part that is taken; or received, with where the reply goes.
#[derive(Clone, Copy)]
pub enum Progress {
    Undone,
    Done,
    Waits,
    Taken(u8),
    Received(Destination),
}

// The progress in the six bytes from `at` on.
#[tactic(auto, unfolding(state::specs::Bytes::read_progress))]
pub fn progress_at(state: &[u8], at: usize) -> Progress
    requires { at + row_size ≤ 0x100000000 }
    ensures { meaning result ≡ read_progress state.now at }
{
    let kind = wire::byte_at(state, at);
    match kind {
        1 => Progress::Done,
        2 => Progress::Waits,
        3 => Progress::Taken(wire::byte_at(state, at + 1)),
        4 => Progress::Received(state_destinations::read(state, 1, at + 2)),
        5 => Progress::Received(state_destinations::read(state, 2, at + 2)),
        _ => Progress::Undone,
    }
}

// The progress of B row r in the slot that starts at `slot`; rows past 255 have none.
#[tactic(auto, unfolding(state::specs::Bytes::read_session))]
pub fn row_progress(state: &[u8], slot: usize, r: u16) -> Progress
    requires { slot < 65536 }
    ensures { meaning result ≡ (read_session state.now slot).progress r }
{
    if r < 256 {
        return progress_at(state, state::row_start(slot, usize::from(r)));
    }
    Progress::Undone
}

// Is the row undone?
pub fn is_undone(state: &[u8], slot: usize, r: u16) -> bool
    requires { slot < 65536 }
    ensures { result ≡ is_undone ((read_session state.now slot).progress r) }
{
    matches!(row_progress(state, slot, r), Progress::Undone)
}

// An input's progress once it has a message: done, or received where the message has a destination.
pub fn received_by(to: Option<Destination>) -> Progress
    ensures { meaning result ≡ received_by (reply_of to) }
{
    to.map_or(Progress::Done, Progress::Received)
}

// Stores a progress by its parts: what it is, the taken part, where the reply goes.
fn put_parts(state: &mut [u8], at: usize, code: u8, part: u8, to: Option<Destination>)
    requires { at + row_size ≤ length state.old }
    ensures { state.new ≡ with_part state.old at (code ∷ part ∷ reply_bytes (reply_of to)) }
{
    wire::put_u8(state, at, code);
    wire::put_u8(state, at + 1, part);
    state_destinations::write_reply(state, at + 2, to);
}

// Writes a progress to the six bytes from `at` on.
#[tactic(auto, unfolding(state::specs::Bytes::progress_bytes, state::specs::Bytes::zeros))]
pub fn put_progress(state: &mut [u8], at: usize, p: Progress)
    requires { at + row_size ≤ length state.old }
    ensures { state.new ≡ with_part state.old at (progress_bytes (meaning p)) }
{
    match p {
        Progress::Undone => put_parts(state, at, 0, 0, None),
        Progress::Done => put_parts(state, at, 1, 0, None),
        Progress::Waits => put_parts(state, at, 2, 0, None),
        Progress::Taken(k) => put_parts(state, at, 3, k, None),
        Progress::Received(d) => {
            let code = 3 + state_destinations::kind_of(d);
            put_parts(state, at, code, 0, Some(d));
        }
    }
}

// Writes the progress of B row r to the slot that starts at `slot`.
#[tactic(auto, unfolding(crate::specs::Stored::row_stored))]
pub fn put_row(state: &mut [u8], slot: usize, r: u16, p: Progress)
    requires { (slot + slot_size ≤ length state.old) × (r < 256) }
    ensures { state.new ≡ row_stored state.old slot r (meaning p) }
{
    put_progress(state, state::row_start(slot, usize::from(r)), p);
}
