// Where a reply goes, in a state's bytes: its kind and four bytes (docs/STATE.md), read and written. Reading is total: it gives what the
// bytes say, whatever they are.
#![tactic(auto)]

ghost use Rattle.std.specs.Prelude.{◌≡◌, ◌+◌, ◌≤◌, ◌<◌, length};
ghost use Rattle.wire.specs.Wire.{with_part};
ghost use Rattle.state.specs.Bytes.{destination_kind, destination_bytes, reply_kind, reply_bytes, read_destination, read_reply};
ghost use Rattle.state_destinations.specs.Meaning.{destination_of, reply_of};

// To an outsider, under its reply number; or to a waiting row, by its service, session and B row.
#[derive(Clone, Copy)]
pub enum Destination {
    Outsider(u32),
    WaitingRow(u8, u8, u16),
}

// The kind of a destination.
pub fn kind_of(d: Destination) -> u8
    ensures { (result ≡ destination_kind (destination_of d)) × (result ≤ 2) }
{
    match d {
        Destination::Outsider(_) => 1,
        Destination::WaitingRow(_, _, _) => 2,
    }
}

// The kind of where a reply goes: 0 for nobody.
pub fn reply_kind(to: Option<Destination>) -> u8
    ensures { result ≡ reply_kind (reply_of to) }
{
    to.map_or(0, kind_of)
}

// The destination of that kind in the four bytes from `at` on.
#[tactic(auto, unfolding(state::specs::Bytes::read_destination))]
pub fn read(state: &[u8], kind: u8, at: usize) -> Destination
    requires { at + 4 < 0x10000000000000000 }
    ensures { destination_of result ≡ read_destination state.now kind at }
{
    if kind == 1 {
        return Destination::Outsider(wire::u32_at(state, at));
    }
    Destination::WaitingRow(
        wire::byte_at(state, at),
        wire::byte_at(state, at + 1),
        wire::u16_at(state, at + 2),
    )
}

// Where a reply of that kind goes, by the four bytes from `at` on.
#[tactic(auto, unfolding(state::specs::Bytes::read_reply))]
pub fn read_reply(state: &[u8], kind: u8, at: usize) -> Option<Destination>
    requires { at + 4 < 0x10000000000000000 }
    ensures { reply_of result ≡ read_reply state.now kind at }
{
    if kind == 0 {
        return None;
    }
    Some(read(state, kind, at))
}

// Writes a destination to the four bytes from `at` on.
pub fn write(state: &mut [u8], at: usize, d: Destination)
    requires { at + 4 ≤ length state.old }
    ensures { state.new ≡ with_part state.old at (destination_bytes (destination_of d)) }
{
    match d {
        Destination::Outsider(v) => {
            wire::put_u32(state, at, v);
        }
        Destination::WaitingRow(q, n, r) => {
            wire::put_u8(state, at, q);
            wire::put_u8(state, at + 1, n);
            wire::put_u16(state, at + 2, r);
        }
    }
}

// Writes where a reply goes to the four bytes from `at` on: zeros for nobody.
#[tactic(auto, using(wire::specs::WireLaws::put_32), unfolding(state::specs::Bytes::zeros))]
pub fn write_reply(state: &mut [u8], at: usize, to: Option<Destination>)
    requires { at + 4 ≤ length state.old }
    ensures { state.new ≡ with_part state.old at (reply_bytes (reply_of to)) }
{
    match to {
        None => {
            wire::put_u32(state, at, 0);
        }
        Some(d) => {
            write(state, at, d);
        }
    }
}
