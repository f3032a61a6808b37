// The moves by which a message and a reply come from outside. 01, Moves: "outer message (service, operation id, target session, u32 reply
// number, ignored if one-way, bytes), sent likewise, and outer reply (bytes for a row waiting on an outside location)".
#![tactic(auto)]

ghost use Rattle.std.specs.Prelude.{◌≡◌, length};
ghost use Rattle.basics.specs.Choice.{pick};
ghost use Rattle.network_syntax.specs.Syntax.{none, some};
ghost use Rattle.state.specs.Session.{outsider};
ghost use Rattle.network.specs.Decode.{operation_of};
ghost use Rattle.state_destinations.specs.Meaning.{reply_of};
ghost use Rattle.move_rules.specs.Moves.{outer_message_move, outer_reply_move};
ghost use Rattle.move_frame.specs.Made.{Made};
ghost use Rattle.move_outer.specs.Outside.{Arrives};

use move_waiting::Sender;
use refusal::{Outcome, Refusal};
use state_destinations::Destination;

// Where the reply goes: to the outsider under its number, "ignored if one-way".
fn reply_to(file: &[u8], i: u16, number: u32) -> Option<Destination>
    ensures { reply_of result ≡ pick (operation_of file.now i).two_way (some (outsider number)) none }
{
    if network_rows::operation_two_way(file, i) == 1 {
        return Some(Destination::Outsider(number));
    }
    None
}

// A message for the input of O row i.
fn arrive(file: &[u8], state: &mut [u8], i: u16, n: u16, number: u32, bytes: &[u8]) -> Outcome
    requires { length state.old ≡ 65536 }
    ensures { Arrives file.now i n number bytes.now state.old state.new result }
{
    let mut tree = [0u8; 2304];
    match move_delivery::admit(
        &mut tree,
        file,
        state,
        i,
        n,
        bytes,
        Ok(()),
        Refusal::NoMessage,
    ) {
        Err(why) => refusal::refused(why),
        Ok(y) => {
            move_delivery::store(state, i, reply_to(file, i, number), bytes, y, &tree);
            refusal::done(0)
        }
    }
}

// A message from outside for the input of service q with that id.
pub fn outer_message(
    file: &[u8],
    state: &mut [u8],
    q: u16,
    id: u16,
    n: u16,
    number: u32,
    bytes: &[u8],
) -> Outcome
    requires { length state.old ≡ 65536 }
    ensures { Made file.now (λ N G. outer_message_move N G q id n number bytes.now) state.old state.new result }
{
    let Some(i) = move_targets::named_input(file, q, id) else {
        return refusal::refused(Refusal::MoveNotAllowed);
    };
    arrive(file, state, i, n, number, bytes)
}

// The bytes reply to row r of session n of service q: 15 unless it waits on a location outside, 17, 19, and 18 where the session's tree would
// pass its limits.
pub fn outer_reply(file: &[u8], state: &mut [u8], q: u16, n: u16, r: u16, bytes: &[u8]) -> Outcome
    requires { length state.old ≡ 65536 }
    ensures { Made file.now (λ N G. outer_reply_move N G q n r bytes.now) state.old state.new result }
{
    let Some((slot, b)) = move_frame::session_at(file, state, q, n) else {
        return refusal::refused(Refusal::MoveNotAllowed);
    };
    let Some((o, path)) = move_waiting::waiting_at(file, state, slot, b, q, r) else {
        return refusal::refused(Refusal::MoveNotAllowed);
    };
    if check_operations::in_file(file, network_rows::operation_location(file, o)) {
        return refusal::refused(Refusal::MoveNotAllowed);
    }
    let t = network_rows::reply_type(file, o);
    if let Err(why) = move_fitting::passes(bytes, file, t, Refusal::NoMessage) {
        return refusal::refused(why);
    }
    move_waiting::take_reply(file, state, Sender::Outsider, slot, r, path, bytes)
}
