// The checker, fresh state, the moves, the message reader, the reader of type declarations and the message that breaks it for C: numbers and
// slices only. A slice is passed as a pointer and a length; include/pokhveti.h has the declarations.
#![tactic(auto)]

ghost use Rattle.std.specs.Prelude.{◌≡◌, [], ◌∷◌};
ghost use Rattle.check_files.specs.FileChecker.{check_file};
ghost use Rattle.check_listing.specs.Listed.{listed_number, listed_count, listed_bytes};
ghost use Rattle.tree_part.specs.Span.{span_of};
ghost use Rattle.check_typing.specs.Result.{refusal_number, refusal_place};
ghost use Rattle.move_rules.specs.Fresh.{fresh};
ghost use Rattle.move_rules.specs.Moves as definition;
ghost use Rattle.move_rules.specs.Moves.{local, receive, send, reply, outer_reply, close};
ghost use Rattle.type_writing.specs.Answer.{write_types};
ghost use Rattle.counterexample.specs.Answer.{counterexample};
ghost use Rattle.host.specs.Reports.{Says, RunsCall, TellsText, TellsBreaking};

use controller::{Move, Outcome};

// Checks a network file: 0 for an accepted one, otherwise the refusal's number; the place is written to `place`.
pub fn pokhveti_check(file: &[u8], place: &mut usize) -> u32
    ensures value { result ≡ refusal_number (check_file file.now) }
    ensures place_after { place.new ≡ refusal_place (check_file file.now) }
{
    let answer = Outcome {
        bytes: 0,
        verdict: controller::check(file).verdict,
    };
    *place = refusal::place(answer);
    u32::from(refusal::number(answer))
}

// Writes a record of 18 bytes for each node of an accepted file's environments: 0, the refusal's number, or 1, with nothing written, where
// there is no room for all of them; how many nodes there are is written to `count`.
pub fn pokhveti_environments(file: &[u8], nodes: &mut [u8], count: &mut usize) -> u32
    ensures value { result ≡ listed_number (check_file file.now) nodes.old }
    ensures count_after { count.new ≡ listed_count (check_file file.now) }
    ensures nodes_after { nodes.new ≡ listed_bytes (check_file file.now) nodes.old }
{
    let answer = controller::environments(file, nodes);
    *count = answer.count;
    u32::from(answer.number)
}

// Reads a part of a message: its length, 0 for the empty part; where it starts is written to `start`.
pub fn pokhveti_part(
    message: &[u8],
    first: u16,
    second: u16,
    third: u16,
    fourth: u16,
    start: &mut usize,
) -> usize
    ensures value { result ≡ (span_of message.now (first ∷ second ∷ third ∷ fourth ∷ [])).len }
    ensures start_after { start.new ≡ (span_of message.now (first ∷ second ∷ third ∷ fourth ∷ [])).start }
{
    let span = controller::part_span(message, [first, second, third, fourth]);
    *start = span.start;
    span.len
}

// Writes the fresh state of an accepted file: 0, or the refusal's number; the place is written to `place`.
pub fn pokhveti_fresh(file: &[u8], state: &mut [u8], place: &mut usize) -> u32
    ensures says { Says (fresh file.now state.old).outcome result place.new }
    ensures state_after { state.new ≡ (fresh file.now state.old).state }
{
    let answer = controller::fresh(file, state);
    *place = refusal::place(answer);
    u32::from(refusal::number(answer))
}

// A move's outcome in numbers: its own is the result, the count of bytes written out and the place are written to `bytes` and `place`.
fn report(answer: Outcome, bytes: &mut usize, place: &mut usize) -> u32
    ensures says { Says answer result place.new }
    ensures bytes_after { bytes.new ≡ answer.bytes }
{
    *bytes = answer.bytes;
    *place = refusal::place(answer);
    u32::from(refusal::number(answer))
}

// A ready assign, if or while. Of every move the result is 0 or the number of the refusal.
pub fn pokhveti_local(
    file: &[u8],
    state: &mut [u8],
    out: &mut [u8],
    service: u16,
    session: u16,
    row: u16,
    bytes: &mut usize,
    place: &mut usize,
) -> u32
    ensures { RunsCall file.now state.old out.old (local service session row) [] result bytes.new place.new state.new out.new }
{
    let m = Move::Local(service, session, row);
    report(controller::step(file, state, out, m, &[]), bytes, place)
}

// A ready input takes the oldest message of its operation.
pub fn pokhveti_receive(
    file: &[u8],
    state: &mut [u8],
    out: &mut [u8],
    service: u16,
    session: u16,
    row: u16,
    bytes: &mut usize,
    place: &mut usize,
) -> u32
    ensures { RunsCall file.now state.old out.old (receive service session row) [] result bytes.new place.new state.new out.new }
{
    let m = Move::Receive(service, session, row);
    report(controller::step(file, state, out, m, &[]), bytes, place)
}

// A ready output sends its message to the target session, or out.
pub fn pokhveti_send(
    file: &[u8],
    state: &mut [u8],
    out: &mut [u8],
    service: u16,
    session: u16,
    row: u16,
    target: u16,
    bytes: &mut usize,
    place: &mut usize,
) -> u32
    ensures { RunsCall file.now state.old out.old (send service session row target) [] result bytes.new place.new state.new out.new }
{
    let m = Move::Send(service, session, row, target);
    report(controller::step(file, state, out, m, &[]), bytes, place)
}

// A request-response whose body is done answers.
pub fn pokhveti_reply(
    file: &[u8],
    state: &mut [u8],
    out: &mut [u8],
    service: u16,
    session: u16,
    row: u16,
    bytes: &mut usize,
    place: &mut usize,
) -> u32
    ensures { RunsCall file.now state.old out.old (reply service session row) [] result bytes.new place.new state.new out.new }
{
    let m = Move::Reply(service, session, row);
    report(controller::step(file, state, out, m, &[]), bytes, place)
}

// A message from outside to the operation of that id.
pub fn pokhveti_outer_message(
    file: &[u8],
    state: &mut [u8],
    out: &mut [u8],
    outside: &[u8],
    service: u16,
    id: u16,
    target: u16,
    number: u32,
    bytes: &mut usize,
    place: &mut usize,
) -> u32
    ensures { RunsCall file.now state.old out.old (definition.outer_message service id target number) outside.now result bytes.new place.new state.new out.new }
{
    let m = Move::OuterMessage(service, id, target, number);
    report(controller::step(file, state, out, m, outside), bytes, place)
}

// A reply from outside to a waiting row.
pub fn pokhveti_outer_reply(
    file: &[u8],
    state: &mut [u8],
    out: &mut [u8],
    outside: &[u8],
    service: u16,
    session: u16,
    row: u16,
    bytes: &mut usize,
    place: &mut usize,
) -> u32
    ensures { RunsCall file.now state.old out.old (outer_reply service session row) outside.now result bytes.new place.new state.new out.new }
{
    let m = Move::OuterReply(service, session, row);
    report(controller::step(file, state, out, m, outside), bytes, place)
}

// A done session becomes free.
pub fn pokhveti_close(
    file: &[u8],
    state: &mut [u8],
    out: &mut [u8],
    service: u16,
    session: u16,
    bytes: &mut usize,
    place: &mut usize,
) -> u32
    ensures { RunsCall file.now state.old out.old (close service session) [] result bytes.new place.new state.new out.new }
{
    let m = Move::Close(service, session);
    report(controller::step(file, state, out, m, &[]), bytes, place)
}

// Reads a text of type declarations and writes its T rows: 0, or the number of the refusal.
pub fn pokhveti_types(text: &[u8], rows: &mut [u8], bytes: &mut usize, place: &mut usize) -> u32
    ensures { TellsText (write_types text.now rows.old) result bytes.new place.new rows.new }
{
    report(controller::write_types(text, rows), bytes, place)
}

// Writes the message that fits the first of two type rows and not the second: 0, or the number of the refusal.
pub fn pokhveti_counterexample(
    file: &[u8],
    out: &mut [u8],
    first: u16,
    second: u16,
    bytes: &mut usize,
    place: &mut usize,
) -> u32
    ensures { TellsBreaking (counterexample file.now first second out.old) result bytes.new place.new out.new }
{
    report(
        controller::counterexample(file, first, second, out),
        bytes,
        place,
    )
}
