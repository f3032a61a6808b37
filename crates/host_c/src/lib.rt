// The exports for C: each calls the function of `host` of its name, with its clauses. include/pokhveti.h has the declarations; a slice is
// passed as a pointer and a length.
#![tactic(auto)]

ghost use Rattle.std.specs.Prelude.{◌≡◌, [], ◌∷◌};
ghost use Rattle.check_files.specs.FileChecker.{check_file};
ghost use Rattle.check_listing.specs.Listed.{listed_number, listed_count, listed_bytes};
ghost use Rattle.tree_part.specs.Span.{span_of};
ghost use Rattle.check_typing.specs.Result.{refusal_number, refusal_place};
ghost use Rattle.move_rules.specs.Fresh.{fresh};
ghost use Rattle.move_rules.specs.Moves as definition;
ghost use Rattle.move_rules.specs.Moves.{local, receive, send, reply, outer_reply, close};
ghost use Rattle.type_writing.specs.Answer.{write_types};
ghost use Rattle.counterexample.specs.Answer.{counterexample};
ghost use Rattle.host.specs.Reports.{Says, RunsCall, TellsText, TellsBreaking};

// Checks a network file: 0 for an accepted one, otherwise the refusal's number; the place is written to `place`.
#[unsafe(no_mangle)]
pub extern "C" fn pokhveti_check(file: &[u8], place: &mut usize) -> u32
    ensures value { result ≡ refusal_number (check_file file.now) }
    ensures place_after { place.new ≡ refusal_place (check_file file.now) }
{
    host::pokhveti_check(file, place)
}

// Writes a record of 18 bytes for each node of an accepted file's environments: 0, the refusal's number, or 1, with nothing written, where
// there is no room for all of them; how many nodes there are is written to `count`.
#[unsafe(no_mangle)]
pub extern "C" fn pokhveti_environments(file: &[u8], nodes: &mut [u8], count: &mut usize) -> u32
    ensures value { result ≡ listed_number (check_file file.now) nodes.old }
    ensures count_after { count.new ≡ listed_count (check_file file.now) }
    ensures nodes_after { nodes.new ≡ listed_bytes (check_file file.now) nodes.old }
{
    host::pokhveti_environments(file, nodes, count)
}

// Reads a part of a message: its length, 0 for the empty part; where it starts is written to `start`.
#[unsafe(no_mangle)]
pub extern "C" fn pokhveti_part(
    message: &[u8],
    first: u16,
    second: u16,
    third: u16,
    fourth: u16,
    start: &mut usize,
) -> usize
    ensures value { result ≡ (span_of message.now (first ∷ second ∷ third ∷ fourth ∷ [])).len }
    ensures start_after { start.new ≡ (span_of message.now (first ∷ second ∷ third ∷ fourth ∷ [])).start }
{
    host::pokhveti_part(message, first, second, third, fourth, start)
}

// Writes the fresh state of an accepted file: 0, or the refusal's number; the place is written to `place`.
#[unsafe(no_mangle)]
pub extern "C" fn pokhveti_fresh(file: &[u8], state: &mut [u8], place: &mut usize) -> u32
    ensures says { Says (fresh file.now state.old).outcome result place.new }
    ensures state_after { state.new ≡ (fresh file.now state.old).state }
{
    host::pokhveti_fresh(file, state, place)
}

// A ready assign, if or while. Of every move the result is 0 or the number of the refusal.
#[unsafe(no_mangle)]
pub extern "C" fn pokhveti_local(
    file: &[u8],
    state: &mut [u8],
    out: &mut [u8],
    service: u16,
    session: u16,
    row: u16,
    bytes: &mut usize,
    place: &mut usize,
) -> u32
    ensures { RunsCall file.now state.old out.old (local service session row) [] result bytes.new place.new state.new out.new }
{
    host::pokhveti_local(file, state, out, service, session, row, bytes, place)
}

// A ready input takes the oldest message of its operation.
#[unsafe(no_mangle)]
pub extern "C" fn pokhveti_receive(
    file: &[u8],
    state: &mut [u8],
    out: &mut [u8],
    service: u16,
    session: u16,
    row: u16,
    bytes: &mut usize,
    place: &mut usize,
) -> u32
    ensures { RunsCall file.now state.old out.old (receive service session row) [] result bytes.new place.new state.new out.new }
{
    host::pokhveti_receive(file, state, out, service, session, row, bytes, place)
}

// A ready output sends its message to the target session, or out.
#[unsafe(no_mangle)]
pub extern "C" fn pokhveti_send(
    file: &[u8],
    state: &mut [u8],
    out: &mut [u8],
    service: u16,
    session: u16,
    row: u16,
    target: u16,
    bytes: &mut usize,
    place: &mut usize,
) -> u32
    ensures { RunsCall file.now state.old out.old (send service session row target) [] result bytes.new place.new state.new out.new }
{
    host::pokhveti_send(
        file, state, out, service, session, row, target, bytes, place,
    )
}

// A request-response whose body is done answers.
#[unsafe(no_mangle)]
pub extern "C" fn pokhveti_reply(
    file: &[u8],
    state: &mut [u8],
    out: &mut [u8],
    service: u16,
    session: u16,
    row: u16,
    bytes: &mut usize,
    place: &mut usize,
) -> u32
    ensures { RunsCall file.now state.old out.old (reply service session row) [] result bytes.new place.new state.new out.new }
{
    host::pokhveti_reply(file, state, out, service, session, row, bytes, place)
}

// A message from outside to the operation of that id.
#[unsafe(no_mangle)]
pub extern "C" fn pokhveti_outer_message(
    file: &[u8],
    state: &mut [u8],
    out: &mut [u8],
    outside: &[u8],
    service: u16,
    id: u16,
    target: u16,
    number: u32,
    bytes: &mut usize,
    place: &mut usize,
) -> u32
    ensures { RunsCall file.now state.old out.old (definition.outer_message service id target number) outside.now result bytes.new place.new state.new out.new }
{
    host::pokhveti_outer_message(
        file, state, out, outside, service, id, target, number, bytes, place,
    )
}

// A reply from outside to a waiting row.
#[unsafe(no_mangle)]
pub extern "C" fn pokhveti_outer_reply(
    file: &[u8],
    state: &mut [u8],
    out: &mut [u8],
    outside: &[u8],
    service: u16,
    session: u16,
    row: u16,
    bytes: &mut usize,
    place: &mut usize,
) -> u32
    ensures { RunsCall file.now state.old out.old (outer_reply service session row) outside.now result bytes.new place.new state.new out.new }
{
    host::pokhveti_outer_reply(
        file, state, out, outside, service, session, row, bytes, place,
    )
}

// A done session becomes free.
#[unsafe(no_mangle)]
pub extern "C" fn pokhveti_close(
    file: &[u8],
    state: &mut [u8],
    out: &mut [u8],
    service: u16,
    session: u16,
    bytes: &mut usize,
    place: &mut usize,
) -> u32
    ensures { RunsCall file.now state.old out.old (close service session) [] result bytes.new place.new state.new out.new }
{
    host::pokhveti_close(file, state, out, service, session, bytes, place)
}

// Reads a text of type declarations and writes its T rows: 0, or the number of the refusal.
#[unsafe(no_mangle)]
pub extern "C" fn pokhveti_types(
    text: &[u8],
    rows: &mut [u8],
    bytes: &mut usize,
    place: &mut usize,
) -> u32
    ensures { TellsText (write_types text.now rows.old) result bytes.new place.new rows.new }
{
    host::pokhveti_types(text, rows, bytes, place)
}

// Writes the message that fits the first of two type rows and not the second: 0, or the number of the refusal.
#[unsafe(no_mangle)]
pub extern "C" fn pokhveti_counterexample(
    file: &[u8],
    out: &mut [u8],
    first: u16,
    second: u16,
    bytes: &mut usize,
    place: &mut usize,
) -> u32
    ensures { TellsBreaking (counterexample file.now first second out.old) result bytes.new place.new out.new }
{
    host::pokhveti_counterexample(file, out, first, second, bytes, place)
}
