// What is printed: the result of a move, and a state.
ghost use Rattle.std.specs.Prelude.{◌+◌, ◌≤◌, ◌<◌, ◌≡◌, length};
ghost use Rattle.state.specs.Places.{queue_size, rows_size};

use console::{bytes, number, write};
use refusal::Outcome;
use std::io;
use std::io::Write;

// The first n bytes, if there are so many.
fn print_first<W: Write>(out: &mut W, p: &[u8], n: usize) -> io::Result<()> {
    if p.len() < n {
        return Ok(());
    }
    bytes(out, &p[0..n])
}

// A result: the number and, if bytes were written out, how many and which.
pub(crate) fn print_outcome<W: Write>(out: &mut W, o: Outcome, sent: &[u8]) -> io::Result<()> {
    write(out, b": ")?;
    number(out, refusal::number(o) as u64)?;
    let n = o.bytes;
    if 0 < n {
        write(out, b" ")?;
        number(out, n as u64)?;
        write(out, b" ")?;
        print_first(out, sent, n)?;
    }
    write(out, b"\n")
}

fn print_label<W: Write>(out: &mut W, q: u64, n: u64, what: &[u8]) -> io::Result<()> {
    number(out, q)?;
    write(out, b" ")?;
    number(out, n)?;
    write(out, what)
}

// The four entries of the queue at `queue`: operation's row and message.
fn print_queue<W: Write>(out: &mut W, state: &[u8], q: u64, n: u64, queue: usize) -> io::Result<()>
    requires { queue + queue_size ≤ length state.now }
{
    for i in 0usize..4 {
        let at = queue + state::ENTRY * i;
        let operation = wire::wide(state[at]);
        let len = wire::index(wire::u16_at(state, at + 2));
        if 0 < operation {
            print_label(out, q, n, b" queued ")?;
            number(out, (operation - 1) as u64)?;
            write(out, b" ")?;
            if len <= state::MESSAGE_ROOM {
                bytes(out, &state[at + 8..at + 8 + len])?;
            }
            write(out, b"\n")?;
        }
    }
    Ok(())
}

// What a row's progress is called.
fn print_progress<W: Write>(out: &mut W, progress: u8, part: u8) -> io::Result<()> {
    match progress {
        1 => write(out, b" done\n"),
        2 => write(out, b" waits\n"),
        3 => {
            write(out, b" part ")?;
            number(out, part as u64)?;
            write(out, b"\n")
        },
        4 => write(out, b" received from outside\n"),
        _ => write(out, b" received\n"),
    }
}

// The rows that are marked, of the 256 at `rows`.
fn print_rows<W: Write>(out: &mut W, state: &[u8], q: u64, n: u64, rows: usize) -> io::Result<()>
    requires { rows + rows_size ≤ length state.now }
{
    for r in 0usize..256 {
        let at = rows + state::ROW * r;
        let progress = state[at];
        if 0 < progress {
            print_label(out, q, n, b" row ")?;
            number(out, r as u64)?;
            print_progress(out, progress, state[at + 1])?;
        }
    }
    Ok(())
}

// The key, four bytes, as a signed number.
fn print_key<W: Write>(out: &mut W, key: u32) -> io::Result<()> {
    let n = key as u64;
    if n < 2147483648 {
        return number(out, n);
    }
    write(out, b"-")?;
    number(out, 4294967296 - n)
}

// The key of a session 1 to 3 of a keyed service.
fn print_held_key<W: Write>(
    out: &mut W,
    file: &[u8],
    state: &[u8],
    q: u16,
    n: u16,
) -> io::Result<()>
    requires { (q < 4) × (n < 4) }
{
    if n == 0 {
        return Ok(());
    }
    if network_rows::service_key(file, q) == 0 {
        return Ok(());
    }
    print_label(out, q as u64, n as u64, b" key ")?;
    print_key(
        out,
        wire::u32_at(state, state::slot_start(q, n) + state::KEY),
    )?;
    write(out, b"\n")
}

// The session whose slot this is, if it is live: its key, if it holds one, its tree, its queue, its rows (docs/STATE.md).
fn print_slot<W: Write>(out: &mut W, file: &[u8], state: &[u8], slot: usize) -> io::Result<()>
    requires { (slot < 16) × (length state.now ≡ 65536) }
{
    let at = state::SLOT * slot;
    if state[at] == 0 {
        return Ok(());
    }
    let q = (slot / 4) as u64;
    let n = (slot % 4) as u64;
    print_held_key(out, file, state, (slot / 4) as u16, (slot % 4) as u16)?;
    let len = wire::index(wire::u16_at(state, at + state::LENGTH));
    print_label(out, q, n, b" tree ")?;
    if len <= state::TREE_ROOM {
        bytes(out, &state[at + state::TREE..at + state::TREE + len])?;
    }
    write(out, b"\n")?;
    print_queue(out, state, q, n, at + state::QUEUE)?;
    print_rows(out, state, q, n, at + state::ROWS)
}

pub(crate) fn print_state<W: Write>(out: &mut W, file: &[u8], state: &[u8]) -> io::Result<()>
    requires { length state.now ≡ 65536 }
{
    for slot in 0usize..16 {
        print_slot(out, file, state, slot)?;
    }
    Ok(())
}
