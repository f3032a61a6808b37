// What is printed of a checked file. 01, end of Proved cases: "`accepted`, then per node in preorder, by service, S(tarter) first: service
// row, S or C(lient), path, `!` (mandatory) or `?`, basic type", otherwise "`refused N P`".
#![tactic(auto)]

ghost use Rattle.std.specs.Prelude.{◌<◌};

use check_environments::Environment;
use check_network::{Answer, Pair};
use console::{Status, number, write};
use refusal::Refusal;
use std::io;
use std::io::Write;

// The word of a basic type.
pub fn word<W: Write>(out: &mut W, basic: u8) -> io::Result<()> {
    write(out, scalar::word_of(basic))
}

// A path's ids down to the node, each in its place by level.
pub fn print_path<W: Write>(out: &mut W, ids: [u16; 8], level: usize) -> io::Result<()>
    requires { level < 8 }
{
    for id in &ids[..level] {
        number(out, u64::from(*id))?;
        write(out, b".")?;
    }
    number(out, u64::from(ids[level]))
}

fn mark<W: Write>(out: &mut W, mandatory: bool) -> io::Result<()> {
    write(out, if mandatory { b" ! " } else { b" ? " })
}

// What follows a node's path.
fn print_type<W: Write>(out: &mut W, mandatory: bool, basic: u8) -> io::Result<()> {
    mark(out, mandatory)?;
    word(out, basic)?;
    write(out, b"\n")
}

// The n siblings at `at`, whose path's ids above are the first `level` of `ids`; gives the place past them.
fn nodes<W: Write>(
    out: &mut W,
    s: &[u8],
    q: u64,
    role: &[u8],
    ids: [u16; 8],
    level: usize,
    at: usize,
    n: u8,
) -> io::Result<usize> {
    if n == 0 || 7 < level {
        return Ok(at);
    }
    let Some(head) = check_types::type_head(s, at, false) else {
        return Ok(at);
    };
    let mut down = ids;
    down[level] = head.id;
    number(out, q)?;
    write(out, role)?;
    print_path(out, down, level)?;
    print_type(out, head.mandatory, head.basic)?;
    let end = nodes(out, s, q, role, down, level + 1, head.start, head.count)?;
    nodes(out, s, q, role, ids, level, end, n - 1)
}

fn environment<W: Write>(out: &mut W, q: u64, role: &[u8], e: Environment) -> io::Result<()> {
    if let Some(head) = tree::head_at(&e.bytes, 0) {
        nodes(out, &e.bytes, q, role, [0u16; 8], 0, head.start, head.count)?;
    }
    Ok(())
}

fn service<W: Write>(out: &mut W, q: u64, p: Pair) -> io::Result<()> {
    environment(out, q, b" S ", p.starter)?;
    environment(out, q, b" C ", p.client)
}

fn accepted<W: Write>(out: &mut W, x: Answer) -> io::Result<()> {
    write(out, b"accepted\n")?;
    service(out, 0, x.first)?;
    service(out, 1, x.second)?;
    service(out, 2, x.third)?;
    service(out, 3, x.fourth)
}

pub fn refused<W: Write>(out: &mut W, n: u8, place: usize) -> io::Result<()> {
    write(out, b"refused ")?;
    number(out, u64::from(n))?;
    write(out, b" ")?;
    number(out, place as u64)?;
    write(out, b"\n")
}

// What the checker answered; gives the status.
pub fn answer<W: Write>(out: &mut W, x: Answer) -> io::Result<Status> {
    if let Err(why) = x.verdict {
        refused(out, refusal::number_of(why), refusal::place_of(why))?;
        return Ok(Status::Refused);
    }
    accepted(out, x)?;
    Ok(Status::Done)
}
