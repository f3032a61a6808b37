// What is printed of a message: its bytes, and its nodes in preorder.
ghost use Rattle.std.specs.Prelude.{◌+◌, ◌≤◌, length};

use console::{bytes, write};
use std::io;
use std::io::Write;
use tree::Head;

// What follows the path of the node at `at`: its basic type, and its value, which ends at `end`, unless it has no byte.
fn print_value<W: Write>(out: &mut W, s: &[u8], at: usize, basic: u8, end: usize) -> io::Result<()>
    requires { (at + 5 ≤ end) × (end ≤ length s.now) }
{
    write(out, b" ")?;
    report::word(out, basic)?;
    if at + 5 < end {
        write(out, b" ")?;
        bytes(out, &s[at + 5..end])?;
    }
    write(out, b"\n")
}

// The n siblings at `at`, whose path's ids above are the first `level` of `ids`; gives the place past them.
fn print_nodes<W: Write>(
    out: &mut W,
    s: &[u8],
    ids: [u16; 8],
    level: usize,
    at: usize,
    n: u8,
) -> io::Result<usize> {
    if n == 0 {
        return Ok(at);
    }
    if 7 < level {
        return Ok(at);
    }
    let Some(
        Head {
            id,
            basic,
            count,
            start: mid,
        },
    ) = tree::head_at(s, at)
    else {
        return Ok(at);
    };
    let mut down = ids;
    down[level] = id;
    report::print_path(out, down, level)?;
    print_value(out, s, at, basic, mid)?;
    let end = print_nodes(out, s, down, level + 1, mid, count)?;
    print_nodes(out, s, ids, level, end, n - 1)
}

// The root, which has no path, is a dot.
pub(crate) fn print<W: Write>(out: &mut W, s: &[u8]) -> io::Result<()> {
    bytes(out, s)?;
    write(out, b"\n")?;
    let Some(
        Head {
            basic,
            count,
            start: mid,
            ..
        },
    ) = tree::head_at(s, 0)
    else {
        return Ok(());
    };
    write(out, b".")?;
    print_value(out, s, 0, basic, mid)?;
    print_nodes(out, s, [0u16; 8], 0, mid, count)?;
    Ok(())
}
