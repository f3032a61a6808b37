// The T rows of a type that stands in bytes as a tree of marks, written level by level.
#![tactic(auto)]

ghost use Rattle.std.specs.Prelude.{◌≡◌, [], ◌∷◌, ◌+◌, ◌*◌, ◌≤◌, length, eqb};
ghost use Rattle.basics.specs.Choice.{pick};
ghost use Rattle.network_syntax.specs.Syntax.{mark};
ghost use Rattle.tree_edit.specs.Wrote.{Wrote};
ghost use Rattle.type_text.specs.TypeRows.{type_node, row_bytes};
ghost use Rattle.type_lines.specs.Emits.{LevelEmitted, TreeEmitted};

// Where the rows end, and the row of the next child.
#[derive(Clone, Copy)]
pub struct Emitted {
    pub at: usize,
    pub next: u16,
}

// The first child's row of a node with n children.
fn first_of(n: u16, next: u16) -> u16
    ensures { result ≡ pick (eqb n 0) 0 next }
{
    if n == 0 {
        return 0;
    }
    next
}

// Writes the row of a node, `next` being the row of the next child.
fn push_row(out: &mut [u8], w: usize, id: u16, m: bool, b: u8, next: u16, n: u16) -> usize
    requires { w + 8 ≤ length out.old }
    ensures { Wrote out.old out.new w result 8 (row_bytes next (type_node id (mark m b) n ∷ [])) }
{
    let x = tree_edit::push_id(out, w, id);
    let y = tree_edit::push(out, x, u8::from(m));
    let z = tree_edit::push(out, y, b);
    let u = tree_edit::push_id(out, z, first_of(n, next));
    tree_edit::push_id(out, u, n)
}

// Writes the rows of the d-th level of the n sibling types at `at`, `next` being the row of the next child.
fn emit_level(s: &[u8], at: usize, n: u8, d: u8, out: &mut [u8], w: usize, next: u16) -> Emitted
    requires { w ≤ length out.old }
    ensures { LevelEmitted s.now at n d out.old out.new w next result }
{
    if n == 0 {
        return Emitted { at: w, next };
    }
    let Some(head) = check_types::type_head(s, at, false) else {
        return Emitted { at: w, next };
    };
    let end = tree::extent(s, at);
    if d != 0 {
        let e = emit_level(s, head.start, head.count, d - 1, out, w, next);
        return emit_level(s, end, n - 1, d, out, e.at, e.next);
    }
    if out.len() - w < 8 {
        return Emitted { at: w, next };
    }
    let c = u16::from(head.count);
    if 65535 - next < c {
        return Emitted { at: w, next };
    }
    let a = push_row(out, w, head.id, head.mandatory, head.basic, next, c);
    emit_level(s, end, n - 1, d, out, a, next + c)
}

// Writes the rows of the type at the start of s, its root's being row r, and gives the place past them.
pub fn emit_tree(s: &[u8], out: &mut [u8], r: u16) -> usize
    requires { 8 * r ≤ length out.old }
    ensures { TreeEmitted s.now out.old out.new r result }
{
    let w = 8 * usize::from(r);
    let Some(head) = check_types::type_head(s, 0, false) else {
        return w;
    };
    if 255 < r {
        return w;
    }
    if out.len() - w < 8 {
        return w;
    }
    let c = u16::from(head.count);
    let a = push_row(out, w, 0, head.mandatory, head.basic, r + 1, c);
    let e = emit_level(s, head.start, head.count, 0, out, a, r + 1 + c);
    let f = emit_level(s, head.start, head.count, 1, out, e.at, e.next);
    let g = emit_level(s, head.start, head.count, 2, out, f.at, f.next);
    g.at
}
