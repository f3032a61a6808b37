// Subtyping on bytes: between T rows and types that stand in an encoded tree, messages and T rows; T rows written out.
#![tactic(auto)]

ghost use Rattle.std.specs.Prelude.{◌≡◌, [], ◌∷◌, ℕ, ◌+◌, ◌*◌, ◌/◌, ◌%◌, ◌≤◌, ◌<◌, length};
ghost use Rattle.tree_edit.specs.Wrote.{Wrote};
ghost use Rattle.check_types.specs.Image.{flag, type_head_at};
ghost use Rattle.check_types.specs.TypeRows.{line_of};
ghost use Rattle.check_types.specs.Tells.{accepts, RowsUnder, TreesUnder, RowUnder, TreeUnder, FitsRow, BasicUnder, RowsOrder, RowsWritten, TypeWritten};

// A node of a type: its id, whether it is mandatory, its basic type, its child count and where its children start; or a fault.
#[derive(Clone, Copy)]
pub struct TypeHead {
    pub id: u16,
    pub mandatory: bool,
    pub basic: u8,
    pub count: u8,
    pub start: usize,
}

// A T row: its id, whether it is mandatory, its basic type, its children's first row and their count, and the next row; or no row whose
// children are later rows.
#[derive(Clone, Copy)]
pub struct Line {
    pub id: u16,
    pub mandatory: bool,
    pub basic: u8,
    pub first: u16,
    pub count: u16,
    pub next: u16,
}

// The node at `at`, by its own type or by the mark that its value is.
pub fn type_head(s: &[u8], at: usize, own: bool) -> Option<TypeHead>
    ensures { result ≡ type_head_at own s.now at }
{
    let tree::Head {
        id,
        basic,
        count,
        start,
    } = tree::head_at(s, at)?;
    if own {
        return Some(TypeHead {
            id,
            mandatory: true,
            basic,
            count,
            start,
        });
    }
    let mandatory = tree::value_byte(s, at, 0) == 1;
    let basic = tree::value_byte(s, at, 1);
    Some(TypeHead {
        id,
        mandatory,
        basic,
        count,
        start,
    })
}

// The T row r.
pub fn line_at(file: &[u8], r: u16) -> Option<Line>
    ensures { result ≡ line_of file.now r }
{
    if network_layout::type_count(file) <= r {
        return None;
    }
    let id = network_rows::type_id(file, r);
    let mandatory = network_rows::cardinality(file, r) == 1;
    let basic = network_rows::type_basic(file, r);
    let first = network_rows::first_child(file, r);
    let count = network_rows::child_count(file, r);
    let next = r + 1;
    if count == 0 {
        return Some(Line {
            id,
            mandatory,
            basic,
            first: next,
            count,
            next,
        });
    }
    if first <= r {
        return None;
    }
    Some(Line {
        id,
        mandatory,
        basic,
        first,
        count,
        next,
    })
}

// Does a child of T2 accept one of T1, their children aside?
fn accept(must: bool, b: u8, given: bool, c: u8) -> bool
    ensures { result ≡ accepts must b given c }
{
    c == b && (given || !must)
}

// Are the types of the n rows from r on ≤ the m types that stand at `at`?
fn rows_under(file: &[u8], r: u16, n: u16, s: &[u8], at: usize, m: u8) -> bool
    ensures { RowsUnder file.now r n s.now at m result }
{
    if m == 0 {
        return n == 0;
    }
    let Some(node) = type_head(s, at, false) else {
        return false;
    };
    let end = tree::extent(s, at);
    if n == 0 {
        return !node.mandatory && rows_under(file, r, n, s, end, m - 1);
    }
    let Some(row) = line_at(file, r) else {
        return false;
    };
    if node.id < row.id {
        return !node.mandatory && rows_under(file, r, n, s, end, m - 1);
    }
    node.id == row.id
        && accept(node.mandatory, node.basic, row.mandatory, row.basic)
        && rows_under(file, row.first, row.count, s, node.start, node.count)
        && rows_under(file, row.next, n - 1, s, end, m - 1)
}

// Are the m types that stand at `at` ≤ those of the n rows from r on?
fn trees_under(s: &[u8], at: usize, m: u8, own: bool, file: &[u8], r: u16, n: u16) -> bool
    ensures { TreesUnder own s.now at m file.now r n result }
{
    if n == 0 {
        return m == 0;
    }
    let Some(row) = line_at(file, r) else {
        return false;
    };
    if m == 0 {
        return !row.mandatory && trees_under(s, at, m, own, file, row.next, n - 1);
    }
    let Some(node) = type_head(s, at, own) else {
        return false;
    };
    if row.id < node.id {
        return !row.mandatory && trees_under(s, at, m, own, file, row.next, n - 1);
    }
    row.id == node.id
        && accept(row.mandatory, row.basic, node.mandatory, node.basic)
        && trees_under(s, node.start, node.count, own, file, row.first, row.count)
        && trees_under(s, tree::extent(s, at), m - 1, own, file, row.next, n - 1)
}

// Is the type of row r ≤ the type that stands at `at`?
pub fn row_under(file: &[u8], r: u16, s: &[u8], at: usize) -> bool
    ensures { RowUnder file.now r s.now at result }
{
    let Some(row) = line_at(file, r) else {
        return false;
    };
    let Some(top) = type_head(s, at, false) else {
        return false;
    };
    row.basic == top.basic && rows_under(file, row.first, row.count, s, top.start, top.count)
}

// Is the tree that stands at `at`, by its own type or by its marks, ≤ the type of row r?
pub fn tree_under(s: &[u8], at: usize, own: bool, file: &[u8], r: u16) -> bool
    ensures { TreeUnder own s.now at file.now r result }
{
    let Some(row) = line_at(file, r) else {
        return false;
    };
    let Some(top) = type_head(s, at, own) else {
        return false;
    };
    top.basic == row.basic && trees_under(s, top.start, top.count, own, file, row.first, row.count)
}

// Does the message fit the type of row r?
pub fn fits(message: &[u8], file: &[u8], r: u16) -> bool
    ensures { FitsRow message.now file.now r result }
{
    tree_under(message, 0, true, file, r)
}

// Is the basic type b alone ≤ the type of row r?
pub fn basic_under(file: &[u8], b: u8, r: u16) -> bool
    ensures { BasicUnder file.now b r result }
{
    let Some(row) = line_at(file, r) else {
        return false;
    };
    b == row.basic && trees_under(file, 0, 0, true, file, row.first, row.count)
}

// Writes the bytes of a type's node before its children.
pub fn push_node(out: &mut [u8], w: usize, id: u16, m: bool, b: u8, c: u8) -> usize
    requires { w + 7 ≤ length out.old }
    ensures { Wrote out.old out.new w result 7 (id % 256 ∷ id / 256 ∷ 5 ∷ c ∷ 2 ∷ flag m ∷ b ∷ []) }
{
    let x = tree_edit::push_id(out, w, id);
    let y = tree_edit::push(out, x, 5);
    let z = tree_edit::push(out, y, c);
    let u = tree_edit::push(out, z, 2);
    let v = tree_edit::push(out, u, u8::from(m));
    tree_edit::push(out, v, b)
}

// Writes the types of the n rows from r on as a tree's children from w on, and gives the place past them.
fn write_rows(out: &mut [u8], w: usize, file: &[u8], r: u16, n: u16) -> usize
    requires { w ≤ length out.old }
    ensures { RowsWritten file.now r n out.old out.new w result }
{
    if n == 0 {
        return w;
    }
    let Some(row) = line_at(file, r) else {
        return w;
    };
    let Ok(count) = u8::try_from(row.count) else {
        return w;
    };
    if out.len() - w < 7 {
        return w;
    }
    let a = push_node(out, w, row.id, row.mandatory, row.basic, count);
    let e = write_rows(out, a, file, row.first, row.count);
    write_rows(out, e, file, row.next, n - 1)
}

// Writes the type of row r as a tree alone, its root with the id 0 and mandatory, and gives its length.
pub fn write_type(out: &mut [u8], file: &[u8], r: u16) -> usize
    requires { 112 ≤ length out.old }
    ensures { TypeWritten file.now r out.old out.new result }
{
    let Some(row) = line_at(file, r) else {
        return 0;
    };
    let Ok(count) = u8::try_from(row.count) else {
        return 0;
    };
    let a = push_node(out, 0, 0, true, row.basic, count);
    write_rows(out, a, file, row.first, row.count)
}

// Is the type of row r ≤ that of row t?
pub fn row_order(file: &[u8], r: u16, t: u16) -> bool
    ensures { RowsOrder file.now r t result }
{
    if r == t {
        return true;
    }
    tree::octets(file);
    let mut m = [0u8; 112];
    let _n = write_type(&mut m, file, r);
    tree_under(&m, 0, false, file, t)
}
