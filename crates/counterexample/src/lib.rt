// The message that fits one type of a file and not another, of the fewest nodes and lowest bytes. For each node of the first type the least
// message with that node is written, and the lowest of those that do not fit the second type is kept.
#![tactic(auto)]

ghost use Rattle.std.specs.Prelude.{◌≡◌, ◌∷◌, ℕ, ◌+◌, ◌-◌, ◌/◌, ◌%◌, ◌≤◌, ◌<◌, length, replicate};
ghost use Rattle.tree_edit.specs.Wrote.{Wrote};
ghost use Rattle.counterexample_rules.specs.Breaking.{holds_child};
ghost use Rattle.counterexample.specs.Answer.{counterexample};
ghost use Rattle.counterexample.specs.Tells.{RowNodes, Spans, Held, LeastWritten, MessageWritten, BetterTold, Considered};
ghost use Rattle.network.specs.Form.{WellFormed};
ghost use Rattle.network.specs.Layout.{type_count};
ghost use Rattle.network.specs.Decode.{type_of};
ghost use Rattle.network.specs.Shapes.{tree_nodes};
ghost use Rattle.counterexample.specs.Tells.{Searched};

use refusal::{Outcome, Refusal};

// Does the least message with the node number j hold a child of so many nodes?
fn holds(must: bool, j: u16, size: u16) -> bool
    ensures { result ≡ holds_child must j size }
{
    must || (0 < j && j <= size)
}

// One more than the sum, or 255 where that is larger.
fn one_more(a: u16, b: u16) -> u16
    requires { (a < 256) × (b < 256) }
    ensures { (result < 256) × ((1 + a + b < 256) → result ≡ 1 + a + b) }
{
    (a + b + 1).min(255)
}

// How many nodes the n rows from r on have, written out.
fn row_nodes(file: &[u8], r: u16, n: u16) -> u16
    ensures { RowNodes file.now r n result }
{
    if n == 0 {
        return 0;
    }
    let Some(row) = check_types::line_at(file, r) else {
        return 0;
    };
    let below = row_nodes(file, row.first, row.count);
    let others = row_nodes(file, row.next, n - 1);
    one_more(below, others)
}

// One more than the nodes of the n rows from r on, where the number j asks for it.
fn span(file: &[u8], r: u16, n: u16, j: u16) -> u16
    ensures { Spans file.now r n j result }
{
    if j == 0 {
        return 1;
    }
    1 + row_nodes(file, r, n)
}

// How many of the n rows from r on the least message with their node number j holds.
fn held(file: &[u8], r: u16, n: u16, j: u16) -> u16
    ensures { Held file.now r n j result }
{
    if n == 0 {
        return 0;
    }
    let Some(row) = check_types::line_at(file, r) else {
        return 0;
    };
    let size = span(file, row.first, row.count, j);
    let others = held(file, row.next, n - 1, j.saturating_sub(size));
    if holds(row.mandatory, j, size) {
        return others + 1;
    }
    others
}

// Writes the bytes of a node with its least value, before its children.
fn push_least(out: &mut [u8], w: usize, id: u16, basic: u8, count: u8, size: usize) -> usize
    requires { (size ≤ 8) × (w + 5 + size ≤ length out.old) }
    ensures { Wrote out.old out.new w result (5 + size) (id % 256 ∷ id / 256 ∷ basic ∷ count ∷ size ∷ replicate size 0) }
{
    let a = tree_edit::push_id(out, w, id);
    let b = tree_edit::push(out, a, basic);
    let c = tree_edit::push(out, b, count);
    let d = tree_edit::push(out, c, size as u8);
    tree_edit::append(out, d, &[0; 8], 0, size)
}

// Writes from w on what the least message with the node number j of the n rows from r on holds of them, and gives the place past it.
fn write_least(out: &mut [u8], w: usize, file: &[u8], r: u16, n: u16, j: u16) -> usize
    requires { w ≤ length out.old }
    ensures { LeastWritten file.now r n j out.old out.new w result }
{
    if n == 0 {
        return w;
    }
    let Some(row) = check_types::line_at(file, r) else {
        return w;
    };
    let size = span(file, row.first, row.count, j);
    let later = j.saturating_sub(size);
    if !holds(row.mandatory, j, size) {
        return write_least(out, w, file, row.next, n - 1, later);
    }
    let z = scalar::least_size(row.basic);
    if out.len() - w < 5 + z {
        return w;
    }
    let under = j.saturating_sub(1);
    let count = held(file, row.first, row.count, under);
    let a = push_least(out, w, row.id, row.basic, (count % 256) as u8, z);
    let e = write_least(out, a, file, row.first, row.count, under);
    write_least(out, e, file, row.next, n - 1, later)
}

// Writes the least message of row r with its node number j, and gives its length.
fn write_message(out: &mut [u8], file: &[u8], r: u16, j: u16) -> usize
    requires { 336 ≤ length out.old }
    ensures { MessageWritten file.now r j out.old out.new result }
{
    tree::octets(file);
    let Some(row) = check_types::line_at(file, r) else {
        return 0;
    };
    let count = held(file, row.first, row.count, j);
    let z = scalar::least_size(row.basic);
    let a = push_least(out, 0, 0, row.basic, (count % 256) as u8, z);
    write_least(out, a, file, row.first, row.count, j)
}

// Is the message a lower than b, where b is one?
fn better(a: &[u8], b: &[u8]) -> bool
    ensures { BetterTold a.now b.now result }
{
    if b.is_empty() {
        return true;
    }
    let m = tree_count::node_count(a);
    let n = tree_count::node_count(b);
    if m != n {
        return m < n;
    }
    a < b
}

// Keeps in `best`, of which the first n bytes are the lowest message so far, the least one with the node number j where that is lower and does
// not fit row `second`; gives the length of what is kept.
fn consider(best: &mut [u8], n: usize, file: &[u8], first: u16, second: u16, j: u16) -> usize
    requires { (336 ≤ length best.old) × (n ≤ length best.old) }
    ensures { Considered file.now first second j best.old best.new n result }
{
    tree::octets(file);
    let mut m = [0u8; 336];
    let k = write_message(&mut m, file, first, j);
    if check_types::fits(&m, file, second) {
        return n;
    }
    if !better(&m[0..k], &best[0..n]) {
        return n;
    }
    tree_edit::append(best, 0, &m, 0, k)
}

// Keeps in `best` the lowest of the least messages of row `first` that do not fit row `second`, and gives its length, 0 for none.
fn search(best: &mut [u8], file: &[u8], first: u16, second: u16) -> usize
    requires { 336 ≤ length best.old }
    ensures { Searched file.now first second (tree_nodes (type_of file.now first)) best.new result }
{
    let all = row_nodes(file, first, 1);
    let mut n: usize = 0;
    for j in 0..all {
        n = consider(best, n, file, first, second, j);
    }
    n
}

// The message that fits the type of row `first` and not that of row `second`, to the start of the out buffer.
pub fn show(file: &[u8], first: u16, second: u16, out: &mut [u8]) -> Outcome
    ensures value { result ≡ (counterexample file.now first second out.old).outcome }
    ensures out_after { out.new ≡ (counterexample file.now first second out.old).out }
{
    if out.len() < 512 {
        return refusal::refused(Refusal::BufferSize);
    }
    if let Err(why) = network_form::form_of(file) {
        return refusal::refused(why);
    }
    let rows = network_layout::type_count(file);
    if rows <= first || rows <= second {
        return refusal::refused(Refusal::MoveNotAllowed);
    }
    let mut best = [0u8; 336];
    let n = search(&mut best, file, first, second);
    tree_edit::append(out, 0, &best, 0, n);
    refusal::done(n)
}
