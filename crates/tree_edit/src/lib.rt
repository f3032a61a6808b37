// Changing trees in bytes: replacing a subtree, setting a value, copying a subtree out, and storing bytes in a region.
#![tactic(auto)]

ghost use Rattle.std.specs.Prelude.{◌≡◌, true, ◌++◌, [], ◌∷◌, ℕ, ◌+◌, ◌-◌, ◌*◌, ◌/◌, ◌%◌, ◌≤◌, ◌<◌, length, take, drop, get_or, set};
ghost use Rattle.tree_forest.specs.Forest.{end, tree};
ghost use Rattle.scalar.specs.Value.{value, basic_of, bytes_of};
ghost use Rattle.tree.specs.Encode.{encode, rooted};
ghost use Rattle.tree.specs.Decode.{decode, is_tree};
ghost use Rattle.tree.specs.Ids.{is_path, path_from_ids, steps, is_none};
ghost use Rattle.tree_edit.specs.Wrote.{Wrote, stored};
ghost use Rattle.tree_edit.specs.Change.{missing_value, replaced, assigned_bytes, subtree_of};
ghost use Rattle.tree_edit.specs.Limited.{PutOutcome, SetOutcome};
ghost use Rattle.tree_edit.specs.Plan.{prefix, spliced, Led, Gap, Hit, Planned};

// Where a path leads in a tree: to a gap among the children of a node, with k steps taken (the parent's place, the gap's place, k); to a
// node (its place, where its children start, its end); or a fault.
#[derive(Clone, Copy)]
pub enum Plan {
    Insert(usize, usize, usize),
    Replace(usize, usize, usize),
    Fail,
}

// Copies the n bytes of src from a on to out from w on, and gives the place past them.
pub fn append(out: &mut [u8], w: usize, src: &[u8], a: usize, n: usize) -> usize
    requires { (a + n ≤ length src.now) × (w + n ≤ length out.old) }
    ensures { Wrote out.old out.new w result n (take n (drop a src.now)) }
{
    let end = w + n;
    out[w..end].copy_from_slice(&src[a..a + n]);
    end
}

// Writes one byte.
pub fn push(out: &mut [u8], w: usize, x: u8) -> usize
    requires { w < length out.old }
    ensures { Wrote out.old out.new w result 1 (x ∷ []) }
{
    wire::put_u8(out, w, x);
    w + 1
}

// Writes an id.
pub fn push_id(out: &mut [u8], w: usize, id: u16) -> usize
    requires { w + 2 ≤ length out.old }
    ensures { Wrote out.old out.new w result 2 (id % 256 ∷ id / 256 ∷ []) }
{
    wire::put_u16(out, w, id);
    w + 2
}

// Writes the bytes of a missing step with one child, from its basic type on.
fn push_missing(out: &mut [u8], w: usize, typed: bool) -> usize
    requires { w + 5 ≤ length out.old }
    ensures { Wrote out.old out.new w result (3 + length (bytes_of (missing_value typed)))
        (basic_of (missing_value typed) ∷ 1 ∷ length (bytes_of (missing_value typed)) ∷ bytes_of (missing_value typed)) }
{
    if typed {
        return append(out, w, &[scalar::RAW, 1, 2, 1, scalar::VOID], 0, 5);
    }
    append(out, w, &[scalar::VOID, 1, 0], 0, 3)
}

// Writes missing steps for the ids from k on but the last, and the last one's id.
fn push_steps(out: &mut [u8], w: usize, ids: [u16; 4], k: usize, typed: bool) -> usize
    requires { (k < 4) × (w + 7 * (4 - k) ≤ length out.old) }
    ensures { (result ≤ w + 7 * (4 - k)) ×
        Wrote out.old out.new w result (result - w) (prefix (missing_value typed) (get_or ids k 0) (steps (drop (k + 1) ids))) }
{
    let a = push_id(out, w, ids[k]);
    if tree::is_last(ids, k) {
        return a;
    }
    let b = push_missing(out, a, typed);
    push_steps(out, b, ids, k + 1, typed)
}

// Writes the bytes of a value's message: a tree without children.
pub fn leaf(out: &mut [u8], w: usize, basic: u8, v: &[u8]) -> usize
    requires { (length v.now < 256) × (w + 5 + length v.now ≤ length out.old) }
    ensures { Wrote out.old out.new w result (5 + length v.now)
        (encode (rooted (tree (value basic v.now) end))) }
{
    let a = append(out, w, &[0, 0, basic, 0, v.len() as u8], 0, 5);
    append(out, a, v, 0, v.len())
}

// Where the steps from k on lead among the n siblings at `at`, the children of the node at `parent`.
fn locate(s: &[u8], ids: [u16; 4], k: usize, parent: usize, at: usize, n: u8) -> Plan
    requires { k < 4 }
    ensures { Led s.now k (get_or ids k 0) (steps (drop (k + 1) ids)) parent at n result }
{
    if n == 0 {
        return Plan::Insert(parent, at, k);
    }
    let Some(node) = tree::head_at(s, at) else {
        return Plan::Fail;
    };
    let id = ids[k];
    if id < node.id {
        return Plan::Insert(parent, at, k);
    }
    let end = tree::extent(s, at);
    if node.id < id {
        return locate(s, ids, k, parent, end, n - 1);
    }
    if tree::is_last(ids, k) {
        return Plan::Replace(at, node.start, end);
    }
    locate(s, ids, k + 1, at, node.start, node.count)
}

// Where a change at the path of a tree goes.
fn route(s: &[u8], ids: [u16; 4]) -> Plan
    requires { is_tree 6 48 s.now ≡ true }
    ensures { Planned s.now ids result }
{
    let Some(root) = tree::head_at(s, 0) else {
        return Plan::Fail;
    };
    locate(s, ids, 0, 0, root.start, root.count)
}

// Writes s to out with the node from p to q given the body of the message m, keeping its id.
fn replace(out: &mut [u8], s: &[u8], p: usize, q: usize, m: &[u8]) -> usize
    requires { (p + 2 ≤ length s.now) × (q ≤ length s.now) × (2 ≤ length m.now) ×
        (p + length m.now + (length s.now - q) ≤ length out.old) }
    ensures { Wrote out.old out.new 0 result result
        (take (p + 2) s.now ++ (drop 2 m.now ++ drop q s.now)) }
{
    let a = append(out, 0, s, 0, p + 2);
    let b = append(out, a, m, 2, m.len() - 2);
    append(out, b, s, q, s.len() - q)
}

// Writes s to out with missing steps for the ids from k on at p, the last of them with the body of the message m, and one child more in
// the node at `up`.
fn insert(
    out: &mut [u8],
    s: &[u8],
    up: usize,
    p: usize,
    ids: [u16; 4],
    k: usize,
    m: &[u8],
    typed: bool,
) -> usize
    requires { Gap s.now up p k × (2 ≤ length m.now) × (length s.now + 28 + length m.now ≤ length out.old) }
    ensures { Wrote out.old out.new 0 result result
        (set (take p s.now) (up + 3) (get_or s.now (up + 3) 0 + 1) ++
        (prefix (missing_value typed) (get_or ids k 0) (steps (drop (k + 1) ids)) ++ (drop 2 m.now ++ drop p s.now))) }
{
    let a = append(out, 0, s, 0, p);
    wire::put_u8(out, up + 3, s[up + 3] + 1);
    let b = push_steps(out, a, ids, k, typed);
    let c = append(out, b, m, 2, m.len() - 2);
    append(out, c, s, p, s.len() - p)
}

// Writes to out the tree s with the tree of the message m put at the path: the subtree there replaced, or made with what is missing on
// the way. Gives its length.
pub fn put(out: &mut [u8], s: &[u8], ids: [u16; 4], m: &[u8], typed: bool) -> usize
    requires { (is_tree 6 48 s.now ≡ true) × (is_tree 6 48 m.now ≡ true) × (length s.now + 28 + length m.now ≤ length out.old) }
    ensures { Wrote out.old out.new 0 result result
        (replaced typed (path_from_ids ids) (decode 6 48 m.now) (decode 6 48 s.now)) }
{
    match route(s, ids) {
        Plan::Insert(up, p, k) => insert(out, s, up, p, ids, k, m, typed),
        Plan::Replace(p, _, q) => replace(out, s, p, q, m),
        Plan::Fail => 0,
    }
}

// Writes s to out with the node at p given the value of the message m, its children, which start at mid, kept.
fn replace_value(out: &mut [u8], s: &[u8], p: usize, mid: usize, m: &[u8]) -> usize
    requires { (p + 5 ≤ mid) × (mid ≤ length s.now) × (5 ≤ length m.now) ×
        (p + length m.now + (length s.now - mid) ≤ length out.old) }
    ensures { Wrote out.old out.new 0 result result
        (take (p + 2) s.now ++ (get_or m.now 2 0 ∷ get_or s.now (p + 3) 0 ∷
        (drop 4 m.now ++ drop mid s.now))) }
{
    let a = append(out, 0, s, 0, p + 2);
    let b = push(out, a, m[2]);
    let c = push(out, b, s[p + 3]);
    let d = append(out, c, m, 4, m.len() - 4);
    append(out, d, s, mid, s.len() - mid)
}

// Writes to out the tree s with the value of the leaf m set at the path, the children there kept; what is missing on the way is made void.
// Gives its length.
pub fn set_value(out: &mut [u8], s: &[u8], ids: [u16; 4], m: &[u8]) -> usize
    requires { (is_tree 6 48 s.now ≡ true) × (is_tree 0 0 m.now ≡ true) × (length s.now + 28 + length m.now ≤ length out.old) }
    ensures { Wrote out.old out.new 0 result result
        (assigned_bytes (path_from_ids ids) (decode 0 0 m.now) (decode 6 48 s.now)) }
{
    match route(s, ids) {
        Plan::Insert(up, p, k) => insert(out, s, up, p, ids, k, m, false),
        Plan::Replace(p, mid, _) => replace_value(out, s, p, mid, m),
        Plan::Fail => 0,
    }
}

// As `put`, and says whether the changed tree keeps to 48 nodes and 6 levels below its root.
pub fn put_within(
    out: &mut [u8],
    s: &[u8],
    ids: [u16; 4],
    m: &[u8],
    typed: bool,
) -> Result<usize, usize>
    requires { (is_tree 6 48 s.now ≡ true) × (is_tree 6 48 m.now ≡ true) × (is_path ids ≡ true) ×
        (length s.now + 28 + length m.now ≤ length out.old) }
    ensures { PutOutcome typed ids s.now m.now out.old out.new result }
{
    let len = put(out, s, ids, m, typed);
    if tree::within(out, 6, 48) {
        Ok(len)
    } else {
        Err(len)
    }
}

// As `set_value`, and says whether the changed tree keeps to 48 nodes and 6 levels below its root.
pub fn set_within(out: &mut [u8], s: &[u8], ids: [u16; 4], m: &[u8]) -> Result<usize, usize>
    requires { (is_tree 6 48 s.now ≡ true) × (is_tree 0 0 m.now ≡ true) × (is_path ids ≡ true) ×
        (length s.now + 28 + length m.now ≤ length out.old) }
    ensures { SetOutcome ids s.now m.now out.old out.new result }
{
    let len = set_value(out, s, ids, m);
    if tree::within(out, 6, 48) {
        Ok(len)
    } else {
        Err(len)
    }
}

// Writes to out the subtree at the path of the tree s as a tree alone, its root with the id 0. Gives its length; 0 where it is missing.
pub fn subtree(out: &mut [u8], s: &[u8], ids: [u16; 4]) -> usize
    requires { (is_tree 6 48 s.now ≡ true) × (is_path ids ≡ true) × (length s.now ≤ length out.old) }
    ensures { Wrote out.old out.new 0 result result (subtree_of (path_from_ids ids) (decode 6 48 s.now)) }
{
    let Some(at) = tree::follow(s, ids) else {
        return 0;
    };
    let end = tree::extent(s, at);
    let a = push_id(out, 0, 0);
    append(out, a, s, at + 2, end - at - 2)
}

// Stores the first n bytes of src and then zeros in the region of `size` bytes at `base`, and keeps all else.
pub fn store(state: &mut [u8], base: usize, size: usize, src: &[u8], n: usize)
    requires { (base + size ≤ length state.old) × (n ≤ size) × (n ≤ length src.now) }
    ensures { state.new ≡ stored state.old base size src.now n }
{
    let mid = base + n;
    let end = base + size;
    state[base..mid].copy_from_slice(&src[..n]);
    state[mid..end].fill(0);
}
