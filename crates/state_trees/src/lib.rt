// A session's tree with a change, written to a scratch buffer, and whether it keeps to its limits. 01: "assign sets one root value and keeps
// children. Writing makes missing steps void."; receive "replaces the subtree"; 18: "would take a tree past 48 nodes or 6 levels".
#![tactic(auto)]

ghost use Rattle.std.specs.Prelude.{◌≡◌, ◌&&◌, ◌+◌, ◌≤◌, length, leb};
ghost use Rattle.tree.specs.Decode.{is_tree};
ghost use Rattle.tree.specs.Ids.{is_path};
ghost use Rattle.state_trees.specs.Changing.{Replaces, ReplacesAt, SetsLeaf, KeptAs};
ghost use Rattle.state.specs.Places.{slot_size};

// The answer of a tree's writer.
fn grown(v: Result<usize, usize>) -> Option<u16>
    ensures { KeptAs v result }
{
    let n = v.ok()?;
    if 1024 < n {
        return None;
    }
    Some(n as u16)
}

// Can the tree s be changed at the path by the tree m of at most `levels` levels and `nodes` nodes?
fn changeable(s: &[u8], ids: [u16; 4], m: &[u8], levels: u8, nodes: u8) -> bool
    ensures { result ≡ (leb (length s.now) 1024 && (leb (length m.now) 1024 &&
        (is_path ids && (is_tree 6 48 s.now && is_tree levels nodes m.now)))) }
{
    s.len() <= 1024
        && m.len() <= 1024
        && tree::path_ok(ids)
        && tree::is_tree(s, 6, 48)
        && tree::is_tree(m, levels, nodes)
}

// The tree of the session in the slot with the subtree at the path replaced by the tree of m.
pub fn replace(out: &mut [u8], state: &[u8], slot: usize, ids: [u16; 4], m: &[u8]) -> Option<u16>
    requires { (slot + slot_size ≤ length state.now) × (2304 ≤ length out.old) }
    ensures { Replaces state.now slot ids m.now out.new result }
{
    let s = state_slots::tree_of(state, slot);
    if !changeable(s, ids, m, 6, 48) {
        return None;
    }
    grown(tree_edit::put_within(out, s, ids, m, false))
}

// The same at the path of P row p.
pub fn replace_at(
    out: &mut [u8],
    file: &[u8],
    p: u16,
    state: &[u8],
    slot: usize,
    m: &[u8],
) -> Option<u16>
    requires { (slot + slot_size ≤ length state.now) × (2304 ≤ length out.old) }
    ensures { ReplacesAt file.now p state.now slot m.now out.new result }
{
    replace(out, state, slot, network_rows::path_row(file, p), m)
}

// The tree of the session in the slot with the value of the leaf m set at the path.
pub fn assign(out: &mut [u8], state: &[u8], slot: usize, ids: [u16; 4], m: &[u8]) -> Option<u16>
    requires { (slot + slot_size ≤ length state.now) × (2304 ≤ length out.old) }
    ensures { SetsLeaf state.now slot ids m.now out.new result }
{
    let s = state_slots::tree_of(state, slot);
    if !changeable(s, ids, m, 0, 0) {
        return None;
    }
    grown(tree_edit::set_within(out, s, ids, m))
}
