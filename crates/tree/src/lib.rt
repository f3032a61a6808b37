// Trees in bytes: messages, session trees and environments; validity and walking.
#![tactic(auto)]

ghost use Rattle.std.specs.Prelude.{◌≡◌, ◌+◌, ◌<◌, drop, get_or};
ghost use Rattle.tree.specs.Encode.{Octets};
ghost use Rattle.tree.specs.Decode.{head_at, scan, is_tree, is_message, is_session_tree, value_at};
ghost use Rattle.tree.specs.Ids.{is_path, steps, is_none, Words};
ghost use Rattle.tree.specs.Standing.{Ended, Sought, Below, Followed, Within};

// The header of a node: its id, its basic type, its child count and where its children start; or a fault.
#[derive(Clone, Copy)]
pub struct Head {
    pub id: u16,
    pub basic: u8,
    pub count: u8,
    pub start: usize,
}

// Every byte is below 256, as a fact that callers can cite.
pub fn octets(s: &[u8])
    ensures { Octets s.now }
{}

// The header of the node at `at`, where it and a value of its basic type stand there.
#[tactic(auto, unfolding(crate::specs::Decode::head_at, crate::specs::Decode::head_ok))]
pub fn head_at(s: &[u8], at: usize) -> Option<Head>
    ensures { result ≡ head_at s.now at }
{
    if s.len() < 5 || s.len() - 5 < at {
        return None;
    }
    let len = usize::from(s[at + 4]);
    if s.len() - 5 - at < len || !scalar::value_ok(s, at + 5, s[at + 2], len) {
        return None;
    }
    Some(Head {
        id: wire::u16_at(s, at),
        basic: s[at + 2],
        count: s[at + 3],
        start: at + 5 + len,
    })
}

// n siblings at `at` of at most `levels` levels, with ids above `last`, of at most `left` nodes. The loop goes on to a last sibling's
// children; those of another one are read by a call.
pub fn kids(s: &[u8], at: usize, n: u8, last: u16, levels: u8, left: u8) -> Option<(usize, u8)>
    ensures { result ≡ scan s.now levels n last left at }
{
    let mut p = at;
    let mut more = n;
    let mut before = last;
    let mut deep = levels;
    let mut room = left;
    while 0 < more {
        if deep == 0 || room == 0 {
            return None;
        }
        let node = head_at(s, p)?;
        if node.id <= before {
            return None;
        }
        p = node.start;
        more -= 1;
        before = node.id;
        room -= 1;
        if 0 < node.count {
            if more == 0 {
                more = node.count;
                before = 0;
                deep -= 1;
            } else {
                let (next, rest) = kids(s, p, node.count, 0, deep - 1, room)?;
                p = next;
                room = rest;
            }
        }
    }
    Some((p, room))
}

// Are the bytes a tree of at most `levels` levels and `nodes` nodes below its root?
pub fn is_tree(s: &[u8], levels: u8, nodes: u8) -> bool
    ensures { result ≡ is_tree levels nodes s.now }
{
    let Some(root) = head_at(s, 0) else {
        return false;
    };
    if root.id != 0 {
        return false;
    }
    let Some((end, _)) = kids(s, root.start, root.count, 0, levels, nodes) else {
        return false;
    };
    end == s.len()
}

// Are the bytes a message?
pub fn is_message(s: &[u8]) -> bool
    ensures { result ≡ is_message s.now }
{
    is_tree(s, 3, 15)
}

// Are the bytes a session's tree?
pub fn is_session_tree(s: &[u8]) -> bool
    ensures { result ≡ is_session_tree s.now }
{
    is_tree(s, 6, 48) && wire::byte_at(s, 2) == scalar::VOID
}

// Does the tree at the start of the bytes keep to the limits?
pub fn within(s: &[u8], levels: u8, nodes: u8) -> bool
    ensures { Within levels nodes s.now result }
{
    let Some(root) = head_at(s, 0) else {
        return false;
    };
    kids(s, root.start, root.count, 0, levels, nodes).is_some()
}

// Where the tree at `at` ends. Its nodes are passed one by one, with how many trees are still to come side by side.
pub fn extent(s: &[u8], at: usize) -> usize
    ensures { Ended s.now at result }
{
    let mut p = at;
    let mut left: usize = 1;
    while 0 < left {
        if 255 < left || s.len() < 5 || s.len() - 5 < p {
            return at;
        }
        let len = usize::from(s[p + 4]);
        if s.len() - 5 - p < len {
            return at;
        }
        left = left - 1 + usize::from(s[p + 3]);
        p = p + 5 + len;
    }
    p
}

// The byte k of the value of the node at `at`; 0 past its end.
pub fn value_byte(s: &[u8], at: usize, k: usize) -> u8
    ensures { result ≡ get_or (value_at s.now at) k 0 }
{
    if s.len() < 5 || s.len() - 5 < at || usize::from(s[at + 4]) <= k || s.len() - 5 - at <= k {
        return 0;
    }
    s[at + 5 + k]
}

// The sibling with the id among the n siblings at `at`. Ids rise, so the search stops at a larger one.
pub fn seek(s: &[u8], at: usize, n: u8, id: u16) -> Option<usize>
    ensures { Sought s.now at n id result }
{
    if n == 0 {
        return None;
    }
    let node = head_at(s, at)?;
    if id < node.id {
        return None;
    }
    if node.id == id {
        return Some(at);
    }
    let end = extent(s, at);
    seek(s, end, n - 1, id)
}

// The child with the id of the tree at `at`.
pub fn down(s: &[u8], at: usize, id: u16) -> Option<usize>
    ensures { Below s.now at id result }
{
    let root = head_at(s, at)?;
    seek(s, root.start, root.count, id)
}

// The node at the end of a path below the tree at the start.
pub fn follow(s: &[u8], ids: [u16; 4]) -> Option<usize>
    ensures { Followed s.now ids result }
{
    let mut at: usize = 0;
    for id in ids {
        if id == 0 {
            return Some(at);
        }
        at = down(s, at, id)?;
    }
    Some(at)
}

// Is the first id not 0, and after a 0 only 0?
pub fn path_ok(ids: [u16; 4]) -> bool
    ensures { result ≡ is_path ids }
{
    ids[0] != 0 && (ids[1] != 0 || ids[2] == 0) && (ids[2] != 0 || ids[3] == 0)
}

// Is the step k of a path its last?
pub fn is_last(ids: [u16; 4], k: usize) -> bool
    requires { k < 4 }
    ensures { result ≡ is_none (steps (drop (k + 1) ids)) }
{
    k == 3 || ids[k + 1] == 0
}

// Every id fits u16, as a fact that callers can cite.
pub fn words(ids: [u16; 4])
    ensures { Words ids }
{}
