// The message reader's answer as numbers: where the child's encoding starts in the message, and how long it is.
#![tactic(auto)]

ghost use Rattle.std.specs.Prelude.{◌≡◌, ◌+◌, ◌<◌, get_or, drop, unwrap_or};
ghost use Rattle.tree.specs.Ids.{steps};
ghost use Rattle.tree_part.specs.Span.{span_of};
ghost use Rattle.tree_part.specs.Located.{Located};

// A part of a message: its first byte's place and its length.
#[derive(Clone, Copy)]
pub struct Span {
    pub start: usize,
    pub len: usize,
}

// Where the node stands that the steps from k on lead to among the n siblings at `at`. Ids rise, so the search stops at a larger one.
fn locate(s: &[u8], ids: [u16; 4], k: usize, at: usize, n: u8) -> Option<usize>
    requires { k < 4 }
    ensures { Located s.now (get_or ids k 0) (steps (drop (k + 1) ids)) at n result }
{
    if n == 0 {
        return None;
    }
    let node = tree::head_at(s, at)?;
    let id = ids[k];
    if id < node.id {
        return None;
    }
    if node.id < id {
        let end = tree::extent(s, at);
        return locate(s, ids, k, end, n - 1);
    }
    if tree::is_last(ids, k) {
        return Some(at);
    }
    locate(s, ids, k + 1, node.start, node.count)
}

// The child's span; none where the child is missing or the path or the message is malformed.
fn child_span(message: &[u8], ids: [u16; 4]) -> Option<Span>
    ensures { unwrap_or result (record { start = 0; len = 0 }) ≡ span_of message.now ids }
{
    if !tree::path_ok(ids) {
        return None;
    }
    if !tree::is_message(message) {
        return None;
    }
    let root = tree::head_at(message, 0)?;
    let start = locate(message, ids, 0, root.start, root.count)?;
    let end = tree::extent(message, start);
    Some(Span {
        start,
        len: end - start,
    })
}

// The message reader's part of the message, as a span; 0 bytes at 0 where there is none.
pub fn span_of(message: &[u8], ids: [u16; 4]) -> Span
    ensures { result ≡ span_of message.now ids }
{
    child_span(message, ids).unwrap_or(Span { start: 0, len: 0 })
}
