// The form of a state's bytes (docs/STATE.md), which is part of refusal 14: what is used stands in its place, and every other byte is 0.
// These tests look at the bytes alone, on any bytes; a byte past the end counts as 0.
#![tactic(auto)]

ghost use Rattle.std.specs.Prelude.{◌≡◌, ◌+◌, ◌*◌, ◌≤◌, min, length};
ghost use Rattle.wire.specs.Wire.{u32_at, part};
ghost use Rattle.state.specs.Places.{slot_size, head_size, entry_size, row_size, queue_place};
ghost use Rattle.state.specs.Form.{all_zero, progress_form, rows_form, entry_form, queue_form, head_form, tree_form, live_form, slot_form};
ghost use Rattle.state_form.specs.Parts.{destination_form};

// Where the n bytes from `at` on end, as far as there are.
fn end_of(s: &[u8], at: usize, n: usize) -> usize
    requires { at + n ≤ 0x100000000 }
    ensures { result ≡ min (at + n) (length s.now) }
{
    s.len().min(at + n)
}

// Are the n bytes from `at` on 0? The loop has no way out before its end, so that it is compiled to one over many bytes at a time.
pub fn all_zero(s: &[u8], at: usize, n: usize) -> bool
    requires { at + n ≤ 0x100000000 }
    ensures { result ≡ all_zero s.now at n }
{
    let end = end_of(s, at, n);
    let mut clear = true;
    for i in at..end {
        clear &= s[i] == 0;
    }
    clear
}

// The n bytes from `at` on, as far as there are.
pub fn part(s: &[u8], at: usize, n: usize) -> &[u8]
    requires { at + n ≤ 0x100000000 }
    ensures { result.now ≡ part s.now at n }
{
    if s.len() <= at {
        return &s[0..0];
    }
    let end = end_of(s, at, n);
    &s[at..end]
}

// The four bytes from `at` on as one number, without a test where each of them lies.
fn four_bytes(s: &[u8], at: usize) -> u32
    requires { at + 4 ≤ length s.now }
    ensures { result ≡ u32_at s.now at }
{
    u32::from_le_bytes([s[at], s[at + 1], s[at + 2], s[at + 3]])
}

// Are the five bytes from `at` on 0? Four of them are tested together.
fn five_zero(s: &[u8], at: usize) -> bool
    requires { at + 5 ≤ 0x100000000 }
    ensures { result ≡ all_zero s.now at 5 }
{
    if s.len() < at + 5 {
        return all_zero(s, at, 5);
    }
    four_bytes(s, at) == 0 && s[at + 4] == 0
}

// A row's progress: only a taken part uses byte 1, only a received row bytes 2 to 5. Most rows are undone or done, so these come first.
#[tactic(auto, unfolding(state::specs::Form::progress_form))]
pub fn progress_form(s: &[u8], at: usize) -> bool
    requires { at + row_size ≤ 0x100000000 }
    ensures { result ≡ progress_form s.now at }
{
    let kind = wire::byte_at(s, at);
    if kind < 3 {
        return five_zero(s, at + 1);
    }
    if kind == 3 {
        return all_zero(s, at + 2, 4);
    }
    if 5 < kind {
        return false;
    }
    wire::byte_at(s, at + 1) == 0
}

// The progress of n rows.
pub fn rows_form(s: &[u8], at: usize, n: usize) -> bool
    requires { at + row_size * n ≤ 0x100000000 }
    ensures { result ≡ rows_form s.now at n }
{
    for i in 0..n {
        if !progress_form(s, at + state::ROW * i) {
            return false;
        }
    }
    true
}

// A used entry's destination: its kind is 0 to 2, and kind 0 has zeros.
#[tactic(auto, unfolding(crate::specs::Parts::destination_form))]
fn destination_form(s: &[u8], at: usize) -> bool
    requires { at + 8 ≤ 0x100000000 }
    ensures { result ≡ destination_form s.now at }
{
    let kind = wire::byte_at(s, at + 1);
    if kind == 0 {
        return all_zero(s, at + 4, 4);
    }
    kind <= 2
}

// A used entry of the queue: a message of the length it says, and zeros.
#[tactic(auto, unfolding(state::specs::Form::entry_form, crate::specs::Parts::destination_form))]
pub fn entry_form(s: &[u8], at: usize) -> bool
    requires { at + entry_size ≤ 0x100000000 }
    ensures { result ≡ entry_form s.now at }
{
    let size = usize::from(wire::u16_at(s, at + 2));
    destination_form(s, at)
        && size <= state::MESSAGE_ROOM
        && tree::is_message(part(s, at + 8, size))
        && all_zero(s, at + 8 + size, state::MESSAGE_ROOM - size)
}

// A queue of n entries: used ones, then zeros.
pub fn queue_form(s: &[u8], at: usize, n: usize) -> bool
    requires { at + entry_size * n ≤ 0x100000000 }
    ensures { result ≡ queue_form s.now at n }
{
    for k in 0..n {
        let place = at + state::ENTRY * k;
        if wire::byte_at(s, place) == 0 {
            return all_zero(s, place, state::ENTRY * (n - k));
        }
        if !entry_form(s, place) {
            return false;
        }
    }
    true
}

// A live slot's tree, of the length it says, and zeros.
#[tactic(auto, unfolding(state::specs::Form::tree_form))]
pub fn tree_form(s: &[u8], at: usize) -> bool
    requires { at + queue_place ≤ 0x100000000 }
    ensures { result ≡ tree_form s.now at }
{
    let size = usize::from(wire::u16_at(s, at + state::LENGTH));
    size <= state::TREE_ROOM
        && tree::is_session_tree(part(s, at + state::TREE, size))
        && all_zero(s, at + state::TREE + size, state::TREE_ROOM - size)
}

// The head of a live slot.
#[tactic(auto, unfolding(state::specs::Form::head_form))]
fn head_form(s: &[u8], at: usize) -> bool
    requires { at + head_size ≤ 0x100000000 }
    ensures { result ≡ head_form s.now at }
{
    wire::byte_at(s, at) == 1 && wire::byte_at(s, at + 1) == 0 && all_zero(s, at + 8, 8)
}

// A live slot.
#[tactic(auto, unfolding(state::specs::Form::live_form))]
pub fn live_form(s: &[u8], at: usize) -> bool
    requires { at + slot_size ≤ 0x100000000 }
    ensures { result ≡ live_form s.now at }
{
    head_form(s, at)
        && tree_form(s, at)
        && queue_form(s, at + state::QUEUE, 4)
        && rows_form(s, at + state::ROWS, 256)
        && all_zero(s, at + state::KEPT, state::KEPT_SIZE)
}

// The slot that starts at `at`: free, or live.
#[tactic(auto, unfolding(state::specs::Form::slot_form))]
pub fn slot_form(s: &[u8], at: usize) -> bool
    requires { at + slot_size ≤ 0x100000000 }
    ensures { result ≡ slot_form s.now at }
{
    if wire::byte_at(s, at) == 0 {
        return all_zero(s, at, state::SLOT);
    }
    live_form(s, at)
}
