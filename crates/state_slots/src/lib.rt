// Slots of a state's bytes: tree and key of a live session, a session that becomes new or free. Each function changes
// the bytes that it names and no others; SlotLaws say which session the slot holds afterwards.
#![tactic(auto)]

ghost use Rattle.std.specs.Prelude.{◌≡◌, ◌+◌, ◌≤◌, ◌<◌, length};
ghost use Rattle.state.specs.Places.{slot_size, tree_room};
ghost use Rattle.state_slots.specs.Slots.{tree_in, begun, tree_stored, key_stored, freed};

// Makes a new session of the free slot that starts at `slot`: live, with an empty tree.
#[tactic(auto, unfolding(crate::specs::Slots::begun))]
pub fn begin(state: &mut [u8], slot: usize)
    requires { slot + slot_size ≤ length state.old }
    ensures { state.new ≡ begun state.old slot }
{
    state[slot] = 1;
    state[slot + state::LENGTH] = 5;
    state[slot + state::TREE + 2] = scalar::VOID;
}

// Frees the slot.
pub fn release(state: &mut [u8], slot: usize)
    requires { slot + slot_size ≤ length state.old }
    ensures { state.new ≡ freed state.old slot }
{
    state[slot..slot + state::SLOT].fill(0);
}

// Sets the tree to the first n bytes of `tree`.
pub fn put_tree(state: &mut [u8], slot: usize, tree: &[u8], n: u16)
    requires { (slot + slot_size ≤ length state.old) × (n ≤ tree_room) × (n ≤ length tree.now) }
    ensures { state.new ≡ tree_stored state.old slot tree.now n }
{
    wire::put_u16(state, slot + state::LENGTH, n);
    tree_edit::store(
        state,
        slot + state::TREE,
        state::TREE_ROOM,
        tree,
        usize::from(n),
    );
}

// Sets the key.
pub fn put_key(state: &mut [u8], slot: usize, x: u32)
    requires { slot + slot_size ≤ length state.old }
    ensures { state.new ≡ key_stored state.old slot x }
{
    wire::put_u32(state, slot + state::KEY, x);
}

// The bytes of the tree of the session in the slot.
pub fn tree_of(state: &[u8], slot: usize) -> &[u8]
    requires { slot + slot_size ≤ length state.now }
    ensures { result.now ≡ tree_in state.now slot }
{
    let n = usize::from(wire::u16_at(state, slot + state::LENGTH));
    if state::TREE_ROOM < n {
        return &[];
    }
    let start = slot + state::TREE;
    &state[start..start + n]
}
