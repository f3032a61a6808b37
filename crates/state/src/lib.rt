// The state of a running network: sessions and their byte form. Here the sizes and places of docs/STATE.md, as code reads and writes them.
#![tactic(auto)]

ghost use Rattle.std.specs.Prelude.{◌≡◌, ◌+◌, ◌<◌};
ghost use Rattle.state.specs.Places.{slot_size, slot_start, entry_start, row_start};

// How many bytes a slot, an entry of a queue and a row's progress take.
pub const SLOT: usize = 4096;

pub const ENTRY: usize = 344;

pub const ROW: usize = 6;

// Where in a slot the length of its tree stands, the key, the tree, the queue, the rows, and the bytes after them, which are kept 0.
pub const LENGTH: usize = 2;

pub const KEY: usize = 4;

pub const TREE: usize = 16;

pub const QUEUE: usize = 1040;

pub const ROWS: usize = 2416;

pub const KEPT: usize = 3952;

// How many bytes there are for the tree of a slot and for the message of an entry, and how many are kept 0 after the rows.
pub const TREE_ROOM: usize = 1024;

pub const MESSAGE_ROOM: usize = 336;

pub const KEPT_SIZE: usize = 144;

// Where the slot of service q and session n starts.
pub fn slot_start(q: u16, n: u16) -> usize
    ensures { result ≡ slot_start q n }
{
    SLOT * (4 * usize::from(q) + usize::from(n))
}

// Where the entry k of the queue starts, in the slot that starts at `slot`.
pub fn entry_start(slot: usize, k: usize) -> usize
    requires { (slot + slot_size < 0x10000000000000000) × (k < 4) }
    ensures { result ≡ entry_start slot k }
{
    slot + QUEUE + ENTRY * k
}

// Where the progress of row r starts there.
pub fn row_start(slot: usize, r: usize) -> usize
    requires { (slot + slot_size < 0x10000000000000000) × (r < 256) }
    ensures { result ≡ row_start slot r }
{
    slot + ROWS + ROW * r
}
