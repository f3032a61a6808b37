// Types as encoded trees, by value: a basic type alone, a copy of a type that was made before, and a type with one child more.
#![tactic(auto)]

ghost use Rattle.std.specs.Prelude.{◌≡◌, true, ◌≤◌, length};
ghost use Rattle.tree.specs.Decode.{is_tree};
ghost use Rattle.type_images.specs.TypeImages.{LeafMade, TypeCopied, BytesPut, ChildPut};

// A type's encoded tree: the first `len` bytes. (At most 16 * 7 = 112 of the 128 are used.)
#[derive(Clone, Copy)]
pub struct TypeImage {
    pub bytes: [u8; 128],
    pub len: usize,
}

// A basic type alone.
pub fn leaf_type(mandatory: bool, basic: u8) -> TypeImage
    ensures { LeafMade mandatory basic result }
{
    let mut bytes = [0u8; 128];
    let len = check_types::push_node(&mut bytes, 0, 0, mandatory, basic, 0);
    TypeImage { bytes, len }
}

// The type whose `len` bytes stand at `start`, as a child that is mandatory or not.
pub fn copy_type(images: &[u8], start: usize, len: usize, mandatory: bool) -> TypeImage
    ensures { TypeCopied images.now start len mandatory result }
{
    if len < 7 || 128 < len {
        return leaf_type(true, 0);
    }
    if images.len() < len {
        return leaf_type(true, 0);
    }
    if images.len() - len < start {
        return leaf_type(true, 0);
    }
    let mut bytes = [0u8; 128];
    let basic = images[start + 6];
    let count = images[start + 3];
    let head = check_types::push_node(&mut bytes, 0, 0, mandatory, basic, count);
    let end = tree_edit::append(&mut bytes, head, images, start + 7, len - 7);
    TypeImage { bytes, len: end }
}

// The type whose bytes g are with the one whose bytes m are as its child under the id.
fn put_bytes(g: &[u8], id: u16, m: &[u8]) -> TypeImage
    requires { (is_tree 6 48 g.now ≡ true) × (is_tree 6 48 m.now ≡ true) × (length g.now ≤ 112) × (length m.now ≤ 112) }
    ensures { BytesPut g.now id m.now result }
{
    let ids = [id, 0, 0, 0];
    tree::words(ids);
    let mut out = [0u8; 256];
    let k = tree_edit::put(&mut out, g, ids, m, true);
    if 128 < k {
        return leaf_type(true, 0);
    }
    let mut bytes = [0u8; 128];
    let end = tree_edit::append(&mut bytes, 0, &out, 0, k);
    TypeImage { bytes, len: end }
}

// A type with another as its child under the id.
pub fn put_child(acc: TypeImage, id: u16, child: TypeImage) -> TypeImage
    ensures { ChildPut acc id child result }
{
    if 112 < acc.len || 112 < child.len {
        return acc;
    }
    let a = &acc.bytes[..acc.len];
    let b = &child.bytes[..child.len];
    if !tree::is_tree(a, 6, 48) {
        return acc;
    }
    if !tree::is_tree(b, 6, 48) {
        return acc;
    }
    put_bytes(a, id, b)
}
