// How many nodes and levels the tree at the start of the bytes has below its root.
#![tactic(auto)]

ghost use Rattle.tree_count.specs.Counted.{NodesBelow, LevelsBelow};

// The number of nodes below the root of the tree at the start of the bytes; 0 where none stands there.
pub fn node_count(s: &[u8]) -> u8
    ensures { NodesBelow s.now result }
{
    let Some(root) = tree::head_at(s, 0) else {
        return 0;
    };
    let Some((_, left)) = tree::kids(s, root.start, root.count, 0, 6, 48) else {
        return 0;
    };
    48 - left
}

// The number of levels below the root of the tree at the start of the bytes: the least limit that it keeps to; 0 where none stands there.
pub fn level_count(s: &[u8]) -> u8
    ensures { LevelsBelow s.now result }
{
    let Some(root) = tree::head_at(s, 0) else {
        return 0;
    };
    for levels in 0..=6 {
        if tree::kids(s, root.start, root.count, 0, levels, 48).is_some() {
            return levels;
        }
    }
    0
}
