// Refusal 5, sizes; and what refusals 2 to 5 say of a file. Types are walked with what is left of the 16 nodes and 4 levels; the levels
// of expressions are worked out in one pass, each row's from its operands'.
#![tactic(auto, unfolding(network::specs::Layout::type_at, network::specs::Rows::first_child, network::specs::Rows::child_count, network::specs::Sizes::type_large, network::specs::Sizes::type_sizes, network::specs::Sizes::large, crate::specs::Walk::larger, crate::specs::Walk::level_above, crate::specs::Walk::level_at, crate::specs::Walk::level_by, crate::specs::Walk::row_level))]

ghost use Rattle.std.specs.Prelude.{◌≡◌, ◌+◌, ◌<◌};
ghost use Rattle.network.specs.Rows.{first_child, child_count};
ghost use Rattle.network.specs.Sizes.{type_within, type_large, type_sizes, expression_sizes, large};
ghost use Rattle.network.specs.Form.{form_of};
ghost use Rattle.network_form.specs.Walk.{spent, level_above, level_at, level_by, row_level, Operands};

use network::ExpressionKind;
use network_layout::{least, lowest, rule};
use refusal::Refusal;

fn first_of(s: &[u8], r: usize) -> usize
    requires { r < 131072 }
    ensures { (result ≡ first_child s.now r) × (result < 65536) }
{
    usize::from(wire::u16_at(s, network_layout::start(s, 1) + 8 * r + 4))
}

fn children_of(s: &[u8], r: usize) -> usize
    requires { r < 131072 }
    ensures { (result ≡ child_count s.now r) × (result < 65536) }
{
    usize::from(wire::u16_at(s, network_layout::start(s, 1) + 8 * r + 6))
}

// The n rows from `first` on, written out within so many levels and with so many nodes left.
fn walk(s: &[u8], first: usize, n: usize, levels: u8, left: u8) -> Option<u8>
    requires { (first + n < 131072) × (n < 65536) }
    ensures { result ≡ spent s.now levels first n left }
{
    if n == 0 {
        return Some(left);
    }
    let below = levels.checked_sub(1)?;
    let left = left.checked_sub(1)?;
    let rest = match children_of(s, first) {
        0 => left,
        many => walk(s, first_of(s, first), many, below, left)?,
    };
    walk(s, first + 1, n - 1, levels, rest)
}

fn type_within(s: &[u8], r: u16) -> bool
    ensures { result ≡ type_within s.now r }
{
    walk(s, usize::from(r), 1, 4, 16).is_some()
}

fn type_large(s: &[u8], r: u16) -> Option<usize>
    ensures { result ≡ type_large s.now r }
{
    rule(type_within(s, r), network_layout::type_at(s, r), None)
}

fn type_sizes(s: &[u8]) -> Option<usize>
    ensures { result ≡ type_sizes s.now }
{
    lowest(0, network_layout::type_count(s), |i| type_large(s, i))
}

// The levels of E row a, if they are worked out.
fn operand_level(levels: &[u8; 256], a: u16) -> u8
    ensures { result ≡ level_at levels.now a }
{
    levels.get(usize::from(a)).copied().unwrap_or(0)
}

// The levels of a row over operands with so many; 9 for all that is too large.
fn level_above(a: u8, b: u8) -> u8
    ensures { result ≡ level_above a b }
{
    a.max(b).min(8) + 1
}

fn level_by(k: ExpressionKind, a: u8, b: u8) -> u8
    ensures { result ≡ level_by k a b }
{
    match k {
        ExpressionKind::Not | ExpressionKind::Negate => level_above(a, a),
        ExpressionKind::Add
        | ExpressionKind::Subtract
        | ExpressionKind::Less
        | ExpressionKind::Equal
        | ExpressionKind::And => level_above(a, b),
        _ => 1,
    }
}

fn row_level(s: &[u8], levels: &[u8; 256], r: u16) -> u8
    ensures { result ≡ row_level s.now levels.now r }
{
    let at = network_layout::expression_at(s, r);
    let a = operand_level(levels, wire::u16_at(s, at + 2));
    let b = operand_level(levels, wire::u16_at(s, at + 4));
    level_by(network_rows::expression_kind_at(s, r), a, b)
}

fn expression_sizes(s: &[u8]) -> Option<usize>
    requires { Operands s.now }
    ensures { result ≡ expression_sizes s.now }
{
    let n = network_layout::expression_count(s);
    let mut levels = [0u8; 256];
    let mut m = None;
    for i in 0..n {
        let level = row_level(s, &levels, i);
        levels[usize::from(i)] = level;
        m = least(
            m,
            rule(level <= 8, network_layout::expression_at(s, i), None),
        );
    }
    m
}

// Refusal 5, after refusals 3 and 4.
fn lowest_large(s: &[u8]) -> Option<usize>
    requires { Operands s.now }
    ensures { result ≡ large s.now }
{
    least(type_sizes(s), expression_sizes(s))
}

// Refusals 2 to 5 in their order.
pub fn form_of(s: &[u8]) -> Result<(), Refusal>
    ensures { result ≡ form_of s.now }
{
    if !network_layout::laid_out(s) {
        return Err(Refusal::FileLayout);
    }
    if !network_layout::counted(s) {
        return Err(Refusal::SectionCount);
    }
    if let Some(p) = network_uses::lowest_broken(s) {
        return Err(Refusal::BrokenField(p));
    }
    if let Some(p) = lowest_large(s) {
        return Err(Refusal::TooLarge(p));
    }
    Ok(())
}
