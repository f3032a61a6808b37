// Rows by what they name: an E row's operator and operands, the sub-behaviours of a B row. Every function is exact on any bytes.
#![tactic(auto, unfolding(crate::specs::Parts::unary_part, crate::specs::Parts::binary_part, crate::specs::Parts::expression_part, crate::specs::Parts::subs_of))]

ghost use Rattle.std.specs.Prelude.{◌≡◌};
ghost use Rattle.network_row_parts.specs.Parts.{unary_part, binary_part, part_as, expression_part, subs_in, subs_of};

use network_rows::{BehaviourRow, ExpressionRow};

#[derive(Clone, Copy)]
pub enum UnaryOperator {
    Not,
    Negate,
}

#[derive(Clone, Copy)]
pub enum BinaryOperator {
    Add,
    Subtract,
    Less,
    Equal,
    And,
}

// The sub-behaviours of a B row; a choice's first row and count.
#[derive(Clone, Copy)]
pub enum Subs {
    Nothing,
    One(u16),
    Two(u16, u16),
    Run(u16, u16),
}

// An E row by its parts: a constant's basic type, start in D and length, a path, or an operator over earlier rows.
#[derive(Clone, Copy)]
pub enum Part {
    Constant(u8, u16, u16),
    ValueAt(u16),
    Presence(u16),
    Unary(UnaryOperator, u16),
    Binary(BinaryOperator, u16, u16),
    Broken,
}

fn unary_part(o: UnaryOperator, a: u16, r: u16) -> Part
    ensures { result ≡ unary_part o a r }
{
    if a < r {
        Part::Unary(o, a)
    } else {
        Part::Broken
    }
}

fn binary_part(o: BinaryOperator, a: u16, b: u16, r: u16) -> Part
    ensures { result ≡ binary_part o a b r }
{
    if a < r && b < r {
        Part::Binary(o, a, b)
    } else {
        Part::Broken
    }
}

fn part_as(row: ExpressionRow, r: u16) -> Part
    ensures { result ≡ part_as r row }
{
    match row {
        ExpressionRow::Constant(b, v, n) => Part::Constant(b, v, n),
        ExpressionRow::ValueAt(p) => Part::ValueAt(p),
        ExpressionRow::Presence(p) => Part::Presence(p),
        ExpressionRow::Not(a) => unary_part(UnaryOperator::Not, a, r),
        ExpressionRow::Negate(a) => unary_part(UnaryOperator::Negate, a, r),
        ExpressionRow::Add(a, b) => binary_part(BinaryOperator::Add, a, b, r),
        ExpressionRow::Subtract(a, b) => binary_part(BinaryOperator::Subtract, a, b, r),
        ExpressionRow::Less(a, b) => binary_part(BinaryOperator::Less, a, b, r),
        ExpressionRow::Equal(a, b) => binary_part(BinaryOperator::Equal, a, b, r),
        ExpressionRow::And(a, b) => binary_part(BinaryOperator::And, a, b, r),
        ExpressionRow::Unknown => Part::Broken,
    }
}

pub fn part_of(file: &[u8], r: u16) -> Part
    ensures { result ≡ expression_part file.now r }
{
    part_as(network_rows::expression_row(file, r), r)
}

pub fn subs_in(row: BehaviourRow) -> Subs
    ensures { result ≡ subs_in row }
{
    match row {
        BehaviourRow::RequestResponse(_, _, _, a) | BehaviourRow::While(_, a) => Subs::One(a),
        BehaviourRow::If(_, a, b) | BehaviourRow::Sequence(a, b) | BehaviourRow::Parallel(a, b) =>
            Subs::Two(a, b),
        BehaviourRow::Choice(first, n) => Subs::Run(first, n),
        _ => Subs::Nothing,
    }
}

pub fn subs_of(s: &[u8], r: u16) -> Subs
    ensures { result ≡ subs_of s.now r }
{
    subs_in(network_rows::behaviour_row(s, r))
}
