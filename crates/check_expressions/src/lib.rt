// The type of an expression, given by its E row, in an environment. Operands are earlier rows: the row number falls, so the walk ends on
// any bytes.
#![tactic(auto)]

ghost use Rattle.std.specs.Prelude.{◌≡◌, ◌<◌, length, Ok};
ghost use Rattle.check_expressions.specs.Table.{operator_rules, table_at, unary_row, binary_row, column_of};
ghost use Rattle.check_expressions.specs.Typings.{entry_typing, root_typed, operator_typed, ValueTyped, PresenceTyped, TypingTells};

use check_environments::Environment;
use network_row_parts::{BinaryOperator, Part, UnaryOperator};
use refusal::Refusal;

// The type of an expression: a basic type alone; or the tree at a place of the environment, with its basic type.
#[derive(Clone, Copy)]
pub enum Typed {
    Leaf(u8),
    At(usize, u8),
}

// The entry where the rule refuses with 8; it is no basic type.
const NONE: u8 = 255;

// Operator typing: a row for each operator, in the order of E's kinds; an entry for each basic type, the basic type of the result where the
// operands have that one. Columns: bool, int, double, long, string, raw, void.
const OPERATORS: [[u8; 7]; 7] = [
    [0, 255, 255, 255, 255, 255, 255], // not
    [255, 1, 2, 3, 255, 255, 255], // negate
    [255, 1, 2, 3, 255, 255, 255], // add
    [255, 1, 2, 3, 255, 255, 255], // subtract
    [255, 0, 0, 0, 255, 255, 255], // less
    [0, 0, 0, 0, 0, 0, 255], // equal
    [0, 255, 255, 255, 255, 255, 255], // and
];

fn unary_row(o: UnaryOperator) -> usize
    ensures { result ≡ unary_row o }
{
    match o {
        UnaryOperator::Not => 0,
        UnaryOperator::Negate => 1,
    }
}

fn binary_row(o: BinaryOperator) -> usize
    ensures { result ≡ binary_row o }
{
    match o {
        BinaryOperator::Add => 2,
        BinaryOperator::Subtract => 3,
        BinaryOperator::Less => 4,
        BinaryOperator::Equal => 5,
        BinaryOperator::And => 6,
    }
}

// What the table's row o answers for a basic type. A number past the last one, which only a broken file has, is looked up as raw, as the
// rule has it.
fn looked_up(row: u16, o: usize, operand: u8) -> Result<Typed, Refusal>
    requires { o < length operator_rules }
    ensures { result ≡ entry_typing row (table_at o (column_of operand)) }
{
    let column = if scalar::LAST_BASIC < operand {
        scalar::RAW
    } else {
        operand
    };
    let b = OPERATORS[o][usize::from(column)];
    if b == NONE {
        return Err(Refusal::OperandType(row));
    }
    Ok(Typed::Leaf(b))
}

// "as an operand its root value counts".
fn root_basic(x: Typed) -> u8
    ensures { result ≡ root_typed x }
{
    match x {
        Typed::At(_, b) | Typed::Leaf(b) => b,
    }
}

// The type of an operator's result: what its row of the table answers. The one operand of a unary operator stands on both sides.
fn unary(row: u16, o: UnaryOperator, x: Typed) -> Result<Typed, Refusal>
    ensures { result ≡ operator_typed row (unary_row o) (Ok x) (Ok x) }
{
    looked_up(row, unary_row(o), root_basic(x))
}

fn binary(row: u16, o: BinaryOperator, x: Typed, y: Typed) -> Result<Typed, Refusal>
    ensures { result ≡ operator_typed row (binary_row o) (Ok x) (Ok y) }
{
    let b = root_basic(x);
    // "both alike"
    if b != root_basic(y) {
        return Err(Refusal::OperandType(row));
    }
    looked_up(row, binary_row(o), b)
}

// "A path expression has the tree there and must stand firm"
fn value_type(file: &[u8], e: Environment, p: u16, row: u16) -> Result<Typed, Refusal>
    ensures { ValueTyped file.now e p row result }
{
    let Some((at, b)) = check_environments::read_firm(file, e, p) else {
        return Err(Refusal::PathNotFirm(row));
    };
    Ok(Typed::At(at, b))
}

// "Presence needs a path in Γ and gives bool."
fn presence_type(file: &[u8], e: Environment, p: u16, row: u16) -> Result<Typed, Refusal>
    ensures { PresenceTyped file.now e p row result }
{
    if check_environments::is_in(file, e, p) {
        return Ok(Typed::Leaf(scalar::BOOL));
    }
    Err(Refusal::PathNotFirm(row))
}

// The type of E row r in the environment, for B row `row`.
pub fn type_of(file: &[u8], e: Environment, r: u16, row: u16) -> Result<Typed, Refusal>
    ensures { TypingTells file.now e r row result }
{
    match network_row_parts::part_of(file, r) {
        Part::Constant(b, _, _) => Ok(Typed::Leaf(b)),
        Part::ValueAt(p) => value_type(file, e, p, row),
        Part::Presence(p) => presence_type(file, e, p, row),
        Part::Unary(o, a) => {
            let x = type_of(file, e, a, row)?;
            unary(row, o, x)
        }
        Part::Binary(o, a, b) => {
            let x = type_of(file, e, a, row)?;
            if a == b {
                return binary(row, o, x, x);
            }
            let y = type_of(file, e, b, row)?;
            binary(row, o, x, y)
        }
        Part::Broken => Err(Refusal::OperandType(row)),
    }
}
