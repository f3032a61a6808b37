// The value of an expression, given by its E row, in a session's tree. Operands are earlier rows: the row number falls, so the walk ends
// on any bytes.
#![tactic(auto)]

ghost use Rattle.std.specs.Prelude.{◌≡◌, ◌&&◌, ◌≤◌, length};
ghost use Rattle.scalar.specs.Value.{SoundText};
ghost use Rattle.scalar.specs.Scalar.{answer_of, value_of, kind_of};
ghost use Rattle.scalar.specs.Operator.{of_bool};
ghost use Rattle.network_row_parts.specs.Parts.{unary_of, binary_of};
ghost use Rattle.move_rules.specs.Evaluation.{missing, wrong_kind, beyond, given, answered, apply_unary, apply_binary};
ghost use Rattle.move_rules.specs.OperatorLaws.{without_value};
ghost use Rattle.network.specs.Layout.{data_part};
ghost use Rattle.move_evaluation.specs.Condition.{refusal_of, condition_of};
ghost use Rattle.move_evaluation.specs.Writing.{WritesLeaf, WritesTree, Writes};
ghost use Rattle.move_evaluation.specs.Evaluated.{is_given, has_kind, literal, unary_on, binary_on, Computes, StandsAt, Reads, Presents, Evaluates};

use network_row_parts::{BinaryOperator, Part, UnaryOperator};
use refusal::Refusal;
use scalar::{Failure, Operand, Scalar};

// Where the value of an expression is: a tree at a place of the session's tree, or a value alone.
#[derive(Clone, Copy)]
pub enum Place {
    At(usize),
    Alone,
}

// Why there is no value: one that is read is missing, an operand or the condition itself is of the wrong kind, or a result is outside its width.
#[derive(Clone, Copy)]
pub enum Fault {
    Missing,
    Wrong,
    Outside,
}

// What evaluation answers: the source, and the root value beside it. Of an outside one only the root's kind counts; where a value is missing
// or an operand of the wrong kind, the root says nothing.
#[derive(Clone, Copy)]
pub struct Evaluated {
    pub source: Result<Place, Fault>,
    pub root: Operand,
}

// The refusal that tells a fault: 18 or 22.
pub fn refusal_of(fault: Fault) -> Refusal
    ensures { result ≡ refusal_of fault }
{
    match fault {
        Fault::Missing => Refusal::Stuck,
        Fault::Wrong => Refusal::Stuck,
        Fault::Outside => Refusal::OutOfRange,
    }
}

fn both_given(p: Result<Place, Fault>, q: Result<Place, Fault>) -> bool
    ensures { result ≡ (is_given p && is_given q) }
{
    p.is_ok() && q.is_ok()
}

// Is the value given, or is its kind known at least?
fn has_kind(p: Result<Place, Fault>) -> bool
    ensures { result ≡ has_kind p }
{
    match p {
        Ok(_) => true,
        Err(Fault::Missing) => false,
        Err(Fault::Wrong) => false,
        Err(Fault::Outside) => true,
    }
}

// "A value read is missing"
fn absent() -> Evaluated
    ensures { Computes result missing }
{
    Evaluated {
        source: Err(Fault::Missing),
        root: scalar::plain(Scalar::Void),
    }
}

// "an operand .. is of the wrong kind"
fn wrong() -> Evaluated
    ensures { Computes result wrong_kind }
{
    Evaluated {
        source: Err(Fault::Wrong),
        root: scalar::plain(Scalar::Void),
    }
}

fn alone(v: Operand) -> Evaluated
    requires { SoundText (value_of v) }
    ensures { Computes result (given (value_of v)) }
{
    Evaluated {
        source: Ok(Place::Alone),
        root: v,
    }
}

// A result outside its width, of the scalar's kind.
fn outside(x: Scalar) -> Evaluated
    ensures { Computes result (beyond (kind_of x)) }
{
    Evaluated {
        source: Err(Fault::Outside),
        root: scalar::plain(x),
    }
}

// Presence "gives bool".
fn flag(p: bool) -> Evaluated
    ensures { Computes result (given (of_bool p)) }
{
    alone(scalar::plain(Scalar::Bool(p)))
}

// What an operator gives.
fn computed(c: Result<Scalar, Failure>) -> Evaluated
    ensures { Computes result (answered (answer_of c)) }
{
    match c {
        Ok(x) => alone(scalar::plain(x)),
        Err(Failure::Wrong) => wrong(),
        Err(Failure::Outside(x)) => outside(x),
    }
}

// What an operator gives where an operand is outside its width: its kind alone.
fn without_value(c: Result<Scalar, Failure>) -> Evaluated
    ensures { Computes result (without_value (answered (answer_of c))) }
{
    match c {
        Ok(x) => outside(x),
        Err(Failure::Wrong) => wrong(),
        Err(Failure::Outside(x)) => outside(x),
    }
}

fn unary_value(o: UnaryOperator, v: Operand) -> Result<Scalar, Failure>
    ensures { answered (answer_of result) ≡ apply_unary (unary_of o) (value_of v) }
{
    match o {
        UnaryOperator::Not => scalar::logical_not(v),
        UnaryOperator::Negate => scalar::negate(v),
    }
}

fn binary_value(o: BinaryOperator, v: Operand, w: Operand) -> Result<Scalar, Failure>
    ensures { answered (answer_of result) ≡ apply_binary (binary_of o) (value_of v) (value_of w) }
{
    match o {
        BinaryOperator::Add => scalar::add(v, w),
        BinaryOperator::Subtract => scalar::subtract(v, w),
        BinaryOperator::Less => scalar::less(v, w),
        BinaryOperator::Equal => scalar::equal(v, w),
        BinaryOperator::And => scalar::logical_and(v, w),
    }
}

// An operator on an operand's root value. An operand outside its width has its kind, so the operator says whether that is the wrong one.
fn unary(o: UnaryOperator, x: Evaluated) -> Evaluated
    requires { SoundText (value_of x.root) }
    ensures { Computes result (unary_on o x) }
{
    if x.source.is_ok() {
        return computed(unary_value(o, x.root));
    }
    if !has_kind(x.source) {
        return x;
    }
    without_value(unary_value(o, x.root))
}

// Where a value is missing or a kind is wrong, the left operand's answer comes first, then the right one's, then the operator's.
fn binary(o: BinaryOperator, x: Evaluated, y: Evaluated) -> Evaluated
    requires { SoundText (value_of x.root) × SoundText (value_of y.root) }
    ensures { Computes result (binary_on o x y) }
{
    if both_given(x.source, y.source) {
        return computed(binary_value(o, x.root, y.root));
    }
    if !has_kind(x.source) {
        return x;
    }
    if !has_kind(y.source) {
        return y;
    }
    without_value(binary_value(o, x.root, y.root))
}

// The constant of the basic type b in the n bytes of D from v on.
fn constant(file: &[u8], b: u8, v: u16, n: u16) -> Evaluated
    ensures { Computes result (literal b (data_part file.now v n)) }
{
    let at = network_layout::data_start(file) + wire::index(v);
    let from = network_layout::smaller(at, file.len());
    let len = network_layout::smaller(wire::index(n), file.len() - from);
    if scalar::value_ok(file, from, b, len) {
        return alone(scalar::read(file, from, b, len));
    }
    wrong()
}

// The tree that stands at a place, with its root value.
fn tree_at(s: &[u8], at: usize) -> Evaluated
    ensures { StandsAt s.now at result }
{
    let Some(
        tree::Head {
            basic: b,
            start: mid,
            ..
        },
    ) = tree::head_at(s, at)
    else {
        return absent();
    };
    let v = scalar::read(s, at + 5, b, mid - at - 5);
    Evaluated {
        source: Ok(Place::At(at)),
        root: v,
    }
}

// "A path expression has the tree there"
fn value_at(file: &[u8], s: &[u8], p: u16) -> Evaluated
    ensures { Reads file.now s.now p result }
{
    let Some(at) = tree::follow(s, network_rows::path_row(file, p)) else {
        return absent();
    };
    tree_at(s, at)
}

fn presence(file: &[u8], s: &[u8], p: u16) -> Evaluated
    ensures { Presents file.now s.now p result }
{
    let Some(_) = tree::follow(s, network_rows::path_row(file, p)) else {
        return flag(false);
    };
    flag(true)
}

// The value of E row r in the session's tree s. "both operands are worked out"
pub fn evaluate(file: &[u8], s: &[u8], r: u16) -> Evaluated
    ensures { Evaluates file.now s.now r result }
{
    match network_row_parts::part_of(file, r) {
        Part::Constant(b, v, n) => constant(file, b, v, n),
        Part::ValueAt(p) => value_at(file, s, p),
        Part::Presence(p) => presence(file, s, p),
        Part::Unary(o, a) => {
            let x = evaluate(file, s, a);
            unary(o, x)
        }
        Part::Binary(o, a, b) => {
            let x = evaluate(file, s, a);
            let y = evaluate(file, s, b);
            binary(o, x, y)
        }
        Part::Broken => wrong(),
    }
}

// The condition of an if or a while: "as an operand its root value counts", and so here. Of a value outside its width too, the kind counts.
pub fn condition(x: Evaluated) -> Result<bool, Fault>
    ensures { result ≡ condition_of x }
{
    match x.source {
        Ok(_) => scalar::truth_of(x.root).ok_or(Fault::Wrong),
        Err(Fault::Missing) => Err(Fault::Missing),
        Err(Fault::Wrong) => Err(Fault::Wrong),
        Err(Fault::Outside) => match scalar::truth_of(x.root) {
            Some(_) => Err(Fault::Outside),
            None => Err(Fault::Wrong),
        },
    }
}

// Writes the message of a value alone to the start of out, and gives its length.
pub fn write_leaf(out: &mut [u8], v: Operand) -> usize
    requires { (21 ≤ length out.old) × SoundText (value_of v) }
    ensures { WritesLeaf v out.old out.new result }
{
    let b = scalar::basic_of(v);
    let mut bytes = [0u8; 16];
    let n = scalar::write(&mut bytes, 0, v);
    tree::octets(&bytes[..n]);
    tree_edit::leaf(out, 0, b, &bytes[..n])
}

// Writes the tree that stands at a place to the start of out as a tree alone, and gives its length.
fn write_tree(out: &mut [u8], s: &[u8], at: usize) -> usize
    requires { 1024 ≤ length out.old }
    ensures { WritesTree s.now at out.old out.new result }
{
    let end = tree::extent(s, at);
    if s.len() < end {
        return 0;
    }
    if end < at {
        return 0;
    }
    let n = end - at;
    if n < 2 {
        return 0;
    }
    if out.len() < n {
        return 0;
    }
    let a = tree_edit::push_id(out, 0, 0);
    tree_edit::append(out, a, s, at + 2, n - 2)
}

// Writes what evaluation in the session's tree s gave to the start of out as a tree alone; where nothing is given, the answer stays.
pub fn write_value(out: &mut [u8], s: &[u8], x: Evaluated) -> Result<usize, Fault>
    requires { (1024 ≤ length out.old) × SoundText (value_of x.root) }
    ensures { Writes s.now x out.old out.new result }
{
    match x.source? {
        Place::At(at) => Ok(write_tree(out, s, at)),
        Place::Alone => Ok(write_leaf(out, x.root)),
    }
}
