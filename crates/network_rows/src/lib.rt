// The rows of a network file, read by value: one field, or a whole row as a struct or an enum. Every reader is total: on any bytes
// and any row number it gives what stands there, 0 past the end.
#![tactic(auto, unfolding(network::specs::Rows::type_id, network::specs::Rows::cardinality, network::specs::Rows::type_basic, network::specs::Rows::first_child, network::specs::Rows::child_count, network::specs::Rows::expression_kind_at, network::specs::Rows::kind_at, network::specs::Rows::operation_service, network::specs::Rows::operation_direction, network::specs::Rows::operation_two_way, network::specs::Rows::operation_id, network::specs::Rows::operation_location, network::specs::Rows::request_type, network::specs::Rows::reply_type, network::specs::Rows::service_location, network::specs::Rows::starter_row, network::specs::Rows::client_row, network::specs::Rows::service_key, crate::specs::Readers::path_ids, crate::specs::Readers::expression_row_as, crate::specs::Readers::expression_row_of, crate::specs::Readers::behaviour_row_as, crate::specs::Readers::behaviour_row_of, crate::specs::Readers::view_in, crate::specs::Readers::input_row_of, crate::specs::Readers::output_row_of))]

ghost use Rattle.std.specs.Prelude.{◌≡◌, ◌<◌};
ghost use Rattle.network.specs.Rows.{is_branch_kind, is_choice_kind, is_input_kind, type_id, cardinality, type_basic, first_child, child_count, expression_kind_at, kind_at};
ghost use Rattle.network.specs.Rows.{operation_service, operation_direction, operation_two_way, operation_id, operation_location, request_type, reply_type};
ghost use Rattle.network.specs.Rows.{service_location, starter_row, client_row, service_key};
ghost use Rattle.network_rows.specs.Readers.{path_ids, expression_row_of, behaviour_row_of};
ghost use Rattle.network_rows.specs.Readers.{input_row_of, output_row_of, BranchAt};

use network::{BehaviourKind, ExpressionKind};

// An E row by its kind: a constant's basic type, start in D and length; else path and operand rows.
#[derive(Clone, Copy)]
pub enum ExpressionRow {
    Constant(u8, u16, u16),
    ValueAt(u16),
    Presence(u16),
    Not(u16),
    Negate(u16),
    Add(u16, u16),
    Subtract(u16, u16),
    Less(u16, u16),
    Equal(u16, u16),
    And(u16, u16),
    Unknown,
}

// A B row by its kind, with its fields in their order: operation, path, expression and B rows; a choice's first row and count.
#[derive(Clone, Copy)]
pub enum BehaviourRow {
    Nil,
    OneWay(u16, u16),
    RequestResponse(u16, u16, u16, u16),
    Notification(u16, u16),
    SolicitResponse(u16, u16, u16),
    If(u16, u16, u16),
    While(u16, u16),
    Sequence(u16, u16),
    Parallel(u16, u16),
    Assign(u16, u16),
    Choice(u16, u16),
    Branch(u16, u16),
    Unknown,
}

// A B row that is an input: its O row and the P row it receives into; for a request-response the reply path's P row and the body's B row.
#[derive(Clone, Copy)]
pub enum InputRow {
    Nothing,
    OneWay(u16, u16),
    RequestResponse(u16, u16, u16, u16),
}

// A B row that is an output: its O row and the E row of its message; for a solicit-response the P row that the reply goes into.
#[derive(Clone, Copy)]
pub enum OutputRow {
    Nothing,
    Notification(u16, u16),
    SolicitResponse(u16, u16, u16),
}

// A branch's row: the B rows of its input and of what follows it.
#[derive(Clone, Copy)]
pub struct BranchRow {
    pub input: u16,
    pub follow: u16,
}

pub fn type_id(s: &[u8], r: u16) -> u16
    ensures { result ≡ type_id s.now r }
{
    wire::u16_at(s, network_layout::type_at(s, r))
}

pub fn cardinality(s: &[u8], r: u16) -> u8
    ensures { result ≡ cardinality s.now r }
{
    wire::byte_at(s, network_layout::type_at(s, r) + 2)
}

pub fn type_basic(s: &[u8], r: u16) -> u8
    ensures { result ≡ type_basic s.now r }
{
    wire::byte_at(s, network_layout::type_at(s, r) + 3)
}

pub fn first_child(s: &[u8], r: u16) -> u16
    ensures { result ≡ first_child s.now r }
{
    wire::u16_at(s, network_layout::type_at(s, r) + 4)
}

pub fn child_count(s: &[u8], r: u16) -> u16
    ensures { result ≡ child_count s.now r }
{
    wire::u16_at(s, network_layout::type_at(s, r) + 6)
}

pub fn expression_kind_at(s: &[u8], r: u16) -> ExpressionKind
    ensures { result ≡ expression_kind_at s.now r }
{
    ExpressionKind::from(wire::byte_at(s, network_layout::expression_at(s, r)))
}

pub fn kind_at(s: &[u8], r: u16) -> BehaviourKind
    ensures { result ≡ kind_at s.now r }
{
    BehaviourKind::from(wire::byte_at(s, network_layout::behaviour_at(s, r)))
}

pub fn is_branch(k: BehaviourKind) -> bool
    ensures { result ≡ is_branch_kind k }
{
    k == BehaviourKind::Branch
}

pub fn is_choice(k: BehaviourKind) -> bool
    ensures { result ≡ is_choice_kind k }
{
    k == BehaviourKind::Choice
}

pub fn is_input(k: BehaviourKind) -> bool
    ensures { result ≡ is_input_kind k }
{
    matches!(k, BehaviourKind::OneWay | BehaviourKind::RequestResponse)
}

pub fn operation_service(s: &[u8], r: u16) -> u8
    ensures { result ≡ operation_service s.now r }
{
    wire::byte_at(s, network_layout::operation_at(s, r))
}

pub fn operation_direction(s: &[u8], r: u16) -> u8
    ensures { result ≡ operation_direction s.now r }
{
    wire::byte_at(s, network_layout::operation_at(s, r) + 1)
}

pub fn operation_two_way(s: &[u8], r: u16) -> u8
    ensures { result ≡ operation_two_way s.now r }
{
    wire::byte_at(s, network_layout::operation_at(s, r) + 2)
}

pub fn operation_id(s: &[u8], r: u16) -> u16
    ensures { result ≡ operation_id s.now r }
{
    wire::u16_at(s, network_layout::operation_at(s, r) + 4)
}

pub fn operation_location(s: &[u8], r: u16) -> u16
    ensures { result ≡ operation_location s.now r }
{
    wire::u16_at(s, network_layout::operation_at(s, r) + 6)
}

pub fn request_type(s: &[u8], r: u16) -> u16
    ensures { result ≡ request_type s.now r }
{
    wire::u16_at(s, network_layout::operation_at(s, r) + 8)
}

pub fn reply_type(s: &[u8], r: u16) -> u16
    ensures { result ≡ reply_type s.now r }
{
    wire::u16_at(s, network_layout::operation_at(s, r) + 10)
}

pub fn service_location(s: &[u8], r: u16) -> u16
    ensures { result ≡ service_location s.now r }
{
    wire::u16_at(s, network_layout::service_at(s, r))
}

pub fn starter_row(s: &[u8], r: u16) -> u16
    ensures { result ≡ starter_row s.now r }
{
    wire::u16_at(s, network_layout::service_at(s, r) + 2)
}

pub fn client_row(s: &[u8], r: u16) -> u16
    ensures { result ≡ client_row s.now r }
{
    wire::u16_at(s, network_layout::service_at(s, r) + 4)
}

// The key id, 0 for none.
pub fn service_key(s: &[u8], r: u16) -> u16
    ensures { result ≡ service_key s.now r }
{
    wire::u16_at(s, network_layout::service_at(s, r) + 6)
}

// A path's four ids.
pub fn path_row(s: &[u8], r: u16) -> [u16; 4]
    ensures { result ≡ path_ids s.now r }
{
    let at = network_layout::path_at(s, r);
    [
        wire::u16_at(s, at),
        wire::u16_at(s, at + 2),
        wire::u16_at(s, at + 4),
        wire::u16_at(s, at + 6),
    ]
}

pub fn expression_row(s: &[u8], r: u16) -> ExpressionRow
    ensures { result ≡ expression_row_of s.now r }
{
    let at = network_layout::expression_at(s, r);
    let a = wire::u16_at(s, at + 2);
    let b = wire::u16_at(s, at + 4);
    match expression_kind_at(s, r) {
        ExpressionKind::Constant => ExpressionRow::Constant(wire::byte_at(s, at + 1), a, b),
        ExpressionKind::ValueAt => ExpressionRow::ValueAt(a),
        ExpressionKind::Presence => ExpressionRow::Presence(a),
        ExpressionKind::Not => ExpressionRow::Not(a),
        ExpressionKind::Negate => ExpressionRow::Negate(a),
        ExpressionKind::Add => ExpressionRow::Add(a, b),
        ExpressionKind::Subtract => ExpressionRow::Subtract(a, b),
        ExpressionKind::Less => ExpressionRow::Less(a, b),
        ExpressionKind::Equal => ExpressionRow::Equal(a, b),
        ExpressionKind::And => ExpressionRow::And(a, b),
        ExpressionKind::Unknown => ExpressionRow::Unknown,
    }
}

pub fn behaviour_row(s: &[u8], r: u16) -> BehaviourRow
    ensures { result ≡ behaviour_row_of s.now r }
{
    let at = network_layout::behaviour_at(s, r);
    let a = wire::u16_at(s, at + 2);
    let b = wire::u16_at(s, at + 4);
    let c = wire::u16_at(s, at + 6);
    let d = wire::u16_at(s, at + 8);
    match kind_at(s, r) {
        BehaviourKind::Nil => BehaviourRow::Nil,
        BehaviourKind::OneWay => BehaviourRow::OneWay(a, b),
        BehaviourKind::RequestResponse => BehaviourRow::RequestResponse(a, b, c, d),
        BehaviourKind::Notification => BehaviourRow::Notification(a, b),
        BehaviourKind::SolicitResponse => BehaviourRow::SolicitResponse(a, b, c),
        BehaviourKind::If => BehaviourRow::If(a, b, c),
        BehaviourKind::While => BehaviourRow::While(a, b),
        BehaviourKind::Sequence => BehaviourRow::Sequence(a, b),
        BehaviourKind::Parallel => BehaviourRow::Parallel(a, b),
        BehaviourKind::Assign => BehaviourRow::Assign(a, b),
        BehaviourKind::Choice => BehaviourRow::Choice(a, b),
        BehaviourKind::Branch => BehaviourRow::Branch(a, b),
        BehaviourKind::Unknown => BehaviourRow::Unknown,
    }
}

// B row r, if it is an input.
pub fn input_of(s: &[u8], r: u16) -> InputRow
    ensures { result ≡ input_row_of s.now r }
{
    match behaviour_row(s, r) {
        BehaviourRow::OneWay(o, p) => InputRow::OneWay(o, p),
        BehaviourRow::RequestResponse(o, p, c, d) => InputRow::RequestResponse(o, p, c, d),
        _ => InputRow::Nothing,
    }
}

// B row r, if it is an output.
pub fn output_of(s: &[u8], r: u16) -> OutputRow
    ensures { result ≡ output_row_of s.now r }
{
    match behaviour_row(s, r) {
        BehaviourRow::Notification(o, x) => OutputRow::Notification(o, x),
        BehaviourRow::SolicitResponse(o, x, p) => OutputRow::SolicitResponse(o, x, p),
        _ => OutputRow::Nothing,
    }
}

// The branch whose row starts at `at`.
pub fn branch_at(s: &[u8], at: usize) -> BranchRow
    requires { at < 2000000 }
    ensures { BranchAt s.now at result }
{
    BranchRow {
        input: wire::u16_at(s, at + 2),
        follow: wire::u16_at(s, at + 4),
    }
}
