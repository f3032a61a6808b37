// The network file: the answers that its readers share. Definitions and laws are in specs/.
#![tactic(auto)]

ghost use Rattle.std.specs.Prelude.{◌≡◌};
ghost use Rattle.network.specs.Kinds.{expression_kind, behaviour_kind};

// The kinds of an E row.
#[derive(Clone, Copy, PartialEq, Eq)]
pub enum ExpressionKind {
    Constant,
    ValueAt,
    Presence,
    Not,
    Negate,
    Add,
    Subtract,
    Less,
    Equal,
    And,
    Unknown,
}

impl From<u8> for ExpressionKind {
    ghost from_gives = { λ n k. k ≡ expression_kind n };

    #[tactic(auto, unfolding(crate::specs::Kinds::expression_kind))]
    fn from(n: u8) -> ExpressionKind {
        match n {
            0 => ExpressionKind::Constant,
            1 => ExpressionKind::ValueAt,
            2 => ExpressionKind::Presence,
            3 => ExpressionKind::Not,
            4 => ExpressionKind::Negate,
            5 => ExpressionKind::Add,
            6 => ExpressionKind::Subtract,
            7 => ExpressionKind::Less,
            8 => ExpressionKind::Equal,
            9 => ExpressionKind::And,
            _ => ExpressionKind::Unknown,
        }
    }
}

// The kinds of a B row.
#[derive(Clone, Copy, PartialEq, Eq)]
pub enum BehaviourKind {
    Nil,
    OneWay,
    RequestResponse,
    Notification,
    SolicitResponse,
    If,
    While,
    Sequence,
    Parallel,
    Assign,
    Choice,
    Branch,
    Unknown,
}

impl From<u8> for BehaviourKind {
    ghost from_gives = { λ n k. k ≡ behaviour_kind n };

    #[tactic(auto, unfolding(crate::specs::Kinds::behaviour_kind))]
    fn from(n: u8) -> BehaviourKind {
        match n {
            0 => BehaviourKind::Nil,
            1 => BehaviourKind::OneWay,
            2 => BehaviourKind::RequestResponse,
            3 => BehaviourKind::Notification,
            4 => BehaviourKind::SolicitResponse,
            5 => BehaviourKind::If,
            6 => BehaviourKind::While,
            7 => BehaviourKind::Sequence,
            8 => BehaviourKind::Parallel,
            9 => BehaviourKind::Assign,
            10 => BehaviourKind::Choice,
            11 => BehaviourKind::Branch,
            _ => BehaviourKind::Unknown,
        }
    }
}

// What a field of an E or B row is.
#[derive(Clone, Copy, PartialEq, Eq)]
pub enum FieldSort {
    Unruled,
    Unused,
    PathRow,
    EarlierRow,
    ExpressionRow,
    OperationRow,
    LaterRow,
    InputRow,
    BranchRun,
    BranchCount,
    ConstantPart,
}

// What the fields a, b, c, d of a row are.
#[derive(Clone, Copy, PartialEq, Eq)]
pub struct Fields {
    pub a: FieldSort,
    pub b: FieldSort,
    pub c: FieldSort,
    pub d: FieldSort,
}
