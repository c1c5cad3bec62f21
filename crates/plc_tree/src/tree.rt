//! The untyped trees of a source (IEC 61131-3, Annex B), as the parsers answer them.

use plc_base::{Elem, Name, Place};
use sqlite_items::{Boxed, Items};

/// A name where it stands. The name of a type is one too, the elementary ones included.
#[derive(Debug, Drop)]
pub struct Id {
    pub name: Name,
    pub at: Place,
}

/// A whole number where it stands.
#[derive(Clone, Copy, Debug)]
pub struct Whole {
    pub value: i128,
    pub at: Place,
}

/// All declarations of a source, each kind in text order.
#[derive(Drop)]
pub struct Unit {
    pub types: Items<TypeDef>,
    pub pous: Items<Pou>,
    pub configs: Items<Config>,
}

/// The declaration of a type.
#[derive(Drop)]
pub struct TypeDef {
    pub name: Name,
    pub at: Place,
    pub what: TypeWhat,
}

/// What a type is declared as.
#[derive(Drop)]
pub enum TypeWhat {
    /// An enumeration, and the value that its variables start at, where that stands.
    Enum { values: Items<Id>, init: Option<Id> },
    /// A structure.
    Struct(Items<Member>),
    /// Another type, a subrange or an array, and what its variables start at, where that stands.
    Spec { spec: Spec, init: Option<Init> },
}

/// A field of a structure.
#[derive(Drop)]
pub struct Member {
    pub name: Name,
    pub at: Place,
    pub spec: Spec,
    pub init: Option<Init>,
}

/// What kind of program organisation unit is declared.
#[derive(Clone, Copy, Debug, PartialEq, Eq)]
pub enum PouKind {
    /// A function.
    Func,
    /// A function block.
    Block,
    /// A program.
    Prog,
}

/// A program organisation unit.
#[derive(Drop)]
pub struct Pou {
    pub kind: PouKind,
    pub name: Name,
    pub at: Place,
    /// The type of a function's result.
    pub result: Option<Id>,
    pub sections: Items<Section>,
    pub body: Body,
}

/// A body, in one of the three languages.
#[derive(Drop)]
pub enum Body {
    /// Structured Text.
    St(Items<Stmt>),
}

/// An operator before one operand.
#[derive(Clone, Copy, Debug, PartialEq, Eq)]
pub enum UnOp {
    Minus,
    Not,
}

/// An operator with two sides.
#[derive(Clone, Copy, Debug, PartialEq, Eq)]
pub enum BinOp {
    Or,
    Xor,
    And,
    Eq,
    Ne,
    Lt,
    Gt,
    Le,
    Ge,
    Add,
    Sub,
    Mul,
    Div,
    /// MOD.
    Rem,
}

/// An expression. The place of a node is its operator, the name of a call, else its first token.
#[cycle(expr)]
#[derive(Drop)]
pub enum Expr {
    Number {
        value: i128,
        /// The type before `#`.
        want: Option<Elem>,
        at: Place,
    },
    Truth {
        value: bool,
        at: Place,
    },
    /// A duration.
    Span {
        /// In nanoseconds.
        ns: i64,
        at: Place,
    },
    /// A value of the enumeration that is named before `#`.
    Value {
        owner: Name,
        name: Name,
        at: Place,
        /// The name behind `#`.
        name_at: Place,
    },
    Var(Path),
    Paren {
        at: Place,
        inner: Boxed<Expr>,
    },
    Unary {
        op: UnOp,
        at: Place,
        inner: Boxed<Expr>,
    },
    Binary {
        op: BinOp,
        at: Place,
        left: Boxed<Expr>,
        right: Boxed<Expr>,
    },
    Call {
        name: Name,
        at: Place,
        args: Items<Arg>,
    },
}

/// A variable, or a part of one.
#[cycle(expr)]
#[derive(Drop)]
pub struct Path {
    pub first: Name,
    pub at: Place,
    pub parts: Items<Part>,
}

/// A step into a variable.
#[cycle(expr)]
#[derive(Drop)]
pub enum Part {
    /// `.`, which is `dot`, and a name; `at` is the name.
    Field { name: Name, at: Place, dot: Place },
    /// `[`, which is `at`, and an expression for each dimension.
    Index { list: Items<Expr>, at: Place },
}

/// An argument of a call.
#[cycle(expr)]
#[derive(Drop)]
pub enum Arg {
    /// By place.
    Plain(Expr),
    /// By name.
    Named {
        name: Name,
        at: Place,
        value: Expr,
    },
    /// An output, complemented where `negate` is true, and the variable that takes it.
    Out {
        negate: bool,
        name: Name,
        at: Place,
        to: Path,
    },
}

/// A statement of Structured Text (IEC 61131-3, 3.3.2).
#[cycle(stmt)]
#[derive(Drop)]
pub enum Stmt {
    Empty,
    /// An assignment.
    Set {
        to: Path,
        from: Expr,
    },
    /// A call of a function block.
    Call {
        name: Name,
        at: Place,
        args: Items<Arg>,
    },
    /// IF and each ELSIF with its statements, and those of ELSE.
    If {
        arms: Items<Arm>,
        other: Items<Stmt>,
    },
    Case {
        pick: Expr,
        arms: Items<Choice>,
        other: Items<Stmt>,
    },
    For {
        var: Path,
        start: Expr,
        limit: Expr,
        /// Behind BY; 1 where there is none.
        step: Option<Expr>,
        body: Items<Stmt>,
    },
    While {
        test: Expr,
        body: Items<Stmt>,
    },
    Repeat {
        body: Items<Stmt>,
        test: Expr,
    },
    /// EXIT, at that word.
    Exit(Place),
    /// RETURN, at that word.
    Return(Place),
}

/// A condition of IF or ELSIF, and what runs where it is the first that holds.
#[cycle(stmt)]
#[derive(Drop)]
pub struct Arm {
    pub test: Expr,
    pub body: Items<Stmt>,
}

/// What runs where CASE has one of the labels.
#[cycle(stmt)]
#[derive(Drop)]
pub struct Choice {
    pub labels: Items<Label>,
    pub body: Items<Stmt>,
}

/// A label of CASE; `at` is its first token.
#[derive(Drop)]
pub enum Label {
    /// All numbers from `low` to `high`; a label of one number has it twice.
    Range {
        low: i128,
        high: i128,
        at: Place,
    },
    /// A value of an enumeration.
    Value {
        /// The enumeration that is named before `#`.
        owner: Option<Name>,
        name: Name,
        at: Place,
        /// The value's own name.
        name_at: Place,
    },
}

/// What a section of declarations declares.
#[derive(Clone, Copy, Debug, PartialEq, Eq)]
pub enum SectionKind {
    /// VAR_INPUT.
    Input,
    /// VAR_OUTPUT.
    Output,
    /// VAR_IN_OUT.
    InOut,
    /// VAR.
    Own,
    /// VAR_EXTERNAL.
    External,
    /// VAR_GLOBAL.
    Global,
}

/// A section of declarations; `at` is its first word.
#[derive(Drop)]
pub struct Section {
    pub kind: SectionKind,
    pub constant: bool,
    /// Whether RETAIN stands.
    pub keep: bool,
    pub at: Place,
    /// The word CONSTANT, RETAIN or NON_RETAIN; where none stands, the first word.
    pub mark: Place,
    pub decls: Items<Decl>,
}

/// One declaration of some variables.
#[derive(Drop)]
pub struct Decl {
    pub names: Items<Id>,
    /// Where the one variable lies that has an address.
    pub located: Option<Located>,
    pub spec: Spec,
    pub init: Option<Init>,
}

/// An address (IEC 61131-3, 2.4.1.1); `dir` is I, Q or M, and `size`, which is X where none stands, X, B, W, D or L, in
/// ASCII; a number above 65,535 is 65,536.
#[derive(Drop)]
pub struct Located {
    pub dir: u8,
    pub size: u8,
    pub numbers: Items<u32>,
    pub at: Place,
}

/// What a variable is of.
#[derive(Drop)]
pub enum Spec {
    Named(Id),
    /// A subrange.
    Sub {
        base: Id,
        bounds: Bounds,
    },
    /// An array; `at` is the word ARRAY, `bracket` is its `[`.
    Array {
        /// One to three dimensions.
        bounds: Items<Bounds>,
        element: Id,
        at: Place,
        bracket: Place,
    },
}

/// The limits of a subrange or of an index, both within.
#[derive(Clone, Copy, Debug)]
pub struct Bounds {
    pub low: Whole,
    pub high: Whole,
}

/// An initial value; `at` is its first token.
#[cycle(init)]
#[derive(Drop)]
pub enum Init {
    Number {
        value: i128,
        /// The type before `#`.
        want: Option<Elem>,
        at: Place,
    },
    Truth {
        value: bool,
        at: Place,
    },
    /// A duration.
    Span {
        /// In nanoseconds.
        ns: i64,
        at: Place,
    },
    /// A value of an enumeration.
    Named(Id),
    /// A value of the enumeration that is named before `#`.
    Value {
        owner: Name,
        name: Name,
        at: Place,
        /// The name behind `#`.
        name_at: Place,
    },
    /// The elements of an array.
    List {
        items: Items<Item>,
        at: Place,
    },
    /// Fields of a structure.
    Struct {
        parts: Items<InitPart>,
        at: Place,
    },
}

/// Elements of an array.
#[cycle(init)]
#[derive(Drop)]
pub enum Item {
    One(Init),
    /// So many elements; each is as its type starts where no value stands.
    Many { count: Whole, init: Option<Init> },
}

/// What a field starts at.
#[cycle(init)]
#[derive(Drop)]
pub struct InitPart {
    pub name: Name,
    pub at: Place,
    pub init: Init,
}

/// A configuration.
#[derive(Drop)]
pub struct Config {
    pub name: Name,
    pub at: Place,
    pub globals: Items<Section>,
    pub resources: Items<Resource>,
}

/// A resource.
#[derive(Drop)]
pub struct Resource {
    pub name: Name,
    pub at: Place,
    /// The processor that it stands on, which is free.
    pub on: Id,
    pub globals: Items<Section>,
    pub tasks: Items<Task>,
    pub insts: Items<Inst>,
}

/// A task.
#[derive(Drop)]
pub struct Task {
    pub name: Name,
    pub at: Place,
    /// In nanoseconds.
    pub interval: i64,
    pub interval_at: Place,
    pub priority: Whole,
}

/// An instance of a program.
#[derive(Drop)]
pub struct Inst {
    pub name: Name,
    pub at: Place,
    pub task: Option<Id>,
    pub program: Id,
}
