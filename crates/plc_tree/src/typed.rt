//! The typed unit of a source: each name is the number of its declaration.

use crate::tree::{BinOp, PouKind, SectionKind, UnOp};
use plc_base::{Elem, Name};
use sqlite_items::{Boxed, Items};

/// A type.
#[derive(Clone, Copy, Debug, PartialEq, Eq)]
pub enum TypeId {
    Elem(Elem),
}

/// A typed source.
#[derive(Drop)]
pub struct TUnit {
    pub pous: Items<TPou>,
    pub configs: Items<TConfig>,
}

/// A program organisation unit.
#[derive(Drop)]
pub struct TPou {
    pub id: u32,
    pub kind: PouKind,
    pub name: Name,
    /// In the order of their declarations.
    pub vars: Items<TVar>,
    pub body: TBody,
}

/// A variable.
#[derive(Drop)]
pub struct TVar {
    pub id: u32,
    pub kind: SectionKind,
    pub constant: bool,
    pub keep: bool,
    pub name: Name,
    pub ty: TypeId,
    /// The number that it starts at, one of its type.
    pub init: i128,
}

/// A typed body.
#[derive(Drop)]
pub enum TBody {
    St(Items<TStmt>),
}

/// A variable, by the number of its declaration.
#[derive(Clone, Copy, Debug)]
pub struct TPath {
    pub first: u32,
}

/// A typed expression; `ty` is the type of the node.
#[derive(Drop)]
pub enum TExpr {
    Number {
        value: i128,
        ty: TypeId,
    },
    Truth {
        value: bool,
        ty: TypeId,
    },
    Var {
        path: TPath,
        ty: TypeId,
    },
    Paren {
        ty: TypeId,
        inner: Boxed<TExpr>,
    },
    Unary {
        op: UnOp,
        ty: TypeId,
        inner: Boxed<TExpr>,
    },
    Binary {
        op: BinOp,
        ty: TypeId,
        left: Boxed<TExpr>,
        right: Boxed<TExpr>,
    },
}

/// A typed statement.
#[cycle(typed_stmt)]
#[derive(Drop)]
pub enum TStmt {
    Empty,
    /// An assignment.
    Set {
        to: TPath,
        from: TExpr,
    },
    /// IF and each ELSIF with its statements, and those of ELSE.
    If {
        arms: Items<TArm>,
        other: Items<TStmt>,
    },
    Case {
        pick: TExpr,
        arms: Items<TChoice>,
        other: Items<TStmt>,
    },
    For {
        var: TPath,
        /// Of the type that the variable counts in, as the limit and the step are.
        start: TExpr,
        limit: TExpr,
        /// 1 where there is none.
        step: Option<TExpr>,
        body: Items<TStmt>,
    },
    While {
        test: TExpr,
        body: Items<TStmt>,
    },
    Repeat {
        body: Items<TStmt>,
        test: TExpr,
    },
    /// Leaves the innermost loop.
    Exit,
    /// Leaves the body.
    Return,
}

/// A condition of IF or ELSIF, and what runs where it is the first that holds.
#[cycle(typed_stmt)]
#[derive(Drop)]
pub struct TArm {
    pub test: TExpr,
    pub body: Items<TStmt>,
}

/// What runs where CASE has one of the labels.
#[cycle(typed_stmt)]
#[derive(Drop)]
pub struct TChoice {
    pub labels: Items<TLabel>,
    pub body: Items<TStmt>,
}

/// A label of CASE.
#[derive(Clone, Copy, Debug)]
pub enum TLabel {
    /// All numbers from `low` to `high`.
    Range { low: i128, high: i128 },
}

/// A configuration.
#[derive(Drop)]
pub struct TConfig {
    pub id: u32,
    pub name: Name,
    pub resources: Items<TResource>,
}

/// A resource.
#[derive(Drop)]
pub struct TResource {
    pub id: u32,
    pub name: Name,
    pub tasks: Items<TTask>,
    pub insts: Items<TInst>,
}

/// A task.
#[derive(Drop)]
pub struct TTask {
    pub id: u32,
    pub name: Name,
    /// In nanoseconds, above 0.
    pub interval: i64,
    pub priority: u32,
}

/// An instance of a program; its task, where it has one, and its program by the numbers of their declarations.
#[derive(Drop)]
pub struct TInst {
    pub id: u32,
    pub name: Name,
    pub task: Option<u32>,
    pub program: u32,
}
