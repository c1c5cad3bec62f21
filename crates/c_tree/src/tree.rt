//! The trees of the stated C, a language of this project's own after C99.

use plc_base::{Elem, Name};
use sqlite_items::{Boxed, Items};

/// A unit: files that are read one after the other.
#[derive(Drop)]
pub struct CUnit {
    pub parts: Items<CPart>,
}

/// One file of a unit.
#[derive(Drop)]
pub struct CPart {
    pub name: Name,
    pub items: Items<CItem>,
}

/// What stands outermost in a file. The members of a structure are objects.
#[derive(Drop)]
pub enum CItem {
    Struct {
        members: Items<CItem>,
        name: Name,
    },
    Object {
        ty: CType,
        name: Name,
        dims: Items<u32>,
    },
    /// A cell, `__LOCATED_VAR(elem,name,dir,size,numbers)`: a place that variables with an address share with the
    /// machine. `dir` is the letter I, Q or M, `size` is X, B, W, D or L (IEC 61131-3, 2.4.1.1).
    Located {
        elem: Elem,
        name: Name,
        dir: u8,
        size: u8,
        numbers: Items<u32>,
    },
    /// A function; without a result it is void.
    Func {
        result: Option<Elem>,
        name: Name,
        params: Items<CParam>,
        locals: Items<CLocal>,
        body: Items<CStmt>,
    },
    DebugRow {
        number: u32,
        elem: Elem,
        path: CPath,
        kind: CRow,
    },
}

/// The type of an object or a member.
#[derive(Drop)]
pub enum CType {
    /// A plain value.
    Plain(Elem),
    /// A value with flags, `__IEC_ELEM_t`.
    Flagged(Elem),
    /// A cell with flags, `__IEC_ELEM_p`.
    Celled(Elem),
    Struct(Name),
}

/// A parameter of a function.
#[derive(Drop)]
pub enum CParam {
    Value { elem: Elem, name: Name },
    /// A pointer to a structure.
    Pointer { to: Name, name: Name },
}

/// A local variable of a function.
#[derive(Drop)]
pub struct CLocal {
    pub elem: Elem,
    pub name: Name,
    pub init: CExpr,
}

/// The kind of a debug row.
#[derive(Clone, Copy, Debug, PartialEq, Eq)]
pub enum CRow {
    /// Of a value with flags.
    Var,
    /// Of a cell with flags.
    Loc,
    /// Of the value with flags that says whether a step is active.
    Step,
}

/// A path to an object, a member, a parameter or a local: `first` or `first->arrow`, then the parts.
#[cycle(expr)]
#[derive(Drop)]
pub struct CPath {
    pub first: Name,
    pub arrow: Option<Name>,
    pub parts: Items<CSel>,
}

/// A part of a path.
#[cycle(expr)]
#[derive(Drop)]
pub enum CSel {
    /// `.name`
    Field(Name),
    /// `[expr]`
    Index(CExpr),
}

/// An argument of a call.
#[cycle(expr)]
#[derive(Drop)]
pub enum CArg {
    Value(CExpr),
    /// The address of a structure, `&path`.
    Address(CPath),
    /// A pointer parameter of the caller, handed on.
    Pass(Name),
}

/// A statement.
#[derive(Drop)]
pub enum CStmt {
    /// `to = from;`
    Set {
        to: CPath,
        from: CExpr,
    },
    /// `__INIT_VAR(to,from);`
    InitVar {
        to: CPath,
        from: CExpr,
    },
    /// `__SET_VAR(to,from);`
    SetVar {
        to: CPath,
        from: CExpr,
    },
    /// `__INIT_LOCATED(to,cell);`
    InitLocated {
        to: CPath,
        cell: Name,
    },
    /// `__SET_LOCATED(to,from);`
    SetLocated {
        to: CPath,
        from: CExpr,
    },
    /// `__COPY(to,from);`
    Copy {
        to: CPath,
        from: CPath,
    },
    /// `__PUBLISH(path);`
    Publish(CPath),
    Call {
        name: Name,
        args: Items<CArg>,
    },
    /// `if(test){ body }`, with `else{ other }` where there is one.
    If {
        test: CExpr,
        body: Items<CStmt>,
        other: Option<Items<CStmt>>,
    },
    /// `while(test){ body }`
    While {
        test: CExpr,
        body: Items<CStmt>,
    },
    Break,
    /// `goto name;`
    Goto(Name),
    /// `name:`
    Label(Name),
    /// `return;`, or with a value `return value;`.
    Return(Option<CExpr>),
}

/// An expression.
#[cycle(expr)]
#[derive(Drop)]
pub enum CExpr {
    Number {
        value: u64,
        kind: CNum,
    },
    Path(CPath),
    /// `__CURRENT_TIME`
    Moment,
    /// `__GET_VAR(path)`
    GetVar(CPath),
    /// `__GET_LOCATED(path)`
    GetLocated(CPath),
    /// `name(args)`
    Call {
        name: Name,
        args: Items<CArg>,
    },
    /// `(left op right)`
    Bin {
        op: CBin,
        left: Boxed<CExpr>,
        right: Boxed<CExpr>,
    },
    /// `(op inner)`
    Un {
        op: CUn,
        inner: Boxed<CExpr>,
    },
    /// `((ELEM)inner)`
    Cast {
        to: Elem,
        inner: Boxed<CExpr>,
    },
}

/// An operator with two sides.
#[derive(Clone, Copy, Debug, PartialEq, Eq)]
pub enum CBin {
    Add,
    Sub,
    Mul,
    /// `/`
    Div,
    /// `%`
    Rem,
    And,
    Or,
    /// `^`
    Xor,
    /// `<<`
    Shl,
    /// `>>`
    Shr,
    Eq,
    Ne,
    Lt,
    Le,
    Gt,
    Ge,
}

/// An operator before its one side.
#[derive(Clone, Copy, Debug, PartialEq, Eq)]
pub enum CUn {
    Minus,
    /// `!`
    Not,
    /// `~`
    Complement,
}

/// The suffix of a number: none for int, LL for long long, ULL for unsigned long long.
#[derive(Clone, Copy, Debug, PartialEq, Eq)]
pub enum CNum {
    Int,
    LL,
    ULL,
}
