//! What is told of a declared name (IEC 61131-3, 2.4 and 2.7).

use crate::types::TypeId;
use plc_base::Place;

/// What a name is declared as.
#[derive(Clone, Copy, Debug, PartialEq, Eq)]
pub enum NameKind {
    /// A type.
    Named,
    /// A value of an enumeration.
    Value,
    /// A function.
    Func,
    /// A function block.
    Block,
    /// A program.
    Prog,
    /// VAR_INPUT.
    Input,
    /// VAR_OUTPUT.
    Output,
    /// VAR_IN_OUT.
    InOut,
    /// VAR.
    Own,
    /// VAR_EXTERNAL.
    External,
    /// VAR_GLOBAL.
    Global,
    /// A step of a chart.
    Step,
    /// An action of a chart.
    Action,
    /// A transition of a chart.
    Trans,
    /// A configuration.
    Config,
    /// A resource.
    Resource,
    /// A task.
    Task,
    /// An instance of a program.
    Inst,
}

/// What a declaration says of its name.
#[derive(Clone, Copy, Debug)]
pub struct Info {
    pub kind: NameKind,
    /// The type of a variable, of a value, or of the result of a function; of a type or a block the type itself.
    pub ty: Option<TypeId>,
    /// Whether it can't be written: its section says CONSTANT, or the global that it stands for is constant.
    pub constant: bool,
    /// The scope in which the name is declared.
    pub scope: u32,
    /// The own scope of a program organisation unit, a configuration or a resource.
    pub inner: Option<u32>,
    pub place: Place,
}

/// The number of a declaration, from 0: in text order, those of the library before those of the source.
#[derive(Clone, Copy, Debug, PartialEq, Eq)]
pub struct Entry {
    pub id: u32,
}
