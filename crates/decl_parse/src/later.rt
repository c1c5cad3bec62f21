//! What only productions have that are not built yet: what begins or goes on with an instruction list or a chart.

use plc_tokens::reserved::Reserved;
use plc_tokens::sort::{Form, Seen, Sort, Symbol};

macro_rules! seen {
    ($($sort:expr),*) => { [$(Seen { sort: $sort, fresh: false }),*] };
}

/// The reserved words that begin an instruction and no statement.
pub const FIRST_INSTRUCTION: [Seen; 5] = seen![
    Sort::Word(Reserved::And),
    Sort::Word(Reserved::Or),
    Sort::Word(Reserved::Xor),
    Sort::Word(Reserved::Not),
    Sort::Word(Reserved::Mod)
];

/// What begins a chart.
pub const FIRST_CHART: [Seen; 1] = seen![Sort::Word(Reserved::InitialStep)];

/// What begins the operand of an instruction.
pub const OPERAND_FIRST: [Seen; 6] = seen![
    Sort::Symbol(Symbol::Minus),
    Sort::Form(Form::Integer),
    Sort::Form(Form::Typed),
    Sort::Form(Form::Truth),
    Sort::Form(Form::Span),
    Sort::Form(Form::Name)
];

/// What begins an instruction that is not the first.
pub const LINE_FIRST: [Seen; 7] = seen![
    Sort::Form(Form::Name),
    Sort::Word(Reserved::And),
    Sort::Word(Reserved::Or),
    Sort::Word(Reserved::Xor),
    Sort::Word(Reserved::Not),
    Sort::Word(Reserved::Mod),
    Sort::Symbol(Symbol::Ampersand)
];

/// What bounds the places where a body stands: the words that begin and end a program organisation unit and its
/// sections, and that end a configuration.
pub const BOUNDS: [Seen; 13] = seen![
    Sort::Word(Reserved::Function),
    Sort::Word(Reserved::FunctionBlock),
    Sort::Word(Reserved::Program),
    Sort::Word(Reserved::EndFunction),
    Sort::Word(Reserved::EndFunctionBlock),
    Sort::Word(Reserved::EndProgram),
    Sort::Word(Reserved::VarInput),
    Sort::Word(Reserved::VarOutput),
    Sort::Word(Reserved::VarInOut),
    Sort::Word(Reserved::Var),
    Sort::Word(Reserved::VarExternal),
    Sort::Word(Reserved::EndVar),
    Sort::Word(Reserved::EndConfiguration)
];

/// The words that begin and end a configuration.
pub const CONFIGURATIONS: [Seen; 2] = seen![
    Sort::Word(Reserved::Configuration),
    Sort::Word(Reserved::EndConfiguration)
];
