//! The sets of sorts that parsers ask for, where no line break stands before the token or none has a meaning.

use crate::reserved::Reserved;
use crate::sort::{Form, Seen, Sort, Symbol};

macro_rules! seen {
    ($($sort:expr),*) => { [$(Seen { sort: $sort, fresh: false }),*] };
}

macro_rules! wherever {
    ($($sort:expr),*) => { [$(Seen { sort: $sort, fresh: false }, Seen { sort: $sort, fresh: true }),*] };
}

/// The end of the source.
pub const END: [Seen; 1] = seen![Sort::Form(Form::End)];

/// A name.
pub const NAME: [Seen; 1] = seen![Sort::Form(Form::Name)];

/// An integer without a type before it.
pub const INTEGER: [Seen; 1] = seen![Sort::Form(Form::Integer)];

/// An integer with a type before it.
pub const TYPED: [Seen; 1] = seen![Sort::Form(Form::Typed)];

/// Either of them.
pub const NUMBER: [Seen; 2] = seen![Sort::Form(Form::Integer), Sort::Form(Form::Typed)];

/// TRUE or FALSE.
pub const TRUTH: [Seen; 1] = seen![Sort::Form(Form::Truth)];

/// A duration.
pub const SPAN: [Seen; 1] = seen![Sort::Form(Form::Span)];

/// The symbol `:=`.
pub const ASSIGN: [Seen; 1] = seen![Sort::Symbol(Symbol::Assign)];

/// The symbol `=>`.
pub const ARROW: [Seen; 1] = seen![Sort::Symbol(Symbol::Arrow)];

/// The symbol `..`.
pub const RANGE: [Seen; 1] = seen![Sort::Symbol(Symbol::Range)];

/// The symbol `(`.
pub const LPAREN: [Seen; 1] = seen![Sort::Symbol(Symbol::LeftParenthesis)];

/// The symbol `)`.
pub const RPAREN: [Seen; 1] = seen![Sort::Symbol(Symbol::RightParenthesis)];

/// The symbol `[`.
pub const LBRACKET: [Seen; 1] = seen![Sort::Symbol(Symbol::LeftBracket)];

/// The symbol `]`.
pub const RBRACKET: [Seen; 1] = seen![Sort::Symbol(Symbol::RightBracket)];

/// The symbol `,`.
pub const COMMA: [Seen; 1] = seen![Sort::Symbol(Symbol::Comma)];

/// The symbol `;`.
pub const SEMI: [Seen; 1] = seen![Sort::Symbol(Symbol::Semicolon)];

/// The symbol `:`.
pub const COLON: [Seen; 1] = seen![Sort::Symbol(Symbol::Colon)];

/// The symbol `.`.
pub const DOT: [Seen; 1] = seen![Sort::Symbol(Symbol::Dot)];

/// The symbol `+`.
pub const PLUS: [Seen; 1] = seen![Sort::Symbol(Symbol::Plus)];

/// The symbol `-`.
pub const MINUS: [Seen; 1] = seen![Sort::Symbol(Symbol::Minus)];

/// The symbol `+` or `-`.
pub const SIGN: [Seen; 2] = seen![Sort::Symbol(Symbol::Plus), Sort::Symbol(Symbol::Minus)];

/// The symbol `=`.
pub const EQUAL: [Seen; 1] = seen![Sort::Symbol(Symbol::Equal)];

/// The symbol `#`.
pub const HASH: [Seen; 1] = seen![Sort::Symbol(Symbol::Hash)];

/// The word OF.
pub const OF: [Seen; 1] = seen![Sort::Word(Reserved::Of)];

/// The word PROGRAM.
pub const PROGRAM: [Seen; 1] = seen![Sort::Word(Reserved::Program)];

/// The word END_PROGRAM.
pub const END_PROGRAM: [Seen; 1] = seen![Sort::Word(Reserved::EndProgram)];

/// The word VAR.
pub const VAR: [Seen; 1] = seen![Sort::Word(Reserved::Var)];

/// The word END_VAR.
pub const END_VAR: [Seen; 1] = seen![Sort::Word(Reserved::EndVar)];

/// The word CONFIGURATION.
pub const CONFIGURATION: [Seen; 1] = seen![Sort::Word(Reserved::Configuration)];

/// The word END_CONFIGURATION.
pub const END_CONFIGURATION: [Seen; 1] = seen![Sort::Word(Reserved::EndConfiguration)];

/// The word RESOURCE.
pub const RESOURCE: [Seen; 1] = seen![Sort::Word(Reserved::Resource)];

/// The word END_RESOURCE.
pub const END_RESOURCE: [Seen; 1] = seen![Sort::Word(Reserved::EndResource)];

/// The word ON.
pub const ON: [Seen; 1] = seen![Sort::Word(Reserved::On)];

/// The word TASK.
pub const TASK: [Seen; 1] = seen![Sort::Word(Reserved::Task)];

/// The word INTERVAL.
pub const INTERVAL: [Seen; 1] = seen![Sort::Word(Reserved::Interval)];

/// The word PRIORITY.
pub const PRIORITY: [Seen; 1] = seen![Sort::Word(Reserved::Priority)];

/// The word WITH.
pub const WITH: [Seen; 1] = seen![Sort::Word(Reserved::With)];

/// The word IF.
pub const IF: [Seen; 1] = seen![Sort::Word(Reserved::If)];

/// The word THEN.
pub const THEN: [Seen; 1] = seen![Sort::Word(Reserved::Then)];

/// The word ELSIF.
pub const ELSIF: [Seen; 1] = seen![Sort::Word(Reserved::Elsif)];

/// The word ELSE.
pub const ELSE: [Seen; 1] = seen![Sort::Word(Reserved::Else)];

/// The word END_IF.
pub const END_IF: [Seen; 1] = seen![Sort::Word(Reserved::EndIf)];

/// The word CASE.
pub const CASE: [Seen; 1] = seen![Sort::Word(Reserved::Case)];

/// The word END_CASE.
pub const END_CASE: [Seen; 1] = seen![Sort::Word(Reserved::EndCase)];

/// The word FOR.
pub const FOR: [Seen; 1] = seen![Sort::Word(Reserved::For)];

/// The word TO.
pub const TO: [Seen; 1] = seen![Sort::Word(Reserved::To)];

/// The word BY.
pub const BY: [Seen; 1] = seen![Sort::Word(Reserved::By)];

/// The word DO.
pub const DO: [Seen; 1] = seen![Sort::Word(Reserved::Do)];

/// The word END_FOR.
pub const END_FOR: [Seen; 1] = seen![Sort::Word(Reserved::EndFor)];

/// The word WHILE.
pub const WHILE: [Seen; 1] = seen![Sort::Word(Reserved::While)];

/// The word END_WHILE.
pub const END_WHILE: [Seen; 1] = seen![Sort::Word(Reserved::EndWhile)];

/// The word REPEAT.
pub const REPEAT: [Seen; 1] = seen![Sort::Word(Reserved::Repeat)];

/// The word UNTIL.
pub const UNTIL: [Seen; 1] = seen![Sort::Word(Reserved::Until)];

/// The word END_REPEAT.
pub const END_REPEAT: [Seen; 1] = seen![Sort::Word(Reserved::EndRepeat)];

/// The word EXIT.
pub const EXIT: [Seen; 1] = seen![Sort::Word(Reserved::Exit)];

/// The word RETURN.
pub const RETURN: [Seen; 1] = seen![Sort::Word(Reserved::Return)];

/// The word NOT.
pub const NOT: [Seen; 1] = seen![Sort::Word(Reserved::Not)];

/// The operator OR.
pub const OR: [Seen; 1] = seen![Sort::Word(Reserved::Or)];

/// The operator XOR.
pub const XOR: [Seen; 1] = seen![Sort::Word(Reserved::Xor)];

/// The operators `&` and AND.
pub const AND: [Seen; 2] = seen![Sort::Symbol(Symbol::Ampersand), Sort::Word(Reserved::And)];

/// The operators `=` and `<>`.
pub const EQUALITY: [Seen; 2] = seen![Sort::Symbol(Symbol::Equal), Sort::Symbol(Symbol::Unequal)];

/// The operators `<`, `>`, `<=` and `>=`.
pub const COMPARISON: [Seen; 4] = seen![
    Sort::Symbol(Symbol::Below),
    Sort::Symbol(Symbol::Above),
    Sort::Symbol(Symbol::AtMost),
    Sort::Symbol(Symbol::AtLeast)
];

/// The operators `*`, `/` and MOD.
pub const PRODUCT: [Seen; 3] = seen![
    Sort::Symbol(Symbol::Times),
    Sort::Symbol(Symbol::Divided),
    Sort::Word(Reserved::Mod)
];

/// The operators that are called as functions too.
pub const OPERATION: [Seen; 4] = seen![
    Sort::Word(Reserved::And),
    Sort::Word(Reserved::Or),
    Sort::Word(Reserved::Xor),
    Sort::Word(Reserved::Mod)
];

/// What follows the name of an argument.
pub const NAMED: [Seen; 2] = seen![Sort::Symbol(Symbol::Assign), Sort::Symbol(Symbol::Arrow)];

/// What begins a part of a variable.
pub const PARTS: [Seen; 2] = seen![Sort::Symbol(Symbol::LeftBracket), Sort::Symbol(Symbol::Dot)];

/// What follows a name at the front of a label.
pub const LABELLED: [Seen; 3] = seen![
    Sort::Symbol(Symbol::Colon),
    Sort::Symbol(Symbol::Comma),
    Sort::Symbol(Symbol::Hash)
];

/// What begins a number that may have a sign.
pub const SIGNED: [Seen; 2] = seen![Sort::Symbol(Symbol::Minus), Sort::Form(Form::Integer)];

/// What begins an expression.
pub const FIRST_EXPR: [Seen; 12] = seen![
    Sort::Symbol(Symbol::Minus),
    Sort::Word(Reserved::Not),
    Sort::Form(Form::Integer),
    Sort::Form(Form::Typed),
    Sort::Form(Form::Truth),
    Sort::Form(Form::Span),
    Sort::Symbol(Symbol::LeftParenthesis),
    Sort::Word(Reserved::And),
    Sort::Word(Reserved::Or),
    Sort::Word(Reserved::Xor),
    Sort::Word(Reserved::Mod),
    Sort::Form(Form::Name)
];

/// What begins a statement.
pub const FIRST_STMT: [Seen; 9] = seen![
    Sort::Symbol(Symbol::Semicolon),
    Sort::Word(Reserved::If),
    Sort::Word(Reserved::Case),
    Sort::Word(Reserved::For),
    Sort::Word(Reserved::While),
    Sort::Word(Reserved::Repeat),
    Sort::Word(Reserved::Exit),
    Sort::Word(Reserved::Return),
    Sort::Form(Form::Name)
];

/// What begins a label or a statement.
pub const FIRST_ITEM: [Seen; 11] = seen![
    Sort::Symbol(Symbol::Minus),
    Sort::Form(Form::Integer),
    Sort::Symbol(Symbol::Semicolon),
    Sort::Word(Reserved::If),
    Sort::Word(Reserved::Case),
    Sort::Word(Reserved::For),
    Sort::Word(Reserved::While),
    Sort::Word(Reserved::Repeat),
    Sort::Word(Reserved::Exit),
    Sort::Word(Reserved::Return),
    Sort::Form(Form::Name)
];

/// The word TYPE.
pub const TYPE: [Seen; 1] = seen![Sort::Word(Reserved::Type)];

/// The word END_TYPE.
pub const END_TYPE: [Seen; 1] = seen![Sort::Word(Reserved::EndType)];

/// The word STRUCT.
pub const STRUCT: [Seen; 1] = seen![Sort::Word(Reserved::Struct)];

/// The word END_STRUCT.
pub const END_STRUCT: [Seen; 1] = seen![Sort::Word(Reserved::EndStruct)];

/// The word ARRAY.
pub const ARRAY: [Seen; 1] = seen![Sort::Word(Reserved::Array)];

/// The word FUNCTION.
pub const FUNCTION: [Seen; 1] = seen![Sort::Word(Reserved::Function)];

/// The word END_FUNCTION.
pub const END_FUNCTION: [Seen; 1] = seen![Sort::Word(Reserved::EndFunction)];

/// The word FUNCTION_BLOCK.
pub const FUNCTION_BLOCK: [Seen; 1] = seen![Sort::Word(Reserved::FunctionBlock)];

/// The word END_FUNCTION_BLOCK.
pub const END_FUNCTION_BLOCK: [Seen; 1] = seen![Sort::Word(Reserved::EndFunctionBlock)];

/// The word VAR_INPUT.
pub const VAR_INPUT: [Seen; 1] = seen![Sort::Word(Reserved::VarInput)];

/// The word VAR_IN_OUT.
pub const VAR_IN_OUT: [Seen; 1] = seen![Sort::Word(Reserved::VarInOut)];

/// The word VAR_EXTERNAL.
pub const VAR_EXTERNAL: [Seen; 1] = seen![Sort::Word(Reserved::VarExternal)];

/// The word VAR_GLOBAL.
pub const VAR_GLOBAL: [Seen; 1] = seen![Sort::Word(Reserved::VarGlobal)];

/// The word CONSTANT.
pub const CONSTANT: [Seen; 1] = seen![Sort::Word(Reserved::Constant)];

/// The word RETAIN.
pub const RETAIN: [Seen; 1] = seen![Sort::Word(Reserved::Retain)];

/// The word AT.
pub const AT: [Seen; 1] = seen![Sort::Word(Reserved::At)];

/// An address.
pub const ADDRESS: [Seen; 1] = seen![Sort::Form(Form::Address)];

/// The types of whole numbers with a sign or none, of which a subrange is.
pub const INTEGER_TYPE: [Seen; 8] = seen![
    Sort::Word(Reserved::Sint),
    Sort::Word(Reserved::Int),
    Sort::Word(Reserved::Dint),
    Sort::Word(Reserved::Lint),
    Sort::Word(Reserved::Usint),
    Sort::Word(Reserved::Uint),
    Sort::Word(Reserved::Udint),
    Sort::Word(Reserved::Ulint)
];

/// The name of another type, elementary or declared.
pub const OTHER_TYPE: [Seen; 7] = seen![
    Sort::Form(Form::Name),
    Sort::Word(Reserved::Byte),
    Sort::Word(Reserved::Word),
    Sort::Word(Reserved::Dword),
    Sort::Word(Reserved::Lword),
    Sort::Word(Reserved::Bool),
    Sort::Word(Reserved::Time)
];

/// The name of a type, elementary or declared.
pub const TYPE_NAME: [Seen; 15] = seen![
    Sort::Form(Form::Name),
    Sort::Word(Reserved::Sint),
    Sort::Word(Reserved::Int),
    Sort::Word(Reserved::Dint),
    Sort::Word(Reserved::Lint),
    Sort::Word(Reserved::Usint),
    Sort::Word(Reserved::Uint),
    Sort::Word(Reserved::Udint),
    Sort::Word(Reserved::Ulint),
    Sort::Word(Reserved::Byte),
    Sort::Word(Reserved::Word),
    Sort::Word(Reserved::Dword),
    Sort::Word(Reserved::Lword),
    Sort::Word(Reserved::Bool),
    Sort::Word(Reserved::Time)
];

/// What begins the type of a variable.
pub const FIRST_SPEC: [Seen; 16] = seen![
    Sort::Form(Form::Name),
    Sort::Word(Reserved::Sint),
    Sort::Word(Reserved::Int),
    Sort::Word(Reserved::Dint),
    Sort::Word(Reserved::Lint),
    Sort::Word(Reserved::Usint),
    Sort::Word(Reserved::Uint),
    Sort::Word(Reserved::Udint),
    Sort::Word(Reserved::Ulint),
    Sort::Word(Reserved::Byte),
    Sort::Word(Reserved::Word),
    Sort::Word(Reserved::Dword),
    Sort::Word(Reserved::Lword),
    Sort::Word(Reserved::Bool),
    Sort::Word(Reserved::Time),
    Sort::Word(Reserved::Array)
];

/// What begins an initial value.
pub const FIRST_INIT: [Seen; 8] = seen![
    Sort::Symbol(Symbol::Minus),
    Sort::Form(Form::Integer),
    Sort::Form(Form::Typed),
    Sort::Form(Form::Truth),
    Sort::Form(Form::Span),
    Sort::Form(Form::Name),
    Sort::Symbol(Symbol::LeftBracket),
    Sort::Symbol(Symbol::LeftParenthesis)
];

/// Whether variables keep their values over a warm start.
pub const RETENTION: [Seen; 2] = seen![
    Sort::Word(Reserved::Retain),
    Sort::Word(Reserved::NonRetain)
];

/// The sections of inputs and of outputs.
pub const INPUT_OUTPUT: [Seen; 2] = seen![
    Sort::Word(Reserved::VarInput),
    Sort::Word(Reserved::VarOutput)
];

/// What begins a section of a function.
pub const FUNCTION_SECTION: [Seen; 2] = seen![
    Sort::Word(Reserved::VarInput),
    Sort::Word(Reserved::Var)
];

/// What begins a section of a function block or a program.
pub const UNIT_SECTION: [Seen; 5] = seen![
    Sort::Word(Reserved::VarInput),
    Sort::Word(Reserved::VarOutput),
    Sort::Word(Reserved::VarInOut),
    Sort::Word(Reserved::Var),
    Sort::Word(Reserved::VarExternal)
];

/// What begins a program organisation unit.
pub const UNIT: [Seen; 3] = seen![
    Sort::Word(Reserved::Function),
    Sort::Word(Reserved::FunctionBlock),
    Sort::Word(Reserved::Program)
];

/// What begins a declaration of a source.
pub const DECLARATION: [Seen; 5] = seen![
    Sort::Word(Reserved::Type),
    Sort::Word(Reserved::Function),
    Sort::Word(Reserved::FunctionBlock),
    Sort::Word(Reserved::Program),
    Sort::Word(Reserved::Configuration)
];

/// A name that may stand first on its line.
pub const FIRST_NAME: [Seen; 2] = wherever![Sort::Form(Form::Name)];

/// An integer that may.
pub const FIRST_NUMBER: [Seen; 4] = wherever![Sort::Form(Form::Integer), Sort::Form(Form::Typed)];

/// TRUE or FALSE that may.
pub const FIRST_TRUTH: [Seen; 2] = wherever![Sort::Form(Form::Truth)];

/// A duration that may.
pub const FIRST_SPAN: [Seen; 2] = wherever![Sort::Form(Form::Span)];

/// The symbol `-` that may.
pub const FIRST_MINUS: [Seen; 2] = wherever![Sort::Symbol(Symbol::Minus)];
