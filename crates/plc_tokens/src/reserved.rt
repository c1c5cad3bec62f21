//! Reserved words.
ghost use Rattle.std.specs.Prelude.{◌≡◌, map};
ghost use Rattle.plc_tokens.specs.Sorts as spec;

/// The reserved words (IEC 61131-3, Annex C, as far as the grammar has them), and RETAIN and NON_RETAIN, which the profile
/// leaves out. The words that are operators of Instruction List alone, the qualifiers of actions, and X and T are names.
#[derive(Clone, Copy, Debug)]
pub enum Reserved {
    Type,
    EndType,
    Struct,
    EndStruct,
    Array,
    Of,
    Function,
    EndFunction,
    FunctionBlock,
    EndFunctionBlock,
    Program,
    EndProgram,
    Var,
    VarInput,
    VarOutput,
    VarInOut,
    VarExternal,
    VarGlobal,
    EndVar,
    Constant,
    Retain,
    NonRetain,
    At,
    Configuration,
    EndConfiguration,
    Resource,
    EndResource,
    On,
    Task,
    Interval,
    Priority,
    With,
    If,
    Then,
    Elsif,
    Else,
    EndIf,
    Case,
    EndCase,
    For,
    To,
    By,
    Do,
    EndFor,
    While,
    EndWhile,
    Repeat,
    Until,
    EndRepeat,
    Exit,
    Return,
    InitialStep,
    Step,
    EndStep,
    Transition,
    From,
    EndTransition,
    Action,
    EndAction,
    Sint,
    Int,
    Dint,
    Lint,
    Usint,
    Uint,
    Udint,
    Ulint,
    Byte,
    Word,
    Dword,
    Lword,
    Bool,
    Time,
    And,
    Or,
    Xor,
    Not,
    Mod,
    True,
    False,
}

/// The words that are no names.
const RESERVED: [(&[u8], Reserved); 78] = [
    (b"TYPE", Reserved::Type),
    (b"END_TYPE", Reserved::EndType),
    (b"STRUCT", Reserved::Struct),
    (b"END_STRUCT", Reserved::EndStruct),
    (b"ARRAY", Reserved::Array),
    (b"OF", Reserved::Of),
    (b"FUNCTION", Reserved::Function),
    (b"END_FUNCTION", Reserved::EndFunction),
    (b"FUNCTION_BLOCK", Reserved::FunctionBlock),
    (b"END_FUNCTION_BLOCK", Reserved::EndFunctionBlock),
    (b"PROGRAM", Reserved::Program),
    (b"END_PROGRAM", Reserved::EndProgram),
    (b"VAR", Reserved::Var),
    (b"VAR_INPUT", Reserved::VarInput),
    (b"VAR_OUTPUT", Reserved::VarOutput),
    (b"VAR_IN_OUT", Reserved::VarInOut),
    (b"VAR_EXTERNAL", Reserved::VarExternal),
    (b"VAR_GLOBAL", Reserved::VarGlobal),
    (b"END_VAR", Reserved::EndVar),
    (b"CONSTANT", Reserved::Constant),
    (b"AT", Reserved::At),
    (b"CONFIGURATION", Reserved::Configuration),
    (b"END_CONFIGURATION", Reserved::EndConfiguration),
    (b"RESOURCE", Reserved::Resource),
    (b"END_RESOURCE", Reserved::EndResource),
    (b"ON", Reserved::On),
    (b"TASK", Reserved::Task),
    (b"INTERVAL", Reserved::Interval),
    (b"PRIORITY", Reserved::Priority),
    (b"WITH", Reserved::With),
    (b"IF", Reserved::If),
    (b"THEN", Reserved::Then),
    (b"ELSIF", Reserved::Elsif),
    (b"ELSE", Reserved::Else),
    (b"END_IF", Reserved::EndIf),
    (b"CASE", Reserved::Case),
    (b"END_CASE", Reserved::EndCase),
    (b"FOR", Reserved::For),
    (b"TO", Reserved::To),
    (b"BY", Reserved::By),
    (b"DO", Reserved::Do),
    (b"END_FOR", Reserved::EndFor),
    (b"WHILE", Reserved::While),
    (b"END_WHILE", Reserved::EndWhile),
    (b"REPEAT", Reserved::Repeat),
    (b"UNTIL", Reserved::Until),
    (b"END_REPEAT", Reserved::EndRepeat),
    (b"EXIT", Reserved::Exit),
    (b"RETURN", Reserved::Return),
    (b"INITIAL_STEP", Reserved::InitialStep),
    (b"STEP", Reserved::Step),
    (b"END_STEP", Reserved::EndStep),
    (b"TRANSITION", Reserved::Transition),
    (b"FROM", Reserved::From),
    (b"END_TRANSITION", Reserved::EndTransition),
    (b"ACTION", Reserved::Action),
    (b"END_ACTION", Reserved::EndAction),
    (b"SINT", Reserved::Sint),
    (b"INT", Reserved::Int),
    (b"DINT", Reserved::Dint),
    (b"LINT", Reserved::Lint),
    (b"USINT", Reserved::Usint),
    (b"UINT", Reserved::Uint),
    (b"UDINT", Reserved::Udint),
    (b"ULINT", Reserved::Ulint),
    (b"BYTE", Reserved::Byte),
    (b"WORD", Reserved::Word),
    (b"DWORD", Reserved::Dword),
    (b"LWORD", Reserved::Lword),
    (b"BOOL", Reserved::Bool),
    (b"TIME", Reserved::Time),
    (b"AND", Reserved::And),
    (b"OR", Reserved::Or),
    (b"XOR", Reserved::Xor),
    (b"NOT", Reserved::Not),
    (b"MOD", Reserved::Mod),
    (b"TRUE", Reserved::True),
    (b"FALSE", Reserved::False),
];

/// The words among what the profile leaves out.
const LEFT: [(&[u8], Reserved); 2] = [
    (b"RETAIN", Reserved::Retain),
    (b"NON_RETAIN", Reserved::NonRetain),
];

/// What a table has for a word.
fn find(mut table: &[(&[u8], Reserved)], word: &[u8]) -> Option<Reserved>
    ensures { result ≡ spec.find (map (λ r. (r.0.now, r.1)) table.entry.now) word.now }
{
    while let [(spelling, reserved), rest @ ..] = table {
        if *spelling == word {
            return Some(*reserved);
        }
        table = rest;
    }
    None
}

/// The reserved word that a word in capitals is.
#[tactic(auto, unfolding(crate::specs::Sorts::reserved_word))]
pub fn reserved_word(word: &[u8]) -> Option<Reserved>
    ensures { result ≡ spec.reserved_word word.now }
{
    find(&RESERVED, word)
}

/// The word that a token of what is left out is, where it is one.
#[tactic(auto, unfolding(crate::specs::Sorts::left_word))]
pub fn left_word(word: &[u8]) -> Option<Reserved>
    ensures { result ≡ spec.left_word word.now }
{
    find(&LEFT, word)
}
