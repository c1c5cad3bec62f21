//! The words and signs of what trees hold beside names.
ghost use Rattle.std.specs.Prelude.{◌≡◌};
ghost use Rattle.c_tree.specs.CTokens.{suffix};
ghost use Rattle.c_tree.specs.Spelling as spec;

use crate::sign::Sign;
use crate::tree::{CBin, CNum, CRow, CUn};
use plc_base::Elem;

/// What stands behind the digits of a number.
pub fn suffix(kind: CNum) -> &'static [u8]
    ensures { result.now ≡ suffix kind }
{
    match kind {
        CNum::Int => b"",
        CNum::LL => b"LL",
        CNum::ULL => b"ULL",
    }
}

/// The sign between two sides.
pub fn bin_sign(op: CBin) -> Sign
    ensures { result ≡ spec.bin_sign op }
{
    match op {
        CBin::Add => Sign::Plus,
        CBin::Sub => Sign::Minus,
        CBin::Mul => Sign::Star,
        CBin::Div => Sign::Slash,
        CBin::Rem => Sign::Percent,
        CBin::And => Sign::Ampersand,
        CBin::Or => Sign::Bar,
        CBin::Xor => Sign::Caret,
        CBin::Shl => Sign::ShiftLeft,
        CBin::Shr => Sign::ShiftRight,
        CBin::Eq => Sign::Equal,
        CBin::Ne => Sign::NotEqual,
        CBin::Lt => Sign::Less,
        CBin::Le => Sign::LessEqual,
        CBin::Gt => Sign::Greater,
        CBin::Ge => Sign::GreaterEqual,
    }
}

/// The sign before one side.
pub fn un_sign(op: CUn) -> Sign
    ensures { result ≡ spec.un_sign op }
{
    match op {
        CUn::Minus => Sign::Minus,
        CUn::Not => Sign::Bang,
        CUn::Complement => Sign::Tilde,
    }
}

/// The kind of a debug row.
pub fn row_word(kind: CRow) -> &'static [u8]
    ensures { result.now ≡ spec.row_word kind }
{
    match kind {
        CRow::Var => b"VAR",
        CRow::Loc => b"LOC",
        CRow::Step => b"STEP",
    }
}

/// An elementary type.
pub fn elem_name(elem: Elem) -> &'static [u8]
    ensures { result.now ≡ spec.elem_name elem }
{
    match elem {
        Elem::Sint => b"SINT",
        Elem::Int => b"INT",
        Elem::Dint => b"DINT",
        Elem::Lint => b"LINT",
        Elem::Usint => b"USINT",
        Elem::Uint => b"UINT",
        Elem::Udint => b"UDINT",
        Elem::Ulint => b"ULINT",
        Elem::Byte => b"BYTE",
        Elem::Word => b"WORD",
        Elem::Dword => b"DWORD",
        Elem::Lword => b"LWORD",
        Elem::Bool => b"BOOL",
        Elem::Time => b"TIME",
    }
}

/// The type of a value with flags.
pub fn flagged_name(elem: Elem) -> &'static [u8]
    ensures { result.now ≡ spec.flagged_name elem }
{
    match elem {
        Elem::Sint => b"__IEC_SINT_t",
        Elem::Int => b"__IEC_INT_t",
        Elem::Dint => b"__IEC_DINT_t",
        Elem::Lint => b"__IEC_LINT_t",
        Elem::Usint => b"__IEC_USINT_t",
        Elem::Uint => b"__IEC_UINT_t",
        Elem::Udint => b"__IEC_UDINT_t",
        Elem::Ulint => b"__IEC_ULINT_t",
        Elem::Byte => b"__IEC_BYTE_t",
        Elem::Word => b"__IEC_WORD_t",
        Elem::Dword => b"__IEC_DWORD_t",
        Elem::Lword => b"__IEC_LWORD_t",
        Elem::Bool => b"__IEC_BOOL_t",
        Elem::Time => b"__IEC_TIME_t",
    }
}

/// The type of a cell with flags.
pub fn celled_name(elem: Elem) -> &'static [u8]
    ensures { result.now ≡ spec.celled_name elem }
{
    match elem {
        Elem::Sint => b"__IEC_SINT_p",
        Elem::Int => b"__IEC_INT_p",
        Elem::Dint => b"__IEC_DINT_p",
        Elem::Lint => b"__IEC_LINT_p",
        Elem::Usint => b"__IEC_USINT_p",
        Elem::Uint => b"__IEC_UINT_p",
        Elem::Udint => b"__IEC_UDINT_p",
        Elem::Ulint => b"__IEC_ULINT_p",
        Elem::Byte => b"__IEC_BYTE_p",
        Elem::Word => b"__IEC_WORD_p",
        Elem::Dword => b"__IEC_DWORD_p",
        Elem::Lword => b"__IEC_LWORD_p",
        Elem::Bool => b"__IEC_BOOL_p",
        Elem::Time => b"__IEC_TIME_p",
    }
}
