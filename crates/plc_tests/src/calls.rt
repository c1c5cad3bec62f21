//! Calls of the lower layers that no run of the top call makes.
ghost use Rattle.std.specs.Prelude.{◌≤◌, length};

use c_tree::printing::print;
use c_tree::text::CText;
use c_tree::tree::{CBin, CExpr, CItem, CNum, CPart, CStmt, CType, CUn, CUnit};
use plc_base::{Elem, Kind, Name, OutOfMemory, Place, Refusal, Rule, Stop};
use plc_lex::{Tokens, lex};
use plc_top::{Options, Status, compile};
use sqlite_items::{Boxed, Items};
use std::alloc::Global;
use std::test::Fail;

/// A source that is accepted.
const SAMPLE: &[u8] =
    b"PROGRAM P\nVAR A : INT; B : BOOL; END_VAR\n\nEND_PROGRAM\nCONFIGURATION C RESOURCE R ON PLC TASK T0(INTERVAL := T#20ms, PRIORITY := 0); PROGRAM I WITH T0 : P; END_RESOURCE END_CONFIGURATION\n";

/// What is told of a token beside its kind.
fn told(tokens: &Tokens, i: usize) -> (Option<Place>, Option<(u32, u32)>, bool) {
    (tokens.place(i), tokens.last(i), tokens.fresh(i))
}

#[test]
fn tokens_of_a_bad_file(rt: HostRuntime) -> Result<(), Fail> {
    let tokens = Tokens::of_bad(rt.alloc(), 3, Rule::NotYet)?;
    let start = Place {
        file: 3,
        line: 1,
        col: 1,
        token: 0,
    };
    assert!(rt; !tokens.is_empty());
    assert!(rt; matches!(tokens.kind(0), Some(Kind::Bad(Rule::NotYet))));
    assert_eq!(rt; told(&tokens, 0), (Some(start), Some((1, 1)), false));
    assert_eq!(rt; told(&tokens, 1), (None, None, false));
    Ok(())
}

#[test]
fn tokens_of_a_text_that_is_cut(rt: HostRuntime) -> Result<(), Fail> {
    let mut tokens = lex(rt.alloc(), b"t0\n:= 7_0", 2, false)?;
    assert_eq!(rt; tokens.len(), 4);
    tokens.cut(1, Rule::NotYet);
    let second = Place {
        file: 2,
        line: 2,
        col: 1,
        token: 1,
    };
    assert_eq!(rt; tokens.len(), 2);
    assert!(rt; matches!(tokens.kind(1), Some(Kind::Bad(Rule::NotYet))));
    assert_eq!(rt; told(&tokens, 1), (Some(second), Some((2, 1)), true));
    assert!(rt; tokens.kind(2).is_none());
    Ok(())
}

/// The texts of a source of at most 4 MiB, by its tokens.
#[tactic(auto, using(crate::proofs::SmallSources::small))]
fn compile_tokens(alloc: Global, source: &[u8]) -> Result<Vec<CText>, Stop>
    requires { length source.now ≤ 4194304 }
{
    let options = Options {
        full: false,
        relaxed: false,
        forward: false,
        nested: false,
    };
    let tokens = lex(alloc, source, 0, false)?;
    compile(alloc, &options, &tokens)
}

#[test]
fn tokens_are_compiled(rt: HostRuntime) -> Result<(), Fail> {
    let alloc = rt.alloc();
    assert!(rt; SAMPLE.len() <= 4_194_304);
    let texts = compile_tokens(alloc, SAMPLE)?;
    assert_eq!(rt; texts.len(), 6);
    assert_eq!(rt; texts[0].name.bytes(), b"POUS.h".as_slice());
    assert_eq!(rt; texts[1].bytes.bytes(), b"".as_slice());
    assert_eq!(rt; texts[5].name.bytes(), b"plc_debugger.c".as_slice());
    let here = Place {
        file: 0,
        line: 1,
        col: 9,
        token: 1,
    };
    let refusal = Refusal {
        rule: Rule::G1,
        place: here,
    };
    let refused = compile_tokens(alloc, b"PROGRAM 7");
    assert_eq!(rt; refused.err(), Some(Stop::Refused(refusal)));
    Ok(())
}

#[test]
fn one_part_is_printed(rt: HostRuntime) -> Result<(), Fail> {
    let alloc = rt.alloc();
    let mut items = Items::new(alloc);
    items.push(CItem::Object {
        ty: CType::Plain(Elem::Int),
        name: Name::new(alloc, b"A")?,
        dims: Items::new(alloc),
    })?;
    let mut parts = Items::new(alloc);
    parts.push(CPart {
        name: Name::new(alloc, b"a.c")?,
        items,
    })?;
    let unit = CUnit { parts };
    assert!(rt; 0 < unit.parts.as_slice().len());
    let text = print(alloc, &unit, 0)?;
    assert_eq!(rt;
        text.as_slice(),
        b"#include \"iec_std_lib.h\"\nINT A;\n".as_slice()
    );
    Ok(())
}

fn number(value: u64) -> CExpr {
    CExpr::Number {
        value,
        kind: CNum::Int,
    }
}

fn before(alloc: Global, op: CUn, inner: CExpr) -> Result<CExpr, OutOfMemory> {
    Ok(CExpr::Un {
        op,
        inner: Boxed::new(alloc, inner)?,
    })
}

fn between(alloc: Global, left: CExpr, op: CBin, right: CExpr) -> Result<CExpr, OutOfMemory> {
    Ok(CExpr::Bin {
        op,
        left: Boxed::new(alloc, left)?,
        right: Boxed::new(alloc, right)?,
    })
}

/// A value of the operators that no source leads to yet.
fn operators(alloc: Global) -> Result<CExpr, OutOfMemory> {
    let minus = before(alloc, CUn::Minus, number(1))?;
    let quotient = between(alloc, number(2), CBin::Div, number(3))?;
    let complement = before(alloc, CUn::Complement, quotient)?;
    let not = before(alloc, CUn::Not, number(4))?;
    let right = between(alloc, not, CBin::Shr, number(5))?;
    let left = between(alloc, complement, CBin::Shl, right)?;
    between(alloc, minus, CBin::Rem, left)
}

#[test]
fn operators_are_printed(rt: HostRuntime) -> Result<(), Fail> {
    let alloc = rt.alloc();
    let mut body = Items::new(alloc);
    body.push(CStmt::Return(Some(operators(alloc)?)))?;
    let mut items = Items::new(alloc);
    items.push(CItem::Func {
        result: Some(Elem::Int),
        name: Name::new(alloc, b"F")?,
        params: Items::new(alloc),
        locals: Items::new(alloc),
        body,
    })?;
    let mut parts = Items::new(alloc);
    parts.push(CPart {
        name: Name::new(alloc, b"a.c")?,
        items,
    })?;
    let unit = CUnit { parts };
    assert!(rt; 0 < unit.parts.as_slice().len());
    let text = print(alloc, &unit, 0)?;
    assert_eq!(rt;
        text.as_slice(),
        b"#include \"iec_std_lib.h\"\nINT F(void){\nreturn((-1) % ((~(2 / 3)) << ((!4) >> 5)));\n}\n".as_slice()
    );
    Ok(())
}

#[test]
fn numbers_of_statuses(rt: HostRuntime) {
    assert_eq!(rt; Status::Done.number(), 0);
    assert_eq!(rt; Status::Refused.number(), 1);
    assert_eq!(rt; Status::Usage.number(), 2);
    assert_eq!(rt; Status::ReadFault.number(), 3);
    assert_eq!(rt; Status::WriteFault.number(), 4);
    assert_eq!(rt; Status::NoMemory.number(), 5);
}
