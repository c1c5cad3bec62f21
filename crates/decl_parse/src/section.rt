//! Sections of declarations.
ghost use Rattle.std.specs.Prelude.{◌≡◌, ◌<◌, [], false};
ghost use Rattle.phrase.specs.Piece.{many};
ghost use Rattle.phrase.specs.Reads.{OnlyMemory, Reads};
ghost use Rattle.plc_tokens.specs.Sets.{NAME};
ghost use Rattle.decl_parse.specs.Sections as spec;

use phrase::Stop;
use plc_base::{Kind, Place};
use plc_tokens::Token;
use plc_tokens::reader::{Reader, is_one_of};
use plc_tokens::sets::{
    ADDRESS, AT, COLON, CONSTANT, END_VAR, INPUT_OUTPUT, NAME, RETAIN, RETENTION, SEMI, VAR,
    VAR_EXTERNAL, VAR_GLOBAL, VAR_IN_OUT, VAR_INPUT,
};
use plc_tokens::sort::seen_in;
use plc_tree::tree::{Decl, Id, Located, Section, SectionKind, Spec};
use sqlite_items::Items;
use std::alloc::Global;
use type_parse::initial::init_if_any;
use type_parse::name::{more_names, name, tname};
use type_parse::spec::spec;

/// What a section is, but for its declarations.
#[derive(Clone, Copy)]
struct Head {
    kind: SectionKind,
    constant: bool,
    keep: bool,
    at: Place,
    mark: Place,
}

impl Head {
    /// A section without a word behind its first.
    fn plain(kind: SectionKind, at: Place) -> Head
        ensures { result ≡ record { kind = kind; constant = false; keep = false; at = at; mark = at } }
    {
        Head {
            kind,
            constant: false,
            keep: false,
            at,
            mark: at,
        }
    }
}

// ---- declarations

#[tactic(auto, unfolding(crate::specs::Sections::vdecl_rest))]
fn vdecl_rest(alloc: Global, tokens: &mut Reader<'_>, room: u32, first: Id) -> Result<Decl, Stop>
    requires { room < 65 }
    ensures { Reads ((spec.vdecl_rest room first).run tokens.old) result tokens.new }
{
    let names = more_names(alloc, tokens, first)?;
    tokens.take(&COLON)?;
    let spec = spec(alloc, tokens)?;
    let init = init_if_any(alloc, tokens, room)?;
    tokens.take(&SEMI)?;
    Ok(Decl {
        names,
        located: None,
        spec,
        init,
    })
}

#[tactic(auto, unfolding(crate::specs::Sections::vdecl))]
fn vdecl(alloc: Global, tokens: &mut Reader<'_>, room: u32) -> Result<Decl, Stop>
    requires { room < 65 }
    ensures { Reads ((spec.vdecl room).run tokens.old) result tokens.new }
{
    let first = name(alloc, tokens)?;
    vdecl_rest(alloc, tokens, room, first)
}

/// Where a variable lies, as a token says.
fn location(alloc: Global, token: &Token) -> Result<Located, Stop>
    ensures { OnlyMemory result (spec.location token.now) }
{
    match &token.kind {
        Kind::Address { dir, size, numbers } => Ok(Located {
            dir: *dir,
            size: *size,
            numbers: Items::from_slice(alloc, numbers.as_slice())?,
            at: token.place,
        }),
        _ => Ok(Located {
            dir: 0,
            size: 0,
            numbers: Items::new(alloc),
            at: token.place,
        }),
    }
}

#[tactic(auto, unfolding(crate::specs::Sections::ldecl_rest))]
fn ldecl_rest(alloc: Global, tokens: &mut Reader<'_>, room: u32, first: Id) -> Result<Decl, Stop>
    requires { room < 65 }
    ensures { Reads ((spec.ldecl_rest room first).run tokens.old) result tokens.new }
{
    tokens.take(&AT)?;
    let address = tokens.take(&ADDRESS)?;
    tokens.take(&COLON)?;
    let of = tname(alloc, tokens)?;
    let init = init_if_any(alloc, tokens, room)?;
    tokens.take(&SEMI)?;
    let located = location(alloc, address)?;
    let mut names = Items::new(alloc);
    names.push(first)?;
    Ok(Decl {
        names,
        located: Some(located),
        spec: Spec::Named(of),
        init,
    })
}

#[tactic(auto, unfolding(crate::specs::Sections::any_decl))]
fn any_decl(alloc: Global, tokens: &mut Reader<'_>, room: u32) -> Result<Decl, Stop>
    requires { room < 65 }
    ensures { Reads ((spec.any_decl room).run tokens.old) result tokens.new }
{
    let first = name(alloc, tokens)?;
    if tokens.sees(&AT) {
        ldecl_rest(alloc, tokens, room, first)
    } else {
        vdecl_rest(alloc, tokens, room, first)
    }
}

#[tactic(auto, unfolding(crate::specs::Sections::next_vdecl))]
fn next_vdecl(
    alloc: Global,
    tokens: &mut Reader<'_>,
    room: u32,
    mut decls: Items<Decl>,
) -> Result<Items<Decl>, Stop>
    requires { room < 65 }
    ensures { Reads ((spec.next_vdecl room decls).run tokens.old) result tokens.new }
{
    let decl = vdecl(alloc, tokens, room)?;
    decls.push(decl)?;
    Ok(decls)
}

#[tactic(auto, unfolding(crate::specs::Sections::next_any_decl))]
fn next_any_decl(
    alloc: Global,
    tokens: &mut Reader<'_>,
    room: u32,
    mut decls: Items<Decl>,
) -> Result<Items<Decl>, Stop>
    requires { room < 65 }
    ensures { Reads ((spec.next_any_decl room decls).run tokens.old) result tokens.new }
{
    let decl = any_decl(alloc, tokens, room)?;
    decls.push(decl)?;
    Ok(decls)
}

#[tactic(auto, using(phrase::proofs::Loops::going_starts, phrase::proofs::Loops::going_on, phrase::proofs::Loops::going_fails, phrase::proofs::Loops::going_stops, phrase::proofs::Loops::going_ends))]
fn vdecls(alloc: Global, tokens: &mut Reader<'_>, room: u32) -> Result<Items<Decl>, Stop>
    requires { room < 65 }
    ensures { Reads ((many NAME (spec.next_vdecl room) []).run tokens.old) result tokens.new }
{
    let mut decls = Items::new(alloc);
    for _turn in 0..tokens.left() {
        if !tokens.sees(&NAME) {
            return Ok(decls);
        }
        decls = next_vdecl(alloc, tokens, room, decls)?;
    }
    Ok(decls)
}

#[tactic(auto, using(phrase::proofs::Loops::going_starts, phrase::proofs::Loops::going_on, phrase::proofs::Loops::going_fails, phrase::proofs::Loops::going_stops, phrase::proofs::Loops::going_ends))]
fn any_decls(alloc: Global, tokens: &mut Reader<'_>, room: u32) -> Result<Items<Decl>, Stop>
    requires { room < 65 }
    ensures { Reads ((many NAME (spec.next_any_decl room) []).run tokens.old) result tokens.new }
{
    let mut decls = Items::new(alloc);
    for _turn in 0..tokens.left() {
        if !tokens.sees(&NAME) {
            return Ok(decls);
        }
        decls = next_any_decl(alloc, tokens, room, decls)?;
    }
    Ok(decls)
}

// ---- sections, behind their first word

#[tactic(auto, unfolding(crate::specs::Sections::plain_rest))]
fn plain_rest(
    alloc: Global,
    tokens: &mut Reader<'_>,
    room: u32,
    head: Head,
) -> Result<Section, Stop>
    requires { room < 65 }
    ensures { Reads ((spec.plain_rest room head.kind head.constant head.keep head.at head.mark).run tokens.old) result tokens.new }
{
    let decls = vdecls(alloc, tokens, room)?;
    tokens.take(&END_VAR)?;
    Ok(Section {
        kind: head.kind,
        constant: head.constant,
        keep: head.keep,
        at: head.at,
        mark: head.mark,
        decls,
    })
}

#[tactic(auto, unfolding(crate::specs::Sections::located_rest))]
fn located_rest(
    alloc: Global,
    tokens: &mut Reader<'_>,
    room: u32,
    head: Head,
) -> Result<Section, Stop>
    requires { room < 65 }
    ensures { Reads ((spec.located_rest room head.kind head.constant head.at head.mark).run tokens.old) result tokens.new }
{
    let decls = any_decls(alloc, tokens, room)?;
    tokens.take(&END_VAR)?;
    Ok(Section {
        kind: head.kind,
        constant: head.constant,
        keep: false,
        at: head.at,
        mark: head.mark,
        decls,
    })
}

#[tactic(auto, unfolding(crate::specs::Sections::constant_rest))]
fn constant_rest(
    alloc: Global,
    tokens: &mut Reader<'_>,
    room: u32,
    kind: SectionKind,
    at: Place,
) -> Result<Section, Stop>
    requires { room < 65 }
    ensures { Reads ((spec.constant_rest room kind at).run tokens.old) result tokens.new }
{
    let word = tokens.take(&CONSTANT)?;
    let head = Head {
        kind,
        constant: true,
        keep: false,
        at,
        mark: word.place,
    };
    plain_rest(alloc, tokens, room, head)
}

#[tactic(auto, unfolding(crate::specs::Sections::constant_or_not))]
fn constant_or_not(
    alloc: Global,
    tokens: &mut Reader<'_>,
    room: u32,
    kind: SectionKind,
    at: Place,
) -> Result<Section, Stop>
    requires { room < 65 }
    ensures { Reads ((spec.constant_or_not room kind at).run tokens.old) result tokens.new }
{
    if tokens.sees(&CONSTANT) {
        constant_rest(alloc, tokens, room, kind, at)
    } else {
        plain_rest(alloc, tokens, room, Head::plain(kind, at))
    }
}

#[tactic(auto, unfolding(crate::specs::Sections::retained_rest))]
fn retained_rest(
    alloc: Global,
    tokens: &mut Reader<'_>,
    room: u32,
    kind: SectionKind,
    at: Place,
) -> Result<Section, Stop>
    requires { room < 65 }
    ensures { Reads ((spec.retained_rest room kind at).run tokens.old) result tokens.new }
{
    let word = tokens.take(&RETENTION)?;
    let head = Head {
        kind,
        constant: false,
        keep: is_one_of(seen_in(word, false), &RETAIN),
        at,
        mark: word.place,
    };
    plain_rest(alloc, tokens, room, head)
}

#[tactic(auto, unfolding(crate::specs::Sections::retained_or_not))]
fn retained_or_not(
    alloc: Global,
    tokens: &mut Reader<'_>,
    room: u32,
    kind: SectionKind,
    at: Place,
) -> Result<Section, Stop>
    requires { room < 65 }
    ensures { Reads ((spec.retained_or_not room kind at).run tokens.old) result tokens.new }
{
    if tokens.sees(&RETENTION) {
        retained_rest(alloc, tokens, room, kind, at)
    } else {
        plain_rest(alloc, tokens, room, Head::plain(kind, at))
    }
}

#[tactic(auto, unfolding(crate::specs::Sections::own_rest))]
fn own_rest(
    alloc: Global,
    tokens: &mut Reader<'_>,
    room: u32,
    kind: SectionKind,
    at: Place,
) -> Result<Section, Stop>
    requires { room < 65 }
    ensures { Reads ((spec.own_rest room kind at).run tokens.old) result tokens.new }
{
    if tokens.sees(&CONSTANT) {
        constant_rest(alloc, tokens, room, kind, at)
    } else {
        retained_or_not(alloc, tokens, room, kind, at)
    }
}

#[tactic(auto, unfolding(crate::specs::Sections::located_constant_rest))]
fn located_constant_rest(
    alloc: Global,
    tokens: &mut Reader<'_>,
    room: u32,
    kind: SectionKind,
    at: Place,
) -> Result<Section, Stop>
    requires { room < 65 }
    ensures { Reads ((spec.located_constant_rest room kind at).run tokens.old) result tokens.new }
{
    let word = tokens.take(&CONSTANT)?;
    let head = Head {
        kind,
        constant: true,
        keep: false,
        at,
        mark: word.place,
    };
    located_rest(alloc, tokens, room, head)
}

#[tactic(auto, unfolding(crate::specs::Sections::any_rest))]
fn any_rest(
    alloc: Global,
    tokens: &mut Reader<'_>,
    room: u32,
    kind: SectionKind,
    at: Place,
) -> Result<Section, Stop>
    requires { room < 65 }
    ensures { Reads ((spec.any_rest room kind at).run tokens.old) result tokens.new }
{
    if tokens.sees(&CONSTANT) {
        return located_constant_rest(alloc, tokens, room, kind, at);
    }
    if tokens.sees(&RETENTION) {
        return retained_rest(alloc, tokens, room, kind, at);
    }
    located_rest(alloc, tokens, room, Head::plain(kind, at))
}

// ---- sections

#[tactic(auto, unfolding(crate::specs::Sections::function_input))]
fn function_input(alloc: Global, tokens: &mut Reader<'_>, room: u32) -> Result<Section, Stop>
    requires { room < 65 }
    ensures { Reads ((spec.function_input room).run tokens.old) result tokens.new }
{
    let word = tokens.take(&VAR_INPUT)?;
    let head = Head::plain(SectionKind::Input, word.place);
    plain_rest(alloc, tokens, room, head)
}

#[tactic(auto, unfolding(crate::specs::Sections::function_own))]
fn function_own(alloc: Global, tokens: &mut Reader<'_>, room: u32) -> Result<Section, Stop>
    requires { room < 65 }
    ensures { Reads ((spec.function_own room).run tokens.old) result tokens.new }
{
    let word = tokens.take(&VAR)?;
    constant_or_not(alloc, tokens, room, SectionKind::Own, word.place)
}

#[tactic(auto, unfolding(crate::specs::Sections::function_section))]
fn function_section(alloc: Global, tokens: &mut Reader<'_>, room: u32) -> Result<Section, Stop>
    requires { room < 65 }
    ensures { Reads ((spec.function_section room).run tokens.old) result tokens.new }
{
    if tokens.sees(&VAR_INPUT) {
        function_input(alloc, tokens, room)
    } else {
        function_own(alloc, tokens, room)
    }
}

/// Inputs or outputs, by the first word of their section.
fn passed(word: &Token) -> SectionKind
    ensures { result ≡ spec.passed word.now }
{
    if is_one_of(seen_in(word, false), &VAR_INPUT) {
        SectionKind::Input
    } else {
        SectionKind::Output
    }
}

#[tactic(auto, unfolding(crate::specs::Sections::input_output))]
fn input_output(alloc: Global, tokens: &mut Reader<'_>, room: u32) -> Result<Section, Stop>
    requires { room < 65 }
    ensures { Reads ((spec.input_output room).run tokens.old) result tokens.new }
{
    let word = tokens.take(&INPUT_OUTPUT)?;
    retained_or_not(alloc, tokens, room, passed(word), word.place)
}

#[tactic(auto, unfolding(crate::specs::Sections::in_out))]
fn in_out(alloc: Global, tokens: &mut Reader<'_>, room: u32) -> Result<Section, Stop>
    requires { room < 65 }
    ensures { Reads ((spec.in_out room).run tokens.old) result tokens.new }
{
    let word = tokens.take(&VAR_IN_OUT)?;
    let head = Head::plain(SectionKind::InOut, word.place);
    plain_rest(alloc, tokens, room, head)
}

#[tactic(auto, unfolding(crate::specs::Sections::external))]
fn external(alloc: Global, tokens: &mut Reader<'_>, room: u32) -> Result<Section, Stop>
    requires { room < 65 }
    ensures { Reads ((spec.external room).run tokens.old) result tokens.new }
{
    let word = tokens.take(&VAR_EXTERNAL)?;
    constant_or_not(alloc, tokens, room, SectionKind::External, word.place)
}

#[tactic(auto, unfolding(crate::specs::Sections::block_own))]
fn block_own(alloc: Global, tokens: &mut Reader<'_>, room: u32) -> Result<Section, Stop>
    requires { room < 65 }
    ensures { Reads ((spec.block_own room).run tokens.old) result tokens.new }
{
    let word = tokens.take(&VAR)?;
    own_rest(alloc, tokens, room, SectionKind::Own, word.place)
}

#[tactic(auto, unfolding(crate::specs::Sections::block_section))]
fn block_section(alloc: Global, tokens: &mut Reader<'_>, room: u32) -> Result<Section, Stop>
    requires { room < 65 }
    ensures { Reads ((spec.block_section room).run tokens.old) result tokens.new }
{
    if tokens.sees(&INPUT_OUTPUT) {
        return input_output(alloc, tokens, room);
    }
    if tokens.sees(&VAR_IN_OUT) {
        return in_out(alloc, tokens, room);
    }
    if tokens.sees(&VAR_EXTERNAL) {
        return external(alloc, tokens, room);
    }
    block_own(alloc, tokens, room)
}

#[tactic(auto, unfolding(crate::specs::Sections::program_own))]
fn program_own(alloc: Global, tokens: &mut Reader<'_>, room: u32) -> Result<Section, Stop>
    requires { room < 65 }
    ensures { Reads ((spec.program_own room).run tokens.old) result tokens.new }
{
    let word = tokens.take(&VAR)?;
    any_rest(alloc, tokens, room, SectionKind::Own, word.place)
}

#[tactic(auto, unfolding(crate::specs::Sections::program_section))]
fn program_section(alloc: Global, tokens: &mut Reader<'_>, room: u32) -> Result<Section, Stop>
    requires { room < 65 }
    ensures { Reads ((spec.program_section room).run tokens.old) result tokens.new }
{
    if tokens.sees(&INPUT_OUTPUT) {
        return input_output(alloc, tokens, room);
    }
    if tokens.sees(&VAR_IN_OUT) {
        return in_out(alloc, tokens, room);
    }
    if tokens.sees(&VAR_EXTERNAL) {
        return external(alloc, tokens, room);
    }
    program_own(alloc, tokens, room)
}

#[tactic(auto, unfolding(crate::specs::Sections::globals))]
fn globals(alloc: Global, tokens: &mut Reader<'_>, room: u32) -> Result<Section, Stop>
    requires { room < 65 }
    ensures { Reads ((spec.globals room).run tokens.old) result tokens.new }
{
    let word = tokens.take(&VAR_GLOBAL)?;
    any_rest(alloc, tokens, room, SectionKind::Global, word.place)
}

/// A section of a function behind others, where `room` nodes may open in each initial value.
#[tactic(auto, unfolding(crate::specs::Sections::next_function_section))]
pub fn next_function_section(
    alloc: Global,
    tokens: &mut Reader<'_>,
    room: u32,
    mut sections: Items<Section>,
) -> Result<Items<Section>, Stop>
    requires { room < 65 }
    ensures { Reads ((spec.next_function_section room sections).run tokens.old) result tokens.new }
{
    let section = function_section(alloc, tokens, room)?;
    sections.push(section)?;
    Ok(sections)
}

/// The same of a function block.
#[tactic(auto, unfolding(crate::specs::Sections::next_block_section))]
pub fn next_block_section(
    alloc: Global,
    tokens: &mut Reader<'_>,
    room: u32,
    mut sections: Items<Section>,
) -> Result<Items<Section>, Stop>
    requires { room < 65 }
    ensures { Reads ((spec.next_block_section room sections).run tokens.old) result tokens.new }
{
    let section = block_section(alloc, tokens, room)?;
    sections.push(section)?;
    Ok(sections)
}

/// The same of a program.
#[tactic(auto, unfolding(crate::specs::Sections::next_program_section))]
pub fn next_program_section(
    alloc: Global,
    tokens: &mut Reader<'_>,
    room: u32,
    mut sections: Items<Section>,
) -> Result<Items<Section>, Stop>
    requires { room < 65 }
    ensures { Reads ((spec.next_program_section room sections).run tokens.old) result tokens.new }
{
    let section = program_section(alloc, tokens, room)?;
    sections.push(section)?;
    Ok(sections)
}

/// Global variables behind others.
#[tactic(auto, unfolding(crate::specs::Sections::next_globals))]
pub fn next_globals(
    alloc: Global,
    tokens: &mut Reader<'_>,
    room: u32,
    mut sections: Items<Section>,
) -> Result<Items<Section>, Stop>
    requires { room < 65 }
    ensures { Reads ((spec.next_globals room sections).run tokens.old) result tokens.new }
{
    let section = globals(alloc, tokens, room)?;
    sections.push(section)?;
    Ok(sections)
}
