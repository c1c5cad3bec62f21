//! The walk over the names that the declarations of a source use in its scope.
ghost use Rattle.std.specs.Prelude.{◌≡◌, Some, None, take};
ghost use Rattle.std.specs.List.{flat_map};
ghost use Rattle.plc_base.specs.Least.{Meets};
ghost use Rattle.plc_names.specs.Needs.{init_owners, spec_type};
ghost use Rattle.plc_names.specs.Uses as uses;
ghost use Rattle.plc_uses.specs.Faults as spec;
ghost use Rattle.plc_types.specs.Known.{world_of};

use crate::used::used;
use plc_base::Least;
use plc_names::wants::Want;
use plc_tree::tree::{
    Config, Decl, Id, Init, InitPart, Inst, Item, Member, Pou, PouKind, Resource, Section,
    SectionKind, Spec, TypeDef, TypeWhat, Unit,
};
use plc_types::known::Known;

// ---- owners in initial values

#[cycle(owners)]
fn elements(known: &Known, forward: bool, items: &[Item], met: &mut Least)
    ensures { Meets (flat_map (spec.element_faults forward (world_of known.now)) items.now) met.old met.new }
{
    for item in items {
        element(known, forward, item, met);
    }
}

#[cycle(owners)]
fn element(known: &Known, forward: bool, item: &Item, met: &mut Least)
    ensures { Meets (spec.element_faults forward (world_of known.now) item.now) met.old met.new }
{
    match item {
        Item::One(init) => owners(known, forward, init, met),
        Item::Many { init, .. } => {
            if let Some(init) = init {
                owners(known, forward, init, met);
            }
        }
    }
}

#[cycle(owners)]
fn parts(known: &Known, forward: bool, parts: &[InitPart], met: &mut Least)
    ensures { Meets (flat_map (spec.part_faults forward (world_of known.now)) parts.now) met.old met.new }
{
    for part in parts {
        owners(known, forward, &part.init, met);
    }
}

/// The owners before `#` in an initial value.
#[cycle(owners)]
fn owners(known: &Known, forward: bool, init: &Init, met: &mut Least)
    ensures { Meets (spec.owners_faults forward (world_of known.now) (init_owners init.now)) met.old met.new }
{
    match init {
        Init::Value { owner, at, .. } => used(known, forward, Want::AnEnum, owner, *at, met),
        Init::List { items, .. } => elements(known, forward, items.as_slice(), met),
        Init::Struct { parts: list, .. } => parts(known, forward, list.as_slice(), met),
        Init::Number { .. } | Init::Truth { .. } | Init::Span { .. } | Init::Named(_) => {}
    }
}

// ---- types and initial values

fn want_of_spec(want: Want, what: &Spec) -> Want
    ensures { result ≡ uses.want_of_spec want what.now }
{
    match what {
        Spec::Named(_) => want,
        Spec::Sub { .. } | Spec::Array { .. } => Want::AType,
    }
}

/// The type that is named.
fn type_of(what: &Spec) -> &Id
    ensures { result.now ≡ spec_type what.now }
{
    match what {
        Spec::Named(id) => id,
        Spec::Sub { base, .. } => base,
        Spec::Array { element, .. } => element,
    }
}

/// A type and an initial value.
fn start(
    known: &Known,
    forward: bool,
    want: Want,
    what: &Spec,
    init: &Option<Init>,
    met: &mut Least,
)
    ensures { Meets (spec.start_faults forward (world_of known.now) want what.now init.now) met.old met.new }
{
    let id = type_of(what);
    used(
        known,
        forward,
        want_of_spec(want, what),
        &id.name,
        id.at,
        met,
    );
    if let Some(init) = init {
        owners(known, forward, init, met);
    }
}

fn members(known: &Known, forward: bool, members: &[Member], met: &mut Least)
    ensures { Meets (flat_map (spec.member_faults forward (world_of known.now)) members.now) met.old met.new }
{
    for m in members {
        start(known, forward, Want::AType, &m.spec, &m.init, met);
    }
}

fn type_def(known: &Known, forward: bool, def: &TypeDef, met: &mut Least)
    ensures { Meets (spec.type_faults forward (world_of known.now) def.now) met.old met.new }
{
    match &def.what {
        TypeWhat::Enum { .. } => {}
        TypeWhat::Struct(list) => members(known, forward, list.as_slice(), met),
        TypeWhat::Spec { spec, init } => start(known, forward, Want::AType, spec, init, met),
    }
}

fn type_defs(known: &Known, forward: bool, defs: &[TypeDef], met: &mut Least)
    ensures { Meets (flat_map (spec.type_faults forward (world_of known.now)) defs.now) met.old met.new }
{
    for def in defs {
        type_def(known, forward, def, met);
    }
}

// ---- variables

/// Whether a block may be declared in a section: it is VAR without CONSTANT.
fn holds_blocks(section: &Section) -> bool
    ensures { result ≡ uses.holds_blocks section.now }
{
    matches!(section.kind, SectionKind::Own) && !section.constant
}

/// What a section wants of the types in it: in a program organisation unit of this kind, or of globals.
fn want_in(owner: Option<PouKind>, section: &Section) -> Want
    ensures { result ≡ uses.want_in owner section.now }
{
    match owner {
        None => Want::AType,
        Some(PouKind::Func) => Want::ALeafType,
        Some(PouKind::Block) | Some(PouKind::Prog) => {
            if holds_blocks(section) {
                Want::ATypeOrBlock
            } else {
                Want::AType
            }
        }
    }
}

/// That a located variable is of no block is a rule of its address.
fn want_of(want: Want, decl: &Decl) -> Want
    ensures { result ≡ spec.want_of_decl want decl.now }
{
    if decl.located.is_some() {
        Want::ATypeOrBlock
    } else {
        want
    }
}

fn decl(known: &Known, forward: bool, want: Want, decl: &Decl, met: &mut Least)
    ensures { Meets (spec.decl_faults forward (world_of known.now) want decl.now) met.old met.new }
{
    let want = want_of(want, decl);
    start(known, forward, want, &decl.spec, &decl.init, met);
}

fn decls(known: &Known, forward: bool, want: Want, decls: &[Decl], met: &mut Least)
    ensures { Meets (flat_map (spec.decl_faults forward (world_of known.now) want) decls.now) met.old met.new }
{
    for d in decls {
        decl(known, forward, want, d, met);
    }
}

fn section(known: &Known, forward: bool, owner: Option<PouKind>, section: &Section, met: &mut Least)
    ensures { Meets (spec.section_faults forward (world_of known.now) owner section.now) met.old met.new }
{
    let want = want_in(owner, section);
    decls(known, forward, want, section.decls.as_slice(), met);
}

fn sections(
    known: &Known,
    forward: bool,
    owner: Option<PouKind>,
    sections: &[Section],
    met: &mut Least,
)
    ensures { Meets (flat_map (spec.section_faults forward (world_of known.now) owner) sections.now) met.old met.new }
{
    for s in sections {
        section(known, forward, owner, s, met);
    }
}

fn result_type(known: &Known, forward: bool, ty: &Option<Id>, met: &mut Least)
    ensures { Meets (spec.uses_faults forward (world_of known.now) (uses.result_uses ty.now)) met.old met.new }
{
    if let Some(id) = ty {
        used(known, forward, Want::ALeafType, &id.name, id.at, met);
    }
}

fn pou(known: &Known, forward: bool, pou: &Pou, met: &mut Least)
    ensures { Meets (spec.pou_faults forward (world_of known.now) pou.now) met.old met.new }
{
    result_type(known, forward, &pou.result, met);
    sections(known, forward, Some(pou.kind), pou.sections.as_slice(), met);
}

fn pous(known: &Known, forward: bool, pous: &[Pou], met: &mut Least)
    ensures { Meets (flat_map (spec.pou_faults forward (world_of known.now)) pous.now) met.old met.new }
{
    for p in pous {
        pou(known, forward, p, met);
    }
}

// ---- configurations

fn inst(known: &Known, forward: bool, inst: &Inst, met: &mut Least)
    ensures { Meets (spec.inst_faults forward (world_of known.now) inst.now) met.old met.new }
{
    let program = &inst.program;
    used(
        known,
        forward,
        Want::AProgram,
        &program.name,
        program.at,
        met,
    );
}

fn insts(known: &Known, forward: bool, insts: &[Inst], met: &mut Least)
    ensures { Meets (flat_map (spec.inst_faults forward (world_of known.now)) insts.now) met.old met.new }
{
    for i in insts {
        inst(known, forward, i, met);
    }
}

fn resource(known: &Known, forward: bool, resource: &Resource, met: &mut Least)
    ensures { Meets (spec.resource_faults forward (world_of known.now) resource.now) met.old met.new }
{
    sections(known, forward, None, resource.globals.as_slice(), met);
    insts(known, forward, resource.insts.as_slice(), met);
}

fn resources(known: &Known, forward: bool, resources: &[Resource], met: &mut Least)
    ensures { Meets (flat_map (spec.resource_faults forward (world_of known.now)) resources.now) met.old met.new }
{
    for r in resources {
        resource(known, forward, r, met);
    }
}

fn config(known: &Known, forward: bool, config: &Config, met: &mut Least)
    ensures { Meets (spec.config_faults forward (world_of known.now) config.now) met.old met.new }
{
    sections(known, forward, None, config.globals.as_slice(), met);
    resources(known, forward, config.resources.as_slice(), met);
}

/// What stands in the first configuration; a second one is not looked at.
fn configs(known: &Known, forward: bool, configs: &[Config], met: &mut Least)
    ensures { Meets (flat_map (spec.config_faults forward (world_of known.now)) (take 1 configs.now)) met.old met.new }
{
    if let Some(first) = configs.first() {
        config(known, forward, first, met);
    }
}

/// All names that the declarations of a source use in its scope.
pub fn meet_uses(known: &Known, forward: bool, unit: &Unit, met: &mut Least)
    ensures { Meets (spec.all_uses_faults forward (world_of known.now) unit.now) met.old met.new }
{
    type_defs(known, forward, unit.types.as_slice(), met);
    pous(known, forward, unit.pous.as_slice(), met);
    configs(known, forward, unit.configs.as_slice(), met);
}
