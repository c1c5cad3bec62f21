//! The names of the elementary types (IEC 61131-3, 2.3.1).
ghost use Rattle.std.specs.Prelude.{◌≡◌, map};
ghost use Rattle.std.specs.Map.{lookup};
ghost use Rattle.std.specs.Str.{bytes_eq};
ghost use Rattle.plc_names.specs.Types as spec;

use plc_base::Elem;

const ELEMENTARY: [(&[u8], Elem); 14] = [
    (b"SINT", Elem::Sint),
    (b"INT", Elem::Int),
    (b"DINT", Elem::Dint),
    (b"LINT", Elem::Lint),
    (b"USINT", Elem::Usint),
    (b"UINT", Elem::Uint),
    (b"UDINT", Elem::Udint),
    (b"ULINT", Elem::Ulint),
    (b"BYTE", Elem::Byte),
    (b"WORD", Elem::Word),
    (b"DWORD", Elem::Dword),
    (b"LWORD", Elem::Lword),
    (b"BOOL", Elem::Bool),
    (b"TIME", Elem::Time),
];

/// What a table has for a name.
fn find(mut table: &[(&[u8], Elem)], name: &[u8]) -> Option<Elem>
    ensures { result ≡ lookup (bytes_eq name.now) (map (λ r. (r.0.now, r.1)) table.entry.now) }
{
    while let [(spelling, elem), rest @ ..] = table {
        if name == *spelling {
            return Some(*elem);
        }
        table = rest;
    }
    None
}

/// The elementary type of this name.
#[tactic(auto, unfolding(plc_names::specs::Types::elem_named))]
pub fn elem_named(name: &[u8]) -> Option<Elem>
    ensures { result ≡ spec.elem_named name.now }
{
    find(&ELEMENTARY, name)
}
