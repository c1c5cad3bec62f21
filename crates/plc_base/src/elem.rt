//! The elementary types and their numbers.
ghost use Rattle.std.specs.Prelude.{◌≡◌, ◌↔◌, IsTrue};
ghost use Rattle.plc_base.specs.Numbers as spec;

/// The elementary types of the profile, in the order in which typing takes them (IEC 61131-3, 2.3.1).
#[derive(Clone, Copy, Debug, PartialEq, Eq)]
pub enum Elem {
    Sint,
    Int,
    Dint,
    Lint,
    Usint,
    Uint,
    Udint,
    Ulint,
    Byte,
    Word,
    Dword,
    Lword,
    Bool,
    Time,
}

impl Elem {
    /// How many bits its values have.
    fn width(self) -> u32
        ensures { result ≡ spec.width self }
    {
        match self {
            Elem::Bool => 1,
            Elem::Sint | Elem::Usint | Elem::Byte => 8,
            Elem::Int | Elem::Uint | Elem::Word => 16,
            Elem::Dint | Elem::Udint | Elem::Dword => 32,
            Elem::Lint | Elem::Ulint | Elem::Lword | Elem::Time => 64,
        }
    }

    /// Whether its values are two's complement.
    fn is_signed(self) -> bool
        ensures { result ≡ spec.is_signed self }
    {
        matches!(
            self,
            Elem::Sint | Elem::Int | Elem::Dint | Elem::Lint | Elem::Time
        )
    }
}

/// The lowest number of a type.
pub fn low(e: Elem) -> i128
    ensures { result ≡ spec.low e }
{
    match e {
        Elem::Sint => -(1 << 7),
        Elem::Int => -(1 << 15),
        Elem::Dint => -(1 << 31),
        Elem::Lint | Elem::Time => -(1 << 63),
        _ => 0,
    }
}

/// The highest number of a type.
pub fn high(e: Elem) -> i128
    ensures { result ≡ spec.high e }
{
    match e {
        Elem::Bool => 1,
        Elem::Sint => (1 << 7) - 1,
        Elem::Usint | Elem::Byte => (1 << 8) - 1,
        Elem::Int => (1 << 15) - 1,
        Elem::Uint | Elem::Word => (1 << 16) - 1,
        Elem::Dint => (1 << 31) - 1,
        Elem::Udint | Elem::Dword => (1 << 32) - 1,
        Elem::Lint | Elem::Time => (1 << 63) - 1,
        Elem::Ulint | Elem::Lword => (1 << 64) - 1,
    }
}

/// Whether a number is one of the type.
pub fn fits(e: Elem, z: i128) -> bool
    ensures { IsTrue result ↔ spec.Fits e z }
{
    low(e) <= z && z <= high(e)
}

/// The number of the type that differs from `z` by a multiple of 2 to its width.
pub fn wrap(e: Elem, z: i128) -> i128
    ensures { result ≡ spec.wrap e z }
{
    let size = 1i128 << e.width();
    let bits = z.rem_euclid(size);
    if e.is_signed() && bits >= size / 2 {
        bits - size
    } else {
        bits
    }
}
