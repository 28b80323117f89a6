//! The bytes that types begin with.
ghost use Rattle.std.specs.Prelude.{◌≡◌};
ghost use Rattle.ctype_format.specs.Opcodes.{primitive_of, opcode_of};
ghost use Rattle.ctype_format.specs.Grammar.{is_nested};

use crate::raw::Primitive;

/// What a type is, as its first byte says.
#[derive(Clone, Copy, PartialEq, Eq)]
pub enum Opcode {
    Primitive(Primitive),
    Record,
    Variant,
    List,
    Tuple,
    Flags,
    Enum,
    Option,
    Result,
    Function,
    Component,
    Instance,
}

/// Whether a type has declarations.
pub fn is_nested(opcode: Opcode) -> bool
    ensures { result ≡ is_nested opcode }
{
    matches!(opcode, Opcode::Component | Opcode::Instance)
}

/// The primitive with an opcode.
#[tactic(auto, unfolding(crate::specs::Opcodes::primitive_of))]
pub fn primitive_of(byte: u8) -> Option<Primitive>
    ensures { result ≡ primitive_of byte }
{
    let primitive = match byte {
        0x7f => Primitive::Bool,
        0x7e => Primitive::S8,
        0x7d => Primitive::U8,
        0x7c => Primitive::S16,
        0x7b => Primitive::U16,
        0x7a => Primitive::S32,
        0x79 => Primitive::U32,
        0x78 => Primitive::S64,
        0x77 => Primitive::U64,
        0x74 => Primitive::Char,
        0x73 => Primitive::String,
        _ => return None,
    };
    Some(primitive)
}

/// What a type that begins with a byte is.
#[tactic(auto, unfolding(crate::specs::Opcodes::opcode_of))]
pub fn opcode_of(byte: u8) -> Option<Opcode>
    ensures { result ≡ opcode_of byte }
{
    let opcode = match byte {
        0x72 => Opcode::Record,
        0x71 => Opcode::Variant,
        0x70 => Opcode::List,
        0x6f => Opcode::Tuple,
        0x6e => Opcode::Flags,
        0x6d => Opcode::Enum,
        0x6b => Opcode::Option,
        0x6a => Opcode::Result,
        0x40 => Opcode::Function,
        0x41 => Opcode::Component,
        0x42 => Opcode::Instance,
        _ => return primitive_of(byte).map(Opcode::Primitive),
    };
    Some(opcode)
}
