//! Why bytes are not decoded, and where.
ghost use Rattle.std.specs.Prelude.{◌≡◌};
ghost use Rattle.component_structure.specs.declared.error.DecodeError.TheVariants.{NoMemory};

use std::alloc::{AllocError, AllocFailed};
use std::fmt;
use thiserror::Error;

/// What the format has and packages here have not.
#[derive(Clone, Copy)]
pub enum Feature {
    Float,
    Resource,
    FixedLengthList,
    Stream,
    Future,
    ErrorContext,
    Map,
    AsyncFunction,
    NamedResults,
    CoreType,
    CoreModule,
    Value,
    VersionSuffix,
    AscribedType,
    NestedInstance,
    InlineInterface,
    TypeOfWorld,
    Encoding,
    Utf16,
    Section(u8),
}

impl fmt::Display for Feature {
    fn fmt<W: fmt::Write>(&self, f: &mut fmt::Formatter<W>) -> fmt::Result {
        let words = match self {
            Feature::Float => "a float",
            Feature::Resource => "a resource",
            Feature::FixedLengthList => "a list of fixed length",
            Feature::Stream => "a stream",
            Feature::Future => "a future",
            Feature::ErrorContext => "an error context",
            Feature::Map => "a map",
            Feature::AsyncFunction => "an async function",
            Feature::NamedResults => "named results",
            Feature::CoreType => "a core type",
            Feature::CoreModule => "a core module",
            Feature::Value => "a value",
            Feature::VersionSuffix => "a name with a version suffix",
            Feature::AscribedType => "an export with a type of its own",
            Feature::NestedInstance => "an instance in an interface",
            Feature::InlineInterface => "an interface without a full name",
            Feature::TypeOfWorld => "a type in a world",
            Feature::Encoding => "an encoding of another version than 4",
            Feature::Utf16 => "strings in another encoding than UTF-8",
            Feature::Section(id) => return write!(f, "section {id} of a component"),
        };
        f.write_str(words)
    }
}

impl fmt::Debug for Feature {
    fn fmt<W: fmt::Write>(&self, f: &mut fmt::Formatter<W>) -> fmt::Result {
        fmt::Display::fmt(self, f)
    }
}

/// What is wrong at a place.
#[derive(Clone, Copy)]
pub enum Fault {
    /// The bytes begin as no component and no core module does.
    NotComponent,
    /// The bytes do not begin as a core module does.
    NotModule,
    Truncated,
    /// A number of too many bytes or bits.
    Overlong,
    /// This byte is not allowed here.
    UnknownByte(u8),
    /// A part of the format that packages here do not have.
    Outside(Feature),
    NotUtf8,
    NotLabel,
    /// Neither a label nor a full name.
    BadName,
    NameTwice,
    /// A record, variant, tuple, flags or enum without members.
    EmptyType,
    /// More bytes, types, nested types, or flags than are read.
    Limit,
    /// A section ends elsewhere than its size says.
    SizeMismatch,
    /// A section of a core module that is there already, or that has to come before the one in front of it.
    SectionOrder,
    /// A core type of structs or arrays, or one in a group.
    NotFunction,
    /// An index that its space does not have.
    BadIndex,
    /// An alias of a type that the instance does not export.
    NoSuchType,
    /// The index of a type of another sort than is needed.
    WrongSort,
    /// A module without a section whose name begins with `component-type`, or with several that differ.
    NoSection,
    SeveralSections,
    /// The section of a module does not say that it encodes a world.
    NoEncoding,
    BadDocs,
    /// A field of the section `producers` is none of `language`, `processed-by` and `sdk`, or is there twice.
    BadProducers,
    /// Nothing is exported, so it is no package.
    NoExport,
    /// Another count of exports than one.
    NotOneExport,
    NotFullName,
    /// An item has another name than the one that it is exported under.
    OtherName,
    OtherPackage,
    /// A world stands beside imports.
    ImportsAroundWorld,
    /// A record, variant, enum or flags is not exported under a name.
    Unnamed,
    /// A type of another interface without a `use`.
    NotUsed,
    /// An import uses a type of an export.
    OtherSide,
    TwoForms,
    /// An interface of the package is imported and not exported.
    NotExported,
}

impl fmt::Display for Fault {
    fn fmt<W: fmt::Write>(&self, f: &mut fmt::Formatter<W>) -> fmt::Result {
        let words = match self {
            Fault::NotComponent => "neither a component nor a core module",
            Fault::NotModule => "no core module",
            Fault::Truncated => "the bytes end too early",
            Fault::Overlong => "a number is too long",
            Fault::UnknownByte(byte) => return write!(f, "byte {byte:02x} is not known here"),
            Fault::Outside(feature) => return write!(f, "{feature} is not supported"),
            Fault::NotUtf8 => "a name is not UTF-8",
            Fault::NotLabel => "a name is no label",
            Fault::BadName => "a name is neither a label nor a full name",
            Fault::NameTwice => "a name stands twice",
            Fault::EmptyType => "a type has no members",
            Fault::Limit => "a limit is passed",
            Fault::SizeMismatch => "a section ends elsewhere than its size says",
            Fault::SectionOrder => "a section is there twice, or too late",
            Fault::NotFunction => "a type that is no function's is not supported",
            Fault::BadIndex => "there is nothing with this index",
            Fault::NoSuchType => "the instance exports no type of this name",
            Fault::WrongSort => "the index is of another sort of type",
            Fault::NoSection => "the module has no section `component-type`",
            Fault::SeveralSections => "the module has several sections `component-type`",
            Fault::NoEncoding => "the section has no section `wit-component-encoding`",
            Fault::BadDocs => "the section `package-docs` cannot be read",
            Fault::BadProducers => {
                "the section `producers` has a field that is not known, or one twice"
            }
            Fault::NoExport => "nothing is exported: this is no package",
            Fault::NotOneExport => "there is not exactly one export",
            Fault::NotFullName => "an interface or a world has no full name",
            Fault::OtherName => "an item is exported under another name than its own",
            Fault::OtherPackage => "an item is of another package",
            Fault::ImportsAroundWorld => "a world stands beside imports",
            Fault::Unnamed => "a record, variant, enum or flags has no name",
            Fault::NotUsed => "a type of another interface stands there without a `use`",
            Fault::OtherSide => "a type is used across imports and exports",
            Fault::TwoForms => "an interface has two forms",
            Fault::NotExported => "an interface of the package is not exported",
        };
        f.write_str(words)
    }
}

impl fmt::Debug for Fault {
    fn fmt<W: fmt::Write>(&self, f: &mut fmt::Formatter<W>) -> fmt::Result {
        fmt::Display::fmt(self, f)
    }
}

/// Why bytes are not decoded.
#[derive(Clone, Copy, Debug, Error)]
pub enum DecodeError {
    /// A fault, and its offset in the file.
    #[error("{0}, at byte {1}")]
    At(Fault, usize),
    /// 46
    #[error("error 46 no memory")]
    NoMemory,
}

impl From<AllocError> for DecodeError {
    ghost from_gives = { λ _ e. e ≡ NoMemory };

    fn from(_error: AllocError) -> DecodeError {
        DecodeError::NoMemory
    }
}

impl<T: Drop> From<AllocFailed<T>> for DecodeError {
    ghost from_gives = { λ _ e. e ≡ NoMemory };

    fn from(_error: AllocFailed<T>) -> DecodeError {
        DecodeError::NoMemory
    }
}
