//! The parts of exports' names.
ghost use Rattle.ctype_format.specs.Names.{name_view};
ghost use Rattle.component_reader.specs.Names.{IsExternName};

use atoms::FullName;
use ctype_bin::ExternName;

/// A full name, by the bytes of its labels.
#[derive(Clone, Copy)]
pub struct FullNameParts<'a> {
    pub namespace: &'a [u8],
    pub package: &'a [u8],
    pub name: &'a [u8],
    pub version: &'a Option<String>,
}

/// A name, by the bytes of its labels.
#[derive(Clone, Copy)]
pub enum NameParts<'a> {
    Label(&'a [u8]),
    FullName(FullNameParts<'a>),
}

/// The parts of a name.
pub fn name_parts(name: &ExternName) -> NameParts<'_>
    ensures { IsExternName (name_view name.now) result }
{
    match name {
        ExternName::Label(label) => NameParts::Label(label.as_bytes()),
        ExternName::FullName(name) => {
            let name: &FullName = name;
            NameParts::FullName(FullNameParts {
                namespace: name.namespace.as_bytes(),
                package: name.package.as_bytes(),
                name: name.name.as_bytes(),
                version: &name.version,
            })
        }
    }
}
