//! The names of a table: labels, as their type has it.
ghost use Rattle.std.specs.Prelude.{map, flat_map, All};
ghost use Rattle.atoms.specs.Label.{IsLabel};
ghost use Rattle.package_form.specs.Entries.{labels_of};
ghost use Rattle.package_form.specs.Naming.{field_name, case_name, parameter_name, label_of, kind_members};
ghost use Rattle.package_text.specs.Writable.{row_labels, package_labels};

use atoms::Label;
use tables::{Case, Definition, Field, Interface, Parameter, Resolve, TypeDefKind, World};

fn fields(fields: &[Field])
    ensures { All IsLabel (map field_name fields.now) }
{
    for field in fields {
        field.name.as_bytes();
    }
}

fn cases(cases: &[Case])
    ensures { All IsLabel (map case_name cases.now) }
{
    for case in cases {
        case.name.as_bytes();
    }
}

fn parameters(parameters: &[Parameter])
    ensures { All IsLabel (map parameter_name parameters.now) }
{
    for parameter in parameters {
        parameter.name.as_bytes();
    }
}

fn labels(labels: &[Label])
    ensures { All IsLabel labels.now }
{
    for label in labels {
        label.as_bytes();
    }
}

fn members(kind: &TypeDefKind)
    ensures { All IsLabel (kind_members kind.now) }
{
    match kind {
        TypeDefKind::Record(members) => fields(members.as_slice()),
        TypeDefKind::Variant(choices) => cases(choices.as_slice()),
        TypeDefKind::Enum(names) | TypeDefKind::Flags(names) => labels(names.as_slice()),
        _ => {}
    }
}

fn row(row: &Definition)
    ensures { All IsLabel (row_labels row.now) }
{
    match row {
        Definition::Type(definition) => {
            if let Some(name) = &definition.name {
                name.name.as_bytes();
            }
            members(&definition.kind);
        }
        Definition::Function(function) => {
            function.name.as_bytes();
            parameters(function.params.as_slice());
        }
    }
}

fn rows(rows: &[Definition])
    ensures { All IsLabel (flat_map row_labels rows.now) }
{
    for definition in rows {
        row(definition);
    }
}

fn interfaces(interfaces: &[Interface])
    ensures { All IsLabel (labels_of interfaces.now) }
{
    for interface in interfaces {
        interface.name.as_bytes();
    }
}

fn worlds(worlds: &[World])
    ensures { All IsLabel (map label_of worlds.now) }
{
    for world in worlds {
        world.name.as_bytes();
    }
}

/// Each name of a table is a label: looks at each, and allocates nothing.
pub fn names_are_labels(resolve: &Resolve)
    ensures { All IsLabel (package_labels resolve.now) }
{
    interfaces(resolve.interfaces.as_slice());
    worlds(resolve.worlds.as_slice());
    rows(resolve.definitions.as_slice());
}
