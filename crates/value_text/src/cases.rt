//! The cases of variants, options, results and enums, by their numbers.
ghost use Rattle.value_text.specs.Cases.{IsAnyCase, IsCase, cases_of_kind};

use tables::{TypeDefKind, ValType};

/// The label of a case, and its payload's type if it has one.
pub(crate) fn named_case(kind: &TypeDefKind, number: u32) -> (&str, Option<ValType>)
    requires { IsAnyCase (cases_of_kind kind.now) number }
    ensures { IsCase (cases_of_kind kind.now) number result.0.now result.1 }
{
    match kind {
        TypeDefKind::Variant(cases) => {
            let case = &cases.as_slice()[number as usize];
            (case.name.as_str(), case.ty)
        }
        TypeDefKind::Option(ty) => {
            if number == 0 {
                ("none", None)
            } else {
                ("some", Some(*ty))
            }
        }
        TypeDefKind::Result(ok, error) => {
            if number == 0 {
                ("ok", *ok)
            } else {
                ("error", *error)
            }
        }
        TypeDefKind::Enum(labels) => (labels.as_slice()[number as usize].as_str(), None),
        _ => unreachable!(),
    }
}
