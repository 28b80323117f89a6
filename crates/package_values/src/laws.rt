//! Laws of packages that were opened.

ghost use Rattle.tables.specs.Labelled.{labelled_type};
ghost use Rattle.tables.specs.declared.tables.ValType.{ValType};
ghost use Rattle.value_json.specs.Apart.{HasApartLabels};
ghost use Rattle.value_json.specs.Json.{HasDistinctLabels};

use opening::Package;

/// The labels of a type of a package differ: no record has one twice, and no variant, enum or flags.
pub fn has_labels_apart(_package: &Package)
    ensures records { HasApartLabels _package.now.resolve }
    ensures types { (ty : ValType) → HasDistinctLabels (labelled_type _package.now.resolve ty) }
{}
