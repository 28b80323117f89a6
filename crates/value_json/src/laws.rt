//! Laws of values in JSON.
ghost use Rattle.value_json.specs.ByNames.{LabelsAlike};
ghost use Rattle.value_json.specs.Json.{HasOneJson, HasOneValue, GivesTyped, NestsAsItsType};
ghost use Rattle.value_json.specs.Laws.{LabelsAreApart};

use tables::Resolve;

/// A value of a type has one JSON value.
pub fn has_one_json()
    ensures { HasOneJson }
{}

/// A JSON value stands for one value of a type whose labels differ.
pub fn has_one_value()
    ensures { HasOneValue }
{}

/// What stands as JSON of a type is a value of the type.
pub fn gives_typed()
    ensures { GivesTyped }
{}

/// A JSON value nests no deeper than its type.
pub fn nests_as_its_type()
    ensures { NestsAsItsType }
{}

/// In a package of distinct names no record has a label twice, and the labels of its types' variants, enums and flags
/// differ.
pub fn labels_are_apart(_resolve: &Resolve)
    ensures { LabelsAreApart _resolve.now }
{}

/// The labelled types of a table are what the package's names alone tell, where no interface has two types of one
/// name.
pub fn labels_alike(_resolve: &Resolve)
    ensures { LabelsAlike _resolve.now }
{}
