//! Rows of a table, and parts of what was read.
ghost use Rattle.std.specs.Prelude.{◌≡◌, MatchOption, IfSome, Some, None, slice_get};
ghost use Rattle.component_structure.specs.Parts.{structure_view, scope_view, definition_view, function_view};
ghost use Rattle.component_structure.specs.Parts.{instance_view};
ghost use Rattle.structure_comparison.specs.Types.{type_at, name_at, function_at};

use component_structure::{
    Definition as ReadDefinition, Function as ReadFunction, FunctionId as ReadFunctionId, Instance,
    InstanceId, Scope, ScopeId, Structure,
};
use tables::{
    Definition, Function, FunctionId, Interface, InterfaceId, Resolve, TypeDef, TypeId, TypeName,
};

/// The type in a row of the table.
pub fn type_at(resolve: &Resolve, id: TypeId) -> Option<&TypeDef>
    ensures { MatchOption result (type_at resolve.now id.0 ≡ None) (λ t. type_at resolve.now id.0 ≡ Some t.now) }
{
    match resolve.definitions.as_slice().get(id.0 as usize) {
        Some(Definition::Type(definition)) => Some(definition),
        _ => None,
    }
}

/// The name of the type in a row of the table.
pub fn name_at(resolve: &Resolve, id: TypeId) -> Option<&TypeName>
    ensures { MatchOption result (name_at resolve.now id.0 ≡ None) (λ n. name_at resolve.now id.0 ≡ Some n.now) }
{
    match type_at(resolve, id) {
        Some(definition) => definition.name.as_ref(),
        None => None,
    }
}

/// The function in a row of the table.
pub fn function_at(resolve: &Resolve, id: FunctionId) -> Option<&Function>
    ensures { MatchOption result (function_at resolve.now id.0 ≡ None)
        (λ f. function_at resolve.now id.0 ≡ Some f.now) }
{
    match resolve.definitions.as_slice().get(id.0 as usize) {
        Some(Definition::Function(function)) => Some(function),
        _ => None,
    }
}

/// An interface of the table.
pub fn interface_at(resolve: &Resolve, id: InterfaceId) -> Option<&Interface>
    ensures { IfSome result (λ i. slice_get resolve.now.interfaces id.0 ≡ Some i.now) }
{
    resolve.interfaces.as_slice().get(id.0 as usize)
}

/// A definition that was read.
#[tactic(auto, using(crate::proofs::ListsInStep::map_get))]
pub fn definition_at(structure: &Structure, id: usize) -> Option<&ReadDefinition>
    ensures { IfSome result (λ x. slice_get (structure_view structure.now).definitions id
        ≡ Some (definition_view x.now)) }
{
    structure.definitions.as_slice().get(id)
}

/// The type of a function that was read.
#[tactic(auto, using(crate::proofs::ListsInStep::map_get))]
pub fn function_type_at(structure: &Structure, id: ReadFunctionId) -> Option<&ReadFunction>
    ensures { IfSome result (λ x. slice_get (structure_view structure.now).functions id.0
        ≡ Some (function_view x.now)) }
{
    structure.functions.as_slice().get(id.0)
}

/// An instance that was read.
#[tactic(auto, using(crate::proofs::ListsInStep::map_get))]
pub fn instance_at(structure: &Structure, id: InstanceId) -> Option<&Instance>
    ensures { IfSome result (λ x. slice_get (structure_view structure.now).instances id.0
        ≡ Some (instance_view x.now)) }
{
    structure.instances.as_slice().get(id.0)
}

/// A scope that was read.
#[tactic(auto, using(crate::proofs::ListsInStep::map_get))]
pub fn scope_at(structure: &Structure, id: ScopeId) -> Option<&Scope>
    ensures { IfSome result (λ x. slice_get (structure_view structure.now).scopes id.0 ≡ Some (scope_view x.now)) }
{
    structure.scopes.as_slice().get(id.0)
}
