//! A function that is to be called, with the types of its values.
ghost use Rattle.std.specs.Prelude.{◌≡◌, ◌≤◌, map, All, IfOk, IfSome};
ghost use Rattle.canonical_abi.specs.Layout.{size};
ghost use Rattle.canonical_abi.specs.Types.{record_type, result_fields};
ghost use Rattle.canonical_abi.specs.Values.{HaveTypes};
ghost use Rattle.layout.specs.Layout.{AreWithin, layouts_of};
ghost use Rattle.values.specs.Members.{fields_of_types, AreTypesOf};
ghost use Rattle.values.specs.Val.{value_of};
ghost use Rattle.package_form.specs.Form.{IsInPackageForm};
ghost use Rattle.package_form.specs.Naming.{package_scopes};
ghost use Rattle.package_form.specs.Scope.{AreDistinct};
ghost use Rattle.tables.specs.Closed.{IsFunction, function_type};

use crate::json::{JsonError, read_json};
use adapter::{parameter_types, result_type};
use layout::Layouts;
use lift_lower::{Types, Val, has_arguments, has_type};
use std::alloc::{AllocError, Global};
use tables::{FunctionId, Resolve, ValType};
use value_json::{json_of_value, labels_are_apart, values_of_json};

/// A function of a package that is to be called.
#[derive(Drop)]
pub struct Call<'a> {
    pub(crate) alloc: Global,
    pub(crate) resolve: &'a Resolve,
    pub(crate) layouts: &'a Layouts,
    pub(crate) func: FunctionId,
    /// The types of the parameters.
    params: Vec<ValType>,
    /// The type of the result, if there is one.
    pub(crate) results: Vec<ValType>,
    pub ghost laid_out: { layouts.now ≡ layouts_of resolve.now },
    pub ghost within: { ∥ AreWithin resolve.now ∥₁ },
    ghost form: { ∥ IsInPackageForm resolve.now ∥₁ },
    ghost distinct: { ∥ All AreDistinct (package_scopes resolve.now) ∥₁ },
    pub ghost function: { IsFunction resolve.now func },
    ghost params_known: { AreTypesOf resolve.now params.items },
    pub ghost takes: { ∥ (function_type resolve.now func).params ≡ fields_of_types resolve.now params.items ∥₁ },
    pub ghost results_known: { AreTypesOf resolve.now results.items },
    pub ghost returns: { ∥ fields_of_types resolve.now results.items
        ≡ result_fields (function_type resolve.now func).result ∥₁ },
    pub ghost results_small: { size (record_type (fields_of_types resolve.now results.items)) ≤ 16777216 },
}

/// The types of a function's results: one, or none.
fn result_types(
    alloc: Global,
    resolve: &Resolve,
    func: FunctionId,
) -> Result<Vec<ValType>, AllocError>
    requires function { IsFunction resolve.now func }
    requires within { ∥ AreWithin resolve.now ∥₁ }
    ensures known { IfOk result (λ ts. AreTypesOf resolve.now ts.items) }
    ensures fields { IfOk result (λ ts. fields_of_types resolve.now ts.items
        ≡ result_fields (function_type resolve.now func).result) }
    ensures small { IfOk result (λ ts. size (record_type (fields_of_types resolve.now ts.items)) ≤ 16777216) }
{
    let mut types = Vec::new(alloc);
    let Some(ty) = result_type(resolve, func) else {
        return Ok(types);
    };
    types.push(ty)?;
    Ok(types)
}

impl<'a> Call<'a> {
    /// A call of a function of these tables.
    pub fn new(
        alloc: Global,
        resolve: &'a Resolve,
        layouts: &'a Layouts,
        func: FunctionId,
    ) -> Result<Call<'a>, AllocError>
        requires laid_out { layouts.now ≡ layouts_of resolve.now }
        requires within { ∥ AreWithin resolve.now ∥₁ }
        requires form { ∥ IsInPackageForm resolve.now ∥₁ }
        requires distinct { ∥ All AreDistinct (package_scopes resolve.now) ∥₁ }
        requires function { IsFunction resolve.now func }
    {
        let params = parameter_types(alloc, &Types::new(resolve, layouts), func)?;
        let results = result_types(alloc, resolve, func)?;
        Ok(Call {
            alloc,
            resolve,
            layouts,
            func,
            params,
            results,
        })
    }

    /// The types of the package with their layouts.
    pub(crate) fn table(&self) -> Types<'a>
        ensures { result ≡ self.now.resolve.now }
    {
        Types::new(self.resolve, self.layouts)
    }

    /// The arguments that a text of JSON says: an array of one for each parameter.
    pub fn arguments(&self, text: &str) -> Result<Vec<Val>, JsonError>
        ensures { IfOk result (λ vs. HaveTypes (map value_of vs.items)
            (function_type self.now.resolve.now self.now.func).params) }
    {
        let json = read_json(self.alloc, text)?;
        labels_are_apart(self.resolve);
        let types = self.params.as_slice();
        let values = values_of_json(self.alloc, self.resolve, types, &json)?;
        let table = self.table();
        if !has_arguments(&table, self.func, values.as_slice()) {
            return Err(JsonError::NotThisType);
        }
        Ok(values)
    }

    /// What the callee is to return, as a text of JSON says: an array of the result, or of nothing.
    pub fn answer(&self, text: &str) -> Result<Vec<Val>, JsonError>
        ensures { IfOk result (λ vs. HaveTypes (map value_of vs.items)
            (fields_of_types self.now.resolve.now self.now.results.items)) }
    {
        let json = read_json(self.alloc, text)?;
        labels_are_apart(self.resolve);
        let types = self.results.as_slice();
        let values = values_of_json(self.alloc, self.resolve, types, &json)?;
        Ok(values)
    }

    /// A result as JSON. No text if there is none.
    pub(crate) fn json_text(&self, value: &Val) -> Result<String, AllocError> {
        let alloc = self.alloc;
        labels_are_apart(self.resolve);
        match result_type(self.resolve, self.func) {
            Some(ty) if has_type(self.resolve, self.layouts, ty, value) => {
                json_of_value(alloc, self.resolve, ty, value)?.to_string(alloc)
            }
            _ => Ok(String::new(alloc)),
        }
    }
}
