//! Types within others.
ghost use Rattle.std.specs.Prelude.{◌≡◌, IfOk};
ghost use Rattle.wit_tokens.specs.View.{ty_view, inner_view, maybe_view};
ghost use Rattle.wit_tokens.specs.Syntax.{Present};

use crate::wit_syntax::{InnerType, ResultType, TypeExpression};
use std::alloc::{AllocError, Global};

impl InnerType {
    /// A type as one within another.
    pub fn of(alloc: Global, ty: TypeExpression) -> Result<InnerType, AllocError>
        ensures { IfOk result (λ t. inner_view t ≡ ty_view ty) }
    {
        match ty {
            TypeExpression::Primitive(primitive) => Ok(InnerType::Plain(primitive)),
            other => Ok(InnerType::Boxed(Box::new(alloc, other)?)),
        }
    }
}

impl ResultType {
    /// A type as one of a result.
    pub fn of(alloc: Global, ty: TypeExpression) -> Result<ResultType, AllocError>
        ensures { IfOk result (λ t. maybe_view t ≡ Present (ty_view ty)) }
    {
        match ty {
            TypeExpression::Primitive(primitive) => Ok(ResultType::Simple(primitive)),
            other => Ok(ResultType::Other(Box::new(alloc, other)?)),
        }
    }
}
