//! What stands in a record or a variant, whatever it was written as.
use crate::tables::{Case, Field, Parameter, ValType};
use atoms::Label;

/// What stands in a record, a tuple or a list of parameters: a type, under a name or not.
pub trait Member {
    ghost use Rattle.tables.specs.declared.tables.ValType.{ValType};
    ghost use Rattle.std.specs.Prelude.{◌≡◌};

    ghost type_of: { Self → ValType };

    /// Its type.
    fn ty(&self) -> ValType
        ensures { result ≡ type_of self.now };
}

impl Member for ValType {
    ghost type_of = { λ v. v };

    fn ty(&self) -> ValType {
        *self
    }
}

impl Member for Field {
    ghost type_of = { λ f. f.ty };

    fn ty(&self) -> ValType {
        self.ty
    }
}

impl Member for Parameter {
    ghost type_of = { λ p. p.ty };

    fn ty(&self) -> ValType {
        self.ty
    }
}

/// A case of a variant, an enum, an option or a result.
pub trait Choice {
    ghost use Rattle.tables.specs.declared.tables.ValType.{ValType};
    ghost use Rattle.std.specs.Prelude.{◌≡◌, Option};

    ghost payload_of: { Self → Option ValType };

    /// The type of its payload, where it has one.
    fn payload(&self) -> Option<ValType>
        ensures { result ≡ payload_of self.now };
}

impl Choice for Option<ValType> {
    ghost payload_of = { λ c. c };

    fn payload(&self) -> Option<ValType> {
        *self
    }
}

impl Choice for Case {
    ghost payload_of = { λ c. c.ty };

    fn payload(&self) -> Option<ValType> {
        self.ty
    }
}

impl Choice for Label {
    ghost use Rattle.std.specs.Prelude.{None};

    ghost payload_of = { λ n. None };

    fn payload(&self) -> Option<ValType> {
        None
    }
}
