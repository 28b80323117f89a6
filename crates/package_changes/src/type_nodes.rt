//! What a type is made of: what it is spelled as, its labels, and the types in it.
ghost use Rattle.std.specs.Prelude.{◌≡◌, ◌∷◌, [], map, Some, None, IfOk};
ghost use Rattle.std.specs.Str.{bytes_eq};
ghost use Rattle.atoms.specs.Label.{IsLabel};
ghost use Rattle.canonical_abi.specs.Layout.{flags_size, discriminant_size};
ghost use Rattle.package_changes.specs.Forms.{family, is_one_family, has_label, is_first, behind_first, label_moves, label_goes};
ghost use Rattle.package_changes.specs.Likeness.{is_same_spelling, are_same_labels};
ghost use Rattle.package_changes.specs.Alike.{grows, count, whole};
ghost use Rattle.package_changes.specs.Nodes.{IsNodeOf, IsNodeOfParameters};

use crate::likeness::Likeness;
use atoms::Label;
use std::alloc::{AllocError, Global};
use tables::{Case, Field, Parameter, TypeDefKind, ValType};

/// What a type with parts is spelled as.
#[derive(Clone, Copy, PartialEq, Eq, Debug)]
pub enum Spelling {
    List,
    Option,
    Tuple,
    Result,
    Record,
    Variant,
    Enum,
    Flags,
}

/// What a type with parts is after despecialization.
#[derive(Clone, Copy, PartialEq, Eq, Debug)]
pub enum Family {
    List,
    Record,
    Variant,
    Flags,
}

/// A type with parts.
#[derive(Drop)]
pub struct Node {
    pub spelling: Spelling,
    /// The labels, in order. A list and a tuple have none.
    pub labels: Vec<Label>,
    /// The types in it, in order. A case without a payload has none.
    pub parts: Vec<Option<ValType>>,
}

impl Spelling {
    pub(crate) fn family(self) -> Family
        ensures { result ≡ family self }
    {
        match self {
            Spelling::List => Family::List,
            Spelling::Record | Spelling::Tuple => Family::Record,
            Spelling::Option | Spelling::Result | Spelling::Variant | Spelling::Enum => {
                Family::Variant
            }
            Spelling::Flags => Family::Flags,
        }
    }

    fn is(self, other: Spelling) -> bool
        ensures { result ≡ is_same_spelling self other }
    {
        self == other
    }

    fn is_one_family(self, other: Spelling) -> bool
        ensures { result ≡ is_one_family self other }
    {
        self.family() == other.family()
    }
}

/// A copy of these labels.
fn copied(alloc: Global, labels: &[Label]) -> Result<Vec<Label>, AllocError>
    ensures { IfOk result (λ ls. ls.items ≡ labels.now) }
{
    let mut copies = Vec::new(alloc);
    for label in labels {
        copies.push(label.copy(alloc)?)?;
    }
    Ok(copies)
}

fn field_labels(alloc: Global, fields: &[Field]) -> Result<Vec<Label>, AllocError>
    ensures { IfOk result (λ ls. ls.items ≡ map (λ f. f.name) fields.now) }
{
    let mut copies = Vec::new(alloc);
    for field in fields {
        copies.push(field.name.copy(alloc)?)?;
    }
    Ok(copies)
}

fn case_labels(alloc: Global, cases: &[Case]) -> Result<Vec<Label>, AllocError>
    ensures { IfOk result (λ ls. ls.items ≡ map (λ c. c.name) cases.now) }
{
    let mut copies = Vec::new(alloc);
    for case in cases {
        copies.push(case.name.copy(alloc)?)?;
    }
    Ok(copies)
}

fn parameter_labels(alloc: Global, parameters: &[Parameter]) -> Result<Vec<Label>, AllocError>
    ensures { IfOk result (λ ls. ls.items ≡ map (λ p. p.name) parameters.now) }
{
    let mut copies = Vec::new(alloc);
    for parameter in parameters {
        copies.push(parameter.name.copy(alloc)?)?;
    }
    Ok(copies)
}

/// Two labels.
fn two_labels(alloc: Global, first: &str, second: &str) -> Result<Vec<Label>, AllocError>
    requires first { IsLabel first.now }
    requires second { IsLabel second.now }
    ensures { IfOk result (λ ls. ls.items ≡ first.now ∷ second.now ∷ []) }
{
    let mut labels = Vec::new(alloc);
    labels.push(Label::from_bytes(alloc, first.as_bytes())?)?;
    labels.push(Label::from_bytes(alloc, second.as_bytes())?)?;
    Ok(labels)
}

fn field_types(alloc: Global, fields: &[Field]) -> Result<Vec<Option<ValType>>, AllocError>
    ensures { IfOk result (λ ts. ts.items ≡ map (λ f. Some f.ty) fields.now) }
{
    fields.iter().map(|field| Some(field.ty)).collect(alloc)
}

fn member_types(alloc: Global, types: &[ValType]) -> Result<Vec<Option<ValType>>, AllocError>
    ensures { IfOk result (λ ts. ts.items ≡ map (λ v. Some v) types.now) }
{
    types.iter().map(|ty| Some(*ty)).collect(alloc)
}

fn parameter_types(
    alloc: Global,
    parameters: &[Parameter],
) -> Result<Vec<Option<ValType>>, AllocError>
    ensures { IfOk result (λ ts. ts.items ≡ map (λ p. Some p.ty) parameters.now) }
{
    parameters
        .iter()
        .map(|parameter| Some(parameter.ty))
        .collect(alloc)
}

fn case_types(alloc: Global, cases: &[Case]) -> Result<Vec<Option<ValType>>, AllocError>
    ensures { IfOk result (λ ts. ts.items ≡ map (λ c. c.ty) cases.now) }
{
    cases.iter().map(|case| case.ty).collect(alloc)
}

fn no_types(alloc: Global, labels: &[Label]) -> Result<Vec<Option<ValType>>, AllocError>
    ensures { IfOk result (λ ts. ts.items ≡ map (λ n. None) labels.now) }
{
    labels.iter().map(|_| None).collect(alloc)
}

/// A node without labels.
fn unlabelled(
    alloc: Global,
    spelling: Spelling,
    parts: &[Option<ValType>],
) -> Result<Node, AllocError>
    ensures { IfOk result (λ n. (n.spelling ≡ spelling) × (n.labels.items ≡ []) × (n.parts.items ≡ parts.now)) }
{
    let labels = Vec::new(alloc);
    let parts = Vec::from_slice(alloc, parts)?;
    Ok(Node {
        spelling,
        labels,
        parts,
    })
}

/// A node of two cases.
fn of_two(
    alloc: Global,
    spelling: Spelling,
    labels: Vec<Label>,
    parts: &[Option<ValType>],
) -> Result<Node, AllocError>
    ensures { IfOk result (λ n. (n.spelling ≡ spelling) × (n.labels.items ≡ labels.items)
        × (n.parts.items ≡ parts.now)) }
{
    let parts = Vec::from_slice(alloc, parts)?;
    Ok(Node {
        spelling,
        labels,
        parts,
    })
}

impl Node {
    /// What a type of this kind is made of.
    pub(crate) fn of(alloc: Global, kind: &TypeDefKind) -> Result<Node, AllocError>
        ensures { IfOk result (IsNodeOf kind.now) }
    {
        match kind {
            TypeDefKind::Use(id) => unlabelled(alloc, Spelling::List, &[Some(ValType::Id(*id))]),
            TypeDefKind::Alias(ty) => unlabelled(alloc, Spelling::List, &[Some(*ty)]),
            TypeDefKind::List(ty) => unlabelled(alloc, Spelling::List, &[Some(*ty)]),
            TypeDefKind::Option(ty) => {
                let labels = two_labels(alloc, "none", "some")?;
                of_two(alloc, Spelling::Option, labels, &[None, Some(*ty)])
            }
            TypeDefKind::Result(ok, error) => {
                let labels = two_labels(alloc, "ok", "error")?;
                of_two(alloc, Spelling::Result, labels, &[*ok, *error])
            }
            TypeDefKind::Tuple(types) => Node::of_tuple(alloc, types.as_slice()),
            TypeDefKind::Record(fields) => Node::of_record(alloc, fields.as_slice()),
            TypeDefKind::Variant(cases) => Node::of_variant(alloc, cases.as_slice()),
            TypeDefKind::Enum(labels) => Node::of_enum(alloc, labels.as_slice()),
            TypeDefKind::Flags(labels) => Node::of_flags(alloc, labels.as_slice()),
        }
    }

    fn of_tuple(alloc: Global, types: &[ValType]) -> Result<Node, AllocError>
        ensures { IfOk result (λ n. (n.spelling ≡ Spelling.Tuple) × (n.labels.items ≡ [])
            × (n.parts.items ≡ map (λ v. Some v) types.now)) }
    {
        Ok(Node {
            spelling: Spelling::Tuple,
            labels: Vec::new(alloc),
            parts: member_types(alloc, types)?,
        })
    }

    fn of_record(alloc: Global, fields: &[Field]) -> Result<Node, AllocError>
        ensures { IfOk result (λ n. (n.spelling ≡ Spelling.Record) × (n.labels.items ≡ map (λ f. f.name) fields.now)
            × (n.parts.items ≡ map (λ f. Some f.ty) fields.now)) }
    {
        Ok(Node {
            spelling: Spelling::Record,
            labels: field_labels(alloc, fields)?,
            parts: field_types(alloc, fields)?,
        })
    }

    fn of_variant(alloc: Global, cases: &[Case]) -> Result<Node, AllocError>
        ensures { IfOk result (λ n. (n.spelling ≡ Spelling.Variant) × (n.labels.items ≡ map (λ c. c.name) cases.now)
            × (n.parts.items ≡ map (λ c. c.ty) cases.now)) }
    {
        Ok(Node {
            spelling: Spelling::Variant,
            labels: case_labels(alloc, cases)?,
            parts: case_types(alloc, cases)?,
        })
    }

    fn of_enum(alloc: Global, labels: &[Label]) -> Result<Node, AllocError>
        ensures { IfOk result (λ n. (n.spelling ≡ Spelling.Enum) × (n.labels.items ≡ labels.now)
            × (n.parts.items ≡ map (λ l. None) labels.now)) }
    {
        Ok(Node {
            spelling: Spelling::Enum,
            labels: copied(alloc, labels)?,
            parts: no_types(alloc, labels)?,
        })
    }

    fn of_flags(alloc: Global, labels: &[Label]) -> Result<Node, AllocError>
        ensures { IfOk result (λ n. (n.spelling ≡ Spelling.Flags) × (n.labels.items ≡ labels.now)
            × (n.parts.items ≡ [])) }
    {
        Ok(Node {
            spelling: Spelling::Flags,
            labels: copied(alloc, labels)?,
            parts: Vec::new(alloc),
        })
    }

    /// What a function's parameters are as a record.
    pub(crate) fn of_parameters(alloc: Global, parameters: &[Parameter]) -> Result<Node, AllocError>
        ensures { IfOk result (IsNodeOfParameters parameters.now) }
    {
        Ok(Node {
            spelling: Spelling::Record,
            labels: parameter_labels(alloc, parameters)?,
            parts: parameter_types(alloc, parameters)?,
        })
    }

    /// Whether both are a list, a record, a variant or flags after despecialization.
    pub(crate) fn is_one_family(&self, other: &Node) -> bool
        ensures { result ≡ is_one_family self.now.spelling other.now.spelling }
    {
        self.spelling.is_one_family(other.spelling)
    }

    /// The number of labels of flags, and of parts of other types.
    fn count(&self) -> usize
        ensures { result ≡ count self.now }
    {
        match self.spelling.family() {
            Family::Flags => self.labels.len(),
            Family::List | Family::Record | Family::Variant => self.parts.len(),
        }
    }

    /// Whether the number of parts may become that of a newer type.
    fn grows(&self, newer: &Node) -> bool
        ensures { result ≡ grows (family self.now.spelling) (count self.now) (count newer.now) }
    {
        let (count, other) = (self.count(), newer.count());
        match self.spelling.family() {
            Family::List | Family::Record => count == other,
            Family::Variant => {
                count <= other && discriminant_size(count) == discriminant_size(other)
            }
            Family::Flags => count <= other && flags_size(count) == flags_size(other),
        }
    }

    /// How alike it is to a newer one, if its parts are as alike as this. `fits` says whether their layouts are one, if
    /// they are variants.
    pub(crate) fn whole(&self, newer: &Node, parts: Likeness, fits: bool) -> Likeness
        ensures { result ≡ whole self.now newer.now parts fits }
    {
        let (labels, others) = (self.labels.as_slice(), newer.labels.as_slice());
        let as_many = self.parts.len() == newer.parts.len();
        let is_spelled_alike = self.spelling.is(newer.spelling) && are_same(labels, others);
        Likeness {
            same: is_spelled_alike && as_many && parts.same,
            equal: self.count() == newer.count() && parts.equal,
            wider: fits && self.grows(newer) && parts.wider,
            moved: label_moves(labels, others) || parts.moved,
            renamed: label_goes(labels, others) || parts.renamed,
        }
    }
}

/// The bytes of a discriminant of this many cases.
fn discriminant_size(cases: usize) -> u8
    ensures { result ≡ discriminant_size cases }
{
    if cases <= 256 {
        1
    } else if cases <= 65536 {
        2
    } else {
        4
    }
}

/// The bytes of this many flags.
fn flags_size(labels: usize) -> u8
    ensures { result ≡ flags_size labels }
{
    if labels <= 8 {
        1
    } else if labels <= 16 {
        2
    } else {
        4
    }
}

fn is_same(label: &Label, other: &Label) -> bool
    ensures { result ≡ bytes_eq label.now other.now }
{
    label.as_bytes() == other.as_bytes()
}

/// Whether the label is the first of these.
fn is_first(label: &Label, labels: &[Label]) -> bool
    ensures { result ≡ is_first label.now labels.now }
{
    match labels {
        [first, ..] => is_same(label, first),
        [] => false,
    }
}

/// All but the first of these.
fn behind_first(labels: &[Label]) -> &[Label]
    ensures { result.now ≡ behind_first labels.now }
{
    match labels {
        [_, behind @ ..] => behind,
        [] => labels,
    }
}

/// Whether the label is one of these.
fn has_label(label: &Label, labels: &[Label]) -> bool
    ensures { result ≡ has_label label.now labels.now }
{
    labels.iter().any(|other| is_same(label, other))
}

/// Whether these are the same labels in the same order.
fn are_same(labels: &[Label], newer: &[Label]) -> bool
    ensures { result ≡ are_same_labels labels.now newer.now }
{
    let mut older = labels;
    let mut rest = newer;
    while let [label, behind @ ..] = older {
        if !is_first(label, rest) {
            return false;
        }
        older = behind;
        rest = behind_first(rest);
    }
    rest.is_empty()
}

/// Whether one of the older labels is at another place among the newer ones.
fn label_moves(labels: &[Label], newer: &[Label]) -> bool
    ensures { result ≡ label_moves newer.now labels.now newer.now }
{
    let mut older = labels;
    let mut rest = newer;
    while let [label, behind @ ..] = older {
        if !is_first(label, rest) && has_label(label, newer) {
            return true;
        }
        older = behind;
        rest = behind_first(rest);
    }
    false
}

/// Whether one of the older labels is not where it was.
fn label_goes(labels: &[Label], newer: &[Label]) -> bool
    ensures { result ≡ label_goes labels.now newer.now }
{
    let mut older = labels;
    let mut rest = newer;
    while let [label, behind @ ..] = older {
        if !is_first(label, rest) {
            return true;
        }
        older = behind;
        rest = behind_first(rest);
    }
    false
}
