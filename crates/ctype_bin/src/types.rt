//! Reading types with scopes of their own, and the declarations in them. They nest at most four deep.
ghost use Rattle.std.specs.Prelude.{◌≡◌, ◌<◌, ◌≤◌, ◌+◌, map, IfOk, OnOk, IsTrue};
ghost use Rattle.atoms.specs.Production.{run};
ghost use Rattle.ctype_format.specs.Bytes.{AnswersBytes};
ghost use Rattle.ctype_format.specs.Raw.{Alias};
ghost use Rattle.ctype_format.specs.Grammar.{IsScopeWithin, is_nested, left_out, opcode, new_scope, opcode_entry_fault};
ghost use Rattle.ctype_format.specs.Grammar.{instance_alias, outer_type, alias_entry, description, external, is_decl};
ghost use Rattle.ctype_format.specs.Grammar.{decl, nested, scope_of, type};
ghost use Rattle.ctype_format.specs.View.{decl_view, type_view};

use crate::defined::plain_of;
use ctype_format::{
    Fault, Feature, ItemError, MAX_ENTRIES, Opcode, RawAlias, RawDecl, RawDescription, RawType,
    Scope, at, byte_of, extern_name_of, index_of, is_nested, label_of, new_scope, opcode_of,
    types_at, u32_of, with_entries, with_instance, with_type, zero_of,
};
use std::alloc::Global;

/// The scopes that a type is read in.
#[derive(Clone, Copy)]
pub(crate) struct Nesting<'a> {
    pub alloc: Global,
    /// How many more may nest in one another.
    pub depth: u32,
    /// Their type entries, the innermost last.
    pub around: &'a [u32],
}

/// What is wrong with a byte that begins no type.
fn left_out(byte: u8) -> Fault
    ensures { result ≡ left_out byte }
{
    match byte {
        0x76 | 0x75 => Fault::Unsupported(Feature::Float),
        0x69 | 0x68 => Fault::Unsupported(Feature::Resource),
        _ => Fault::UnknownOpcode(byte),
    }
}

/// The first byte of a type.
#[tactic(auto, unfolding(ctype_format::specs::Grammar::opcode))]
fn type_opcode_of(depth: u32, entries: u32, bytes: &[u8]) -> Result<(Opcode, &[u8]), ItemError>
    ensures reads { AnswersBytes (λ x. (x.0, x.1.now)) result ((opcode depth entries).read bytes.now) }
    ensures room { OnOk result (entries < 65535) }
    ensures nested { IfOk result (λ x. IsTrue (is_nested x.0) → 0 < depth) }
{
    let (byte, rest) = byte_of(bytes)?;
    let Some(opcode) = opcode_of(byte) else {
        return Err(at(left_out(byte), bytes));
    };
    if entries >= MAX_ENTRIES || (is_nested(opcode) && depth == 0) {
        return Err(at(Fault::Limit, bytes));
    }
    Ok((opcode, rest))
}

/// What is wrong with a byte where a type entry begins, if it is allowed there.
fn entry_fault(entries: u32, allowed: bool, byte: u8) -> Option<Fault>
    ensures { result ≡ opcode_entry_fault entries allowed byte }
{
    if !allowed {
        return Some(Fault::UnknownOpcode(byte));
    }
    if entries >= MAX_ENTRIES {
        return Some(Fault::Limit);
    }
    None
}

#[tactic(auto, unfolding(ctype_format::specs::Grammar::instance_alias))]
fn instance_export_of(
    alloc: Global,
    scope: Scope,
    bytes: &[u8],
) -> Result<(RawAlias, &[u8]), ItemError>
    ensures { AnswersBytes (λ x. (x.0, x.1.now)) result ((instance_alias scope).read bytes.now) }
{
    let (instance, rest) = index_of(scope.instances, bytes)?;
    let (name, rest) = label_of(alloc, rest)?;
    Ok((RawAlias::InstanceExport { instance, name }, rest))
}

#[tactic(auto, unfolding(ctype_format::specs::Grammar::outer_type))]
fn outer_of<'a>(
    around: &[u32],
    scope: Scope,
    bytes: &'a [u8],
) -> Result<(RawAlias, &'a [u8]), ItemError>
    ensures { AnswersBytes (λ x. (x.0, x.1.now)) result ((outer_type around.now scope).read bytes.now) }
{
    let (count, rest) = u32_of(bytes)?;
    if count as usize > around.len() {
        return Err(at(Fault::BadIndex, bytes));
    }
    let (index, rest) = index_of(types_at(around, scope.types, count), rest)?;
    Ok((RawAlias::Outer { count, index }, rest))
}

#[tactic(auto, unfolding(ctype_format::specs::Grammar::alias_entry))]
fn alias_of<'a>(
    alloc: Global,
    around: &[u32],
    scope: Scope,
    bytes: &'a [u8],
) -> Result<(RawAlias, Scope, &'a [u8]), ItemError>
    requires { IsScopeWithin scope }
    ensures reads { AnswersBytes (λ x. ((Alias x.0, x.1), x.2.now)) result
        ((alias_entry around.now scope).read bytes.now) }
    ensures within { IfOk result (λ x. IsScopeWithin x.1) }
    ensures more { IfOk result (λ x. scope.entries ≤ x.1.entries) }
    ensures instances { IfOk result (λ x. x.1.instances ≡ scope.instances) }
{
    let (sort, rest) = byte_of(bytes)?;
    if let Some(fault) = entry_fault(scope.entries, sort == 3, sort) {
        return Err(at(fault, bytes));
    }
    let (target, behind) = byte_of(rest)?;
    let (alias, behind) = match target {
        0 => instance_export_of(alloc, scope, behind)?,
        2 => outer_of(around, scope, behind)?,
        _ => return Err(at(Fault::UnknownOpcode(target), rest)),
    };
    Ok((alias, with_type(scope), behind))
}

/// What an import or export is, and the scope with it.
#[tactic(auto, unfolding(ctype_format::specs::Grammar::description))]
fn description_of(scope: Scope, bytes: &[u8]) -> Result<(RawDescription, Scope, &[u8]), ItemError>
    requires within { IsScopeWithin scope }
    requires instances { scope.instances < 4294967295 }
    ensures reads { AnswersBytes (λ x. ((x.0, x.1), x.2.now)) result ((description scope).read bytes.now) }
    ensures within { IfOk result (λ x. IsScopeWithin x.1) }
    ensures more { IfOk result (λ x. scope.entries ≤ x.1.entries) }
    ensures instances { IfOk result (λ x. x.1.instances ≤ scope.instances + 1) }
{
    let (sort, rest) = byte_of(bytes)?;
    match sort {
        3 if scope.entries >= MAX_ENTRIES => Err(at(Fault::Limit, bytes)),
        3 => {
            let rest = zero_of(rest)?;
            let (index, rest) = index_of(scope.types, rest)?;
            Ok((RawDescription::TypeEqual(index), with_type(scope), rest))
        }
        1 => {
            let (index, rest) = index_of(scope.types, rest)?;
            Ok((RawDescription::Function(index), scope, rest))
        }
        4 => {
            let (index, rest) = index_of(scope.types, rest)?;
            Ok((RawDescription::Component(index), scope, rest))
        }
        5 => {
            let (index, rest) = index_of(scope.types, rest)?;
            Ok((RawDescription::Instance(index), with_instance(scope), rest))
        }
        _ => Err(at(Fault::UnknownOpcode(sort), bytes)),
    }
}

/// An import or an export behind its first byte.
#[tactic(auto, unfolding(ctype_format::specs::Grammar::external, ctype_format::specs::View::decl_view))]
fn external_of(
    alloc: Global,
    scope: Scope,
    sort: u8,
    bytes: &[u8],
) -> Result<(RawDecl, Scope, &[u8]), ItemError>
    requires within { IsScopeWithin scope }
    requires instances { scope.instances < 4294967295 }
    ensures reads { AnswersBytes (λ x. ((decl_view x.0, x.1), x.2.now)) result ((external scope sort).read bytes.now) }
    ensures within { IfOk result (λ x. IsScopeWithin x.1) }
    ensures more { IfOk result (λ x. scope.entries ≤ x.1.entries) }
    ensures instances { IfOk result (λ x. x.1.instances ≤ scope.instances + 1) }
{
    let (name, rest) = extern_name_of(alloc, bytes)?;
    let (description, after, rest) = description_of(scope, rest)?;
    if sort == 3 {
        return Ok((RawDecl::Import(name, description), after, rest));
    }
    Ok((RawDecl::Export(name, description), after, rest))
}

fn is_decl(component: bool, byte: u8) -> bool
    ensures { result ≡ is_decl component byte }
{
    matches!(byte, 1 | 2 | 4) || (component && byte == 3)
}

/// A component type, or an instance type.
#[tactic(auto, using(ctype_format::proofs::ScopedTypeViews::views))]
fn nested(opcode: Opcode, decls: Vec<RawDecl>) -> RawType
    ensures { type_view result ≡ nested opcode (map decl_view decls.items) }
{
    match opcode {
        Opcode::Component => RawType::Component(decls),
        _ => RawType::Instance(decls),
    }
}

impl Nesting<'_> {
    /// A declaration, and the scope with it.
    #[cycle(types)]
    #[tactic(auto, unfolding(ctype_format::specs::Grammar::decl, ctype_format::specs::View::decl_view))]
    fn decl_of<'a>(
        &self,
        component: bool,
        scope: Scope,
        bytes: &'a [u8],
    ) -> Result<(RawDecl, Scope, &'a [u8]), ItemError>
        requires within { IsScopeWithin scope }
        requires instances { scope.instances < 4294967295 }
        ensures reads { AnswersBytes (λ x. ((decl_view x.0, x.1), x.2.now)) result
            ((decl (type self.now.depth) component self.now.around.now scope).read bytes.now) }
        ensures within { IfOk result (λ x. IsScopeWithin x.1) }
        ensures more { IfOk result (λ x. scope.entries ≤ x.1.entries) }
        ensures instances { IfOk result (λ x. x.1.instances ≤ scope.instances + 1) }
    {
        let (sort, rest) = byte_of(bytes)?;
        if !is_decl(component, sort) {
            return Err(at(Fault::UnknownOpcode(sort), bytes));
        }
        match sort {
            1 => {
                let (ty, entries, rest) = self.type_of(scope, rest)?;
                Ok((RawDecl::Type(ty), with_entries(scope, entries), rest))
            }
            2 => {
                let (alias, after, rest) = alias_of(self.alloc, self.around, scope, rest)?;
                Ok((RawDecl::Alias(alias), after, rest))
            }
            _ => external_of(self.alloc, scope, sort, rest),
        }
    }

    /// The declarations of a new scope, and what it has then.
    #[cycle(types)]
    fn decls_of<'a>(
        &self,
        component: bool,
        count: u32,
        entries: u32,
        bytes: &'a [u8],
    ) -> Result<(Vec<RawDecl>, Scope, &'a [u8]), ItemError>
        requires { entries ≤ 65535 }
        ensures reads { AnswersBytes (λ x. ((map decl_view x.0.items, x.1), x.2.now)) result
            ((run (decl (type self.now.depth) component self.now.around.now) count (new_scope entries)).read
            bytes.now) }
        ensures within { IfOk result (λ x. (entries ≤ x.1.entries) × (x.1.entries ≤ 65535)) }
    {
        let mut decls = Vec::new(self.alloc);
        let mut scope = new_scope(entries);
        let mut rest = bytes;
        for _ in 0..count {
            let (decl, after, behind) = self.decl_of(component, scope, rest)?;
            decls.push(decl)?;
            scope = after;
            rest = behind;
        }
        Ok((decls, scope, rest))
    }

    /// A component type or an instance type behind its opcode, and the type entries after it.
    #[cycle(types)]
    #[tactic(auto, unfolding(ctype_format::specs::Grammar::scope_of))]
    fn scope_of<'a>(
        &self,
        opcode: Opcode,
        entries: u32,
        bytes: &'a [u8],
    ) -> Result<(RawType, u32, &'a [u8]), ItemError>
        requires { entries ≤ 65535 }
        ensures reads { AnswersBytes (λ x. ((type_view x.0, x.1), x.2.now)) result
            ((scope_of (type self.now.depth) opcode self.now.around.now entries).read bytes.now) }
        ensures within { IfOk result (λ x. (entries ≤ x.1) × (x.1 ≤ 65535)) }
    {
        let component = matches!(opcode, Opcode::Component);
        let (count, rest) = u32_of(bytes)?;
        let (decls, scope, rest) = self.decls_of(component, count, entries, rest)?;
        Ok((nested(opcode, decls), scope.entries, rest))
    }

    /// A type, and the type entries after it.
    #[cycle(types)]
    pub(crate) fn type_of<'a>(
        &self,
        scope: Scope,
        bytes: &'a [u8],
    ) -> Result<(RawType, u32, &'a [u8]), ItemError>
        requires { IsScopeWithin scope }
        ensures reads { AnswersBytes (λ x. ((type_view x.0, x.1), x.2.now)) result
            ((type self.now.depth self.now.around.now scope).read bytes.now) }
        ensures within { IfOk result (λ x. (scope.entries < x.1) × (x.1 ≤ 65535)) }
    {
        let (opcode, rest) = type_opcode_of(self.depth, scope.entries, bytes)?;
        if is_nested(opcode) {
            if let [outermost] = self.around {
                let inner = Nesting {
                    alloc: self.alloc,
                    depth: self.depth - 1,
                    around: &[*outermost, scope.types],
                };
                return inner.scope_of(opcode, scope.entries + 1, rest);
            }
            let mut around = Vec::from_slice(self.alloc, self.around)?;
            around.push(scope.types)?;
            let inner = Nesting {
                alloc: self.alloc,
                depth: self.depth - 1,
                around: around.as_slice(),
            };
            return inner.scope_of(opcode, scope.entries + 1, rest);
        }
        let (ty, rest) = plain_of(self.alloc, scope.types, opcode, rest)?;
        Ok((ty, scope.entries + 1, rest))
    }
}
