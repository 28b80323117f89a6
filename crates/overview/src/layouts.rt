//! The sizes and alignments of a package's types, and the core signatures of its functions.
ghost use Rattle.std.specs.Prelude.{◌≡◌, ◌<◌, ◌++◌, length, IfOk, IsTrue, string_bytes, flat_map, codes};
ghost use Rattle.std.specs.Prelude.{slice_get};
ghost use Rattle.std.specs.List.{list_all};
ghost use Rattle.layout.specs.Layout.{layouts_of, core_signature_of, results_of};
ghost use Rattle.canonical_abi.specs.Layout.{size, align, lifted_signature, lowered_signature};
ghost use Rattle.tables.specs.Closed.{IsFunction, closed_type, function_type};
ghost use Rattle.tables.specs.Names.{full_name};
ghost use Rattle.tables.specs.Tables.{type_of, is_type_id, is_function_id, is_placed};
ghost use Rattle.overview.specs.LayoutLines.{kind_word, kinds_text, signature_text, type_label, type_line};
ghost use Rattle.overview.specs.LayoutLines.{function_line, lines_of, laid_out};
ghost use Rattle.text_builder.specs.Growth.{Grows};

use crate::contents::push_count;
use canonical_abi::CoreKind;
use layout::{CoreSignature, Layouts};
use package_form::own_package;
use std::alloc::{AllocError, Global};
use tables::{Definition, FunctionId, Interface, Name, Resolve, TypeId, ValType};
use text_builder::TextBuilder;

fn kind_word(kind: CoreKind) -> &'static str
    ensures { result.now ≡ kind_word kind }
{
    match kind {
        CoreKind::I32 => "i32",
        CoreKind::I64 => "i64",
    }
}

/// Writes kinds, with a space before each.
fn push_kinds(text: &mut TextBuilder, kinds: &[CoreKind])
    ensures { Grows (flat_map (λ k. codes " " ++ kind_word k) kinds.now) text.old text.new }
{
    for kind in kinds {
        text.push(" ");
        text.push(kind_word(*kind));
    }
}

/// Writes kinds in parentheses.
fn push_kinds_within(text: &mut TextBuilder, kinds: &[CoreKind])
    ensures { Grows (kinds_text kinds.now) text.old text.new }
{
    text.push("(");
    if let Some((first, rest)) = kinds.split_first() {
        text.push(kind_word(*first));
        push_kinds(text, rest);
    }
    text.push(")");
}

/// Writes the kinds of results in parentheses.
fn push_results(text: &mut TextBuilder, kind: Option<CoreKind>)
    ensures { Grows (kinds_text (results_of kind)) text.old text.new }
{
    match kind {
        None => push_kinds_within(text, &[]),
        Some(kind) => push_kinds_within(text, &[kind]),
    }
}

/// Writes a core signature behind words for it: its parameters' kinds and its results'.
fn push_signature(text: &mut TextBuilder, words: &str, signature: &CoreSignature)
    ensures { Grows (words.now ++ signature_text (core_signature_of signature.now)) text.old text.new }
{
    text.push(words);
    push_kinds_within(text, signature.params.as_slice());
    text.push(" -> ");
    push_results(text, signature.result);
}

/// The label of a type.
fn label_of<'a>(resolve: &'a Resolve, id: TypeId) -> &'a str
    ensures { result.now ≡ type_label (type_of (slice_get resolve.now.definitions id.0)) }
{
    match resolve.definitions.as_slice().get(id.0 as usize) {
        Some(Definition::Type(definition)) => match &definition.name {
            Some(name) => name.name.as_str(),
            None => "",
        },
        _ => "",
    }
}

/// The size of a type of the package, in bytes.
fn size_of(resolve: &Resolve, layouts: &Layouts, id: TypeId) -> u32
    requires laid_out { layouts.now ≡ layouts_of resolve.now }
    requires placed { IsTrue (is_type_id resolve.now.definitions id) }
    ensures { result ≡ size (closed_type resolve.now (ValType.Id id)) }
{
    layouts.size(ValType::Id(id))
}

/// Its alignment, in bytes.
fn align_of(resolve: &Resolve, layouts: &Layouts, id: TypeId) -> u32
    requires laid_out { layouts.now ≡ layouts_of resolve.now }
    requires placed { IsTrue (is_type_id resolve.now.definitions id) }
    ensures { result ≡ align (closed_type resolve.now (ValType.Id id)) }
{
    layouts.align(ValType::Id(id))
}

/// The core signature of the callee's function.
fn lifted(resolve: &Resolve, layouts: &Layouts, id: FunctionId) -> CoreSignature
    requires laid_out { layouts.now ≡ layouts_of resolve.now }
    requires function { IsFunction resolve.now id }
    ensures { core_signature_of result ≡ lifted_signature (function_type resolve.now id) }
{
    layouts.lifted(id)
}

/// The core signature of the caller's import.
fn lowered(resolve: &Resolve, layouts: &Layouts, id: FunctionId) -> CoreSignature
    requires laid_out { layouts.now ≡ layouts_of resolve.now }
    requires function { IsFunction resolve.now id }
    ensures { core_signature_of result ≡ lowered_signature (function_type resolve.now id) }
{
    layouts.lowered(id)
}

/// Writes the line of a type of the interface of this full name.
fn push_type(
    text: &mut TextBuilder,
    resolve: &Resolve,
    layouts: &Layouts,
    interface: &str,
    id: TypeId,
)
    requires laid_out { layouts.now ≡ layouts_of resolve.now }
    requires placed { IsTrue (is_type_id resolve.now.definitions id) }
    ensures { Grows (type_line resolve.now interface.now id) text.old text.new }
{
    let size = size_of(resolve, layouts, id);
    let align = align_of(resolve, layouts, id);
    text.push_three("type ", interface, " ");
    text.push(label_of(resolve, id));
    push_count(text, " size ", size as usize);
    push_count(text, " align ", align as usize);
    text.push("\n");
}

/// Writes the line of a function of the interface of this full name.
fn push_function(
    text: &mut TextBuilder,
    resolve: &Resolve,
    layouts: &Layouts,
    interface: &str,
    id: FunctionId,
)
    requires laid_out { layouts.now ≡ layouts_of resolve.now }
    requires function { IsFunction resolve.now id }
    ensures { Grows (function_line resolve.now interface.now id) text.old text.new }
{
    let lifted = lifted(resolve, layouts, id);
    let lowered = lowered(resolve, layouts, id);
    text.push_three("func ", interface, " ");
    text.push(resolve.signature(id).name.as_str());
    push_signature(text, " lift ", &lifted);
    push_signature(text, " lower ", &lowered);
    text.push("\n");
}

fn push_types(
    text: &mut TextBuilder,
    resolve: &Resolve,
    layouts: &Layouts,
    interface: &str,
    ids: &[TypeId],
)
    requires laid_out { layouts.now ≡ layouts_of resolve.now }
    requires placed { IsTrue (list_all (is_type_id resolve.now.definitions) ids.now) }
    ensures { Grows (flat_map (type_line resolve.now interface.now) ids.now) text.old text.new }
{
    for id in ids {
        push_type(text, resolve, layouts, interface, *id);
    }
}

fn push_functions(
    text: &mut TextBuilder,
    resolve: &Resolve,
    layouts: &Layouts,
    interface: &str,
    ids: &[FunctionId],
)
    requires laid_out { layouts.now ≡ layouts_of resolve.now }
    requires functions { IsTrue (list_all (is_function_id resolve.now.definitions) ids.now) }
    ensures { Grows (flat_map (function_line resolve.now interface.now) ids.now) text.old text.new }
{
    for id in ids {
        push_function(text, resolve, layouts, interface, *id);
    }
}

/// Writes the lines of an interface: used names, types, functions.
fn push_interface(
    text: &mut TextBuilder,
    resolve: &Resolve,
    layouts: &Layouts,
    name: &str,
    interface: &Interface,
)
    requires laid_out { layouts.now ≡ layouts_of resolve.now }
    requires placed { IsTrue (is_placed resolve.now.definitions interface.now) }
    ensures { Grows (lines_of resolve.now name.now interface.now) text.old text.new }
{
    push_types(text, resolve, layouts, name, interface.uses.as_slice());
    push_types(text, resolve, layouts, name, interface.types.as_slice());
    push_functions(text, resolve, layouts, name, interface.functions.as_slice());
}

/// The full name of an interface.
fn full_name(alloc: Global, resolve: &Resolve, interface: &Interface) -> Result<Name, AllocError>
    requires { interface.now.«package».0 < length resolve.now.packages }
    ensures { IfOk result (λ n. n ≡ full_name resolve.now interface.now) }
{
    let package = &resolve.packages.as_slice()[interface.package.0 as usize];
    package.full_name(alloc, &interface.name)
}

/// A line for each used name, type and function of each interface of the last package, in its order: size and alignment
/// in bytes, and the core signatures of the callee's function and of the caller's import. Functions of worlds are left
/// out.
pub fn laid_out(alloc: Global, resolve: &Resolve, layouts: &Layouts) -> Result<String, AllocError>
    requires laid_out { layouts.now ≡ layouts_of resolve.now }
    ensures { IfOk result (λ s. string_bytes s ≡ laid_out resolve.now) }
{
    let mut text = TextBuilder::new(alloc);
    let own = own_package(resolve.packages.as_slice());
    for interface in resolve.interfaces.as_slice() {
        if interface.package.0 as usize == own {
            let name = full_name(alloc, resolve, interface)?;
            push_interface(&mut text, resolve, layouts, name.as_str(), interface);
        }
    }
    text.finish()
}
