//! A caller that builds on `witcall`: it orders so many of an item from a component that it doesn't trust. Of the call
//! it knows what `Session::call` promises, and of the body nothing.
#![tactic(auto)]

ghost use Rattle.std.specs.Prelude.{◌≡◌, ◌↔◌, IsTrue, IfOk, option_map, string_bytes};
ghost use Rattle.tables.specs.Closed.{IsFunction, function_type};
ghost use Rattle.values.specs.Val.{value_of};
ghost use Rattle.example_client.specs.Order.{FindsOrder, KeepsLiveRanges, TakesOrder};

use std::alloc::Global;
use witcall::{Body, Fault, FunctionId, Package, Session, Tame, Val};

/// Whether a function's parameters are an item and a count, as those of `order: func(item: string, count: u32) -> u32`.
pub fn takes_order(alloc: Global, package: &Package, func: FunctionId) -> bool
    requires { IsFunction «package».now.resolve func }
    ensures { IsTrue result ↔ TakesOrder (function_type «package».now.resolve func) }
{
    package.takes(func, &[Val::String(String::new(alloc)), Val::U32(0)])
}

/// Orders an item, over memories whose allocators keep what is live. If it answers, the body found just this item and
/// this count, was run once on them, and answered this. Whatever the body did and however the call ended, what was live
/// in the caller before it has the same bytes.
pub fn order<C: Tame, E: Tame, B: Body<E>>(
    alloc: Global,
    session: &mut Session<'_, C, E, B>,
    func: FunctionId,
    item: String,
    count: u32,
) -> Result<Option<Val>, Fault>
    requires function { IsFunction session.old.package.now.resolve func }
    requires takes { TakesOrder (function_type session.old.package.now.resolve func) }
    ensures found { IfOk result (λ v. FindsOrder (string_bytes item) count
        (function_type session.old.package.now.resolve func) (option_map value_of v) (B.runs session.old.body)
        (B.posts session.old.body)
        (B.state session.old.body) (B.state session.new.body) (E.memory session.new.callee)) }
    ensures kept { KeepsLiveRanges (C.memory session.old.caller) (C.memory session.new.caller) }
{
    session.call(alloc, func, &[Val::String(item), Val::U32(count)])
}
