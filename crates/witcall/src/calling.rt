//! One call whose arguments and result are JSON.

ghost use Rattle.std.specs.Prelude.{◌≡◌, ◌≢◌, ◌≤◌, ℕ, List, true, false, length, take, map, IfOk, IfErr, OnOk, IsErrOf};
ghost use Rattle.std.specs.Prelude.{string_bytes, Ok, option_to_list};
ghost use Rattle.std.specs.Option.{option_map};
ghost use Rattle.std.specs.Io.KnownBytes.{Appends, Keeps};
ghost use Rattle.canonical_abi.specs.Values.{HaveTypes};
ghost use Rattle.canonical_abi.specs.Types.{result_fields};
ghost use Rattle.tables.specs.Closed.{IsFunction, function_at, function_type};
ghost use Rattle.values.specs.Val.{value_of};
ghost use Rattle.memory.specs.Growth.{ArePages};
ghost use Rattle.adapter.specs.Signature.{function_signature};
ghost use Rattle.witcall.specs.Calling.{IsOutputOf, Prints, RunCallRefuses, IsBeforeCall, fresh};

use crate::output::write_bytes;
use crate::refused::Refused;
use crate::session::call_typed;
use crate::signature::function_named;
use adapter::{Body, BoxedBody, Export, result_type};
use atoms::Sink;
use lift_lower::Val;
use memory::{FirstFit, Guest, MemoryError, Space};
use opening::Package;
use package_values::{arguments_from_json, to_json};
use std::alloc::{AllocError, Global};
use tables::FunctionId;

/// The bytes of each of the two memories at first.
const MEMORY: u32 = 65_536;

/// The most bytes that each of them may come to have.
const MAX_MEMORY: u32 = 1_048_576;

/// Calls a function of the package over two fresh memories, and writes its result as compact JSON and a
/// newline, or nothing if it has no result. `args` is a JSON array of the arguments. The body is run
/// once, and is then as that call left it. Faults come in this order: 63, those of `args` (61, 62), those
/// of the call, 65; only after 65 a beginning may have been written. With 63, faults of `args` and 54 the
/// body was not run.
pub fn run_call_with<W: Sink, B: Body<Space>>(
    alloc: Global,
    package: &Package,
    iface: &str,
    func: &str,
    args: &str,
    body: &mut B,
    writer: &mut W,
) -> Result<(), Refused>
    requires { W.has_failed writer.old ≡ false }
    ensures ok { OnOk result ((output : List ℕ)
        × Prints «package».now.resolve iface.now func.now args.now (B.runs body.old) (B.posts body.old)
        (B.state body.old) (B.state body.new) output
        × Appends (W.contents writer.old) (W.contents writer.new) output) }
    ensures begun { IsErrOf result Refused.Write → (output : List ℕ) × (count : ℕ)
        × Prints «package».now.resolve iface.now func.now args.now (B.runs body.old) (B.posts body.old)
        (B.state body.old) (B.state body.new) output
        × (count ≤ length output) × Appends (W.contents writer.old) (W.contents writer.new) (take count output) }
    ensures err { IfErr result (RunCallRefuses «package».now.resolve iface.now func.now args.now (B.runs body.old)
        (B.posts body.old) (B.state body.old) (B.state body.new)) }
    ensures not_run { IfErr result (λ e. IsBeforeCall e → body.new ≡ body.old) }
    ensures broken { IsErrOf result Refused.Write → W.has_failed writer.new ≡ true }
    ensures unbroken { W.has_failed writer.new ≡ true → IsErrOf result Refused.Write }
    ensures unwritten { IfErr result (λ e. e ≢ Refused.Write → Keeps (W.contents writer.old) (W.contents writer.new)) }
{
    let func = function_named(package, iface, func)?;
    let arguments = arguments_from_json(alloc, package, func, args)?;
    let mut caller = fresh_memory(alloc, MEMORY, MAX_MEMORY)?;
    let mut callee = fresh_memory(alloc, MEMORY, MAX_MEMORY)?;
    let answer = call_typed(
        alloc,
        package,
        func,
        arguments.as_slice(),
        &mut caller,
        &mut callee,
        body,
    )?;
    let output = output_of(alloc, package, func, answer)?;
    write_bytes(writer, output.as_bytes())?;
    Ok(())
}

/// The same with a body in a box, which the call ends.
pub fn run_call<W: Sink>(
    alloc: Global,
    package: &Package,
    iface: &str,
    func: &str,
    args: &str,
    body: Box<dyn Export>,
    writer: &mut W,
) -> Result<(), Refused>
    requires { W.has_failed writer.old ≡ false }
    ensures ok { OnOk result ((after output : List ℕ)
        × Prints «package».now.resolve iface.now func.now args.now (runs body) (posts body) (state body) after output
        × Appends (W.contents writer.old) (W.contents writer.new) output) }
    ensures begun { IsErrOf result Refused.Write → (after output : List ℕ) × (count : ℕ)
        × Prints «package».now.resolve iface.now func.now args.now (runs body) (posts body) (state body) after output
        × (count ≤ length output) × Appends (W.contents writer.old) (W.contents writer.new) (take count output) }
    ensures err { IfErr result (λ e. (after : List ℕ)
        × RunCallRefuses «package».now.resolve iface.now func.now args.now (runs body) (posts body) (state body) after
        e) }
    ensures broken { IsErrOf result Refused.Write → W.has_failed writer.new ≡ true }
    ensures unbroken { W.has_failed writer.new ≡ true → IsErrOf result Refused.Write }
    ensures unwritten { IfErr result (λ e. e ≢ Refused.Write → Keeps (W.contents writer.old) (W.contents writer.new)) }
{
    let mut body = BoxedBody::new(body);
    run_call_with(alloc, package, iface, func, args, &mut body, writer)
}

/// A memory of so many zeros that may grow to so many.
#[tactic(auto, unfolding(crate::specs::Calling::fresh))]
fn fresh_memory(alloc: Global, len: u32, max: u32) -> Result<Space, MemoryError>
    requires pages { ArePages len max }
    requires few { max ≤ 16777216 }
    ensures fresh { IfOk result (λ space. ⟦<Space as Guest>⟧.memory space ≡ fresh len max) }
    ensures err { IfErr result (λ e. e ≡ MemoryError.NoMemory) }
{
    let memory = FirstFit::growing(alloc, len, max)?;
    Ok(Space::FirstFit(memory))
}

/// What is printed for the result of a function.
fn output_of(
    alloc: Global,
    package: &Package,
    func: FunctionId,
    answer: Option<Val>,
) -> Result<String, AllocError>
    requires function { IsFunction «package».now.resolve func }
    requires typed { HaveTypes (option_to_list (option_map value_of answer))
        (result_fields (function_type «package».now.resolve func).result) }
    ensures { IfOk result (λ output. IsOutputOf «package».now.resolve
        (function_signature (function_at «package».now.resolve func)).result
        (option_map value_of answer) (string_bytes output)) }
{
    let ty = result_type(package.resolve(), func);
    let (Some(value), Some(ty)) = (answer, ty) else {
        return Ok(String::new(alloc));
    };
    let mut line = to_json(alloc, package, ty, &value)?;
    line.push('\n')?;
    Ok(line)
}
