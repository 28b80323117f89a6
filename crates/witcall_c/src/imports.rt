//! What the header declares for a host that serves a guest's imports with values as texts of JSON.
ghost use Rattle.std.specs.Prelude.{◌≡◌};
ghost use Rattle.c_border.specs.Imports.{JsonAnswers, JsonAsksOfResult, JsonReadsArguments};
ghost use Rattle.witcall_c.specs.Calls.{TellsOf, held_package, stands_for};

use crate::handle::Handle;
use crate::held::package;
use adapter::Request;
use c_border::{JsonCall, JsonImport};
use host_calls::{Status, Value};
use memory::Block;
use std::alloc::Global;

/// The arguments that a guest passed, as a text of JSON.
#[unsafe(no_mangle)]
pub extern "C" fn witcall_read_arguments_json(
    alloc: Global,
    handle: &mut Handle,
    func: u32,
    flats: &[Value],
    memory: &mut [u8],
    json: &mut [u8],
    limit: u64,
) -> Status
    ensures done { TellsOf (stands_for handle.old) (stands_for handle.new) result
        (λ held done. JsonReadsArguments (held_package held) func flats.now memory.old limit json.old done json.new) }
    ensures same { memory.new ≡ memory.old }
{
    let held = handle.take(alloc);
    let call = JsonImport {
        alloc,
        package: package(&held),
        number: func,
        flats,
    };
    let done = call.read(memory, json, limit);
    handle.give(held);
    Status::of(done)
}

/// What the result will ask for that a text of JSON says, of `limit` bytes at most.
#[unsafe(no_mangle)]
pub extern "C" fn witcall_result_json_requests(
    alloc: Global,
    handle: &mut Handle,
    func: u32,
    json: &[u8],
    requests: &mut [Request],
    limit: u64,
) -> Status
    ensures { TellsOf (stands_for handle.old) (stands_for handle.new) result
        (λ held done. JsonAsksOfResult (held_package held) func json.now limit requests.old done requests.new) }
{
    let held = handle.take(alloc);
    let call = JsonCall {
        alloc,
        package: package(&held),
        number: func,
    };
    let done = call.result_requests(json, requests, limit);
    handle.give(held);
    Status::of(done)
}

/// Puts the result that a text of JSON says into the memory of the guest that called.
#[unsafe(no_mangle)]
pub extern "C" fn witcall_fill_result_json(
    alloc: Global,
    handle: &mut Handle,
    func: u32,
    flats: &[Value],
    json: &[u8],
    memory: &mut [u8],
    blocks: &[Block],
    back: &mut [Value],
) -> Status
    ensures { TellsOf (stands_for handle.old) (stands_for handle.new) result
        (λ held done. JsonAnswers (held_package held) func flats.now json.now memory.old blocks.now back.old done
        memory.new back.new) }
{
    let held = handle.take(alloc);
    let call = JsonImport {
        alloc,
        package: package(&held),
        number: func,
        flats,
    };
    let done = call.answer(json, blocks, memory, back);
    handle.give(held);
    Status::of(done)
}
