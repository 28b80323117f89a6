//! What the header declares: each export takes what a handle stands for, makes one call of it, and gives it back.
ghost use Rattle.std.specs.Prelude.{◌≡◌, ◌⊎◌, ◌<◌, ◌-◌, ◌^◌, ◌∷◌, [], ℕ, None, Result, Err, length};
ghost use Rattle.canonical_abi.specs.Layout.{lifted_signature, lowered_signature};
ghost use Rattle.canonical_abi.specs.Types.{result_fields};
ghost use Rattle.host_calls.specs.Calling.{EnterDone, LeaveDone, EnterAsks, LeaveAsks};
ghost use Rattle.host_calls.specs.Parts.{PartsDone};
ghost use Rattle.host_calls.specs.Signatures.{KindsDone};
ghost use Rattle.host_calls.specs.Lines.{status_words};
ghost use Rattle.host_calls.specs.Status.{status_of};
ghost use Rattle.host_calls.specs.declared.error.CallError.{CallError};
ghost use Rattle.host_calls.specs.declared.error.CallError.TheVariants.{NoRoom};
ghost use Rattle.host_calls.specs.Members.{member_at};
ghost use Rattle.host_calls.specs.Names.{member_name_at, row_name_at};
ghost use Rattle.host_calls.specs.Owners.{owner_name_at};
ghost use Rattle.host_calls.specs.Rows.{row_info_at};
ghost use Rattle.host_calls.specs.Told.{BytesDone, TellsName, TellsNewName, TellsOfTable};
ghost use Rattle.opening.specs.Sets.{all_bytes};
ghost use Rattle.c_border.specs.CallObject.{BeginsCall, flats_of};
ghost use Rattle.c_border.specs.Explained.{Explains};
ghost use Rattle.c_border.specs.Json.{JsonAsks, JsonFaults, JsonFills, JsonReads};
ghost use Rattle.c_border.specs.Line.{FitsRoom, LineDone};
ghost use Rattle.c_border.specs.Written.{Describes, WritesBinary, WritesText};
ghost use Rattle.tables.specs.declared.tables.Direction.TheVariants.{Import, Export};
ghost use Rattle.witcall_c.specs.Calls.{FindsFunction, FindsOfWorld, IsHeld, LineOf, Opens, OpensModule, OpensPieces};
ghost use Rattle.witcall_c.specs.Calls.{CallsOf, TellsOf};
ghost use Rattle.witcall_c.specs.Calls.{held_package, stands_for, held_table};
ghost use Rattle.witcall_c.specs.Version.{abi, library_version};

use crate::calls;
use crate::calls::{NumberedHalf, SignaturePart};
use crate::handle::Handle;
use crate::held::{Held, find, find_of_world, line_of, package, types};
use adapter::Request;
use c_border::{Call, JsonCall, open_module, pieces, tell_line};
use host_calls::host_lists::{MemberInfo, RowInfo, tell_bytes};
use host_calls::{CallError, Part, Status, Value};
use memory::Block;
use opening::{IndexedPackage, OpenError, open_indexed};
use std::alloc::Global;
use tables::Direction;

/// The version of the library, `+`, and the commit that the release was made of, or `next` after a release.
const VERSION: &[u8] = b"0.3.0+next";

/// The number of the binary interface that the header declares. Another number means that a host has to be compiled
/// anew.
const ABI: u32 = 2;

/// The number of the binary interface.
#[unsafe(no_mangle)]
pub extern "C" fn witcall_abi() -> u32
    ensures { result ≡ abi }
{
    ABI
}

/// The version's bytes, as `VERSION` has them, with no end.
#[unsafe(no_mangle)]
pub extern "C" fn witcall_version(bytes: &mut [u8]) -> Status
    ensures { (done : Result ℕ CallError) × (result ≡ status_of done)
        × BytesDone library_version bytes.old done bytes.new }
{
    Status::of(tell_bytes(VERSION, bytes))
}

/// Lets a handle hold what was opened, or nothing if there is no memory for it.
fn hold(alloc: Global, opened: Result<IndexedPackage, OpenError>, handle: &mut Handle) -> Status
    ensures { IsHeld opened (stands_for handle.new) result }
{
    let held = Held { opened };
    let status = held.status();
    match Box::new(alloc, held) {
        Ok(held) => {
            handle.put(held);
            status
        }
        Err(_) => {
            handle.clear();
            Status::of(Err(CallError::NoMemory))
        }
    }
}

/// Lets a handle stand for what the inputs are opened as, or for nothing where there was no memory for it.
fn open(alloc: Global, inputs: &[&[u8]], handle: &mut Handle) -> Status
    requires { 0 < length inputs.now }
    ensures { Opens (all_bytes inputs.now) (stands_for handle.new) result }
{
    hold(alloc, open_indexed(alloc, inputs), handle)
}

/// Opens a package. The handle is written in any case; after 66 no memory it holds nothing. It does not free what the
/// handle held before: close that first.
#[unsafe(no_mangle)]
pub extern "C" fn witcall_open(alloc: Global, bytes: &[u8], handle: &mut Handle) -> Status
    ensures { Opens (bytes.now ∷ []) (stands_for handle.new) result }
{
    open(alloc, &[bytes], handle)
}

/// Opens the last of these inputs behind those before it, which it may use. Their bytes stand one after another.
#[unsafe(no_mangle)]
pub extern "C" fn witcall_open_set(
    alloc: Global,
    bytes: &[u8],
    lengths: &[usize],
    handle: &mut Handle,
) -> Status
    ensures { OpensPieces bytes.now lengths.now (stands_for handle.new) result }
{
    match pieces(alloc, bytes, lengths) {
        Ok(inputs) => open(alloc, inputs.as_slice(), handle),
        Err(error) => {
            handle.clear();
            Status::of(Err(error))
        }
    }
}

/// Opens the package of the world or of the interfaces that a binary of another tool carries, with those that it
/// depends on. The handle is written in any case, as by `witcall_open`. 44 if it carries none.
#[unsafe(no_mangle)]
pub extern "C" fn witcall_open_module(alloc: Global, bytes: &[u8], handle: &mut Handle) -> Status
    ensures { OpensModule (stands_for handle.new) result }
{
    hold(alloc, open_module(alloc, bytes), handle)
}

/// Frees what a handle stands for, if anything, so that it stands for nothing.
#[unsafe(no_mangle)]
pub extern "C" fn witcall_close(alloc: Global, handle: &mut Handle)
    ensures { stands_for handle.new ≡ None }
{
    drop(handle.take(alloc));
}

/// The line of the refusal of what a handle stands for, as the program writes it, with no line end; 0 bytes where it is
/// open.
#[unsafe(no_mangle)]
pub extern "C" fn witcall_line(alloc: Global, handle: &mut Handle, line: &mut [u8]) -> Status
    ensures { TellsOf (stands_for handle.old) (stands_for handle.new) result
        (λ held done. LineOf held line.old line.new done) }
{
    let held = handle.take(alloc);
    let done = line_of(&held, line);
    handle.give(held);
    Status::of(done)
}

/// The line of a status; 0 bytes of one that is done.
#[unsafe(no_mangle)]
pub extern "C" fn witcall_status_line(status: Status, line: &mut [u8]) -> Status
    ensures { (done : Result ℕ CallError) × (result ≡ status_of done) × FitsRoom (length line.old) done
        × (LineDone (status_words status) line.old done line.new ⊎ (done ≡ Err (NoRoom (2 ^ 64 - 1)))) }
{
    Status::of(tell_line(&status, line))
}

/// The number of a function, by the full name of its interface and its own.
#[unsafe(no_mangle)]
pub extern "C" fn witcall_find(
    alloc: Global,
    handle: &mut Handle,
    interface: &[u8],
    function: &[u8],
) -> Status
    ensures { TellsOf (stands_for handle.old) (stands_for handle.new) result
        (λ held done. FindsFunction (held_package held) interface.now function.now done) }
{
    let held = handle.take(alloc);
    let done = find(&held, interface, function);
    handle.give(held);
    Status::of(done)
}

/// The number of a function that a world imports, by the full name of the world and its own.
#[unsafe(no_mangle)]
pub extern "C" fn witcall_find_import(
    alloc: Global,
    handle: &mut Handle,
    world: &[u8],
    function: &[u8],
) -> Status
    ensures { TellsOf (stands_for handle.old) (stands_for handle.new) result
        (λ held done. FindsOfWorld (held_package held) world.now Import function.now done) }
{
    let held = handle.take(alloc);
    let done = find_of_world(&held, world, Direction::Import, function);
    handle.give(held);
    Status::of(done)
}

/// The number of a function that a world exports.
#[unsafe(no_mangle)]
pub extern "C" fn witcall_find_export(
    alloc: Global,
    handle: &mut Handle,
    world: &[u8],
    function: &[u8],
) -> Status
    ensures { TellsOf (stands_for handle.old) (stands_for handle.new) result
        (λ held done. FindsOfWorld (held_package held) world.now Export function.now done) }
{
    let held = handle.take(alloc);
    let done = find_of_world(&held, world, Direction::Export, function);
    handle.give(held);
    Status::of(done)
}

/// The first half of a call.
#[unsafe(no_mangle)]
pub extern "C" fn witcall_enter(
    alloc: Global,
    handle: &mut Handle,
    func: u32,
    flats: &[Value],
    caller: &mut [u8],
    callee: &mut [u8],
    blocks: &[Block],
    handed: &mut [Value],
) -> Status
    ensures done { CallsOf (stands_for handle.old) (stands_for handle.new) func result
        (λ f d. EnterDone f flats.now caller.old callee.old blocks.now handed.old d callee.new handed.new)
        ((callee.new ≡ callee.old) × (handed.new ≡ handed.old)) }
    ensures same { caller.new ≡ caller.old }
{
    let held = handle.take(alloc);
    let half = NumberedHalf {
        alloc,
        number: func,
        flats,
        blocks,
    };
    let done = half.enter(&held, caller, callee, handed);
    handle.give(held);
    Status::of(done)
}

/// The second half.
#[unsafe(no_mangle)]
pub extern "C" fn witcall_leave(
    alloc: Global,
    handle: &mut Handle,
    func: u32,
    flats: &[Value],
    answer: &[Value],
    callee: &mut [u8],
    caller: &mut [u8],
    blocks: &[Block],
    back: &mut [Value],
) -> Status
    ensures done { CallsOf (stands_for handle.old) (stands_for handle.new) func result
        (λ f d. LeaveDone f flats.now callee.old answer.now caller.old blocks.now back.old d caller.new back.new)
        ((caller.new ≡ caller.old) × (back.new ≡ back.old)) }
    ensures same { callee.new ≡ callee.old }
{
    let held = handle.take(alloc);
    let half = NumberedHalf {
        alloc,
        number: func,
        flats,
        blocks,
    };
    let done = half.leave(&held, answer, callee, caller, back);
    handle.give(held);
    Status::of(done)
}

/// Begins a call, which keeps its core values between the halves.
#[unsafe(no_mangle)]
pub extern "C" fn witcall_begin(
    alloc: Global,
    handle: &mut Handle,
    func: u32,
    flats: &[Value],
    call: &mut Call,
) -> Status
    ensures { CallsOf (stands_for handle.old) (stands_for handle.new) func result
        (λ f d. BeginsCall f func flats.now call.old d call.new) (call.new ≡ call.old) }
{
    let held = handle.take(alloc);
    let done = calls::begin(&held, func, flats, call);
    handle.give(held);
    Status::of(done)
}

/// The first half of a call that was begun.
#[unsafe(no_mangle)]
pub extern "C" fn witcall_call_enter(
    alloc: Global,
    handle: &mut Handle,
    call: &Call,
    caller: &mut [u8],
    callee: &mut [u8],
    blocks: &[Block],
    handed: &mut [Value],
) -> Status
    ensures done { CallsOf (stands_for handle.old) (stands_for handle.new) call.now.func result
        (λ f d. EnterDone f (flats_of call.now) caller.old callee.old blocks.now handed.old d callee.new handed.new)
        ((callee.new ≡ callee.old) × (handed.new ≡ handed.old)) }
    ensures same { caller.new ≡ caller.old }
{
    let flats = call.flats();
    witcall_enter(
        alloc,
        handle,
        call.func(),
        flats,
        caller,
        callee,
        blocks,
        handed,
    )
}

/// The second half of a call that was begun.
#[unsafe(no_mangle)]
pub extern "C" fn witcall_call_leave(
    alloc: Global,
    handle: &mut Handle,
    call: &Call,
    answer: &[Value],
    callee: &mut [u8],
    caller: &mut [u8],
    blocks: &[Block],
    back: &mut [Value],
) -> Status
    ensures done { CallsOf (stands_for handle.old) (stands_for handle.new) call.now.func result
        (λ f d. LeaveDone f (flats_of call.now) callee.old answer.now caller.old blocks.now back.old d caller.new
        back.new)
        ((caller.new ≡ caller.old) × (back.new ≡ back.old)) }
    ensures same { callee.new ≡ callee.old }
{
    let flats = call.flats();
    witcall_leave(
        alloc,
        handle,
        call.func(),
        flats,
        answer,
        callee,
        caller,
        blocks,
        back,
    )
}

/// What the first half of a call that was begun will ask for, of `limit` bytes at most.
#[unsafe(no_mangle)]
pub extern "C" fn witcall_call_enter_requests(
    alloc: Global,
    handle: &mut Handle,
    call: &Call,
    caller: &mut [u8],
    requests: &mut [Request],
    limit: u64,
) -> Status
    ensures done { CallsOf (stands_for handle.old) (stands_for handle.new) call.now.func result
        (λ f d. EnterAsks f (flats_of call.now) caller.old limit requests.old d requests.new)
        (requests.new ≡ requests.old) }
    ensures same { caller.new ≡ caller.old }
{
    witcall_enter_requests(
        alloc,
        handle,
        call.func(),
        call.flats(),
        caller,
        requests,
        limit,
    )
}

/// What the second half of a call that was begun will ask for, of `limit` bytes at most.
#[unsafe(no_mangle)]
pub extern "C" fn witcall_call_leave_requests(
    alloc: Global,
    handle: &mut Handle,
    call: &Call,
    answer: &[Value],
    callee: &mut [u8],
    requests: &mut [Request],
    limit: u64,
) -> Status
    ensures done { CallsOf (stands_for handle.old) (stands_for handle.new) call.now.func result
        (λ f d. LeaveAsks f answer.now callee.old limit requests.old d requests.new) (requests.new ≡ requests.old) }
    ensures same { callee.new ≡ callee.old }
{
    witcall_leave_requests(alloc, handle, call.func(), answer, callee, requests, limit)
}

/// What the first half will ask for, of `limit` bytes at most.
#[unsafe(no_mangle)]
pub extern "C" fn witcall_enter_requests(
    alloc: Global,
    handle: &mut Handle,
    func: u32,
    flats: &[Value],
    caller: &mut [u8],
    requests: &mut [Request],
    limit: u64,
) -> Status
    ensures done { CallsOf (stands_for handle.old) (stands_for handle.new) func result
        (λ f d. EnterAsks f flats.now caller.old limit requests.old d requests.new) (requests.new ≡ requests.old) }
    ensures same { caller.new ≡ caller.old }
{
    let held = handle.take(alloc);
    let done = calls::enter_requests(&held, func, flats, caller, requests, limit);
    handle.give(held);
    Status::of(done)
}

/// What the second half will ask for, of `limit` bytes at most.
#[unsafe(no_mangle)]
pub extern "C" fn witcall_leave_requests(
    alloc: Global,
    handle: &mut Handle,
    func: u32,
    answer: &[Value],
    callee: &mut [u8],
    requests: &mut [Request],
    limit: u64,
) -> Status
    ensures done { CallsOf (stands_for handle.old) (stands_for handle.new) func result
        (λ f d. LeaveAsks f answer.now callee.old limit requests.old d requests.new) (requests.new ≡ requests.old) }
    ensures same { callee.new ≡ callee.old }
{
    let held = handle.take(alloc);
    let done = calls::leave_requests(&held, func, answer, callee, requests, limit);
    handle.give(held);
    Status::of(done)
}

/// What the arguments will ask for that a text of JSON says, of `limit` bytes at most.
#[unsafe(no_mangle)]
pub extern "C" fn witcall_json_requests(
    alloc: Global,
    handle: &mut Handle,
    func: u32,
    json: &[u8],
    requests: &mut [Request],
    limit: u64,
) -> Status
    ensures { TellsOf (stands_for handle.old) (stands_for handle.new) result
        (λ held done. JsonAsks (held_package held) func json.now limit requests.old done requests.new) }
{
    let held = handle.take(alloc);
    let call = JsonCall {
        alloc,
        package: package(&held),
        number: func,
    };
    let done = call.requests(json, requests, limit);
    handle.give(held);
    Status::of(done)
}

/// Puts the arguments that a text of JSON says into the blocks of a memory.
#[unsafe(no_mangle)]
pub extern "C" fn witcall_fill_json(
    alloc: Global,
    handle: &mut Handle,
    func: u32,
    json: &[u8],
    memory: &mut [u8],
    blocks: &[Block],
    handed: &mut [Value],
) -> Status
    ensures { TellsOf (stands_for handle.old) (stands_for handle.new) result
        (λ held done. JsonFills (held_package held) func json.now memory.old blocks.now handed.old done memory.new
        handed.new) }
{
    let held = handle.take(alloc);
    let call = JsonCall {
        alloc,
        package: package(&held),
        number: func,
    };
    let done = call.fill(json, memory, blocks, handed);
    handle.give(held);
    Status::of(done)
}

/// The result that an answer says, as a text of JSON.
#[unsafe(no_mangle)]
pub extern "C" fn witcall_read_json(
    alloc: Global,
    handle: &mut Handle,
    func: u32,
    answer: &[Value],
    memory: &mut [u8],
    json: &mut [u8],
    limit: u64,
) -> Status
    ensures done { TellsOf (stands_for handle.old) (stands_for handle.new) result
        (λ held done. JsonReads (held_package held) func answer.now memory.old limit json.old done json.new) }
    ensures same { memory.new ≡ memory.old }
{
    let held = handle.take(alloc);
    let call = JsonCall {
        alloc,
        package: package(&held),
        number: func,
    };
    let done = call.read(answer, memory, json, limit);
    handle.give(held);
    Status::of(done)
}

/// What is wrong in a text of JSON that is none of the arguments, as a line; 0 bytes if it is.
#[unsafe(no_mangle)]
pub extern "C" fn witcall_json_fault(
    alloc: Global,
    handle: &mut Handle,
    func: u32,
    json: &[u8],
    line: &mut [u8],
) -> Status
    ensures { TellsOf (stands_for handle.old) (stands_for handle.new) result
        (λ held done. JsonFaults (held_package held) func json.now line.old done line.new) }
{
    let held = handle.take(alloc);
    let call = JsonCall {
        alloc,
        package: package(&held),
        number: func,
    };
    let done = call.fault(json, line);
    handle.give(held);
    Status::of(done)
}

/// How the parameters lie in memory, side by side as in a record.
#[unsafe(no_mangle)]
pub extern "C" fn witcall_parameters(
    alloc: Global,
    handle: &mut Handle,
    func: u32,
    parts: &mut [Part],
) -> Status
    ensures done { CallsOf (stands_for handle.old) (stands_for handle.new) func result
        (λ f d. PartsDone f.params parts.old d parts.new) (parts.new ≡ parts.old) }
{
    let held = handle.take(alloc);
    let done = calls::parameter_parts(&held, func, parts);
    handle.give(held);
    Status::of(done)
}

/// How the result lies in memory, if there is one.
#[unsafe(no_mangle)]
pub extern "C" fn witcall_result(
    alloc: Global,
    handle: &mut Handle,
    func: u32,
    parts: &mut [Part],
) -> Status
    ensures done { CallsOf (stands_for handle.old) (stands_for handle.new) func result
        (λ f d. PartsDone (result_fields f.result) parts.old d parts.new) (parts.new ≡ parts.old) }
{
    let held = handle.take(alloc);
    let done = calls::result_part(&held, func, parts);
    handle.give(held);
    Status::of(done)
}

/// The kinds of the parameters of the callee's core function.
#[unsafe(no_mangle)]
pub extern "C" fn witcall_lifted_params(
    alloc: Global,
    handle: &mut Handle,
    func: u32,
    kinds: &mut [u32],
) -> Status
    ensures done { CallsOf (stands_for handle.old) (stands_for handle.new) func result
        (λ f d. KindsDone (lifted_signature f).params kinds.old d kinds.new) (kinds.new ≡ kinds.old) }
{
    let held = handle.take(alloc);
    let done = calls::kinds(&held, func, SignaturePart::LiftedParams, kinds);
    handle.give(held);
    Status::of(done)
}

/// The kind of its result, if it has one.
#[unsafe(no_mangle)]
pub extern "C" fn witcall_lifted_result(
    alloc: Global,
    handle: &mut Handle,
    func: u32,
    kinds: &mut [u32],
) -> Status
    ensures done { CallsOf (stands_for handle.old) (stands_for handle.new) func result
        (λ f d. KindsDone (lifted_signature f).results kinds.old d kinds.new) (kinds.new ≡ kinds.old) }
{
    let held = handle.take(alloc);
    let done = calls::kinds(&held, func, SignaturePart::LiftedResult, kinds);
    handle.give(held);
    Status::of(done)
}

/// The kinds of the parameters of the caller's import.
#[unsafe(no_mangle)]
pub extern "C" fn witcall_lowered_params(
    alloc: Global,
    handle: &mut Handle,
    func: u32,
    kinds: &mut [u32],
) -> Status
    ensures done { CallsOf (stands_for handle.old) (stands_for handle.new) func result
        (λ f d. KindsDone (lowered_signature f).params kinds.old d kinds.new) (kinds.new ≡ kinds.old) }
{
    let held = handle.take(alloc);
    let done = calls::kinds(&held, func, SignaturePart::LoweredParams, kinds);
    handle.give(held);
    Status::of(done)
}

/// The kind of its result, if it has one.
#[unsafe(no_mangle)]
pub extern "C" fn witcall_lowered_result(
    alloc: Global,
    handle: &mut Handle,
    func: u32,
    kinds: &mut [u32],
) -> Status
    ensures done { CallsOf (stands_for handle.old) (stands_for handle.new) func result
        (λ f d. KindsDone (lowered_signature f).results kinds.old d kinds.new) (kinds.new ≡ kinds.old) }
{
    let held = handle.take(alloc);
    let done = calls::kinds(&held, func, SignaturePart::LoweredResult, kinds);
    handle.give(held);
    Status::of(done)
}

/// The row of this number of the package's table.
#[unsafe(no_mangle)]
pub extern "C" fn witcall_row(
    alloc: Global,
    handle: &mut Handle,
    number: u32,
    row: &mut RowInfo,
) -> Status
    ensures { TellsOf (stands_for handle.old) (stands_for handle.new) result
        (λ held done. TellsOfTable (held_table held) (λ r. row_info_at r number) row.old done row.new) }
{
    let held = handle.take(alloc);
    let done = host_calls::host_lists::row(&types(&held), number, row);
    handle.give(held);
    Status::of(done)
}

/// The name of a row, 0 bytes of one without a name.
#[unsafe(no_mangle)]
pub extern "C" fn witcall_row_name(
    alloc: Global,
    handle: &mut Handle,
    row: u32,
    name: &mut [u8],
) -> Status
    ensures { TellsOf (stands_for handle.old) (stands_for handle.new) result
        (λ held done. TellsName (held_table held) (λ r. row_name_at r row) name.old done name.new) }
{
    let held = handle.take(alloc);
    let done = host_calls::host_lists::row_name(&types(&held), row, name);
    handle.give(held);
    Status::of(done)
}

/// The member of this index of a row.
#[unsafe(no_mangle)]
pub extern "C" fn witcall_member(
    alloc: Global,
    handle: &mut Handle,
    row: u32,
    index: u32,
    member: &mut MemberInfo,
) -> Status
    ensures { TellsOf (stands_for handle.old) (stands_for handle.new) result
        (λ held done. TellsOfTable (held_table held) (λ r. member_at r row index) member.old done member.new) }
{
    let held = handle.take(alloc);
    let done = host_calls::host_lists::member(&types(&held), row, index, member);
    handle.give(held);
    Status::of(done)
}

/// The label of a member, 0 bytes of an element of a tuple.
#[unsafe(no_mangle)]
pub extern "C" fn witcall_member_name(
    alloc: Global,
    handle: &mut Handle,
    row: u32,
    index: u32,
    name: &mut [u8],
) -> Status
    ensures { TellsOf (stands_for handle.old) (stands_for handle.new) result
        (λ held done. TellsName (held_table held) (λ r. member_name_at r row index) name.old done name.new) }
{
    let held = handle.take(alloc);
    let done = host_calls::host_lists::member_name(&types(&held), row, index, name);
    handle.give(held);
    Status::of(done)
}

/// The full name of the interface or of the world of this number.
#[unsafe(no_mangle)]
pub extern "C" fn witcall_owner_name(
    alloc: Global,
    handle: &mut Handle,
    kind: u32,
    number: u32,
    name: &mut [u8],
) -> Status
    ensures { TellsOf (stands_for handle.old) (stands_for handle.new) result
        (λ held done. TellsNewName (held_table held) (λ r. owner_name_at r kind number) name.old done name.new) }
{
    let held = handle.take(alloc);
    let done = host_calls::host_lists::owner_name(&types(&held), alloc, kind, number, name);
    handle.give(held);
    Status::of(done)
}

/// The package as a binary.
#[unsafe(no_mangle)]
pub extern "C" fn witcall_to_binary(alloc: Global, handle: &mut Handle, bytes: &mut [u8]) -> Status
    ensures { TellsOf (stands_for handle.old) (stands_for handle.new) result
        (λ held done. WritesBinary (held_package held) bytes.old done bytes.new) }
{
    let held = handle.take(alloc);
    let done = c_border::to_binary(package(&held), alloc, bytes);
    handle.give(held);
    Status::of(done)
}

/// The package as a text.
#[unsafe(no_mangle)]
pub extern "C" fn witcall_to_text(alloc: Global, handle: &mut Handle, text: &mut [u8]) -> Status
    ensures { TellsOf (stands_for handle.old) (stands_for handle.new) result
        (λ held done. WritesText (held_package held) text.old done text.new) }
{
    let held = handle.take(alloc);
    let done = c_border::to_text(package(&held), alloc, text);
    handle.give(held);
    Status::of(done)
}

/// The package as one JSON document, with those before it.
#[unsafe(no_mangle)]
pub extern "C" fn witcall_describe(alloc: Global, handle: &mut Handle, json: &mut [u8]) -> Status
    ensures { TellsOf (stands_for handle.old) (stands_for handle.new) result
        (λ held done. Describes (held_package held) json.old done json.new) }
{
    let held = handle.take(alloc);
    let done = c_border::describe(package(&held), alloc, json);
    handle.give(held);
    Status::of(done)
}

/// What is wrong with the packages of these texts, whose bytes stand one after another, as `wit-explain check --json`
/// tells of files: an array of objects, each with the index of its text as `file`.
#[unsafe(no_mangle)]
pub extern "C" fn witcall_explain(
    alloc: Global,
    bytes: &[u8],
    lengths: &[usize],
    json: &mut [u8],
) -> Status
    ensures { (done : Result ℕ CallError) × (result ≡ status_of done)
        × Explains bytes.now lengths.now json.old done json.new }
{
    Status::of(c_border::explain(alloc, bytes, lengths, json))
}
