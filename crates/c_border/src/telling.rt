//! Requests in an array of a host's own.
ghost use Rattle.std.specs.Prelude.{◌≡◌, ◌<◌, ◌≤◌, IfOk, IfErr, OnOk, List, length, map};
ghost use Rattle.canonical_abi.specs.Trace;
ghost use Rattle.adapter.specs.Asking.{over, slot, total};

use adapter::Request;
use host_calls::CallError;

/// Tests that requests ask together for at most so many bytes: 76 if they ask for more.
fn test_limit(asked: &[Request], limit: u64) -> Result<(), CallError>
    ensures ok { OnOk result ((rs : List Trace.Request) → asked.now ≡ map slot rs → total rs ≤ limit) }
    ensures above { IfErr result (λ e. (e ≡ CallError.AboveLimit)
        × ((rs : List Trace.Request) → asked.now ≡ map slot rs → limit < total rs)) }
{
    let mut left = limit;
    for request in asked {
        let Some(rest) = left.checked_sub(u64::from(request.size)) else {
            return Err(CallError::AboveLimit);
        };
        left = rest;
    }
    Ok(())
}

/// Tells requests at the front of an array, as many as there is room for, and answers how many they are: 76 if they ask
/// together for more bytes than the limit.
pub(crate) fn tell_requests(
    asked: &[Request],
    requests: &mut [Request],
    limit: u64,
) -> Result<usize, CallError>
    ensures told { IfOk result (λ count. (rs : List Trace.Request) → asked.now ≡ map slot rs
        → (requests.new ≡ over requests.old 0 rs) × (count ≡ length rs) × (total rs ≤ limit)) }
    ensures above { IfErr result (λ e. (e ≡ CallError.AboveLimit) × (requests.new ≡ requests.old)
        × ((rs : List Trace.Request) → asked.now ≡ map slot rs → limit < total rs)) }
{
    test_limit(asked, limit)?;
    let count = asked.len().min(requests.len());
    requests[..count].copy_from_slice(&asked[..count]);
    Ok(asked.len())
}
