//! What is told of the blocks that values ask for.

use adapter::Request;
use canonical_abi::Fault;
use host_calls::CallError;
use text_builder::TextBuilder;

/// Writes why nothing was done, as a member.
pub(crate) fn push_error(text: &mut TextBuilder, error: CallError) {
    let key = match error {
        CallError::NoMemory | CallError::Fault(Fault::NoMemory) => {
            text.refuse();
            return;
        }
        CallError::Fault(_) => "trap",
        _ => "refused",
    };
    text.push_three("\"", key, "\":\"");
    text.push_made(error.to_string(text.alloc()));
    text.push("\"");
}

/// Writes a request, an alignment and a size.
fn push_request(text: &mut TextBuilder, request: &Request) {
    text.push("[");
    text.push_number(request.align as usize);
    text.push(",");
    text.push_number(request.size as usize);
    text.push("]");
}

/// Writes requests.
fn push_requests(text: &mut TextBuilder, requests: &[Request]) {
    text.push("\"asks\":[");
    for (index, request) in requests.iter().enumerate() {
        text.separate(index, ",");
        push_request(text, request);
    }
    text.push("]");
}

/// Writes the blocks that values ask for.
pub fn push_asks(text: &mut TextBuilder, asked: &Result<Vec<Request>, CallError>) {
    text.push("{");
    match asked {
        Ok(requests) => push_requests(text, requests.as_slice()),
        Err(error) => push_error(text, *error),
    }
    text.push("}");
}
