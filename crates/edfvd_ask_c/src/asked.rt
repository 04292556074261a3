//! The program's commands, asked in process.
ghost use Rattle.std.specs.Prelude.{◌≡◌, map};
ghost use Rattle.edfvd_ask_c.specs.Asked.{Asks, no_reply_status};

use crate::status;
use in_process::{NoReply, ask_in_process};
use std::alloc::Global;

/// Asks what the words ask of the program, over the bytes of two files that the words name `1` and `2`, and writes the
/// text of the reply into the buffer. `ended` is the status that the program would end with. If the buffer is too short, the
/// call returns status 44, and `len` is the length that the text needs.
#[unsafe(no_mangle)]
pub extern "C" fn edfvd_raw_ask(
    alloc: Global,
    words: &[&[u8]],
    first: &[u8],
    second: &[u8],
    out: &mut [u8],
    len: &mut usize,
    ended: &mut u32,
) -> u32
    ensures asked { Asks (map (λ w. w.now) words.now) first.now second.now result ended.new len.new out.old out.new }
{
    *len = 0;
    *ended = 0;
    let reply = match ask_in_process(alloc, words, first, second) {
        Ok(reply) => reply,
        Err(no_reply) => return status_of(no_reply),
    };
    let text = reply.text();
    *len = text.len();
    if out.len() < text.len() {
        return status::SHORT_BUFFER;
    }
    out[..text.len()].copy_from_slice(text);
    *ended = u32::from(reply.status());
    status::OK
}

fn status_of(no_reply: NoReply) -> u32
    ensures { result ≡ no_reply_status no_reply }
{
    match no_reply {
        NoReply::Memory => status::MEMORY,
        NoReply::Threads => status::THREADS,
        NoReply::NotText => status::ARGUMENT,
    }
}
