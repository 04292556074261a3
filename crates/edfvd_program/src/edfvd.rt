//! The top call.
ghost use Rattle.std.specs.Prelude.{◌≡◌, ◌≢◌, ◌<◌, IfOk, OnOk, IfSome};
ghost use Rattle.mc_world.specs.Count.{Rose};
ghost use Rattle.command.specs.Outcome.{AskedInOrder};
ghost use Rattle.command_line.specs.Form.{form_in, command, IsInRange};
ghost use Rattle.promises.specs.Headline.{Headline};
ghost use Rattle.promises.specs.RightText.{RightText};
ghost use Rattle.promises.specs.Complete.{Complete};
ghost use Rattle.promises.specs.Tested.{Tested};
ghost use Rattle.promises.specs.Reply.{IsReply};
ghost use Rattle.edfvd_program.specs.Outcome.{Outcome, CalmOutcome, WritesAnswer, WhereReported};

use command::deliver;
use command_line::{form_of, usage_line};
use executive::Gate;
use mc_world::{Shelf, Sink};
use replies::{Reply, Stop};
use std::alloc::{AllocError, Global};
use std::sync::Wait;
use std::thread::Threads;

/// A call of the program: the words after its name, the shelf that its files are on, and the sink that it writes to.
#[derive(Drop)]
pub struct Call<'a, S, K> {
    pub words: &'a [&'a str],
    pub shelf: S,
    pub out: K,
}

/// Does what the words of the call ask, and returns the status that the program ends with.
///
/// `run`, `soak`, `live` and `runall` run a thread for each task, and call the gate at its steps. They may wait, and all clauses
/// hold if they return, however the threads interleave.
pub fn edfvd<R: Threads + Wait + Sync, S: Shelf, K: Sink, G: Gate + Sync>(
    rt: &R,
    alloc: Global,
    call: &mut Call<'_, S, K>,
    gate: &G,
) -> u8
    ensures outcome { Outcome S.state K.state call.old call.new result }

    // The words stay as they are.
    ensures words { call.new.words ≡ call.old.words }

    // The next five hold where the shelf reports its files, the sink its bytes, and neither fails. The status and the text are
    // the answer, or memory ran out and nothing was written.
    ensures answer { WhereReported S.state K.state WritesAnswer call.old call.new result }

    // A set is scheduled exactly where the published test holds, and each trace written or found legal keeps the deadlines.
    ensures headline { WhereReported S.state K.state Headline call.old call.new result }

    // The trace that is written is the one of the set and its work, and what is written about a trace is true.
    ensures right_text { WhereReported S.state K.state RightText call.old call.new result }

    // Nothing is refused without reason.
    ensures complete { WhereReported S.state K.state (λ form files old ended new. Complete form files ended) call.old call.new result }

    // What is written about sets that are tested and not scheduled is true.
    ensures tested { WhereReported S.state K.state Tested call.old call.new result }

    // Status 8 comes exactly where the sink failed.
    ensures write_fault { result ≡ 8 → Rose (K.state call.old.out).faults (K.state call.new.out).faults }
    ensures no_write_fault { (K.state call.old.out).faults < (K.state call.new.out).faults → result ≡ 8 }

    // Over a shelf and a sink that never fail, as the calm ones, no read fault and no write fault is reported.
    ensures calm_shelf { (S.state call.new.shelf).faults ≡ 0 → CalmOutcome S.state K.state call.old call.new result }
    ensures calm_sink { (K.state call.new.out).faults ≡ 0 → result ≢ 8 }

    // If a fetch ran out of memory, the status is 9.
    ensures memory { (S.state call.old.shelf).memory_faults < (S.state call.new.shelf).memory_faults → result ≡ 9 }

    // Even if memory runs out, no file is asked for except the command's, in their order, none after one that failed, and the
    // second only where the first lets the command go on.
    ensures asked { AskedInOrder (command (form_in call.old.words.now)) (S.state call.old.shelf) (S.state call.new.shelf) }
{
    match reply_to(rt, alloc, call.words, &mut call.shelf, gate) {
        Ok(reply) => deliver(&reply, &mut call.out),
        Err(AllocError) => 9,
    }
}

fn reply_to<R: Threads + Wait + Sync, S: Shelf, G: Gate + Sync>(
    rt: &R,
    alloc: Global,
    words: &[&str],
    shelf: &mut S,
    gate: &G,
) -> Result<Reply, AllocError>
    ensures reply { IfOk result (IsReply (form_in words.now) (S.state shelf.old) (S.state shelf.new)) }
    ensures memory_faults { OnOk result ((S.state shelf.new).memory_faults ≡ (S.state shelf.old).memory_faults) }
    ensures asked { AskedInOrder (command (form_in words.now)) (S.state shelf.old) (S.state shelf.new) }
    ensures range { IfSome (form_in words.now) IsInRange }
{
    let Some(form) = form_of(words) else {
        return Ok(Reply::new(2, usage_line(alloc)?));
    };
    match form.reply(rt, alloc, shelf, gate) {
        Ok(reply) | Err(Stop::Refused(reply)) => Ok(reply),
        Err(Stop::Memory) => Err(AllocError),
    }
}
