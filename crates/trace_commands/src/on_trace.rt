//! A command on a trace.
ghost use Rattle.trace_commands.specs.OnTrace.{IsScale, on_trace, set_with_rule_for};
ghost use Rattle.replies.specs.Stop.{ReadsOrRefuses};
ghost use Rattle.command.specs.Serves.{Serves};
ghost use Rattle.command.specs.Given.{IsSetWithRule};

use crate::action::TraceAction;
use crate::judging::reply_to_trace;
use command::{
    Admitted, FileName, MOST_TABLE_BYTES, SetWithRule, fetch, read_admitted, read_set_with_rule,
};
use mc_task::Rule;
use mc_world::Shelf;
use replies::{Reply, Stop};
use std::alloc::Global;

/// The most bytes of a trace.
const MOST_TRACE_BYTES: usize = 1 << 27;

/// A command on the trace in the second file, of the set in the first.
#[derive(Drop)]
pub struct TraceCommand<'a> {
    pub action: TraceAction,
    pub tasks: FileName<'a>,
    pub trace: FileName<'a>,
}

impl<'a> TraceCommand<'a> {
    /// The reply: what the command writes of the trace.
    pub fn reply<S: Shelf>(&self, alloc: Global, shelf: &mut S) -> Result<Reply, Stop>
        requires { IsScale self.now.action }
        ensures { Serves 1 (on_trace self.now.action self.now.tasks self.now.trace) (S.state shelf.old) (S.state shelf.new) result }
    {
        let bytes = fetch(alloc, shelf, 1, &self.tasks, MOST_TABLE_BYTES)?;
        let ruled = set_with_rule_for(alloc, self.action, &bytes)?;
        let more = fetch(alloc, shelf, 2, &self.trace, MOST_TRACE_BYTES)?;
        reply_to_trace(alloc, self.action, &ruled, &more)
    }
}

// The set in a task file with these bytes, under the rule that the words give, or else the test's.
fn set_with_rule_for(alloc: Global, action: TraceAction, bytes: &[u8]) -> Result<SetWithRule, Stop>
    requires { IsScale action }
    ensures { ReadsOrRefuses IsSetWithRule (set_with_rule_for action bytes.now) result }
{
    match action {
        TraceAction::JudgeBy { p, q } => read_set_with_rule(alloc, Rule::Virtual { p, q }, bytes),
        TraceAction::Judge | TraceAction::Chart | TraceAction::Report | TraceAction::Migrate => {
            let Admitted { set, rule, .. } = read_admitted(alloc, bytes)?;
            Ok(SetWithRule { set, rule })
        }
    }
}
