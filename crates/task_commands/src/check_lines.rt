//! The text of `check`.
ghost use Rattle.std.specs.Prelude.{◌≡◌, List, IfOk, IfSome, string_bytes};
ghost use Rattle.mc_task.specs.declared.task.Task.{Task};
ghost use Rattle.mc_task.specs.TaskSet.{IsScale};
ghost use Rattle.mc_model.specs.CheckText.{rule_text, scale_text, unheld_text, check_text};
ghost use Rattle.load_sum.specs.Belong.{BelongTo, AreOfSomeSet};

use admission::holds_for;
use load_sum::Loads;
use mc_task::{Rule, Scale, TaskSet};
use replies::load_texts;
use std::alloc::{AllocError, Global};

/// The text of a set that the test admits under the rule, with the set's loads.
pub fn check_text(
    alloc: Global,
    set: &TaskSet,
    loads: &Loads,
    rule: Rule,
) -> Result<Vec<u8>, AllocError>
    requires { BelongTo set.now.tasks loads.now }
    ensures { IfOk result (λ text. text.items ≡ check_text set.now rule) }
{
    let count = set.len();
    let rule = rule_text(alloc, rule)?;
    let unheld = unheld_text(alloc, loads, set.scale())?;
    let loads = load_texts(alloc, "\n", loads)?;
    let text = format!(in alloc; "tasks {count}\n{loads}\n{rule}{unheld}")?;
    Ok(text.into_bytes())
}

#[tactic(auto, unfolding(mc_model::specs::CheckText::rule_text))]
fn rule_text(alloc: Global, rule: Rule) -> Result<String, AllocError>
    ensures { IfOk result (λ s. string_bytes s ≡ rule_text rule) }
{
    match rule {
        Rule::Plain => String::from_str(alloc, "rule plain\n"),
        Rule::Virtual { p, q } => format!(in alloc; "rule virtual\nx {p}/{q}\n"),
    }
}

// The line of a scale that does not hold, where there is one.
fn unheld_text(alloc: Global, loads: &Loads, scale: Option<Scale>) -> Result<String, AllocError>
    requires loads { AreOfSomeSet loads.now }
    requires scale { IfSome scale IsScale }
    ensures { IfOk result (λ s. (tasks : List Task) → BelongTo tasks loads.now → string_bytes s ≡ unheld_text tasks scale) }
{
    match scale {
        Some(scale) if holds_for(loads, scale.p, scale.q) => Ok(String::new(alloc)),
        Some(scale) => scale_text(alloc, scale),
        None => Ok(String::new(alloc)),
    }
}

#[tactic(auto, unfolding(mc_model::specs::CheckText::scale_text))]
fn scale_text(alloc: Global, scale: Scale) -> Result<String, AllocError>
    ensures { IfOk result (λ s. string_bytes s ≡ scale_text scale) }
{
    let Scale { p, q } = scale;
    format!(in alloc; "scale {p}/{q} does not hold\n")
}
