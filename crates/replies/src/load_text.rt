//! The loads of a set, in words.
ghost use Rattle.std.specs.Prelude.{◌≡◌, ◌<◌, List, IfOk, string_bytes};
ghost use Rattle.mc_task.specs.declared.task.Task.{Task};
ghost use Rattle.mc_model.specs.CheckText.{load_texts, not_admitted_text};
ghost use Rattle.load_sum.specs.Belong.{BelongTo, AreOfSomeSet};

use load_sum::Loads;
use std::alloc::{AllocError, Global};
use tick_frac::Ratio;

/// The three loads with this gap between them, each in lowest terms.
#[tactic(auto, unfolding(mc_model::specs::CheckText::load_texts))]
pub fn load_texts(alloc: Global, gap: &str, loads: &Loads) -> Result<String, AllocError>
    requires { 0 < loads.now.lcm }
    ensures { IfOk result (λ text. string_bytes text
        ≡ load_texts gap.now loads.now.lcm loads.now.low_low loads.now.high_low loads.now.high_high) }
{
    let n = u128::from(loads.lcm);
    let low_low = Ratio::new(loads.low_low, n);
    let high_low = Ratio::new(loads.high_low, n);
    let high_high = Ratio::new(loads.high_high, n);
    format!(in alloc; "U_LL {low_low}{gap}U_HL {high_low}{gap}U_HH {high_high}")
}

/// The line of a set that the test refuses, with the set's loads.
pub fn not_admitted_text(alloc: Global, loads: &Loads) -> Result<Vec<u8>, AllocError>
    requires { AreOfSomeSet loads.now }
    ensures { IfOk result (λ text. (set : List Task) → BelongTo set loads.now → text.items ≡ not_admitted_text set) }
{
    let loads = load_texts(alloc, " ", loads)?;
    let text = format!(in alloc; "not admitted: {loads}\n")?;
    Ok(text.into_bytes())
}
