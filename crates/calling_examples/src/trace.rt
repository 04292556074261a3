//! The rows of a core as text.
ghost use Rattle.std.specs.Prelude.{◌≡◌, ◌<◌, Err, IfOk, length, reverse};
ghost use Rattle.mc_model.specs.TraceText.{trace_text};

use mode_core::Core;
use std::alloc::Global;
use thiserror::Error;
use trace_format::write_rows;

/// Why a trace is not written.
#[derive(Clone, Copy, Debug, PartialEq, Eq, Error)]
pub enum NoText {
    #[error("out of memory")]
    Memory,
    #[error("more than 2000000 rows")]
    TooMany,
}

/// The text of a core's rows, as a trace file would have it: equal neighbouring ticks stand in one record.
pub fn trace_of(alloc: Global, core: &Core) -> Result<Vec<u8>, NoText>
    ensures text { IfOk result (λ text. text.items ≡ trace_text core.now.set (reverse core.now.rows)) }
    ensures too_many { result ≡ Err NoText.TooMany → 2000000 < length core.now.rows }
{
    let rows = core.rows();
    if rows.len() > 2_000_000 {
        return Err(NoText::TooMany);
    }
    match write_rows(alloc, core.set(), rows) {
        Ok(text) => Ok(text),
        Err(_) => Err(NoText::Memory),
    }
}
