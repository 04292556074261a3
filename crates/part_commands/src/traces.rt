//! The text of several traces.
ghost use Rattle.std.specs.Prelude.{◌≡◌, IfOk, length, flat_map, zip, All};
ghost use Rattle.part_commands.specs.Traced.{HasSmallCapacity, floor_lines};

use mc_task::Memory;
use std::alloc::Global;
use timetable::Floor;
use trace_format::write_rows;

/// The traces of these processors' floors, each after a line with its processor.
pub fn traces_text(alloc: Global, processors: &[u32], floors: &[Floor]) -> Result<Vec<u8>, Memory>
    requires long { length processors.now ≡ length floors.now }
    requires few { All HasSmallCapacity floors.now }
    ensures { IfOk result (λ text. text.items ≡ flat_map floor_lines (zip processors.now floors.now)) }
{
    let mut text = Vec::new(alloc);
    for i in 0..processors.len() {
        text.extend_from_slice(&floor_lines(alloc, processors[i], &floors[i])?)?;
    }
    Ok(text)
}

// The processor, and the trace of its floor.
fn floor_lines(alloc: Global, processor: u32, floor: &Floor) -> Result<Vec<u8>, Memory>
    requires { HasSmallCapacity floor.now }
    ensures { IfOk result (λ lines. lines.items ≡ floor_lines (processor, floor.now)) }
{
    let core = floor.core();
    // The floor has no more rows than its capacity.
    let _places = core.places();
    let trace = write_rows(alloc, core.set(), core.rows())?;
    let mut lines = format!(in alloc; "processor {processor}\n")?.into_bytes();
    lines.extend_from_slice(&trace)?;
    Ok(lines)
}
