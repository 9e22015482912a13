//! The parts of a sweep, in order.

ghost use Rattle.std.specs.Prelude.{◌≡◌, ◌<◌, ◌++◌, ◌^◌, ◌-◌, IfOk, OnOk};
ghost use Rattle.dr_sweep.specs.Parts.{step_parts, disaster_parts, parts_of, server_parts};

use crate::point::servers_lost;
use dr_plan::SweepPlan;
use std::alloc::{AllocError, Global};

/// A part of a sweep. All places are counted from 0.
#[derive(Clone, Copy)]
pub enum Part {
    /// The gap after that many tried steps.
    Between {
        disaster: usize,
        place: usize,
    },
    /// The device writes of a server in a tried step.
    Within {
        disaster: usize,
        place: usize,
        server: usize,
    },
}

/// Adds the parts of the servers of a disaster in a tried step.
fn push_servers(
    parts: &mut Vec<Part>,
    servers: usize,
    disaster: usize,
    place: usize,
) -> Result<(), AllocError>
    ensures { OnOk result (parts.new.items ≡ parts.old.items ++ server_parts disaster place servers) }
{
    for server in 0..servers {
        parts.push(Part::Within {
            disaster,
            place,
            server,
        })?;
    }
    Ok(())
}

/// Adds the parts of a tried step, and the gap after it.
fn push_step(
    parts: &mut Vec<Part>,
    plan: &SweepPlan,
    disaster: usize,
    place: usize,
) -> Result<(), AllocError>
    requires { place < 2 ^ 64 - 1 }
    ensures { OnOk result (parts.new.items ≡ parts.old.items ++ step_parts plan.now disaster place) }
{
    push_servers(parts, servers_lost(plan, disaster), disaster, place)?;
    parts.push(Part::Between {
        disaster,
        place: place + 1,
    })?;
    Ok(())
}

/// Adds the parts of a disaster.
fn push_disaster(parts: &mut Vec<Part>, plan: &SweepPlan, disaster: usize) -> Result<(), AllocError>
    ensures { OnOk result (parts.new.items ≡ parts.old.items ++ disaster_parts plan.now disaster) }
{
    parts.push(Part::Between { disaster, place: 0 })?;
    for place in 0..plan.tried().len() {
        push_step(parts, plan, disaster, place)?;
    }
    Ok(())
}

/// All parts of a sweep.
pub fn parts_of(alloc: Global, plan: &SweepPlan) -> Result<Vec<Part>, AllocError>
    ensures { IfOk result (λ parts. parts.items ≡ parts_of plan.now) }
{
    let mut parts = Vec::new(alloc);
    for disaster in 0..plan.disasters().len() {
        push_disaster(&mut parts, plan, disaster)?;
    }
    Ok(parts)
}
