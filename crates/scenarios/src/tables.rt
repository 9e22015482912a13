//! The tables that are run beside a folder's scenarios. Each prints a line for each of its cases that isn't as it should be, and
//! one line behind them.

use crate::damage::{DamageFault, Told, check_damage, damages, name_of};
use crate::stops::{StopFault, check_stop, stops};
use anyhow::Result;
use dr_verdict::Recovery;
use std::alloc::AllocError;

/// How many recoveries found a group, and how many were stopped.
#[derive(Clone, Copy)]
struct Recoveries {
    found: usize,
    stopped: usize,
}

impl Recoveries {
    /// Counts one more.
    fn and(self, recovery: Recovery) -> Recoveries {
        let Recoveries { found, stopped } = self;
        match recovery {
            Recovery::Found { .. } => Recoveries {
                found: found.saturating_add(1),
                stopped,
            },
            Recovery::Stopped => Recoveries {
                found,
                stopped: stopped.saturating_add(1),
            },
            Recovery::Other => self,
        }
    }
}

/// Runs the table of stops, and says whether each is as it should be.
fn try_stops<R: AllocGlobal + Print + Clone + Drop>(rt: &R) -> Result<bool> {
    let stops = stops(rt.alloc())?;
    let mut counts = Recoveries {
        found: 0,
        stopped: 0,
    };
    let mut all_agree = true;
    for stop in &stops {
        match check_stop(rt.alloc(), *stop) {
            Ok(recoveries) => {
                for recovery in recoveries {
                    counts = counts.and(recovery);
                }
            }
            Err(StopFault::Memory(_)) => return Err(AllocError.into()),
            Err(fault) => {
                let (server, writes, torn) = (stop.server, stop.writes, stop.torn);
                println!(rt; "@stop {server} after {writes} torn {torn}: {fault}")?;
                all_agree = false;
            }
        }
    }
    let (all, Recoveries { found, stopped }) = (stops.len(), counts);
    let says = if all_agree { "" } else { "not " };
    println!(rt;
        "{all} stops, {says}each recovery as it should be: {found} with a group, {stopped} stopped"
    )?;
    Ok(all_agree)
}

/// Runs the table of damaged images, and says whether each is answered as it should be.
fn try_damages<R: AllocGlobal + Print + Clone + Drop>(rt: &R) -> Result<bool> {
    let damages = damages(rt.alloc())?;
    let mut bad: usize = 0;
    let mut good: usize = 0;
    let mut all_agree = true;
    for damage in &damages {
        match check_damage(rt.alloc(), *damage) {
            Ok(Told::Bad) => bad = bad.saturating_add(1),
            Ok(Told::Good) => good = good.saturating_add(1),
            Err(DamageFault::Memory(_)) => return Err(AllocError.into()),
            Err(fault) => {
                let name = name_of(rt.alloc(), *damage)?;
                println!(rt; "{name}: {fault}")?;
                all_agree = false;
            }
        }
    }
    let all = damages.len();
    let says = if all_agree { "" } else { "not " };
    println!(rt;
        "{all} damaged images, {says}each answered as it should be: {bad} bad, {good} read"
    )?;
    Ok(all_agree)
}

/// Runs all tables, and says whether all is as it should be.
pub fn try_tables<R: AllocGlobal + Print + Clone + Drop>(rt: &R) -> Result<bool> {
    let stops_agree = try_stops(rt)?;
    let damages_agree = try_damages(rt)?;
    Ok(stops_agree && damages_agree)
}
