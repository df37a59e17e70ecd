// Hosts in memory that are asked, by seed, in each manner.
use crate::asking::fault::Fault;
use crate::asking::runs::{Plan, simulate};
use std::alloc::Global;
use std::process::Abort;
use std::test::Fail;

fn plan_of(seed: u64, at_once: bool, gives_up: bool) -> Plan {
    Plan {
        seed,
        hosts: (seed % 4) as u32 + 3,
        at_once,
        gives_up,
    }
}

// Whether a run goes well, and again the same way.
fn goes(alloc: Global, plan: Plan) -> Result<bool, Fault> {
    let first = simulate(alloc, plan)?;
    let second = simulate(alloc, plan)?;
    Ok(first == second)
}

// What a failing test shows of a run.
fn shown(told: Result<bool, Fault>) -> (&'static str, u32) {
    match told {
        Ok(_) => ("another run", 0),
        Err(fault) => fault.shown(),
    }
}

fn go_well(
    rt: &(impl Abort + AllocGlobal),
    seeds: u64,
    at_once: bool,
    gives_up: bool,
) -> Result<(), Fail> {
    for seed in 0..seeds {
        let told = goes(rt.alloc(), plan_of(seed, at_once, gives_up));
        let (fault, c) = shown(told);
        assert!(rt; matches!(told, Ok(true)), "seed {seed}: {fault} {c}");
    }
    Ok(())
}

#[test]
fn at_once(rt: HostRuntime) -> Result<(), Fail> {
    go_well(&rt, 200, true, false)
}

#[test]
fn in_order(rt: HostRuntime) -> Result<(), Fail> {
    go_well(&rt, 100, false, false)
}

#[test]
fn given_up(rt: HostRuntime) -> Result<(), Fail> {
    go_well(&rt, 100, true, true)?;
    go_well(&rt, 100, false, true)
}
