//! Sessions of origins, pools, hosts and driven connections, step by step, world files that are read, hosts that are asked
//! under a clock, and traces of that: the tests that cross the crates above what is known.
#![tactic(auto)]

#[cfg(test)]
mod arranged;
#[cfg(test)]
mod asking;
#[cfg(test)]
mod conversions;
#[cfg(test)]
mod failing;
#[cfg(test)]
mod heads;
#[cfg(test)]
mod moves;
#[cfg(test)]
mod pool;
#[cfg(test)]
mod refusals;
#[cfg(test)]
mod seeds;
#[cfg(test)]
mod sessions;
#[cfg(test)]
mod states;
#[cfg(test)]
mod talks;
#[cfg(test)]
mod targets;
#[cfg(test)]
mod told;
#[cfg(test)]
mod traces;
#[cfg(test)]
mod worlds;
