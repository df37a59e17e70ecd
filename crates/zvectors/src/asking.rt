//! Asking hosts in memory under a clock that only waiting moves: runs by seed. Some hosts answer; others refuse, are
//! silent, die, lie or trickle.
mod agenda;
pub(crate) mod catalogues;
mod conduct;
pub(crate) mod fault;
mod judge;
mod peers;
pub(crate) mod runs;
mod simulation;
mod tempers;
mod waiting;
