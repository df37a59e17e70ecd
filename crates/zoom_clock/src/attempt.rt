//! The attempts to connect to the addresses of one host, as a list.
ghost use Rattle.std.specs.Prelude.{◌≡◌, ◌<◌, IfOk, IfSome, List, length, slice_index_or, slice_set, replicate, position};
ghost use Rattle.std.specs.List.{list_all};
ghost use Rattle.zoom_clock.specs.declared.attempt.Attempt.TheVariants.{Ahead, Failed};
ghost use Rattle.zoom_clock.specs.Attempts.{is_ahead, is_waiting, has_failed};

use std::alloc::{AllocError, Global};
use std::marker::Model;

/// An attempt to connect to one address.
#[derive(Clone, Copy, PartialEq, Eq)]
pub enum Attempt {
    /// It was not begun.
    Ahead,
    /// It was begun, and neither succeeded nor failed.
    Open,
    /// The system had no socket for it.
    Waiting,
    Failed,
}

/// An attempt for each address of a host.
#[derive(Drop)]
pub struct AttemptList {
    attempts: Vec<Attempt>,
}

impl Model for AttemptList {
    ghost use Rattle.std.specs.Prelude.{List};
    ghost use Rattle.zoom_clock.specs.declared.attempt.Attempt.{Attempt};

    ghost Value = { List Attempt };

    ghost view = { λ a. a.attempts.items };
}

impl AttemptList {
    /// Returns `count` attempts that were not begun, or `AllocError` if no memory is found.
    pub fn new(alloc: Global, count: usize) -> Result<Self, AllocError>
        ensures { IfOk result (λ a. a ≡ replicate count Ahead) }
    {
        Ok(AttemptList {
            attempts: vec![in alloc; Attempt::Ahead; count]?,
        })
    }

    /// How many there are.
    pub fn len(&self) -> usize
        ensures { result ≡ length self.now }
    {
        self.attempts.len()
    }

    /// The attempt of this number; past the end, one that has failed.
    pub fn at(&self, k: usize) -> Attempt
        ensures { result ≡ slice_index_or self.now k Failed }
    {
        if k < self.attempts.len() {
            self.attempts[k]
        } else {
            Attempt::Failed
        }
    }

    /// Changes the attempt of this number.
    pub fn set(&mut self, k: usize, attempt: Attempt)
        requires { k < length self.old }
        ensures { self.new ≡ slice_set self.old k attempt }
    {
        self.attempts[k] = attempt;
    }

    /// Whether all have failed.
    pub fn have_all_failed(&self) -> bool
        ensures { result ≡ list_all has_failed self.now }
    {
        self.attempts.iter().all(|a| has_failed(a))
    }

    /// The first that waits for a socket.
    pub fn first_waiting(&self) -> Option<usize>
        ensures first { result ≡ position is_waiting self.now }
        ensures within { IfSome result (λ k. k < length self.now) }
    {
        self.attempts.iter().position(|a| is_waiting(a))
    }

    /// The first that was not begun.
    pub fn first_ahead(&self) -> Option<usize>
        ensures first { result ≡ position is_ahead self.now }
        ensures within { IfSome result (λ k. k < length self.now) }
    {
        self.attempts.iter().position(|a| is_ahead(a))
    }
}

fn has_failed(a: &Attempt) -> bool
    ensures { result ≡ has_failed a.now }
{
    match a {
        Attempt::Failed => true,
        _ => false,
    }
}

fn is_waiting(a: &Attempt) -> bool
    ensures { result ≡ is_waiting a.now }
{
    match a {
        Attempt::Waiting => true,
        _ => false,
    }
}

fn is_ahead(a: &Attempt) -> bool
    ensures { result ≡ is_ahead a.now }
{
    match a {
        Attempt::Ahead => true,
        _ => false,
    }
}
