//! The saved file of a knowledge: it is written and read as elements of names and facts.

pub mod fits;
pub mod front;
pub mod loading;
pub mod natural;
pub mod saved_fact;
pub mod saved_names;
pub mod saving;
