//! A law of views. It is the contract of a function that does nothing.
ghost use Rattle.zmeta_offline.specs.SameViews.{SameViewLaw};

/// In each view the same is printed if the same is told of why each connection stopped.
pub fn same_view_law()
    ensures { SameViewLaw }
{}
