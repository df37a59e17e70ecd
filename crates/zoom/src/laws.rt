//! The laws of the family, each the contract of a function that does nothing.

pub use zoom_laws::laws::{accord_laws, catalogue_laws, exchange_laws, length_laws, schedule_laws};
pub use zoom_pool::laws::{
    conflicts, drive_laws, exactly_known, meta_laws, one_input, one_transcript,
    order_does_not_matter, take_laws, up_to,
};
pub use zoom_sim::laws::run_law;
pub use zoom_tcp::laws::replayed_law;
pub use zoom_trace::laws::{
    followed_law, json_law, line_law, prefix_law, replay_law, reports_law, same_law, sound_law,
    whole_law, written_law,
};
