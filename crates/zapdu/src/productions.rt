//! The productions of the protocol, each in its own file, with the table of its places (Z39.50-2003, 4.1).

pub mod close;
pub mod delivery;
pub mod diagnostic;
pub mod element_set_names;
pub mod external;
pub mod implementation;
pub mod init_request;
pub mod init_response;
pub mod present_request;
pub mod present_response;
pub mod range;
pub mod record;
pub mod record_composition;
pub mod search_details;
pub mod search_query;
pub mod search_request;
pub mod search_response;
