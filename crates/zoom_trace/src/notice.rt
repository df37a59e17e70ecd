//! What was noticed of a host that is not in its connection's state.

/// What was noticed of a host last, beside the state of its connection. It says why a connection failed, as far as the
/// system told.
#[derive(Clone, Copy, PartialEq, Eq)]
pub enum Notice {
    /// Nothing: the host was silent, or there was no time for it.
    Nothing,
    /// Its address is no `host:port` with a port from 0 to 65,535.
    NoPort,
    /// No address was found for its name.
    NoName,
    /// Its name has addresses, but none of the family that is used.
    NoFamily,
    /// It refused each attempt to connect, as far as the last tells.
    Refused,
    /// There is no way to it.
    NoRoute,
    /// It ended the connection.
    Ended,
    /// The connection broke.
    Reset,
}
