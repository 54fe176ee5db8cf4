//! Why bytes are not in the wire format.

use thiserror::Error;

/// Why bytes are not in the wire format of Protocol Buffers.
#[derive(Clone, Copy, Debug, PartialEq, Eq, Error)]
pub enum WireFault {
    /// The bytes end before what began in them: a varint, a value of fixed size or a value of some length.
    #[error("W1 Truncated")]
    Truncated,
    /// A varint has a tenth byte that is neither 0 nor 1.
    #[error("W2 LongVarint")]
    LongVarint,
    /// A field's number is not in 1 to 2^29 - 1.
    #[error("W3 FieldNumber")]
    FieldNumber,
    /// The wire type is 3 or 4: a group begins or ends.
    #[error("W4 Group")]
    Group,
    /// The wire type is 6 or 7, which the format has no use for.
    #[error("W5 WireType")]
    WireType,
}
