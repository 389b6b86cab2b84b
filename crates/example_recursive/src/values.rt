//! Types of ASN.1 modules, as oergen printed them.

/// The value `nodeId` of `Recursive`.
pub const NODE_ID: u8 = 1;
