//! The modes of reading: by the basic and by the canonical octet encoding rules (X.696).

/// The encoding rules that octets are read by.
///
/// Writing is canonical in both.
#[derive(Debug, Clone, Copy, PartialEq, Eq, PartialOrd, Ord)]
pub enum Codec {
    /// Octet encoding rules, basic (X.696): each form of a value is read.
    Oer,
    /// Canonical octet encoding rules (X.696): the canonical form alone is read.
    Coer,
}
