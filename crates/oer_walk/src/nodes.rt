//! Nodes in the caller's room.
ghost use Rattle.std.specs.Prelude.{◌≡◌, slice_set};

/// A part of a value, and where it lies in the octets: `jilgomt_node` of include/jilgomt.h.
#[repr(C)]
#[derive(Debug, Clone, Copy, PartialEq, Eq)]
pub struct Node {
    /// The number of the part's name; `u32::MAX` of the value itself, of an element, and of an addition that the table
    /// doesn't have.
    pub name: u32,
    /// The number of the part's type; `u32::MAX` if the table doesn't have it.
    pub type_number: u32,
    /// The number of the type's [`Kind`](crate::Kind).
    pub kind: u32,
    /// How many parts are around it.
    pub level: u32,
    /// The place of the part around it, among the nodes; `usize::MAX` of the value itself.
    pub around: usize,
    /// The place of its first octet; of an extension addition, of the length in front of it.
    pub start: usize,
    /// The place of its first octet behind lengths, a tag or a preamble.
    pub content: usize,
    /// The place behind its last octet, of an addition behind its value: lenient reading passes over what is left of the octets that its
    /// length counts. `usize::MAX` where the walk stopped inside it.
    pub end: usize,
}

/// Puts a node at its place, if there is room for it.
#[tactic(auto, using(std::proofs::lemmas::List::set_past))]
pub fn put(room: &mut [Node], place: usize, node: Node)
    ensures { room.new ≡ slice_set room.old place node }
{
    if place < room.len() {
        room[place] = node;
    }
}
