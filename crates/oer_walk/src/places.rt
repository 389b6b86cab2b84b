//! Where the walk is, and where it stops.
ghost use Rattle.std.specs.Prelude.{◌≡◌};
ghost use Rattle.oer_walk.specs.Walks.{inside, scope_of};

use asn1_core::DecodeErrorKind;

/// Where and why a walk stopped.
#[derive(Debug, PartialEq, Eq, Drop)]
pub struct Stop {
    /// The place where the innermost part begins that it stopped in.
    pub place: usize,
    /// Why it stopped.
    pub kind: DecodeErrorKind,
}

/// What is known of a part before it is walked.
#[derive(Clone, Copy)]
pub struct Place {
    /// The number of its name.
    pub name: u32,
    /// The number of its type.
    pub type_number: u32,
    /// How many parts are around it.
    pub level: u32,
    /// The place of the node around it.
    pub around: usize,
    /// Whether it stands in an open type, behind a length.
    pub is_open: bool,
    /// Where the octets end that are walked.
    pub end: usize,
    /// How many nodes there may be at most.
    pub most: usize,
}

/// A part that is being walked.
#[derive(Clone, Copy)]
pub struct Scope {
    /// The number of its type.
    pub type_number: u32,
    /// How many parts are around it.
    pub level: u32,
    /// The place of its node.
    pub node: usize,
    /// The place of its first octet.
    pub start: usize,
    /// Where the octets end that are walked.
    pub end: usize,
    /// How many nodes there may be at most.
    pub most: usize,
}

impl Place {
    /// The part, whose node is at that place and whose first octet is there.
    pub fn scope(self, node: usize, start: usize) -> Scope
        ensures { result ≡ scope_of self node start }
    {
        Scope {
            type_number: self.type_number,
            level: self.level,
            node,
            start,
            end: self.end,
            most: self.most,
        }
    }
}

impl Scope {
    /// The place of a part inside it.
    pub fn inside(self, type_number: u32, name: u32, is_open: bool) -> Place
        ensures { result ≡ inside self type_number name is_open }
    {
        Place {
            name,
            type_number,
            level: self.level.saturating_add(1),
            around: self.node,
            is_open,
            end: self.end,
            most: self.most,
        }
    }

    /// The same up to there.
    pub fn up_to(self, end: usize) -> Scope
        ensures { result ≡ record self { end = end } }
    {
        let mut scope = self;
        scope.end = end;
        scope
    }

    /// What it stops with.
    pub fn stop(self, kind: DecodeErrorKind) -> Stop
        ensures { result ≡ record { place = self.start; kind = kind } }
    {
        Stop {
            place: self.start,
            kind,
        }
    }
}
