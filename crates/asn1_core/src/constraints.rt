//! Constraints of values and of sizes: what each allows, and a type's own narrowed by others (X.680, clauses 49 to 51).
ghost use Rattle.std.specs.Option.{option_copied};
ghost use Rattle.std.specs.Ordering.{partial_le};
ghost use Rattle.std.specs.Prelude.{◌≡◌};
ghost use Rattle.asn1_core.specs.Bounds.{allows_by, earlier, end_of, holds_number_by, is_consistent_part_by, is_fixed_by, later, narrowed_bounds_by, narrowed_part_by, start_of};

/// The numbers that a constraint allows.
#[derive(Debug, Clone, Copy, PartialEq, Eq)]
pub enum Bounded<T> {
    /// Each number.
    None,
    /// One number.
    Single(T),
    /// From `start` to `end`, both included; an absent bound bounds nothing.
    Range { start: Option<T>, end: Option<T> },
}

impl<T> Bounded<T> {
    /// The least allowed number, where there is a lower bound.
    #[inline(always)]
    pub fn as_start(&self) -> Option<&T>
        ensures { option_copied result ≡ start_of self.now }
    {
        match self {
            Bounded::None => None,
            Bounded::Single(only) => Some(only),
            Bounded::Range { start, .. } => start.as_ref(),
        }
    }

    /// The greatest allowed number, where there is an upper bound.
    #[inline(always)]
    pub fn as_end(&self) -> Option<&T>
        ensures { option_copied result ≡ end_of self.now }
    {
        match self {
            Bounded::None => None,
            Bounded::Single(only) => Some(only),
            Bounded::Range { end, .. } => end.as_ref(),
        }
    }
}

impl<T: PartialOrd> Bounded<T> {
    /// Whether the number is allowed.
    #[inline(always)]
    pub fn contains(&self, element: &T) -> bool
        ensures { result ≡ allows_by (partial_le T.partial_cmp) self.now element.now }
    {
        let is_from_start = match self.as_start() {
            Some(start) => start <= element,
            None => true,
        };
        let is_to_end = match self.as_end() {
            Some(end) => element <= end,
            None => true,
        };
        is_from_start && is_to_end
    }

    /// Whether some number is allowed.
    pub fn is_consistent(&self) -> bool
        ensures { result ≡ holds_number_by (partial_le T.partial_cmp) self.now }
    {
        match (self.as_start(), self.as_end()) {
            (Some(start), Some(end)) => start <= end,
            _ => true,
        }
    }
}

impl<T: PartialOrd + Copy> Bounded<T> {
    /// The numbers that both allow, or those of `self` where no number is allowed by both.
    pub fn narrowed(&self, other: &Bounded<T>) -> Bounded<T>
        ensures { result ≡ narrowed_bounds_by (partial_le T.partial_cmp) self.now other.now }
    {
        let common = Bounded::Range {
            start: later(self.as_start(), other.as_start()),
            end: earlier(self.as_end(), other.as_end()),
        };
        if common.is_consistent() {
            common
        } else {
            *self
        }
    }
}

/// A type of numbers that a constraint bounds: i128 for values, usize for sizes.
pub trait Limits: PartialOrd + Copy {
    ghost MIN: { Self };

    /// The type's least number.
    const MIN: Self;

    ghost MAX: { Self };

    /// The type's greatest number.
    const MAX: Self;
}

impl Limits for i128 {
    ghost use Rattle.std.specs.Prelude.{negsuc, pos, ◌^◌, ◌-◌};

    ghost MIN = { negsuc (2 ^ 127 - 1) };

    const MIN: i128 = i128::MIN;

    ghost MAX = { pos (2 ^ 127 - 1) };

    const MAX: i128 = i128::MAX;
}

impl Limits for usize {
    ghost use Rattle.asn1_core.specs.Octets.{usize_max};

    ghost MIN = { 0 };

    const MIN: usize = 0;

    ghost MAX = { usize_max };

    const MAX: usize = usize::MAX;
}

impl<T: Limits> Bounded<T> {
    /// Whether one number of the type is allowed and no other.
    #[inline(always)]
    pub fn is_fixed(&self) -> bool
        ensures { result ≡ is_fixed_by (partial_le T.partial_cmp) T.MIN T.MAX self.now }
    {
        let least = match self.as_start() {
            Some(start) => *start,
            None => T::MIN,
        };
        let greatest = match self.as_end() {
            Some(end) => *end,
            None => T::MAX,
        };
        least <= greatest && greatest <= least
    }
}

/// The later of two lower bounds.
fn later<T: PartialOrd + Copy>(a: Option<&T>, b: Option<&T>) -> Option<T>
    ensures { result ≡ later (partial_le T.partial_cmp) (option_copied a.entry) (option_copied b.entry) }
{
    match (a, b) {
        (None, None) => None,
        (None, Some(b)) => Some(*b),
        (Some(a), None) => Some(*a),
        (Some(a), Some(b)) => Some(if a <= b { *b } else { *a }),
    }
}

/// The earlier of two upper bounds.
fn earlier<T: PartialOrd + Copy>(a: Option<&T>, b: Option<&T>) -> Option<T>
    ensures { result ≡ earlier (partial_le T.partial_cmp) (option_copied a.entry) (option_copied b.entry) }
{
    match (a, b) {
        (None, None) => None,
        (None, Some(b)) => Some(*b),
        (Some(a), None) => Some(*a),
        (Some(a), Some(b)) => Some(if a <= b { *a } else { *b }),
    }
}

/// A value constraint and a size constraint, each beside whether it is extensible (X.680, clauses 49 to 51).
#[derive(Debug, Clone, Copy, PartialEq, Eq)]
pub struct Constraints {
    /// The allowed numbers, and whether the constraint is extensible.
    pub value: Option<(Bounded<i128>, bool)>,
    /// The allowed sizes, and whether the constraint is extensible.
    pub size: Option<(Bounded<usize>, bool)>,
}

impl Default for Constraints {
    ghost use Rattle.asn1_core.specs.declared.constraints.TheConstants.Constraints.{NONE};

    ghost is_default = { λ c. c ≡ NONE };

    /// No constraint.
    fn default() -> Constraints {
        Constraints::NONE
    }
}

impl Constraints {
    ghost use Rattle.std.specs.Prelude.{Some, true, false, nat_le};
    ghost use Rattle.asn1_core.specs.Bounds.{fixed_size, in_range, is_consistent, narrowed, size_bounds, size_fits, value_bounds};

    /// No constraint.
    pub const NONE: Constraints = Constraints {
        value: None,
        size: None,
    };

    /// The same with that value constraint, which isn't extensible.
    pub const fn with_value(self, value: Bounded<i128>) -> Constraints
        ensures { result ≡ record self { value = Some (value, false) } }
    {
        Constraints {
            value: Some((value, false)),
            size: self.size,
        }
    }

    /// The same with that value constraint, which is extensible.
    pub const fn with_extensible_value(self, value: Bounded<i128>) -> Constraints
        ensures { result ≡ record self { value = Some (value, true) } }
    {
        Constraints {
            value: Some((value, true)),
            size: self.size,
        }
    }

    /// The same with that size constraint, which isn't extensible.
    pub const fn with_size(self, size: Bounded<usize>) -> Constraints
        ensures { result ≡ record self { size = Some (size, false) } }
    {
        Constraints {
            value: self.value,
            size: Some((size, false)),
        }
    }

    /// The same with that size constraint, which is extensible.
    pub const fn with_extensible_size(self, size: Bounded<usize>) -> Constraints
        ensures { result ≡ record self { size = Some (size, true) } }
    {
        Constraints {
            value: self.value,
            size: Some((size, true)),
        }
    }

    /// The value constraint, and whether it is extensible.
    pub const fn value(&self) -> Option<(Bounded<i128>, bool)>
        ensures { result ≡ self.now.value }
    {
        self.value
    }

    /// The size constraint, and whether it is extensible.
    pub const fn size(&self) -> Option<(Bounded<usize>, bool)>
        ensures { result ≡ self.now.size }
    {
        self.size
    }

    /// Whether each range holds a number.
    pub fn is_consistent(&self) -> bool
        ensures { result ≡ is_consistent self.now }
    {
        is_consistent_part(&self.value) && is_consistent_part(&self.size)
    }

    /// A type's own constraints, narrowed by those that are handed to it, for values and sizes apart (the project's
    /// own choice).
    ///
    /// An absent constraint gives the other. Of one that is extensible and one that isn't, the one that isn't is
    /// taken. Of two that are alike in that, the numbers that both allow, or those of `self` where there are none.
    pub fn narrowed(&self, other: Constraints) -> Constraints
        ensures { result ≡ narrowed self.now other }
    {
        Constraints {
            value: narrowed_part(self.value, other.value),
            size: narrowed_part(self.size, other.size),
        }
    }

    /// The one size that is allowed, where the size constraint isn't extensible and allows one.
    #[inline(always)]
    pub fn fixed_size(&self) -> Option<usize>
        ensures { result ≡ fixed_size (size_bounds self.now) }
    {
        match &self.size {
            Some((bounds, false)) if bounds.is_fixed() => Some(*bounds.as_start().unwrap_or(&0)),
            _ => None,
        }
    }

    /// Whether the size is allowed; an extensible constraint allows each.
    #[inline(always)]
    pub fn allows_size(&self, size: usize) -> bool
        ensures { result ≡ size_fits (size_bounds self.now) size }
    {
        match &self.size {
            Some((bounds, false)) => bounds.contains(&size),
            _ => true,
        }
    }

    /// Whether the number is allowed; an extensible constraint allows each.
    #[inline(always)]
    pub fn allows_value(&self, value: i128) -> bool
        ensures { result ≡ in_range (value_bounds self.now) value }
    {
        match &self.value {
            Some((bounds, false)) => bounds.contains(&value),
            _ => true,
        }
    }
}

fn is_consistent_part<T: PartialOrd>(part: &Option<(Bounded<T>, bool)>) -> bool
    ensures { result ≡ is_consistent_part_by (partial_le T.partial_cmp) part.now }
{
    match part {
        Some((bounds, _)) => bounds.is_consistent(),
        None => true,
    }
}

fn narrowed_part<T: PartialOrd + Copy>(
    own: Option<(Bounded<T>, bool)>,
    other: Option<(Bounded<T>, bool)>,
) -> Option<(Bounded<T>, bool)>
    ensures { result ≡ narrowed_part_by (partial_le T.partial_cmp) own other }
{
    match (own, other) {
        (None, other) => other,
        (own, None) => own,
        (Some((_, true)), Some((bounds, false))) => Some((bounds, false)),
        (Some((bounds, false)), Some((_, true))) => Some((bounds, false)),
        (Some((own, is_extensible)), Some((other, _))) => Some((
            own.narrowed(&other),
            is_extensible,
        )),
    }
}
