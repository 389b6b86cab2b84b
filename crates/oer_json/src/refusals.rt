//! Why JSON has no octets, and where in it.
ghost use Rattle.std.specs.Prelude.{◌≡◌, IfOk};

use crate::tables::Tables;
use asn1_core::EncodeErrorKind;
use std::alloc::{AllocError, AllocFailed, Global};
use std::error::Error;
use std::fmt;

/// Why a JSON value is none of its type.
#[derive(Debug, Clone, Copy, PartialEq, Eq)]
pub enum Misfit {
    /// It isn't of the JSON sort that stands there.
    WrongSort(&'static str),
    /// A number that is no integer, or past 128 bits.
    NumberTooLarge,
    /// A number outside the type's range, whose ends are these where it has them.
    OutOfRange {
        low: Option<i128>,
        high: Option<i128>,
    },
    /// So many octets, bits or characters are none of the type's sizes.
    WrongSize {
        size: usize,
        low: Option<i128>,
        high: Option<i128>,
    },
    /// A text that names no value of the type, or a number that has no name.
    UnknownName,
    /// A member that is no component or alternative of the type.
    UnknownMember,
    /// A member that stands there twice.
    DuplicateMember,
    /// A component that has to be there.
    MissingComponent,
    /// A text that is no hexadecimal.
    NoHexadecimal,
    /// Digits that don't hold exactly so many bits.
    WrongLength,
    /// A bit behind the last one is set.
    UnusedBits,
    /// A character that the type of that name doesn't have, or octets that aren't whole characters of it.
    NotInAlphabet(&'static str),
    /// A text that is no object identifier.
    NoIdentifier,
    /// A text that is no time of that form.
    NoTime(&'static str),
    /// The table doesn't say what the type is.
    UnknownType,
    /// More than 1024 sequences, sets, lists and choices are nested.
    TooDeep,
    /// The writers of the codec refuse it.
    NotWritten,
}

impl Misfit {
    /// The misfit's name: its variant's, without fields.
    pub fn name(self) -> &'static str {
        match self {
            Misfit::WrongSort(_) => "WrongSort",
            Misfit::NumberTooLarge => "NumberTooLarge",
            Misfit::OutOfRange { .. } => "OutOfRange",
            Misfit::WrongSize { .. } => "WrongSize",
            Misfit::UnknownName => "UnknownName",
            Misfit::UnknownMember => "UnknownMember",
            Misfit::DuplicateMember => "DuplicateMember",
            Misfit::MissingComponent => "MissingComponent",
            Misfit::NoHexadecimal => "NoHexadecimal",
            Misfit::WrongLength => "WrongLength",
            Misfit::UnusedBits => "UnusedBits",
            Misfit::NotInAlphabet(_) => "NotInAlphabet",
            Misfit::NoIdentifier => "NoIdentifier",
            Misfit::NoTime(_) => "NoTime",
            Misfit::UnknownType => "UnknownType",
            Misfit::TooDeep => "TooDeep",
            Misfit::NotWritten => "NotWritten",
        }
    }

    /// What was expected, where it has no numbers.
    fn expected(self) -> &'static str {
        match self {
            Misfit::WrongSort(sort) => sort,
            Misfit::NumberTooLarge => "an integer of at most 128 bits",
            Misfit::OutOfRange { .. } => "a number",
            Misfit::WrongSize { .. } => "a size",
            Misfit::UnknownName => "a name of the type's values",
            Misfit::UnknownMember => "a component or an alternative of the type",
            Misfit::DuplicateMember => "each member once",
            Misfit::MissingComponent => "this component",
            Misfit::NoHexadecimal => "pairs of hexadecimal digits",
            Misfit::WrongLength => "as many octets as the bits need",
            Misfit::UnusedBits => "zero bits behind the last one",
            Misfit::NotInAlphabet(name) => name,
            Misfit::NoIdentifier => "an object identifier, as 1.2.840",
            Misfit::NoTime(form) => form,
            Misfit::UnknownType => "a type that the table describes",
            Misfit::TooDeep => "at most 1024 levels",
            Misfit::NotWritten => "a value that is written",
        }
    }
}

/// An end of a range, as ASN.1 writes it.
#[derive(Clone, Copy)]
struct End(Option<i128>, &'static str);

impl fmt::Display for End {
    fn fmt<W: fmt::Write>(&self, f: &mut fmt::Formatter<W>) -> fmt::Result {
        match self.0 {
            Some(number) => write!(f, "{number}"),
            None => f.write_str(self.1),
        }
    }
}

impl fmt::Display for Misfit {
    /// What was expected.
    fn fmt<W: fmt::Write>(&self, f: &mut fmt::Formatter<W>) -> fmt::Result {
        let expected = self.expected();
        match self {
            Misfit::OutOfRange { low, high } | Misfit::WrongSize { low, high, .. } => {
                let (low, high) = (End(*low, "MIN"), End(*high, "MAX"));
                write!(f, "{expected} from {low} to {high}")
            }
            Misfit::NotInAlphabet(_) => write!(f, "characters of a {expected}"),
            _ => f.write_str(expected),
        }
    }
}

/// Why a text has no octets.
#[derive(Debug, Drop)]
pub enum Refusal {
    /// Octets that aren't UTF-8.
    NotUtf8,
    /// A text that is no JSON: why, and where in the text.
    NotJson(String),
    /// JSON that is no value of the type: why, and the path of what doesn't fit.
    Misfit { misfit: Misfit, path: String },
    /// Octets that the walk by the table doesn't take whole.
    NotWalked,
    /// Memory was refused.
    OutOfMemory,
}

impl fmt::Display for Refusal {
    fn fmt<W: fmt::Write>(&self, f: &mut fmt::Formatter<W>) -> fmt::Result {
        match self {
            Refusal::NotUtf8 => f.write_str("NotUtf8: expected UTF-8"),
            Refusal::NotJson(why) => write!(f, "NotJson: expected JSON: {why}"),
            Refusal::Misfit { misfit, path } => {
                let name = misfit.name();
                write!(f, "{name} at {path}: expected {misfit}")
            }
            Refusal::NotWalked => f.write_str("NotWalked: expected octets that the table takes"),
            Refusal::OutOfMemory => f.write_str("OutOfMemory: expected memory"),
        }
    }
}

impl Error for Refusal {}

impl From<AllocError> for Refusal {
    ghost use Rattle.oer_json.specs.declared.refusals.Refusal.TheVariants.{OutOfMemory};

    ghost from_gives = { λ _ e. e ≡ OutOfMemory };

    fn from(_e: AllocError) -> Refusal {
        Refusal::OutOfMemory
    }
}

/// Why a value isn't written, at the path where the writers are.
#[derive(Debug, Drop)]
pub enum Fault {
    Misfit(Misfit),
    /// The same of a member with that name.
    Member(Misfit, String),
    OutOfMemory,
}

/// The fault of a value that isn't of the JSON sort that stands there.
pub fn wrong_sort(sort: &'static str) -> Fault {
    Fault::Misfit(Misfit::WrongSort(sort))
}

impl From<Misfit> for Fault {
    fn from(misfit: Misfit) -> Fault {
        Fault::Misfit(misfit)
    }
}

impl From<AllocError> for Fault {
    ghost use Rattle.oer_json.specs.declared.refusals.Fault.TheVariants.{OutOfMemory};

    ghost from_gives = { λ _ e. e ≡ OutOfMemory };

    fn from(_e: AllocError) -> Fault {
        Fault::OutOfMemory
    }
}

impl<T: Drop> From<AllocFailed<T>> for Fault {
    ghost use Rattle.oer_json.specs.declared.refusals.Fault.TheVariants.{OutOfMemory};

    ghost from_gives = { λ _ e. e ≡ OutOfMemory };

    fn from(_e: AllocFailed<T>) -> Fault {
        Fault::OutOfMemory
    }
}

impl From<EncodeErrorKind> for Fault {
    ghost use Rattle.asn1_core.specs.declared.error.EncodeErrorKind.TheVariants as encode;
    ghost use Rattle.oer_json.specs.declared.refusals.Fault.TheVariants.{OutOfMemory};

    ghost from_gives = { λ kind e. kind ≡ encode.OutOfMemory → e ≡ OutOfMemory };

    fn from(kind: EncodeErrorKind) -> Fault {
        match kind {
            EncodeErrorKind::OutOfMemory => Fault::OutOfMemory,
            _ => Fault::Misfit(Misfit::NotWritten),
        }
    }
}

/// A step of a path: a member by the number of its name in the table, or an element by its place.
#[derive(Debug, Clone, Copy, PartialEq, Eq)]
pub enum Step {
    Name(u32),
    Index(usize),
}

/// A path, as `$.parts[0].text`.
fn path_of(alloc: Global, tables: &Tables, steps: &[Step]) -> Result<String, AllocError> {
    let mut path = String::from_str(alloc, "$")?;
    for step in steps.iter() {
        match step {
            Step::Name(number) => {
                path.push('.')?;
                path.push_str(tables.name(*number).unwrap_or("?"))?;
            }
            Step::Index(index) => {
                let place = format!(in alloc; "[{index}]")?;
                path.push_str(place.as_str())?;
            }
        }
    }
    Ok(path)
}

/// The refusal of a fault where the writers are.
pub fn refusal_of(
    alloc: Global,
    tables: &Tables,
    steps: &[Step],
    fault: Fault,
) -> Result<Refusal, AllocError>
    ensures { IfOk result (λ refusal. fault ≡ Fault.OutOfMemory → refusal ≡ Refusal.OutOfMemory) }
{
    let path = path_of(alloc, tables, steps)?;
    match fault {
        Fault::OutOfMemory => Ok(Refusal::OutOfMemory),
        Fault::Misfit(misfit) => Ok(Refusal::Misfit { misfit, path }),
        Fault::Member(misfit, name) => {
            let (around, name) = (path.as_str(), name.as_str());
            let path = format!(in alloc; "{around}.{name}")?;
            Ok(Refusal::Misfit { misfit, path })
        }
    }
}
