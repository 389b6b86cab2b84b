//! What a call answers to C, in numbers.
ghost use Rattle.std.specs.Prelude.{◌≡◌};
ghost use Rattle.asn1_core.specs.Kinds.{decode_kind_name, encode_kind_name};
ghost use Rattle.oer_calls.specs.Names.{read_name, write_name};
ghost use Rattle.oer_calls.specs.Answers.{counted, refused, sized, numbered, tagged, read_answer, write_answer, answer_of, checked_answer, word_answer, word_checked_answer};

use crate::calls::{Checked, Outcome};
use asn1_core::{DecodeErrorKind as Kind, EncodeErrorKind, Tag};
use rasn_oer::oer::CodecError;

/// A call did what it was asked for.
pub const DONE: u32 = 0;
/// Reading the input was refused.
pub const UNREAD: u32 = 1;
/// Writing what was read was refused.
pub const UNWRITTEN: u32 = 2;
/// There is too little room; nothing was written.
pub const NO_ROOM: u32 = 3;
/// There is no such type.
pub const NO_TYPE: u32 = 4;
/// There is no such mode, or more than 1,024 levels were asked for.
pub const NO_OPTIONS: u32 = 5;
/// Reading as the other version was refused.
pub const UNREAD_AS_OTHER: u32 = 6;
/// Writing as the other version was refused.
pub const UNWRITTEN_AS_OTHER: u32 = 7;

/// What became of a call, as C has it. What doesn't go with the status is 0.
#[repr(C)]
#[derive(Debug, Clone, Copy, PartialEq, Eq)]
pub struct Answer {
    /// The status, from 0 to 7.
    pub status: u32,
    /// The number of the kind of refusal: from 1 on in the order of `DecodeErrorKind`, of `EncodeErrorKind`.
    pub kind: u32,
    /// How many octets of the input were taken.
    pub consumed: usize,
    /// How many octets were written or, where there is no room, would be; of a check how many are canonical.
    pub written: usize,
    /// The refusal's `needed` or `size`.
    pub size: usize,
    /// The refusal's `discriminant`, or the octet that is no BOOLEAN.
    pub number: isize,
    /// The class of the refusal's tag, from 0 on in the order of `Class`.
    pub tag_class: u32,
    /// The number of the refusal's tag.
    pub tag_number: u32,
    /// 1 if the octets are the canonical ones, or if the refusal's choice is extensible.
    pub flag: u32,
    /// Always 0.
    pub reserved: u32,
}

fn without_refusal(status: u32, consumed: usize, written: usize) -> Answer
    ensures { result ≡ counted status consumed written }
{
    Answer {
        status,
        kind: 0,
        consumed,
        written,
        size: 0,
        number: 0,
        tag_class: 0,
        tag_number: 0,
        flag: 0,
        reserved: 0,
    }
}

fn refusal(status: u32, kind: u32) -> Answer
    ensures { result ≡ refused status kind }
{
    let mut answer = without_refusal(status, 0, 0);
    answer.kind = kind;
    answer
}

fn sized(status: u32, kind: u32, size: usize) -> Answer
    ensures { result ≡ sized status kind size }
{
    let mut answer = refusal(status, kind);
    answer.size = size;
    answer
}

fn numbered(status: u32, kind: u32, number: isize) -> Answer
    ensures { result ≡ numbered status kind number }
{
    let mut answer = refusal(status, kind);
    answer.number = number;
    answer
}

fn tagged(status: u32, kind: u32, tag: Tag, is_flagged: bool) -> Answer
    ensures { result ≡ tagged status kind tag is_flagged }
{
    let mut answer = refusal(status, kind);
    answer.tag_class = u32::from(tag.class.number());
    answer.tag_number = tag.value;
    answer.flag = if is_flagged { 1 } else { 0 };
    answer
}

impl Answer {
    /// So many octets were taken, and so many written.
    pub fn done(consumed: usize, written: usize) -> Answer
        ensures { result ≡ counted 0 consumed written }
    {
        without_refusal(DONE, consumed, written)
    }

    /// So many octets were taken, and there is no room for so many.
    pub fn no_room(consumed: usize, needed: usize) -> Answer
        ensures { result ≡ counted 3 consumed needed }
    {
        without_refusal(NO_ROOM, consumed, needed)
    }

    /// There is no such type.
    pub fn no_type() -> Answer
        ensures { result ≡ counted 4 0 0 }
    {
        without_refusal(NO_TYPE, 0, 0)
    }

    /// There is no such mode, or more than 1,024 levels were asked for.
    pub fn no_options() -> Answer
        ensures { result ≡ counted 5 0 0 }
    {
        without_refusal(NO_OPTIONS, 0, 0)
    }

    /// Refused for that reason, behind so many octets and so many nodes.
    pub fn stopped(kind: Kind, consumed: usize, written: usize) -> Answer
        ensures { result ≡ record (read_answer 1 kind) { consumed = consumed; written = written } }
    {
        let mut answer = Answer::of_reading(UNREAD, kind);
        answer.consumed = consumed;
        answer.written = written;
        answer
    }

    /// The answer of a call that writes octets.
    pub fn of_outcome(outcome: Outcome) -> Answer
        ensures { result ≡ answer_of outcome }
    {
        match outcome {
            Outcome::Done { consumed, written } => Answer::done(consumed, written),
            Outcome::NoRoom { consumed, needed } => Answer::no_room(consumed, needed),
            Outcome::Refused(CodecError::Decode(e)) => Answer::of_reading(UNREAD, e.kind),
            Outcome::Refused(CodecError::Encode(e)) => Answer::of_writing(UNWRITTEN, e.kind),
            Outcome::NotConverted(CodecError::Decode(e)) => {
                Answer::of_reading(UNREAD_AS_OTHER, e.kind)
            }
            Outcome::NotConverted(CodecError::Encode(e)) => {
                Answer::of_writing(UNWRITTEN_AS_OTHER, e.kind)
            }
        }
    }

    /// The answer of a check.
    pub fn of_checked(checked: Result<Checked, CodecError>) -> Answer
        ensures { result ≡ checked_answer checked }
    {
        match checked {
            Ok(checked) => {
                let mut answer = Answer::done(checked.consumed, checked.canonical);
                answer.flag = if checked.is_canonical { 1 } else { 0 };
                answer
            }
            Err(CodecError::Decode(e)) => Answer::of_reading(UNREAD, e.kind),
            Err(CodecError::Encode(e)) => Answer::of_writing(UNWRITTEN, e.kind),
        }
    }

    /// The answer of a call by a word: `no_type` where no type has it.
    pub fn of_word(outcome: Option<Outcome>) -> Answer
        ensures { result ≡ word_answer outcome }
    {
        match outcome {
            None => Answer::no_type(),
            Some(outcome) => Answer::of_outcome(outcome),
        }
    }

    /// The answer of a check by a word: `no_type` where no type has it.
    pub fn of_checked_word(checked: Option<Result<Checked, CodecError>>) -> Answer
        ensures { result ≡ word_checked_answer checked }
    {
        match checked {
            None => Answer::no_type(),
            Some(checked) => Answer::of_checked(checked),
        }
    }

    /// A refusal of reading.
    pub fn of_reading(status: u32, kind: Kind) -> Answer
        ensures answer { result ≡ read_answer status kind }
        ensures name { read_name result.kind ≡ decode_kind_name kind }
    {
        match kind {
            Kind::Incomplete { needed } => sized(status, 1, needed),
            Kind::ZeroLengthOfLength => refusal(status, 2),
            Kind::LengthExceedsPlatformWidth => refusal(status, 3),
            Kind::InvalidBool { value } => numbered(status, 4, isize::from(value)),
            Kind::IntegerOverflow => refusal(status, 5),
            Kind::EmptyInteger => refusal(status, 6),
            Kind::ValueConstraintNotSatisfied => refusal(status, 7),
            Kind::SizeConstraintNotSatisfied { size } => sized(status, 8, size),
            Kind::DiscriminantValueNotFound { discriminant } => numbered(status, 9, discriminant),
            Kind::InvalidTagNumberOnChoice => refusal(status, 10),
            Kind::InvalidTagVariantOnChoice {
                value,
                is_extensible,
            } => tagged(status, 11, value, is_extensible),
            Kind::InvalidBitString => refusal(status, 12),
            Kind::PermittedAlphabetError => refusal(status, 13),
            Kind::StringConversionFailed => refusal(status, 14),
            Kind::InvalidObjectIdentifier => refusal(status, 15),
            Kind::InvalidTime => refusal(status, 16),
            Kind::InvalidPreamble => refusal(status, 17),
            Kind::InvalidExtensionHeader => refusal(status, 18),
            Kind::RequiredExtensionNotPresent { tag } => tagged(status, 19, tag, false),
            Kind::TypeNotExtensible => refusal(status, 20),
            Kind::MissingTagClassOrValueInSequenceOrSet { class, value } => tagged(
                status,
                21,
                Tag { class, value },
                false,
            ),
            Kind::ExceedsMaxParseDepth => refusal(status, 22),
            Kind::NotValidCanonicalEncoding => refusal(status, 23),
            Kind::TooManyEmptyElements => refusal(status, 24),
            Kind::OutOfMemory => refusal(status, 25),
        }
    }

    /// A refusal of writing.
    pub fn of_writing(status: u32, kind: EncodeErrorKind) -> Answer
        ensures answer { result ≡ write_answer status kind }
        ensures name { write_name result.kind ≡ encode_kind_name kind }
    {
        match kind {
            EncodeErrorKind::ValueConstraintNotSatisfied => refusal(status, 1),
            EncodeErrorKind::SizeConstraintNotSatisfied { size } => sized(status, 2, size),
            EncodeErrorKind::InvalidObjectIdentifier => refusal(status, 3),
            EncodeErrorKind::TimeNotRepresentable => refusal(status, 4),
            EncodeErrorKind::TooManyEmptyElements => refusal(status, 5),
            EncodeErrorKind::LengthExceedsPlatformSize => refusal(status, 6),
            EncodeErrorKind::OutOfMemory => refusal(status, 7),
        }
    }
}
