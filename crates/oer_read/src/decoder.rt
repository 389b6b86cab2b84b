//! The decoder: the octets that are left, the rules, the levels left, and the open scope.

ghost use Rattle.std.specs.Prelude.{◌≡◌, ◌<◌, ◌-◌, map, Ok, Err};
ghost use Rattle.asn1_core.specs.declared.error.DecodeError.{DecodeError};
ghost use Rattle.asn1_core.specs.declared.error.DecodeErrorKind.{DecodeErrorKind};
ghost use Rattle.asn1_core.specs.Octets.{AreOctets};
ghost use Rattle.oer_read.specs.Answers.{Took};
ghost use Rattle.oer_read.specs.Seen.{frame_of, at_mark};
ghost use Rattle.oer_read.specs.State.{closed};

use crate::de::DecoderOptions;
use crate::scopes::OpenScope;
use asn1_core::{Codec, DecodeError, DecodeErrorKind, Field};
use oer_leaf_read::BitSlice;
use std::marker::Model;

/// What the calls that ask components move on, to go back to where a value that was read is refused.
#[derive(Clone, Copy)]
pub(crate) struct Mark<'input> {
    input: &'input [u8],
    roots: &'input [Field<'input>],
    presence: BitSlice<'input>,
    additions: &'input [Field<'input>],
    bitmap: Option<BitSlice<'input>>,
}

/// Reads values from octets.
///
/// A method that refuses leaves the decoder as it was. What is left after a method that answers is a rear part of what
/// was left before.
#[derive(Drop)]
pub struct Decoder<'input> {
    pub(crate) input: &'input [u8],
    pub(crate) codec: Codec,
    pub(crate) levels: usize,
    pub(crate) scope: OpenScope<'input>,
}

impl<'input> Model for Decoder<'input> {
    ghost use Rattle.oer_read.specs.Seen.{frame_of};
    ghost use Rattle.oer_read.specs.State.{State};

    ghost Value = { State };

    ghost view = { λ d. record { input = d.input.now; codec = d.codec; levels = d.levels; frame = frame_of d.scope } };
}

impl<'input> Decoder<'input> {
    /// A decoder of the octets, with no scope open.
    #[inline(always)]
    pub fn new(input: &'input [u8], options: DecoderOptions) -> Decoder<'input>
        ensures { result ≡ record { input = input.entry.now; codec = options.codec; levels = options.levels; frame = closed } }
    {
        Decoder {
            input,
            codec: options.codec(),
            levels: options.levels(),
            scope: OpenScope::closed(),
        }
    }

    /// A decoder of the octets by these rules, within so many levels, with no scope open.
    #[inline(always)]
    pub fn apart(input: &'input [u8], codec: Codec, levels: usize) -> Decoder<'input>
        ensures { result ≡ record { input = input.entry.now; codec = codec; levels = levels; frame = closed } }
    {
        Decoder {
            input,
            codec,
            levels,
            scope: OpenScope::closed(),
        }
    }

    /// The octets that are left.
    #[inline(always)]
    pub fn remaining(&self) -> &'input [u8]
        ensures { result.now ≡ self.now.input }
    {
        self.input
    }

    /// The octets that are left, each of which is one.
    #[inline(always)]
    pub(crate) fn octets(&self) -> &'input [u8]
        ensures input { result.now ≡ self.now.input }
        ensures octets { AreOctets self.now.input }
    {
        let input: &'input [u8] = self.remaining();
        input
    }

    /// The rules that octets are read by.
    #[inline(always)]
    pub fn codec(&self) -> Codec
        ensures { result ≡ self.now.codec }
    {
        self.codec
    }

    /// How many levels of nesting are left: sequences, sets, lists and choices count one each.
    #[inline(always)]
    pub fn levels(&self) -> usize
        ensures { result ≡ self.now.levels }
    {
        self.levels
    }

    /// Goes on with these octets.
    #[inline(always)]
    pub fn set_remaining(&mut self, rest: &'input [u8])
        ensures { self.new ≡ record self.old { input = rest.entry.now } }
    {
        self.input = rest;
    }

    /// What components were asked up to here.
    #[inline(always)]
    pub(crate) fn mark(&self) -> Mark<'input>
        ensures { at_mark self.now result ≡ self.now }
    {
        Mark {
            input: self.input,
            roots: self.scope.roots,
            presence: self.scope.presence,
            additions: self.scope.additions,
            bitmap: self.scope.bitmap,
        }
    }

    /// Goes back to the mark.
    #[inline(always)]
    pub(crate) fn go_back(&mut self, mark: Mark<'input>)
        ensures { self.new ≡ at_mark self.old mark.entry }
    {
        self.input = mark.input;
        self.scope.roots = mark.roots;
        self.scope.presence = mark.presence;
        self.scope.additions = mark.additions;
        self.scope.bitmap = mark.bitmap;
    }

    /// A refusal in the decoder's mode.
    #[inline(always)]
    pub(crate) fn refusal(&self, kind: DecodeErrorKind) -> DecodeError
        ensures { result ≡ record { kind = kind; codec = self.now.codec } }
    {
        DecodeError {
            kind,
            codec: self.codec,
        }
    }

    /// Goes on behind what a reader read, or answers its refusal.
    #[inline(always)]
    pub(crate) fn take<T>(
        &mut self,
        answer: Result<(T, &'input [u8]), DecodeErrorKind>,
    ) -> Result<T, DecodeError>
        ensures { Took answer.entry self.old result self.new }
    {
        match answer {
            Ok((value, rest)) => {
                self.input = rest;
                Ok(value)
            }
            Err(kind) => Err(self.refusal(kind)),
        }
    }
}
