//! Reading boxes: a box is read as its content.
ghost use Rattle.std.specs.Fn.{FnOnceTakesAtMut, FnOnceReturnsAtMut};
ghost use Rattle.oer_read.specs.Answers.{BoxAnswers};
ghost use Rattle.oer_read.specs.Law.{Decodes};
ghost use Rattle.oer_read.specs.State.{State};

use crate::decode::Decode;
use crate::decoder::Decoder;
use asn1_core::{Constraints, DecodeError, Tag};
use oer_spec::Spelled;
use std::alloc::Global;

/// A box is read as its content; memory may be refused, as `OutOfMemory`.
impl<T: Decode> Decode for Box<T> {
    ghost use Rattle.oer_read.specs.Answers.{BoxAnswers};

    ghost Answered = { λ c s r t. BoxAnswers (T.Answered c) (λ b. b.value) s r t };

    fn decode_with_tag_and_constraints(
        alloc: Global,
        decoder: &mut Decoder<'_>,
        tag: Tag,
        constraints: Constraints,
    ) -> Result<Box<T>, DecodeError> {
        let input = decoder.remaining();
        match T::decode_with_tag_and_constraints(alloc, decoder, tag, constraints) {
            Err(e) => Err(e),
            Ok(value) => match Box::new(alloc, value) {
                Err(_) => {
                    decoder.set_remaining(input);
                    Err(decoder.want_of_memory())
                }
                Ok(boxed) => Ok(boxed),
            },
        }
    }
}

impl<'input> Decoder<'input> {
    /// Reads a box as its content, by `f`; memory may be refused, as `OutOfMemory`.
    ///
    /// Refused, the first that applies: what `f` refuses; the box, for want of memory.
    pub fn decode_boxed_with<D, F>(&mut self, alloc: Global, f: F) -> Result<Box<D>, DecodeError>
    where
        D: Spelled,
        F: FnOnce(&mut Decoder<'_>) -> Result<D, DecodeError>,
        requires callable { FnOnceTakesAtMut F.FnOnce f self.old }
        requires law { (r : _) (t : State) → FnOnceReturnsAtMut F.FnOnce f self.old r t → Decodes (D.tree D.CONSTRAINTS) D.IsValue self.old r t }
        ensures law { Decodes (λ b. D.tree D.CONSTRAINTS b.value) (λ b. D.IsValue b.value) self.old result self.new }
        ensures answered { BoxAnswers (λ s r t. FnOnceReturnsAtMut F.FnOnce f s r t) (λ b. b.value) self.old result self.new }
    {
        let input = self.remaining();
        match f(self) {
            Err(refused) => Err(refused),
            Ok(value) => match Box::new(alloc, value) {
                Err(_) => {
                    self.set_remaining(input);
                    Err(self.want_of_memory())
                }
                Ok(boxed) => Ok(boxed),
            },
        }
    }
}
