//! What is printed for C: between two `@` stands a word that is put in.

/// The root of the static library's crate, without its modules.
pub const ROOT: &str = r#"//! For C: two functions for each type, which include/@NAME@_c.h declares.
#![tactic(auto)]

"#;

/// What the functions of a file take from elsewhere.
pub const USES: &str = r#"ghost use Rattle.std.specs.Prelude.{◌≡◌};
ghost use Rattle.oer_calls.specs.Answers.{IsCanonicalisedBy, IsCheckedBy, options_for};

use oer_calls::answer::Answer;
use oer_calls::numbers::{canonicalise_by_numbers, check_by_numbers};
use rasn_oer::prelude::*;
use std::alloc::Global;
"#;

/// The two functions of a type.
pub const BOTH: &str = r#"
/// The canonical octets of a `@TYPE@`.
#[unsafe(no_mangle)]
pub extern "C" fn @NAME@_@TYPE@_canonicalise(
    alloc: Global,
    mode: u32,
    levels: usize,
    input: &[u8],
    out: &mut [u8],
    answer: &mut Answer,
) -> u32
    ensures status { result ≡ answer.new.status }
    ensures answered { IsCanonicalisedBy (⟦<@PATH@ as Spelled>⟧.tree ⟦<@PATH@ as AsnType>⟧.CONSTRAINTS) ⟦<@PATH@ as Spelled>⟧.IsValue (⟦<@PATH@ as Decode>⟧.Answered ⟦<@PATH@ as AsnType>⟧.CONSTRAINTS) (options_for mode levels) input.now out.old answer.new out.new }
{
@CANONICALISES@
    answer.status
}

/// Whether octets begin with a `@TYPE@`, and a canonical one.
#[unsafe(no_mangle)]
pub extern "C" fn @NAME@_@TYPE@_check(
    alloc: Global,
    mode: u32,
    levels: usize,
    input: &[u8],
    answer: &mut Answer,
) -> u32
    ensures status { result ≡ answer.new.status }
    ensures answered { IsCheckedBy (⟦<@PATH@ as Spelled>⟧.tree ⟦<@PATH@ as AsnType>⟧.CONSTRAINTS) ⟦<@PATH@ as Spelled>⟧.IsValue (⟦<@PATH@ as Decode>⟧.Answered ⟦<@PATH@ as AsnType>⟧.CONSTRAINTS) (options_for mode levels) input.now answer.new }
{
@CHECKS@
    answer.status
}
"#;

/// The header.
pub const HEADER: &str =
    r#"/* Types of ASN.1 modules, as oergen printed them: two functions for each, over octets that the caller owns.
 * jilgomt.h says what a call answers, and what the caller owes. */
#ifndef @UPPER@_C_H
#define @UPPER@_C_H

#include <jilgomt.h>

#ifdef __cplusplus
extern "C" {
#endif

/* @NAME@_TYPE_canonicalise puts the canonical octets of the value whose encoding begins `in` at the front of `out`.
 * @NAME@_TYPE_check says whether an encoding begins `in` (JILGOMT_DONE), and whether it is the canonical one (`flag`).
 * Each returns the status that it puts into `answer`. */
@DECLARATIONS@
#ifdef __cplusplus
}
#endif
#endif
"#;

/// What the header declares of a type.
pub const DECLARATION: &str = r#"
uint32_t @NAME@_@TYPE@_canonicalise(
    uint32_t mode, size_t levels, const uint8_t *JILGOMT_RESTRICT in, size_t in_len,
    uint8_t *JILGOMT_RESTRICT out, size_t out_len, jilgomt_answer *JILGOMT_RESTRICT answer);
uint32_t @NAME@_@TYPE@_check(
    uint32_t mode, size_t levels, const uint8_t *in, size_t in_len, jilgomt_answer *JILGOMT_RESTRICT answer);
"#;
