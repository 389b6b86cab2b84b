//! Checks of the definitions: rows that hold, near misses that don't, and trees that meet what the laws ask.
//!
//! These functions do nothing; what counts is that their contracts are proved.
ghost use Rattle.oer_spec.specs.Elements.{ElementPremises};
ghost use Rattle.oer_spec.specs.NearMisses.{PlainMisses, StringMisses, StructMisses, ListAndChoiceMisses};
ghost use Rattle.oer_spec.specs.Premises.{UnambiguousPremises, WithinPremises, CanonicalPremises, SkipsPremises, LiftsPremises};
ghost use Rattle.oer_spec.specs.WorkedRows.{PlainRows, StringRows, StructRows, ListAndChoiceRows};

/// For every sort of node, trees and their canonical octets.
pub fn worked_rows()
    ensures plain { PlainRows }
    ensures strings { StringRows }
    ensures structs { StructRows }
    ensures lists_and_choices { ListAndChoiceRows }
{}

/// For every sort of node, octets that spell a value, and octets that nearly do: these spell it in lenient mode alone,
/// or spell no value of the type in any mode.
pub fn near_misses()
    ensures plain { PlainMisses }
    ensures strings { StringMisses }
    ensures structs { StructMisses }
    ensures lists_and_choices { ListAndChoiceMisses }
{}

/// For each law of [`crate::laws`], trees and octets that meet all of its premises: so no law holds for want of a case.
/// And types whose lists have no more elements than octets: times, and octet strings of one fixed size above 0.
pub fn premises()
    ensures unambiguous { UnambiguousPremises }
    ensures within { WithinPremises }
    ensures canonical { CanonicalPremises }
    ensures skips { SkipsPremises }
    ensures lifts { LiftsPremises }
    ensures elements { ElementPremises }
{}
