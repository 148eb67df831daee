//! Memoization of the failed states of a match.

ghost use Rattle.std.specs.Prelude.{◌≡◌, ◌⊎◌, ℕ, false, IfOk, IfSome, IsTrue};
ghost use Rattle.std.specs.Str.{chars};
ghost use Rattle.urlpattern_steps.specs.FailedStates.{HasBit, IsFailedState, HoldsOnlyFailed, bit_of};

use crate::step::Step;
use std::alloc::{AllocError, Global};
use std::marker::Model;

/// Failed states of a match, memoized: remaining steps that do not match the remaining text.
///
/// In contracts the value is only the match: its steps, its text and whether case is ignored.
/// Memoized states change no result, only the time.
#[derive(Drop)]
pub struct FailedStates<'s, 't> {
    ignore_case: bool,
    steps: &'s [Step],
    text: &'t str,
    /// A bit for each state; empty without memoization.
    bits: Vec<u64>,
}

impl<'s, 't> Model for FailedStates<'s, 't> {
    ghost use Rattle.std.specs.Str.{chars};
    ghost use Rattle.urlpattern_steps.specs.FailedStates.{AreFailed, Whole};

    ghost Value = { Whole };

    ghost view = { λ failed.
        record {
          ignore_case = failed.ignore_case;
          steps = failed.steps.now;
          text = chars failed.text.now;
        } };

    ghost invariant = { λ failed.
        AreFailed (record {
          ignore_case = failed.ignore_case;
          steps = failed.steps.now;
          text = chars failed.text.now;
        }) failed.bits.items };
}

impl<'s, 't> FailedStates<'s, 't> {
    /// Creates a memo without states. If `is_memoizing`, all states of a match of `steps` and
    /// `text` can be memoized, otherwise none.
    pub fn new(
        alloc: Global,
        steps: &'s [Step],
        ignore_case: bool,
        text: &'t str,
        is_memoizing: bool,
    ) -> Result<Self, AllocError>
        ensures { IfOk result (λ failed.
            failed
            ≡ record { ignore_case = ignore_case; steps = steps.now; text = chars text.now }) }
    {
        let count = if is_memoizing { words(steps, text) } else { 0 };
        Ok(FailedStates {
            ignore_case,
            steps,
            text,
            bits: vec![in alloc; 0u64; count]?,
        })
    }

    /// Whether states are memoized.
    pub fn is_memoizing(&self) -> bool {
        !self.bits.is_empty()
    }

    /// Whether the state with these remaining steps and this remaining text is memoized as failed.
    pub fn contains(&self, steps: &[Step], text: &str) -> bool
        ensures { HoldsOnlyFailed self.now steps.now (chars text.now) result }
    {
        if !self.is_memoizing() {
            return false;
        }
        match bit_of(self.text, steps, text) {
            Some(bit) => has_bit(&self.bits, bit),
            None => false,
        }
    }

    /// Memoizes that the remaining steps do not match the remaining text, if states are memoized.
    pub fn insert(&mut self, steps: &[Step], text: &str)
        requires { IsFailedState self.old steps.now (chars text.now) }
        ensures { self.new ≡ self.old }
    {
        if !self.is_memoizing() {
            return;
        }
        if let Some(bit) = bit_of(self.text, steps, text) {
            set_bit(&mut self.bits, bit);
        }
    }
}

/// The index of the bit of the state with these remaining steps and this remaining text, in a match
/// of the text `whole`. `None`: the index overflows.
fn bit_of(whole: &str, steps: &[Step], text: &str) -> Option<usize>
    ensures { IfSome result (λ bit. bit ≡ bit_of (chars whole.now) steps.now (chars text.now)) }
{
    let row = steps.len().checked_mul(whole.len().checked_add(1)?)?;
    row.checked_add(text.len())
}

/// The number of 64-bit words that have a bit for each state of a match of `steps` and `text`, up
/// to overflow.
fn words(steps: &[Step], text: &str) -> usize {
    let rows = steps.len().saturating_add(1);
    rows.saturating_mul(text.len().saturating_add(1)) / 64 + 1
}

/// Whether the bit with this index is set. `false` if it is out of range.
fn has_bit(bits: &[u64], bit: usize) -> bool
    ensures { IsTrue result → HasBit bits.now bit }
{
    let word = bit / 64;
    word < bits.len() && (bits[word] >> (bit % 64)) & 1 == 1
}

/// Sets the bit with this index, if it is in range.
fn set_bit(bits: &mut [u64], bit: usize)
    ensures { (other : ℕ) → HasBit bits.new other → HasBit bits.old other ⊎ (other ≡ bit) }
{
    let word = bit / 64;
    if word < bits.len() {
        bits[word] |= 1 << (bit % 64);
    }
}
