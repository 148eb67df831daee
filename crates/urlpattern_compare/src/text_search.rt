//! Searches for a text that some automata accept, and others reject.

ghost use Rattle.std.specs.Prelude.{◌≡◌, ◌≢◌, ◌↔◌, ℕ, All, Contains, IfOk, OnOk, IsTrue};
ghost use Rattle.urlpattern_compare.specs.Conditions.{are_open, joint_starts};
ghost use Rattle.urlpattern_compare.specs.Exits.{AreExits};
ghost use Rattle.urlpattern_compare.specs.TextSearch.{ArePlaces, IsExtendedBy, IsFollowedIn, IsFoundText, IsPassedBy, IsPlaced, IsPlaceOf, IsPlaceSeen};
ghost use Rattle.urlpattern_syntax.specs.Text.{line_feed};

use crate::classes::classes_of;
use crate::condition::Condition;
use crate::exits::{Exits, exits_at, joint_moved_by};
use crate::joint_states::{are_met, are_open, joint_starts};
use crate::search::Found;
use std::alloc::{AllocError, Global};

/// Where several automata are after a text: the sets of states to which it leads them, one after
/// the other in one list of flags.
#[derive(Debug, Drop)]
pub(crate) struct Place {
    pub(crate) flags: Vec<bool>,
    pub(crate) text: Vec<char>,
}

/// Finds a text without line feed that meets `conditions`, whatever their components.
///
/// The text is one of the shortest. The search is given up when it reaches more than `most` places.
pub(crate) fn find_text(
    alloc: Global,
    conditions: &[Condition<'_>],
    most: usize,
) -> Result<Found, AllocError>
    ensures { IfOk result (IsFoundText conditions.now most) }
{
    let mut places = first_places(alloc, conditions)?;
    let mut next = 0;
    while next < places.len() && places.len() <= most {
        let place = copy_of(alloc, &places[next])?;
        if are_met(conditions, &place.flags) {
            return Ok(Found::Text(place.text));
        }
        let exits = exits_at(alloc, conditions, &place.flags)?;
        let classes = classes_of(alloc, &exits)?;
        follow(alloc, conditions, &exits, &classes, &place, &mut places)?;
        next += 1;
    }
    if next < places.len() {
        return Ok(Found::TooMany);
    }
    Ok(Found::Nothing)
}

/// Returns the place of the empty text, or no place if an automaton that has to accept has no start
/// state.
fn first_places(alloc: Global, conditions: &[Condition<'_>]) -> Result<Vec<Place>, AllocError>
    ensures places { IfOk result (λ places. ArePlaces conditions.now places.items) }
    ensures starts { IfOk result (λ places.
        IsTrue (are_open conditions.now (joint_starts conditions.now))
        → IsPlaceSeen places.items (joint_starts conditions.now)) }
{
    let mut places = Vec::new(alloc);
    let flags = joint_starts(alloc, conditions)?;
    if !are_open(conditions, &flags) {
        return Ok(places);
    }
    places.push(Place {
        flags,
        text: Vec::new(alloc),
    })?;
    Ok(places)
}

/// Adds to `places` the new places that `place` leads to by one of the characters `classes`;
/// `exits` are those of its sets.
fn follow(
    alloc: Global,
    conditions: &[Condition<'_>],
    exits: &[Exits],
    classes: &[char],
    place: &Place,
    places: &mut Vec<Place>,
) -> Result<(), AllocError>
    requires exits { AreExits conditions.now place.now.flags.items exits.now }
    requires place { IsPlaced conditions.now place.now }
    requires places { ArePlaces conditions.now places.old.items }
    ensures places { OnOk result (ArePlaces conditions.now places.new.items) }
    ensures kept { OnOk result (IsExtendedBy places.old.items places.new.items) }
    ensures followed { OnOk result
        (IsFollowedIn conditions.now classes.now places.new.items place.now) }
{
    for c in classes {
        follow_by(alloc, conditions, exits, *c, place, places)?;
    }
    Ok(())
}

/// Adds to `places` the place that `place` leads to by the character `c`, if it is new; `exits` are
/// those of its sets. Adds nothing for a line feed, nor where an automaton that has to accept is
/// left without a state.
fn follow_by(
    alloc: Global,
    conditions: &[Condition<'_>],
    exits: &[Exits],
    c: char,
    place: &Place,
    places: &mut Vec<Place>,
) -> Result<(), AllocError>
    requires exits { AreExits conditions.now place.now.flags.items exits.now }
    requires place { IsPlaced conditions.now place.now }
    requires places { ArePlaces conditions.now places.old.items }
    ensures places { OnOk result (ArePlaces conditions.now places.new.items) }
    ensures kept { OnOk result (IsExtendedBy places.old.items places.new.items) }
    ensures followed { OnOk result
        (c ≢ line_feed → IsPassedBy conditions.now c places.new.items place.now) }
{
    if c == '\n' {
        return Ok(());
    }
    let flags = joint_moved_by(alloc, exits, c)?;
    if !are_open(conditions, &flags) {
        return Ok(());
    }
    if is_seen(places, &flags) {
        return Ok(());
    }
    let mut text = Vec::from_slice(alloc, &place.text)?;
    text.push(c)?;
    places.push(Place { flags, text })?;
    Ok(())
}

/// Copies a place.
fn copy_of(alloc: Global, place: &Place) -> Result<Place, AllocError>
    ensures { IfOk result (IsPlaceOf place.now.flags.items place.now.text.items) }
{
    Ok(Place {
        flags: Vec::from_slice(alloc, &place.flags)?,
        text: Vec::from_slice(alloc, &place.text)?,
    })
}

/// Whether a place with the sets `flags` is among `places`.
fn is_seen(places: &[Place], flags: &[bool]) -> bool
    ensures { IsTrue result ↔ IsPlaceSeen places.now flags.now }
{
    for place in places {
        if are_same(&place.flags, flags) {
            return true;
        }
    }
    false
}

/// Whether two lists of flags are equal.
pub(crate) fn are_same(flags: &[bool], others: &[bool]) -> bool
    ensures { IsTrue result ↔ flags.now ≡ others.now }
{
    flags == others
}
