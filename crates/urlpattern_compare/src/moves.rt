//! Characters that lead to different sets of states.

ghost use Rattle.std.specs.Prelude.{◌≡◌, ◌≢◌, ◌≤◌, ◌||◌, ℕ, All, Contains, IfOk, IsTrue, List, OnOk, filter, map};
ghost use Rattle.urlpattern_compare.specs.Exits.{AreKeptIn, HasAlike, joint_moved_by};
ghost use Rattle.urlpattern_compare.specs.Moves.{AreMoves, AreNear, HasMove, may_pass};
ghost use Rattle.urlpattern_compare.specs.declared.exits.Exits.{Exits};
ghost use Rattle.urlpattern_syntax.specs.Text.{line_feed};

use crate::exits::{Exits, joint_moved_by};
use crate::joint_states::split;
use crate::parts_automaton::Test;
use crate::text_search::are_same;
use std::alloc::{AllocError, Global};

/// How many characters are looked at together.
const BLOCK: usize = 32;

/// A character, and the sets of states to which it leads.
#[derive(Debug, Drop)]
struct Move {
    c: char,
    flags: Vec<bool>,
}

/// Returns those of `classes` that lead to different sets of states: one for each sets to which a
/// character of `classes` leads that is no line feed. Few classes are returned as they are.
pub(crate) fn unlike_classes(
    alloc: Global,
    exits: &[Exits],
    classes: Vec<char>,
) -> Result<Vec<char>, AllocError>
    ensures { IfOk result (λ kept. (c : ℕ) → Contains classes.items c → c ≢ line_feed
        → HasAlike exits.now kept.items c) }
{
    if classes.len() <= BLOCK {
        return Ok(classes);
    }
    let mut moves = Vec::new(alloc);
    let mut left: &[char] = &classes;
    while left.len() > 0 {
        let (block, others) = split(left, BLOCK);
        add_moves(alloc, exits, block, &mut moves)?;
        left = others;
    }
    characters_of(alloc, &moves)
}

/// Returns the characters of the moves.
fn characters_of(alloc: Global, moves: &[Move]) -> Result<Vec<char>, AllocError>
    ensures { IfOk result (λ found. found.items ≡ map (λ it. it.c) moves.now) }
{
    let mut found = Vec::new(alloc);
    for one in moves {
        found.push(one.c)?;
    }
    Ok(found)
}

/// Adds moves by characters of the block that lead to further sets of states.
fn add_moves(
    alloc: Global,
    exits: &[Exits],
    block: &[char],
    moves: &mut Vec<Move>,
) -> Result<(), AllocError>
    ensures kept { OnOk result (AreKeptIn moves.old.items moves.new.items) }
    ensures moves { OnOk result (AreMoves exits.now moves.old.items
        → AreMoves exits.now moves.new.items) }
    ensures added { OnOk result (All (λ c. c ≢ line_feed
        → HasMove moves.new.items (joint_moved_by exits.now c)) block.now) }
{
    let near = near_exits(alloc, exits, least(block), greatest(block))?;
    for c in block {
        add_move_by(alloc, &near, *c, moves)?;
    }
    Ok(())
}

/// Adds the move by `c`, unless it is a line feed or leads to the sets of states of a move.
fn add_move_by(
    alloc: Global,
    exits: &[Exits],
    c: char,
    moves: &mut Vec<Move>,
) -> Result<(), AllocError>
    ensures kept { OnOk result (AreKeptIn moves.old.items moves.new.items) }
    ensures moves { OnOk result ((all : List Exits)
        → joint_moved_by exits.now c ≡ joint_moved_by all c
        → AreMoves all moves.old.items → AreMoves all moves.new.items) }
    ensures added { OnOk result (c ≢ line_feed
        → HasMove moves.new.items (joint_moved_by exits.now c)) }
{
    if c == '\n' {
        return Ok(());
    }
    let flags = joint_moved_by(alloc, exits, c)?;
    if is_known(moves, &flags) {
        return Ok(());
    }
    moves.push(Move { c, flags })?;
    Ok(())
}

/// Whether a move leads to the sets of states.
fn is_known(moves: &[Move], flags: &[bool]) -> bool
    ensures { IsTrue result → HasMove moves.now flags.now }
{
    for one in moves {
        if are_same(&one.flags, flags) {
            return true;
        }
    }
    false
}

/// Returns the exits by which a character from `least` to `greatest` may lead.
fn near_exits(
    alloc: Global,
    exits: &[Exits],
    least: char,
    greatest: char,
) -> Result<Vec<Exits>, AllocError>
    ensures { IfOk result (λ near. AreNear exits.now least greatest near.items) }
{
    let mut near = Vec::new(alloc);
    for own in exits {
        let own_near = near_exits_of(alloc, own, least, greatest)?;
        near.push(own_near)?;
    }
    Ok(near)
}

/// Returns those of the exits by which a character from `least` to `greatest` may lead.
fn near_exits_of(
    alloc: Global,
    exits: &Exits,
    least: char,
    greatest: char,
) -> Result<Exits, AllocError>
    ensures edges { IfOk result (λ near. near.edges.items
        ≡ filter (λ edge. exits.now.ignore_case || may_pass edge.test least greatest)
        exits.now.edges.items) }
    ensures states { IfOk result (λ near. near.states ≡ exits.now.states) }
    ensures case { IfOk result (λ near. near.ignore_case ≡ exits.now.ignore_case) }
{
    let mut edges = Vec::new(alloc);
    for edge in &exits.edges {
        if exits.ignore_case || may_pass(edge.test, least, greatest) {
            edges.push(*edge)?;
        }
    }
    Ok(Exits {
        edges,
        states: exits.states,
        ignore_case: exits.ignore_case,
    })
}

/// Whether a character from `least` to `greatest` may pass the test. `false`: the test is a range
/// that has none of them.
fn may_pass(test: Test, least: char, greatest: char) -> bool
    ensures { result ≡ may_pass test least greatest }
{
    match test {
        Test::Only(_) | Test::AnyBut(_) => true,
        Test::Within(first, last) => first <= u32::from(greatest) && u32::from(least) <= last,
    }
}

/// Returns the least of the characters.
fn least(block: &[char]) -> char
    ensures { All (λ c. result ≤ c) block.now }
{
    let mut found = char::MAX;
    for c in block {
        let next = lesser(found, *c);
        found = next;
    }
    found
}

/// Returns the lesser of two characters.
fn lesser(one: char, other: char) -> char
    ensures one { result ≤ one }
    ensures other { result ≤ other }
{
    if one < other { one } else { other }
}

/// Returns the greatest of the characters.
fn greatest(block: &[char]) -> char
    ensures { All (λ c. c ≤ result) block.now }
{
    let mut found = '\0';
    for c in block {
        let next = greater(found, *c);
        found = next;
    }
    found
}

/// Returns the greater of two characters.
fn greater(one: char, other: char) -> char
    ensures one { one ≤ result }
    ensures other { other ≤ result }
{
    if one < other { other } else { one }
}
