//! The repairs of a plan.
ghost use Rattle.std.specs.Prelude.{◌≡◌, [], None, Some};
ghost use Rattle.std.specs.List.{last_or};
ghost use Rattle.session.specs.declared.held.Held.TheVariants.{Repairs as RepairsHeld};
ghost use Rattle.store_c.specs.Plan.{HasPlan, IsPlanTo, IsPlanPartTo, IsMendStep, IsSkip};
ghost use Rattle.store_c.specs.Plan.{all_lost, some_lost};

use crate::answers::{number_of, write_version};
use crate::places::{fill, make_room};
use crate::status::{DONE, NO_MEMORY, NOTHING_LEFT, OCCUPIED};
use session::{Held, Plan, Repairs, Session, Slot};
use std::alloc::Global;
use std::boxed::Box;

/// Puts the first part of a plan into its room, and that into a slot.
fn hold(room: Box<Option<Held>>, plan: Plan, other: &mut Slot)
    ensures { other.new.held ≡ Some (RepairsHeld (record {
      items = plan.items.items;
      last = last_or None plan.items.items;
    })) }
{
    fill(room, Held::Repairs(Repairs::of(plan, None)), other);
}

fn plan(alloc: Global, session: &mut Session, other: &mut Slot, items: &mut u64) -> u32
    requires { other.old.held ≡ None }
    ensures { HasPlan all_lost None session.old None result (items.old, items.new) session.new
        other.new.held }
{
    let Some(room) = make_room(alloc) else {
        return NO_MEMORY;
    };
    match session.plan(alloc) {
        Ok(plan) => {
            *items = plan.items.len() as u64;
            hold(room, plan, other);
            DONE
        }
        Err(fault) => {
            drop(room);
            number_of(fault)
        }
    }
}

/// Does the same if the other slot is empty.
pub(crate) fn plan_to(
    alloc: Global,
    session: &mut Session,
    other: &mut Slot,
    items: &mut u64,
) -> u32
    ensures { IsPlanTo session.old other.old.held result (items.old, items.new) session.new
        other.new.held }
{
    if !other.is_vacant(alloc) {
        return OCCUPIED;
    }
    plan(alloc, session, other, items)
}

fn first_part(
    alloc: Global,
    session: &mut Session,
    other: &mut Slot,
    most: u64,
    items: &mut u64,
) -> u32
    requires { other.old.held ≡ None }
    ensures { HasPlan (some_lost None most) None session.old None result (items.old, items.new)
        session.new other.new.held }
{
    let Some(room) = make_room(alloc) else {
        return NO_MEMORY;
    };
    match session.plan_part(alloc, None, most as usize) {
        Ok(plan) => {
            *items = plan.items.len() as u64;
            hold(room, plan, other);
            DONE
        }
        Err(fault) => {
            drop(room);
            number_of(fault)
        }
    }
}

/// The part behind a part of which no item remains, in its place.
fn next_part(
    alloc: Global,
    session: &mut Session,
    repairs: &mut Repairs,
    most: u64,
    items: &mut u64,
) -> u32
    requires { repairs.old.items ≡ [] }
    ensures { HasPlan (some_lost repairs.old.last most) repairs.old.last session.old
        (Some (RepairsHeld repairs.old)) result (items.old, items.new) session.new
        (Some (RepairsHeld repairs.new)) }
{
    match session.plan_part(alloc, repairs.last(), most as usize) {
        Ok(plan) => {
            repairs.follow(plan);
            *items = repairs.len();
            DONE
        }
        Err(fault) => number_of(fault),
    }
}

/// The first part, if the other slot is empty, or the next one.
pub(crate) fn plan_part_to(
    alloc: Global,
    session: &mut Session,
    other: &mut Slot,
    most: u64,
    items: &mut u64,
) -> u32
    ensures { IsPlanPartTo session.old other.old.held most result (items.old, items.new)
        session.new other.new.held }
{
    if other.is_vacant(alloc) {
        return first_part(alloc, session, other, most, items);
    }
    match other.get_mut() {
        Some(Held::Repairs(repairs)) if repairs.len() == 0 => {
            next_part(alloc, session, repairs, most, items)
        }
        _ => OCCUPIED,
    }
}

pub(crate) fn mend_step(
    alloc: Global,
    session: &mut Session,
    repairs: &mut Repairs,
    version: &mut u64,
) -> u32
    ensures step { IsMendStep session.old repairs.old.items result version.old version.new
        session.new repairs.new.items }
    ensures last { repairs.new.last ≡ repairs.old.last }
{
    match repairs.step(session, alloc) {
        Some(reply) => write_version(&reply, version),
        None => NOTHING_LEFT,
    }
}

pub(crate) fn skip(repairs: &mut Repairs) -> u32
    ensures skip { IsSkip repairs.old.items result repairs.new.items }
    ensures last { repairs.new.last ≡ repairs.old.last }
{
    if repairs.skip() { DONE } else { NOTHING_LEFT }
}
