//! How values lie in the slots of a shelf, and the room that is kept for the list of them.
ghost use Rattle.std.specs.Prelude.{◌≡◌, ◌≤◌, [], map, length, Some, IfOk, IfErr, vec_capacity};
ghost use Rattle.std.specs.Slots.{slots_items, slots_len, IsFull};
ghost use Rattle.task_queue.specs.Values.{AllFit, values_of, SlotsFit};

use crate::shelf::Placed;
use atomic_table::{Closed, Refused, Table, TableRule};
use std::alloc::Global;

/// The rule of the room: a list of no values, with room for as many as the key says.
pub struct SpareRoom;

impl<V> TableRule<Vec<V>, (), usize> for SpareRoom {
    ghost use Rattle.task_queue.specs.Rules.{HasRoom};

    ghost holds = { HasRoom };

    ghost first = { λ key. tt };
}

// Moves each value into a slot.
pub(crate) fn lay_out<V>(values: &mut Vec<V>, slots: &mut Vec<Option<V>>)
    requires { (slots.old.items ≡ []) × (length values.old.items ≤ vec_capacity slots.old) }
    ensures slots { slots.new.items ≡ map (λ v. Some v) values.old.items }
    ensures values { (values.new.items ≡ []) × (vec_capacity values.new ≡ vec_capacity values.old) }
{
    values.reverse();
    while let Some(value) = values.pop() {
        slots.push_reserved(Some(value));
    }
}

// Moves the values of slots back into a list.
pub(crate) fn give_back<V>(mut slots: Vec<Option<V>>, values: &mut Vec<V>)
    requires { (values.old.items ≡ []) × (length slots.items ≤ vec_capacity values.old) }
    ensures { values.new.items ≡ values_of slots.items }
{
    while let Some(slot) = slots.pop() {
        match slot {
            Some(value) => values.push_reserved(value),
            None => {}
        }
    }
    slots.destroy_empty();
    values.reverse();
}

// Puts an empty list away whose room is needed at the end.
pub(crate) fn keep_room<V>(
    alloc: Global,
    values: Vec<V>,
    count: usize,
) -> Result<Table<Vec<V>, (), usize, SpareRoom, Global>, Vec<V>>
    requires { (values.items ≡ []) × (count ≤ vec_capacity values) }
    ensures ok { IfOk result (λ r. (r.shared.key ≡ count) × (r.shared.table_id.slots ≡ 1)) }
    ensures err { IfErr result (λ back. back ≡ values) }
{
    let Ok(mut row) = Vec::with_capacity(alloc, 1) else {
        return Err(values)
    };
    row.push_reserved(values);
    match Table::new(alloc, &[0], row, &count) {
        Ok((room, _)) => Ok(room),
        Err(Refused { slots: mut row }) => match row.pop() {
            Some(values) => {
                row.destroy_empty();
                Err(values)
            }
            None => unreachable!(),
        },
    }
}

// Takes the empty list out again.
pub(crate) fn take_room<V>(room: Table<Vec<V>, (), usize, SpareRoom, Global>) -> Vec<V>
    requires { room.shared.table_id.slots ≡ 1 }
    ensures { (result.items ≡ []) × (room.shared.key ≤ vec_capacity result) }
{
    let mut closed = room.close();
    let values = closed.take(0);
    closed.free();
    values
}

// Moves the value of each slot into the list.
pub(crate) fn unload<V: Placed>(mut closed: Closed<Option<V>, Global>, mut room: Vec<V>) -> Vec<V>
    requires full { IsFull closed.slots }
    requires fit { SlotsFit V.fits (slots_len closed.slots) (slots_items closed.slots) }
    requires room { (room.items ≡ []) × (slots_len closed.slots ≤ vec_capacity room) }
    ensures { (length result.items ≡ slots_len closed.slots) × AllFit V.fits result.items }
{
    for i in 0..closed.slot_count() {
        match closed.take(i) {
            Some(value) => room.push_reserved(value),
            None => unreachable!(),
        }
    }
    closed.free();
    room
}
