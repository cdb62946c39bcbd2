//! The heap: the order of own keys, items and cells.

use js_heap::{Class, Heap};
use js_units::{NoMemory, Units};
use std::alloc::Global;
use std::test::Fail;

/// Keys in the order of their creation, and in that of OrdinaryOwnPropertyKeys (ECMA-262, section 10.1.11.1).
const ORDERS: [(&str, &str); 8] = [
    ("b,a", "b,a"),
    ("b,1,a,0", "0,1,b,a"),
    ("10,9", "9,10"),
    ("01,1,00,0", "0,1,01,00"),
    ("4294967295,4294967294", "4294967294,4294967295"),
    ("-1,1.5,1", "1,-1,1.5"),
    (",2,", "2,"),
    (
        "b,10,01,2,4294967295,0,a,4294967294,b",
        "0,2,10,4294967294,b,01,4294967295,a",
    ),
];

/// Sets each key to the number of those before it.
fn set_all(alloc: Global, heap: &mut Heap<u64>, id: u32, created: &str) -> Result<bool, NoMemory> {
    let mut number = 0u64;
    for key in created.split(',') {
        if heap.objects() <= id {
            return Ok(false);
        }
        heap.set(id, Units::from_text(alloc, key)?, number)?;
        number = number.saturating_add(1u64);
    }
    Ok(true)
}

/// Whether the keys are those of the text, in its order.
fn are_keys(alloc: Global, keys: &[Units], wanted: &str) -> Result<bool, NoMemory> {
    let mut left = keys;
    for key in wanted.split(',') {
        let [first, rest @ ..] = left else {
            return Ok(false);
        };
        if !first.equals(&Units::from_text(alloc, key)?) {
            return Ok(false);
        }
        left = rest;
    }
    Ok(left.is_empty())
}

fn has_order(alloc: Global, created: &str, wanted: &str) -> Result<bool, NoMemory> {
    let mut heap = Heap::<u64>::new(alloc);
    let id = heap.new_object(Class::Plain)?;
    if !set_all(alloc, &mut heap, id, created)? || heap.objects() <= id {
        return Ok(false);
    }
    let keys = heap.keys(id)?;
    are_keys(alloc, keys.as_slice(), wanted)
}

/// The first row whose keys stand otherwise.
fn wrong_order(alloc: Global) -> Result<Option<usize>, NoMemory> {
    for (row, (created, wanted)) in ORDERS.iter().enumerate() {
        if !has_order(alloc, created, wanted)? {
            return Ok(Some(row));
        }
    }
    Ok(None)
}

/// A property that is written twice keeps its place and has the second value.
fn has_values(alloc: Global) -> Result<bool, NoMemory> {
    let mut heap = Heap::<u64>::new(alloc);
    let id = heap.new_object(Class::Plain)?;
    if !set_all(alloc, &mut heap, id, "a,b,a")? || heap.objects() <= id {
        return Ok(false);
    }
    let first = Units::from_bytes(alloc, b"a")?;
    let other = Units::from_bytes(alloc, b"c")?;
    let holds = heap.get(id, &first).copied() == Some(2) && heap.get(id, &other).copied() == None;
    drop(heap);
    Ok(holds)
}

/// Items from both ends.
fn has_items(alloc: Global) -> Result<bool, NoMemory> {
    let mut heap = Heap::<u64>::new(alloc);
    let id = heap.new_object(Class::Array)?;
    heap.push_item(id, 7)?;
    heap.push_item(id, 8)?;
    heap.push_item(id, 9)?;
    heap.set_item(id, 1, 5);
    let first = heap.shift_item(id);
    let last = heap.pop_item(id);
    let rest = [heap.item(id, 0).copied(), heap.item(id, 1).copied()];
    let is_array = matches!(heap.class(id), Class::Array);
    drop(heap);
    Ok(is_array && [first, last] == [Some(7), Some(9)] && rest == [Some(5), None])
}

/// A cell has no value before its initialisation.
fn has_cells(alloc: Global) -> Result<bool, NoMemory> {
    let mut heap = Heap::<u64>::new(alloc);
    let cell = heap.new_cell(None)?;
    let before = heap.cell(cell).copied();
    heap.set_cell(cell, 3);
    Ok(before == None && heap.cell(cell).copied() == Some(3) && heap.cells() == 1)
}

#[test]
fn heaps(rt: HostRuntime) -> Result<(), Fail> {
    let alloc = rt.alloc();
    assert!(rt;
        wrong_order(alloc)? == None && has_values(alloc)? && has_items(alloc)? && has_cells(alloc)?
    );
    Ok(())
}
