//! Each public call on its happy path: that memory is there is what no clause says.
use collections::{Bytes, Items, Secret, Table};
use std::alloc::Global;
use std::test::Fail;

enum ListStep {
    Push(u64),
    // A list of its own, through a `Vec` and a clone.
    Append(&'static [u64]),
    Set(usize, u64),
    Remove(usize),
    Pop,
}

// Each step with what it gives back, and the list behind it.
const LIST_STEPS: &[(ListStep, Option<u64>, &[u64])] = &[
    (ListStep::Pop, None, &[]),
    (ListStep::Push(3), None, &[3]),
    (ListStep::Push(4), None, &[3, 4]),
    (ListStep::Append(&[1, 2]), None, &[3, 4, 1, 2]),
    (ListStep::Pop, Some(2), &[3, 4, 1]),
    (ListStep::Set(0, 9), None, &[9, 4, 1]),
    (ListStep::Remove(1), Some(4), &[9, 1]),
];

fn append(alloc: Global, items: &mut Items<u64>, numbers: &[u64]) -> Result<(), Fail> {
    let more = Items::from_vec(numbers.to_vec(alloc)?);
    Ok(items.append(more.clone()?)?)
}

fn remove(items: &mut Items<u64>, at: usize) -> Option<u64> {
    if at < items.len() {
        Some(items.remove(at))
    } else {
        None
    }
}

fn set(items: &mut Items<u64>, at: usize, number: u64) {
    if at < items.len() {
        items.set(at, number);
    }
}

fn do_list(alloc: Global, items: &mut Items<u64>, step: &ListStep) -> Result<Option<u64>, Fail> {
    match step {
        ListStep::Push(number) => items.push(*number)?,
        ListStep::Append(numbers) => append(alloc, items, numbers)?,
        ListStep::Set(at, number) => set(items, *at, *number),
        ListStep::Remove(at) => return Ok(remove(items, *at)),
        ListStep::Pop => return Ok(items.pop()),
    }
    Ok(None)
}

// Whether it is this list, by each way to look at it.
fn is_list(items: &Items<u64>, list: &[u64]) -> bool {
    items.as_slice() == list && items.len() == list.len() && items.is_empty() == list.is_empty()
}

fn list_goes(
    alloc: Global,
    items: &mut Items<u64>,
    row: &(ListStep, Option<u64>, &[u64]),
) -> Result<bool, Fail> {
    let given = do_list(alloc, items, &row.0)?;
    Ok(given == row.1 && is_list(items, row.2))
}

#[test]
fn items_step_by_step(rt: HostRuntime) -> Result<(), Fail> {
    let mut items = Items::new(rt.alloc());
    for row in LIST_STEPS {
        let list = row.2;
        assert!(rt; list_goes(rt.alloc(), &mut items, row)?, "at {list:?}");
    }
    assert!(rt; items.into_vec().len() == 2);
    Ok(())
}

enum TableStep {
    Put(u64, u64),
    // Gives the value back where the key isn't there.
    Replace(u64, u64),
    Remove(u64),
    RetainEven,
}

// Each step with what it gives back, and what is then at 1 and at 2, and how many entries there are.
const TABLE_STEPS: &[(TableStep, Option<u64>, (Option<u64>, Option<u64>), usize)] = &[
    (TableStep::Put(2, 20), None, (None, Some(20)), 1),
    (TableStep::Put(1, 10), None, (Some(10), Some(20)), 2),
    (TableStep::Put(2, 21), Some(20), (Some(10), Some(21)), 2),
    (TableStep::Replace(1, 11), Some(10), (Some(11), Some(21)), 2),
    (TableStep::Replace(3, 30), Some(30), (Some(11), Some(21)), 2),
    (TableStep::RetainEven, None, (None, Some(21)), 1),
    (TableStep::Remove(2), Some(21), (None, None), 0),
];

fn is_even(key: &u64) -> bool {
    *key % 2 == 0
}

fn do_table(table: &mut Table<u64, u64>, step: &TableStep) -> Result<Option<u64>, Fail> {
    match step {
        TableStep::Put(key, value) => Ok(table.put(*key, *value)?),
        TableStep::Replace(key, value) => match table.replace(key, *value) {
            Ok(former) => Ok(Some(former)),
            Err(value) => Ok(Some(value)),
        },
        TableStep::Remove(key) => Ok(table.remove(key)),
        TableStep::RetainEven => {
            table.retain(|key, _| is_even(key));
            Ok(None)
        }
    }
}

fn is_table(table: &Table<u64, u64>, at: (Option<u64>, Option<u64>), count: usize) -> bool {
    (table.get(&1).copied(), table.get(&2).copied()) == at && table.as_map().len() == count
}

// Whether it, and a clone of it, is so.
fn are_tables(
    table: &Table<u64, u64>,
    at: (Option<u64>, Option<u64>),
    count: usize,
) -> Result<bool, Fail> {
    let copy = table.clone()?;
    Ok(is_table(&copy, at, count) && is_table(table, at, count))
}

fn table_goes(
    table: &mut Table<u64, u64>,
    row: &(TableStep, Option<u64>, (Option<u64>, Option<u64>), usize),
) -> Result<bool, Fail> {
    let given = do_table(table, &row.0)?;
    Ok(are_tables(table, row.2, row.3)? && given == row.1)
}

#[test]
fn table_step_by_step(rt: HostRuntime) -> Result<(), Fail> {
    let mut table = Table::new(rt.alloc());
    for row in TABLE_STEPS {
        let given = row.1;
        assert!(rt; table_goes(&mut table, row)?, "where it gives {given:?}");
    }
    Ok(())
}

// Whether the bytes, and a clone of them, are these, by each way to look at them.
fn are_bytes(bytes: &Bytes, want: &[u8]) -> Result<bool, Fail> {
    let copy = bytes.clone()?;
    Ok(
        copy.as_slice() == want
            && copy.len() == want.len()
            && copy.is_empty() == want.is_empty()
            && *bytes == copy,
    )
}

fn copies(alloc: Global, want: &[u8]) -> Result<bool, Fail> {
    let bytes = Bytes::copy_of(alloc, want)?;
    are_bytes(&bytes, want)
}

fn takes_over(alloc: Global, want: &[u8]) -> Result<bool, Fail> {
    let bytes = Bytes::from_vec(want.to_vec(alloc)?)?;
    are_bytes(&bytes, want)
}

#[test]
fn bytes_are_shared(rt: HostRuntime) -> Result<(), Fail> {
    for want in ["abc", ""] {
        assert!(rt;
            copies(rt.alloc(), want.as_bytes())?,
            "at a copy of {want:?}"
        );
        assert!(rt;
            takes_over(rt.alloc(), want.as_bytes())?,
            "at a vec of {want:?}"
        );
    }
    Ok(())
}

fn shown(alloc: Global) -> Result<String, Fail> {
    let secret = Secret::new([7; 32]);
    let copy = secret.clone()?;
    Ok(format!(in alloc; "{copy:?}")?)
}

#[test]
fn secret_is_not_shown(rt: HostRuntime) -> Result<(), Fail> {
    assert!(rt; Secret::new([7; 32]).as_bytes() == [7; 32].as_slice());
    let shown = shown(rt.alloc())?;
    assert!(rt; shown.as_str() == "Secret");
    Ok(())
}
