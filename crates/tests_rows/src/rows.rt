//! The rows and ids of small tables.
ghost use Rattle.std.specs.Prelude.{◌<◌, length};

use csv_rows::{Column, FeedFault, Ids, Rows, RowsFault, Table, lack, read_name};
use plan_model::HashKey;
use std::alloc::Global;
use std::test::Fail;

/// The fields of the rows after the header, with `|` after each field and `/` after each row.
fn shown(alloc: Global, text: &[u8]) -> Result<Vec<u8>, RowsFault> {
    let rows = Rows::read(alloc, text)?;
    let mut shown = Vec::new(alloc);
    for row in 0..rows.count() {
        for column in 0..rows.width(row) {
            push(&mut shown, rows.field(row, column), b'|')?;
        }
        push(&mut shown, b"", b'/')?;
    }
    Ok(shown)
}

fn push(shown: &mut Vec<u8>, field: &[u8], end: u8) -> Result<(), RowsFault> {
    match shown.extend_from_slice(field) {
        Ok(()) => {}
        Err(_) => return Err(RowsFault::NoMemory),
    }
    match shown.push(end) {
        Ok(()) => Ok(()),
        Err(_) => Err(RowsFault::NoMemory),
    }
}

#[test]
fn reads_rows(rt: HostRuntime) {
    for (text, rows) in [
        ("h,i\n1,2\n3,4\n", "1|2|/3|4|/"),
        ("h,i\r\n1,2\r\n3,4", "1|2|/3|4|/"),
        ("h,i\r1,2\r3,4\r", "1|2|/3|4|/"),
        ("\n\nh\n\n\r\n1\n\n2\n\n", "1|/2|/"),
        ("h,i,j\n1\n1,2,3,4\n", "1|/1|2|3|4|/"),
        ("h\n \" a, \"\"b\"\"\" , c d \n", "\" a|\"\"b\"\"\"|c d|/"),
        ("h\n\" a, \"\"b\"\"\nc \",\td\n", "a, \"b\"\nc|\td|/"),
        ("h\n\"\",\n", "||/"),
        ("h\n#c\n", "#c|/"),
    ] {
        let read = shown(rt.alloc(), text.as_bytes());
        assert!(rt;
            matches!(&read, Ok(read) if read.as_slice() == rows.as_bytes()),
            "{text:?}"
        );
    }
}

/// A table of one row, with a byte order mark and two columns of one name.
fn named_columns(alloc: Global) -> Result<Rows, Fail> {
    match Rows::read(alloc, b"\xEF\xBB\xBFstop_id, step ,step\nA,1,2\n") {
        Ok(rows) => Ok(rows),
        Err(_) => Err("no rows".into()),
    }
}

/// The indexes of these columns in it.
fn indexes_in_it(
    alloc: Global,
    columns: [Column; 3],
) -> Result<(Option<usize>, Option<usize>, Option<usize>), Fail> {
    let rows = named_columns(alloc)?;
    let [first, second, third] = columns;
    Ok((
        rows.index_of(first),
        rows.index_of(second),
        rows.index_of(third),
    ))
}

#[test]
fn names_columns(rt: HostRuntime) -> Result<(), Fail> {
    let indexes = indexes_in_it(rt.alloc(), [Column::StopId, Column::Step, Column::Run])?;
    assert_eq!(rt; indexes, (Some(0), Some(1), None));
    Ok(())
}

/// The width of its header, the number of its rows, and how long the field past the end of the header is.
fn counts_of_it(alloc: Global) -> Result<(usize, usize, usize), Fail> {
    let rows = named_columns(alloc)?;
    Ok((
        rows.header_width(),
        rows.count(),
        rows.header_field(3).len(),
    ))
}

#[test]
fn counts_columns_and_rows(rt: HostRuntime) -> Result<(), Fail> {
    assert_eq!(rt; counts_of_it(rt.alloc())?, (3, 1, 0));
    Ok(())
}

/// The line of its row, and whether that has this name under a column, and none under a column that it does not have.
fn row_of_it(alloc: Global, name: &str) -> Result<(u64, bool, bool), Fail> {
    let rows = named_columns(alloc)?;
    if rows.count() == 0 {
        return Err("no row".into());
    }
    let there = read_name(rows.field_at(0, Some(0))) == Some(name);
    let absent = read_name(rows.field_at(0, None)).is_none();
    Ok((rows.line(0), there, absent))
}

#[test]
fn names_of_a_row(rt: HostRuntime) -> Result<(), Fail> {
    assert_eq!(rt; row_of_it(rt.alloc(), "A")?, (2, true, true));
    Ok(())
}

#[test]
fn one_byte_order_mark(rt: HostRuntime) -> Result<(), Fail> {
    let Ok(rows) = Rows::read(rt.alloc(), b"\xEF\xBB\xBF\xEF\xBB\xBFid\n") else {
        return Err("no rows".into());
    };
    assert_eq!(rt; rows.header_field(0), b"\xEF\xBB\xBFid".as_slice());
    Ok(())
}

/// Whether a table of these bytes has no header.
fn has_no_header(alloc: Global, bytes: &[u8]) -> bool {
    matches!(Rows::read(alloc, bytes), Err(RowsFault::NoHeader))
}

#[test]
fn no_record(rt: HostRuntime) {
    for bytes in [
        b"".as_slice(),
        b"\n\r\n\n".as_slice(),
        b"\xEF\xBB\xBF".as_slice(),
    ] {
        assert!(rt; has_no_header(rt.alloc(), bytes), "{bytes:?}");
    }
}

#[test]
fn reports_a_column_that_is_lacking(rt: HostRuntime) {
    let fault = FeedFault::MissingColumn(Table::Stops, Column::StopId);
    assert_eq!(rt; lack(Table::Stops, Column::StopId, None), Some(fault));
    assert_eq!(rt; lack(Table::Stops, Column::StopId, Some(2)), None);
}

/// Whether a name is new the first time that it comes, and not the second time.
fn adds_each_once(alloc: Global, ids: &mut Ids) -> Result<bool, Fail>
    requires { length ids.old < 9 }
{
    let first = ids.add(alloc, "b")?;
    let other = ids.add(alloc, "a")?;
    let again = ids.add(alloc, "b")?;
    Ok(first && other && !again)
}

/// Whether the ids are these, in their order.
fn are(ids: &Ids, names: &[&str]) -> bool {
    if ids.len() as usize != names.len() {
        return false;
    }
    for i in 0..ids.len() {
        if ids.get(i) != names[i as usize] {
            return false;
        }
    }
    true
}

/// The numbers of three ids.
fn numbers_of(ids: &Ids, names: [&str; 3]) -> (Option<u32>, Option<u32>, Option<u32>) {
    let [first, second, third] = names;
    (ids.number(first), ids.number(second), ids.number(third))
}

#[test]
fn numbers_ids(rt: HostRuntime) -> Result<(), Fail> {
    let mut ids = Ids::with_key(rt.alloc(), HashKey::fixed());
    let added = adds_each_once(rt.alloc(), &mut ids)?;
    assert!(rt; added);
    assert!(rt; are(&ids, &["b", "a"]));
    assert_eq!(rt; numbers_of(&ids, ["b", "a", "c"]), (Some(0), Some(1), None));
    Ok(())
}
