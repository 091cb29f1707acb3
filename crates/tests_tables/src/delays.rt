use csv_rows::{Column, Rows, RowsFault};
use delay_table::{ClassName, DelayFault, DelayTable};
use plan_model::{ClassId, List, Moment, Outcome};
use std::alloc::Global;
use std::test::Fail;

fn rows_in(alloc: Global, text: &[u8]) -> Result<Rows, RowsFault> {
    Rows::read(alloc, text)
}

fn rows_of(alloc: Global, text: &[u8]) -> Result<Rows, DelayFault> {
    rows_in(alloc, text).map_err(|_| DelayFault::NoMemory)
}

fn table_of(alloc: Global, rows: &Rows) -> Result<DelayTable, DelayFault> {
    DelayTable::read(alloc, rows)
}

fn read(alloc: Global, text: &[u8]) -> Result<DelayTable, DelayFault> {
    let rows = rows_of(alloc, text)?;
    table_of(alloc, &rows)
}

/// The fault of a text.
fn fault_of(alloc: Global, text: &[u8]) -> Option<DelayFault> {
    read(alloc, text).err()
}

const CLASSES: &[u8] =
    b"weight,class,delay\n4000,003,0\n9000,*,0\n1000,*,300\n10000,0,60\n6000,3,120\n";

/// The class of a route type.
fn class_of(table: &DelayTable, route_type: u16) -> ClassId {
    table.class_of(route_type)
}

fn class_in(alloc: Global, text: &[u8], route_type: u16) -> Result<ClassId, DelayFault> {
    let table = read(alloc, text)?;
    Ok(class_of(&table, route_type))
}

#[test]
fn numbers_classes(rt: HostRuntime) {
    for (route_type, class) in [(0, ClassId(1)), (3, ClassId(2)), (7, ClassId(0))] {
        assert_eq!(rt; class_in(rt.alloc(), CLASSES, route_type), Ok(class));
    }
}

/// How many outcomes the usual class has, which is that of a route type without its own, and the
/// greatest of their delays.
fn usual(table: &DelayTable) -> (usize, u32) {
    let class = table.class_of(7);
    (table.row(class).len(), table.greatest(class))
}

fn usual_in(alloc: Global, text: &[u8]) -> Result<(usize, u32), DelayFault> {
    let table = read(alloc, text)?;
    Ok(usual(&table))
}

#[test]
fn reports_the_usual_class(rt: HostRuntime) {
    assert_eq!(rt; usual_in(rt.alloc(), CLASSES), Ok((2, 300)));
}

fn copied(alloc: Global, table: &DelayTable) -> Result<List<List<Outcome>>, Fail> {
    Ok(table.classes(alloc)?)
}

/// Copies of the classes of a text.
fn classes_in(alloc: Global, text: &[u8]) -> Result<List<List<Outcome>>, Fail> {
    let table = read(alloc, text)?;
    copied(alloc, &table)
}

/// The outcomes of a class, where there is one of this number.
fn outcomes_at(classes: &List<List<Outcome>>, class: usize) -> Option<&[Outcome]> {
    match classes.as_slice().get(class) {
        Some(row) => Some(row.as_slice()),
        None => None,
    }
}

/// The outcomes of the last class.
const LAST: [Outcome; 2] = [
    Outcome {
        delay: 0,
        weight: 4000,
    },
    Outcome {
        delay: 120,
        weight: 6000,
    },
];

#[test]
fn copies_classes(rt: HostRuntime) -> Result<(), Fail> {
    let classes = classes_in(rt.alloc(), CLASSES)?;
    assert_eq!(rt;
        (classes.len(), outcomes_at(&classes, 2)),
        (3, Some(LAST.as_slice()))
    );
    Ok(())
}

/// The class of an arrival.
fn class_for(table: &DelayTable, class: ClassName, route: Option<&str>, arrival: u64) -> ClassId {
    table.class_for(class, route, Moment(arrival))
}

/// The class of a group, by the delays of its rows.
fn delays_at(table: &DelayTable, class: ClassName, route: Option<&str>, arrival: u64) -> u32 {
    let class = table.class_for(class, route, Moment(arrival));
    table.greatest(class)
}

/// Delays for route types, a route and an hour.
const GROUPS: &[u8] =
    b"hour,class,delay,weight,route_id\n,*,1,10000,\n,3,2,10000,\n9,*,3,10000,\n9,3,4,10000,\n,*,5,10000,T1\n9,*,6,10000,T1\n";

const NINE: u64 = 9 * 3_600;

const DAY: u64 = 86_400;

const BY_ROUTE: &[u8] = b"class,delay,weight,route_id\n*,1,10000,\n*,5,10000,T1\n";

const BY_HOUR: &[u8] = b"class,delay,weight,hour\n*,1,10000,\n*,2,10000,1\n";

/// Ten minutes past one at night.
const PAST_MIDNIGHT: u64 = 25 * 3_600 + 600;

/// Texts with both columns and with either alone, who arrives when, and the delay.
const ARRIVALS: [(&[u8], ClassName, Option<&str>, u64, u32); 15] = [
    (GROUPS, ClassName::Route(3), Some("T1"), NINE, 6),
    (GROUPS, ClassName::Route(3), Some("T1"), NINE + DAY, 6),
    (GROUPS, ClassName::Route(3), Some("T1"), NINE - 1, 5),
    (GROUPS, ClassName::Route(3), Some("T2"), NINE + 3_599, 4),
    (GROUPS, ClassName::Route(3), Some("T2"), NINE + 3_600, 2),
    (GROUPS, ClassName::Route(3), None, NINE, 4),
    (GROUPS, ClassName::Route(0), None, NINE, 3),
    (GROUPS, ClassName::Route(0), None, DAY, 1),
    (GROUPS, ClassName::Any, Some("T2"), NINE, 3),
    (GROUPS, ClassName::Any, None, 0, 1),
    (BY_ROUTE, ClassName::Route(3), Some("T1"), 0, 5),
    (BY_ROUTE, ClassName::Route(3), Some("T2"), 0, 1),
    (BY_ROUTE, ClassName::Route(3), None, 0, 1),
    (BY_HOUR, ClassName::Route(3), Some("T1"), PAST_MIDNIGHT, 2),
    (BY_HOUR, ClassName::Route(3), None, PAST_MIDNIGHT + 3_600, 1),
];

/// The delay of an arrival by the delays of a text.
fn delay_in(
    alloc: Global,
    text: &[u8],
    class: ClassName,
    route: Option<&str>,
    arrival: u64,
) -> Result<u32, DelayFault> {
    let table = read(alloc, text)?;
    Ok(delays_at(&table, class, route, arrival))
}

#[test]
fn finds_groups_by_route_and_hour(rt: HostRuntime) {
    for (text, class, route, arrival, delay) in ARRIVALS {
        assert_eq!(rt;
            delay_in(rt.alloc(), text, class, route, arrival),
            Ok(delay),
            "{route:?} {arrival}"
        );
    }
}

/// The class of a route type, and that of the hour from nine on.
fn groups_in(alloc: Global, text: &[u8]) -> Result<(ClassId, ClassId), DelayFault> {
    let table = read(alloc, text)?;
    let by_hour = class_for(&table, ClassName::Any, None, NINE);
    Ok((class_of(&table, 3), by_hour))
}

#[test]
fn numbers_groups(rt: HostRuntime) {
    assert_eq!(rt; groups_in(rt.alloc(), GROUPS), Ok((ClassId(1), ClassId(2))));
}

/// A row by its start and its end.
fn line_of(alloc: Global, start: &str, delay: u32, end: &str) -> Result<String, Fail> {
    Ok(format!(in alloc; "{start},{delay},1{end}\n")?)
}

/// A file with this many rows of a class or a route.
fn with_rows(
    alloc: Global,
    head: &[u8],
    start: &str,
    end: &str,
    count: u32,
) -> Result<Vec<u8>, Fail> {
    let mut text = Vec::from_slice(alloc, head)?;
    for delay in 0..count {
        let line = line_of(alloc, start, delay, end)?;
        text.extend_from_slice(line.as_bytes())?;
    }
    Ok(text)
}

const ROUTE_HEAD: &[u8] = b"class,delay,weight,route_id\n*,0,10000,\n";

const CLASS_HEAD: &[u8] = b"class,delay,weight\n";

#[test]
fn sixty_five_rows(rt: HostRuntime) -> Result<(), Fail> {
    for (head, start, end, count, fault) in [
        (ROUTE_HEAD, "*", ",T1", 64, DelayFault::GroupSum(3, 64)),
        (ROUTE_HEAD, "*", ",T1", 65, DelayFault::GroupRows(67)),
        (
            CLASS_HEAD,
            "3",
            "",
            65,
            DelayFault::TooManyRows(ClassName::Route(3)),
        ),
    ] {
        let text = with_rows(rt.alloc(), head, start, end, count)?;
        assert_eq!(rt; fault_of(rt.alloc(), text.as_slice()), Some(fault));
    }
    Ok(())
}

/// Texts with their first fault.
const FAULTS: [(&str, DelayFault); 16] = [
    (
        "class,delay\n*,0\n",
        DelayFault::MissingColumn(Column::Weight),
    ),
    (
        "class,delay,weight\n*,86401,1\n*,0,0\n",
        DelayFault::BadField(2),
    ),
    ("class,delay,weight\n65535,0,1\n", DelayFault::BadField(2)),
    (
        "class,delay,weight\n*,0,8000\n*,300,1500\n*,300,500\n*,x,500\n",
        DelayFault::NotRising(4),
    ),
    (
        "class,delay,weight\n*,0,8000\n*,300,1500\n*,900,499\n",
        DelayFault::WeightSum(ClassName::Any, 9999),
    ),
    (
        "class,delay,weight\n5,0,1\n2,0,1\n*,0,2\n",
        DelayFault::WeightSum(ClassName::Any, 2),
    ),
    (
        "class,delay,weight\n5,0,1\n2,0,1\n*,0,10000\n",
        DelayFault::WeightSum(ClassName::Route(2), 1),
    ),
    ("class,delay,weight\n3,0,10000\n", DelayFault::NoDefault),
    (
        "class,delay,weight,hour\n*,0,10000,3\n",
        DelayFault::NoDefault,
    ),
    (
        "class,delay,weight,hour\n*,0,8000,\n*,300,1500,\n*,900,500,\n*,0,9000,9\n",
        DelayFault::GroupSum(5, 9000),
    ),
    (
        "class,delay,weight,route_id\n*,0,8000,\n*,300,1500,\n*,900,500,\n3,0,10000,T1\n",
        DelayFault::BadField(5),
    ),
    (
        "class,delay,weight,hour\n*,0,10000,24\n",
        DelayFault::BadField(2),
    ),
    (
        "class,delay,weight,hour\n*,5,1,\n*,0,1,9\n*,7,1,\n*,0,1,9\n",
        DelayFault::NotRising(5),
    ),
    (
        "class,delay,weight,hour\n*,0,1,9\n3,0,1,\n",
        DelayFault::WeightSum(ClassName::Route(3), 1),
    ),
    (
        "class,delay,weight,hour\n*,0,10000,\n*,0,2,9\n*,0,1,8\n",
        DelayFault::GroupSum(3, 2),
    ),
    (
        "class,delay,weight,hour\n*,0,1,9\n",
        DelayFault::GroupSum(2, 1),
    ),
];

#[test]
fn first_fault(rt: HostRuntime) {
    for (text, fault) in FAULTS {
        let found = fault_of(rt.alloc(), text.as_bytes());
        assert_eq!(rt; found, Some(fault), "{text}");
    }
}
