use crate::makers::{columns, name, settings};
use std::alloc::Global;
use std::process::Abort;
use svc_values::{
    Column, Kind, ListFault, Names, Row, Schema, SchemaFault, Schemas, Settings, Value, schema_of,
};

#[test]
fn a_row_takes_eight_values(rt: HostRuntime) {
    let mut row = Row::new(rt.alloc());
    for number in 0..8 {
        row.push(Value::Int(number)).expect(&rt, "a value");
    }
    assert_eq!(rt; row.push(Value::Int(8)), Err(ListFault::TooMany));
    assert!(rt; row.get(7) == Some(&Value::Int(7)));
    assert!(rt; row.get(8).is_none());
}

#[test]
fn a_table_takes_eight_columns(rt: HostRuntime) {
    let mut columns = columns(&rt, rt.alloc(), &["a", "b", "c", "d", "e", "f", "g", "h"]);
    let name = name(&rt, rt.alloc(), "i");
    let kind = Kind::Int;
    assert_eq!(rt;
        columns.push(Column { name, kind }),
        Err(ListFault::TooMany)
    );
}

/// The table `t` with columns of these names.
fn table(rt: &impl Abort, alloc: Global, names: &[&str]) -> Result<Schema, SchemaFault> {
    Schema::new(name(rt, alloc, "t"), columns(rt, alloc, names))
}

/// Whether there is room for one more table.
fn takes_table(rt: &impl Abort, alloc: Global, schemas: &mut Schemas) -> bool {
    let table = table(rt, alloc, &["a"]).expect(rt, "a table");
    schemas.push(table).is_ok()
}

/// Whether a table has this name.
fn has_table(rt: &impl Abort, alloc: Global, schemas: &Schemas, text: &str) -> bool {
    schema_of(schemas.as_slice(), &name(rt, alloc, text)).is_some()
}

#[test]
fn a_service_takes_32_tables(rt: HostRuntime) {
    let mut schemas = Schemas::new(rt.alloc());
    for at in 0..33 {
        assert_eq!(rt; takes_table(&rt, rt.alloc(), &mut schemas), at < 32);
    }
    assert!(rt; has_table(&rt, rt.alloc(), &schemas, "t"));
    assert!(rt; !has_table(&rt, rt.alloc(), &schemas, "u"));
}

#[test]
fn a_service_takes_32_names(rt: HostRuntime) {
    let mut names = Names::new(rt.alloc());
    for at in 0..33 {
        assert_eq!(rt; names.push(name(&rt, rt.alloc(), "s")).is_ok(), at < 32);
    }
}

#[test]
fn tables_have_columns_of_different_names(rt: HostRuntime) {
    let none = table(&rt, rt.alloc(), &[]);
    assert!(rt; matches!(none, Err(SchemaFault::Empty)));
    let twice = table(&rt, rt.alloc(), &["a", "b", "a"]);
    assert!(rt; matches!(twice, Err(SchemaFault::SameName)));
}

/// Whether a name may be put behind all that are set.
fn can_be_last(rt: &impl Abort, alloc: Global, settings: &Settings, text: &str) -> bool {
    settings.can_put_last(&name(rt, alloc, text))
}

/// Whether a name has this value.
fn has(rt: &impl Abort, alloc: Global, settings: &Settings, text: &str, number: i64) -> bool {
    match settings.get(&name(rt, alloc, text)) {
        Some(value) => *value == Value::Int(number),
        None => false,
    }
}

#[test]
fn settings_are_a_map_in_order_of_name(rt: HostRuntime) {
    let settings = settings(&rt, rt.alloc(), &[("b", 1), ("a", 2), ("b", 3)]);
    assert_eq!(rt; settings.len(), 2);
    assert!(rt; has(&rt, rt.alloc(), &settings, "b", 3));
    assert!(rt; settings.get(&name(&rt, rt.alloc(), "c")).is_none());
    assert!(rt; !can_be_last(&rt, rt.alloc(), &settings, "b"));
    assert!(rt; can_be_last(&rt, rt.alloc(), &settings, "c"));
}
