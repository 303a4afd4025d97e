//! Queries that are read, of many parts.

use crate::fixtures::{NO_MEMORY, assert_text};
use plan_json::error::JsonError;
use plan_json::read::read_query;
use std::alloc::Global;
use std::process::Abort;

// So many items are in a long list.
const MANY: usize = 300_000;

// A select of the text's items, over the empty table.
fn select_of(rt: &impl Abort, alloc: Global, items: &str) -> String {
    let text = format!(in alloc;
        "{{\"tables\":[],\"plan\":{{\"select\":[{{\"empty\":[]}},[{items}]]}}}}"
    );
    text.expect(rt, NO_MEMORY)
}

// The text so many times, and then the other.
fn repeated(rt: &impl Abort, alloc: Global, text: &str, times: usize, last: &str) -> String {
    let mut all = text.repeat(alloc, times).expect(rt, NO_MEMORY);
    all.push_str(last).expect(rt, NO_MEMORY);
    all
}

fn assert_read(rt: &impl Abort, alloc: Global, text: &str) {
    let answer = read_query(alloc, text.as_bytes());
    assert!(rt; answer.is_ok());
    drop(answer);
}

// Reads a list of many items between two texts, in a select.
fn assert_long(rt: &impl Abort, alloc: Global, front: &str, item: &str, back: &str) {
    let each = format!(in alloc; "{item},").expect(rt, NO_MEMORY);
    let items = repeated(rt, alloc, each.as_str(), MANY - 1, item);
    let list = format!(in alloc; "{front}{items}{back}").expect(rt, NO_MEMORY);
    let text = select_of(rt, alloc, list.as_str());
    assert_read(rt, alloc, text.as_str());
}

// Many items between two texts, of which each is a number between two others.
fn numbered(
    rt: &impl Abort,
    alloc: Global,
    front: &str,
    before: &str,
    behind: &str,
    back: &str,
) -> String {
    let mut text = String::from_str(alloc, front).expect(rt, NO_MEMORY);
    for number in 1..MANY {
        let item = format!(in alloc; "{before}{number}{behind},").expect(rt, NO_MEMORY);
        text.push_str(item.as_str()).expect(rt, NO_MEMORY);
    }
    let last = format!(in alloc; "{before}0{behind}{back}").expect(rt, NO_MEMORY);
    text.push_str(last.as_str()).expect(rt, NO_MEMORY);
    text
}

fn assert_shape_at(rt: &impl Abort, alloc: Global, text: &str, pointer: &str) {
    let answer = read_query(alloc, text.as_bytes());
    match &answer {
        Err(JsonError::Shape { path }) => assert_text(rt, path.as_str(), pointer),
        _ => panic!(rt; "the query is at fault there"),
    }
    drop(answer);
}

#[test]
fn queries_of_many_expressions_are_read(rt: HostRuntime) {
    let items = repeated(
        &rt,
        rt.alloc(),
        "{\"len\":null},",
        999_999,
        "{\"len\":null}",
    );
    let text = select_of(&rt, rt.alloc(), items.as_str());
    assert_read(&rt, rt.alloc(), text.as_str());
}

#[test]
fn the_last_of_many_items_is_found_at_fault(rt: HostRuntime) {
    let items = repeated(&rt, rt.alloc(), "{\"len\":null},", 99_999, "{\"len\":1}");
    let text = select_of(&rt, rt.alloc(), items.as_str());
    assert_shape_at(&rt, rt.alloc(), text.as_str(), "/plan/select/1/99999/len");
}

#[test]
fn long_lists_of_each_kind_are_read(rt: HostRuntime) {
    let alloc = rt.alloc();
    assert_long(&rt, alloc, "{\"cols\":[", "\"a\"", "]}");
    assert_long(&rt, alloc, "{\"dtypes\":[", "\"Int8\"", "]}");
    assert_long(&rt, alloc, "{\"at\":[", "-1", "]}");
    assert_long(
        &rt,
        alloc,
        "{\"exclude\":[{\"all\":null},[",
        "{\"name\":\"a\"}",
        "]]}",
    );
    assert_long(
        &rt,
        alloc,
        "{\"sort_by\":[{\"len\":null},[{\"len\":null}],[true],[",
        "false",
        "]]}",
    );
    assert_long(
        &rt,
        alloc,
        "{\"cast\":[{\"len\":null},{\"Struct\":[",
        "[\"a\",\"Int8\"]",
        "]},\"Strict\"]}",
    );
    assert_long(
        &rt,
        alloc,
        "{\"fn\":[\"AllHorizontal\",[",
        "{\"len\":null}",
        "]]}",
    );
}

#[test]
fn many_tables_columns_and_selectors_are_read(rt: HostRuntime) {
    let tables = numbered(
        &rt,
        rt.alloc(),
        "{\"tables\":[",
        "{\"name\":\"t",
        "\",\"columns\":[]}",
        "],\"plan\":{\"scan\":\"t0\"}}",
    );
    assert_read(&rt, rt.alloc(), tables.as_str());
    let columns = numbered(
        &rt,
        rt.alloc(),
        "{\"tables\":[],\"plan\":{\"empty\":[",
        "[\"c",
        "\",\"Int8\"]",
        "]}}",
    );
    assert_read(&rt, rt.alloc(), columns.as_str());
    let selectors = numbered(
        &rt,
        rt.alloc(),
        "{\"tables\":[],\"plan\":{\"drop\":[{\"empty\":[]},[",
        "{\"root\":{\"col\":\"c",
        "\"}}",
        "],false]}}",
    );
    assert_read(&rt, rt.alloc(), selectors.as_str());
}
