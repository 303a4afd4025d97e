//! What is told of each refusal.

use crate::fixtures::{LENGTHS, NO_MEMORY, assert_text, long_name};
use plan_json::error::JsonError;
use plan_types::error::{CastError, ErrorKind, Place, PlanError};
use plan_types::frame::FrameError;
use std::alloc::Global;
use std::process::Abort;

// The place to which steps lead that count from 0.
fn place_of(rt: &impl Abort, alloc: Global, depth: usize) -> Place {
    let mut place = Place::top();
    for number in (0..depth).rev() {
        place = place.below(alloc, number as u64).expect(rt, NO_MEMORY);
    }
    place
}

fn assert_told(rt: &impl Abort, alloc: Global, kind: ErrorKind, depth: usize, want: &str) {
    let place = place_of(rt, alloc, depth);
    let error = PlanError { kind, place };
    let text = error.to_string(alloc).expect(rt, NO_MEMORY);
    assert_text(rt, text.as_str(), want);
    drop(error);
}

#[test]
fn refusals_are_told_by_kind_and_place(rt: HostRuntime) {
    for (kind, depth, want) in &[
        (ErrorKind::ColumnNotFound, 0, "ColumnNotFound at ."),
        (ErrorKind::Duplicate, 1, "Duplicate at .0"),
        (ErrorKind::SchemaMismatch, 2, "SchemaMismatch at .0.1"),
        (
            ErrorKind::InvalidOperation,
            13,
            "InvalidOperation at .0.1.2.3.4.5.6.7.8.9.10.11.12",
        ),
        (ErrorKind::NoMemory, 0, "NoMemory at ."),
    ] {
        assert_told(&rt, rt.alloc(), *kind, *depth, want);
    }
}

// A dot and its number for each of so many steps that count from 0.
fn steps_text(rt: &impl Abort, alloc: Global, depth: usize) -> String {
    let mut text = String::new(alloc);
    for number in 0..depth {
        let step = format!(in alloc; ".{number}").expect(rt, NO_MEMORY);
        text.push_str(step.as_str()).expect(rt, NO_MEMORY);
    }
    text
}

#[test]
fn each_step_of_a_deep_place_is_told(rt: HostRuntime) {
    let place = place_of(&rt, rt.alloc(), 2_000);
    let text = place.to_string(rt.alloc()).expect(&rt, NO_MEMORY);
    let want = steps_text(&rt, rt.alloc(), 2_000);
    assert_text(&rt, text.as_str(), want.as_str());
}

#[test]
fn the_greatest_step_is_told(rt: HostRuntime) {
    let place = Place::top().below(rt.alloc(), u64::MAX);
    let text = place.expect(&rt, NO_MEMORY).to_string(rt.alloc());
    assert_text(
        &rt,
        text.expect(&rt, NO_MEMORY).as_str(),
        ".18446744073709551615",
    );
}

// A name of so many bytes is written as it is, and in a refusal.
fn assert_written(rt: &impl Abort, alloc: Global, length: usize) {
    let want = "n".repeat(alloc, length).expect(rt, NO_MEMORY);
    let name = long_name(rt, alloc, length);
    let text = name.to_string(alloc).expect(rt, NO_MEMORY);
    assert_text(rt, text.as_str(), want.as_str());
    let error = FrameError::Duplicate { name };
    let text = error.to_string(alloc).expect(rt, NO_MEMORY);
    let want = format!(in alloc; "two columns are named \"{want}\"").expect(rt, NO_MEMORY);
    assert_text(rt, text.as_str(), want.as_str());
    drop(error);
}

#[test]
fn names_of_any_length_are_told(rt: HostRuntime) {
    for length in LENGTHS {
        assert_written(&rt, rt.alloc(), length);
    }
}

fn assert_frame_told(rt: &impl Abort, alloc: Global, error: FrameError, want: &str) {
    let text = error.to_string(alloc).expect(rt, NO_MEMORY);
    assert_text(rt, text.as_str(), want);
    drop(error);
}

#[test]
fn faults_of_frames_are_told(rt: HostRuntime) {
    let error = FrameError::Length {
        name: long_name(&rt, rt.alloc(), 2),
        found: 200,
        wanted: 3,
    };
    let want = "column \"nn\" has 200 values in place of 3";
    assert_frame_told(&rt, rt.alloc(), error, want);
    let error = FrameError::Misfit {
        name: long_name(&rt, rt.alloc(), 1),
        row: 4_000_000_000,
    };
    let want = "the value of column \"n\" in row 4000000000 doesn't fit its type";
    assert_frame_told(&rt, rt.alloc(), error, want);
    assert_frame_told(&rt, rt.alloc(), FrameError::NoMemory, "no memory");
}

fn assert_cast_told(rt: &impl Abort, alloc: Global, error: CastError, want: &str) {
    let text = error.to_string(alloc).expect(rt, NO_MEMORY);
    assert_text(rt, text.as_str(), want);
    drop(error);
}

#[test]
fn failing_casts_are_told(rt: HostRuntime) {
    let failing = "the value has no place in the type that it is cast to";
    assert_cast_told(&rt, rt.alloc(), CastError::Failing, failing);
    assert_cast_told(&rt, rt.alloc(), CastError::NoMemory, "no memory");
}

fn assert_json_told(rt: &impl Abort, alloc: Global, error: JsonError, want: &str) {
    let text = error.to_string(alloc).expect(rt, NO_MEMORY);
    assert_text(rt, text.as_str(), want);
    drop(error);
}

// A fault's path, of so many keys.
fn path_of(rt: &impl Abort, alloc: Global, keys: usize) -> String {
    "/a~1b".repeat(alloc, keys).expect(rt, NO_MEMORY)
}

#[test]
fn faults_of_queries_are_told_by_kind_and_path(rt: HostRuntime) {
    let alloc = rt.alloc();
    for keys in [0, 1, 2, 100_000] {
        let path = path_of(&rt, alloc, keys);
        let want = format!(in alloc; "Shape {path}").expect(&rt, NO_MEMORY);
        assert_json_told(&rt, alloc, JsonError::Shape { path }, want.as_str());
        let path = path_of(&rt, alloc, keys);
        let want = format!(in alloc; "Float {path}").expect(&rt, NO_MEMORY);
        assert_json_told(&rt, alloc, JsonError::Float { path }, want.as_str());
        let path = path_of(&rt, alloc, keys);
        let want = format!(in alloc; "Name {path}").expect(&rt, NO_MEMORY);
        assert_json_told(&rt, alloc, JsonError::Name { path }, want.as_str());
    }
    assert_json_told(&rt, alloc, JsonError::NotJson, "NotJson");
    assert_json_told(&rt, alloc, JsonError::NoMemory, "NoMemory");
}
