//! Bytes that are no text, which no scenario holds (RFC 8259 section 8.1), and the text that a statement is written as.

use crate::tree::holds;
use nm_yang::{YangFault, YangKind, read_module, write_module};
use std::alloc::Global;
use std::process::Abort;

// Bytes that aren't UTF-8, met where they stand (RFC 3629).
const BYTES: [(&[u8], YangKind, u32); 7] = [
    (b"\xff", YangKind::NotUtf8, 0),
    (b"module m { a \xc3; }", YangKind::NotUtf8, 13),
    (b"module m; \xff", YangKind::NotUtf8, 10),
    (b"modul\xff", YangKind::NotUtf8, 5),
    (b"module m { a 'b\xff'; }", YangKind::NotUtf8, 15),
    (b"$ \xff", YangKind::BadKeyword, 0),
    (b"module m { a \"b\xed\xa0\x80", YangKind::NotUtf8, 15),
];

fn is_fault(alloc: Global, bytes: &[u8], wanted: YangKind, at: u32) -> bool {
    match read_module(alloc, bytes).err() {
        Some(YangFault::Bad { place, kind }) => kind == wanted && place == at,
        _ => false,
    }
}

#[test]
fn reads_bytes(rt: HostRuntime) {
    let alloc = rt.alloc();
    for (bytes, kind, place) in &BYTES {
        assert!(rt; is_fault(alloc, bytes, *kind, *place));
    }
}

// A text, and what its statement is written as: its arguments in double quotes (RFC 7950 section 6.1.3).
const WRITTEN: [(&str, &str); 4] = [
    ("module m;", "module \"m\";"),
    (
        "module m { description 'a' + \"b\\n\" + 'c'; }",
        "module \"m\" { description \"ab\\nc\"; }",
    ),
    (
        "module m { a '\t\\\"'; b { c; } }",
        "module \"m\" { a \"\\t\\\\\\\"\"; b { c; } }",
    ),
    ("module { x:y +; }", "module { x:y \"+\"; }"),
];

fn is_written(rt: &impl Abort, alloc: Global, text: &str, wanted: &str) -> bool {
    let module = read_module(alloc, text.as_bytes())
        .ok()
        .expect(rt, "a module");
    let written = write_module(alloc, &module).expect(rt, "memory");
    drop(module);
    let is_so = written.as_slice() == wanted.as_bytes();
    drop(written);
    is_so
}

#[test]
fn writes(rt: HostRuntime) {
    let alloc = rt.alloc();
    for (text, wanted) in &WRITTEN {
        holds(&rt, is_written(&rt, alloc, text, wanted), wanted);
    }
}
