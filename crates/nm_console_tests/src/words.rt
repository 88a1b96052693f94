//! Words of the programs, the file that they name, and streams that tell nothing.

use nm_base::Label;
use nm_console::command::journal_path;
use nm_console::console::console;
use nm_console::status::Status;
use nm_disk::MemoryDisk;
use nm_io::{MemorySink, MemorySource, SureSink, SureSource};
use std::alloc::Global;
use std::test::Fail;

// Words as a program gets them, parted by blanks.
fn words_of(alloc: Global, text: &str) -> Result<Vec<String>, Fail> {
    let mut words = Vec::new(alloc);
    for word in text.split(' ') {
        words.push(String::from_str(alloc, word)?)?;
    }
    Ok(words)
}

// A change set over two devices, all of whose rounds are run.
const WHOLE: &str =
    r#"{"netm":1,"contents":"flat","devices":[{"running":{"7":1}},{"running":{"7":1}}],"changes":[{"edits":[{"device":1,"edit":{"7":2}},{"device":2,"edit":{"7":2}}]}],"events":[["submit",1],["round",1,18]]}"#;

// Its start with a timeout of 600 seconds, its commit and its end, and a closed gate.
static RECORDS: [u8; 49] = [
    1, 1, 0, 0, 0, 1, 0, 0, 0, 3, 2, 0, 0, 2, 88, 0, 1, 2, 0, 0, 0, 1, 1, 0, 0, 0, 2, 0, 0, 0, 0,
    0, 1, 3, 0, 0, 0, 1, 0, 0, 0, 3, 2, 0, 0, 0, 0, 0, 0,
];

fn replay(alloc: Global, journal: &mut MemoryDisk) -> Result<Status, Fail> {
    let words = words_of(alloc, "replay --journal file")?;
    let mut input = SureSource::new(Vec::from_slice(alloc, WHOLE.as_bytes())?);
    let mut output = SureSink::new();
    Ok(console(alloc, words.as_slice(), &mut input, &mut output, journal))
}

// Streams that tell nothing and never fail; and the bytes of a whole run.
#[test]
fn sure_streams(rt: HostRuntime) -> Result<(), Fail> {
    let mut journal = MemoryDisk::with_limit(rt.alloc(), 64, 16)?;
    let status = replay(rt.alloc(), &mut journal)?;
    assert!(rt; status == Status::Ok && status.code() == 0);
    assert!(rt; journal.bytes() == RECORDS.as_slice());
    Ok(())
}

// No words at all.
#[test]
fn no_words(rt: HostRuntime) -> Result<(), Fail> {
    let alloc = rt.alloc();
    let mut input = MemorySource::new(Vec::new(alloc), Vec::new(alloc));
    let mut output = MemorySink::new(alloc, 64, Vec::new(alloc))?;
    let mut journal = MemoryDisk::with_limit(alloc, 64, 16)?;
    let status = console(alloc, &[], &mut input, &mut output, &mut journal);
    assert!(rt; status == Status::Usage);
    assert!(rt;
        output.taken() == b"usage: netm check, replay, run, make, stress, journal\n".as_slice()
    );
    Ok(())
}

// Words of `netm_tell` that are none of its own.
#[test]
fn words_to_tell(rt: HostRuntime) -> Result<(), Fail> {
    let alloc = rt.alloc();
    let words = words_of(alloc, "check")?;
    let mut input = MemorySource::new(Vec::new(alloc), Vec::new(alloc));
    let mut output = MemorySink::new(alloc, 64, Vec::new(alloc))?;
    let status = nm_tell::tell(alloc, words.as_slice(), &mut input, &mut output);
    assert!(rt; status == nm_explain::Status::Usage);
    assert!(rt; output.taken() == b"usage: netm_tell explain\n".as_slice());
    Ok(())
}

// Words, and the path that they name.
static PATHS: &str = "
replay --journal f => f
replay --journal=f => f
replay --journal -f => none
replay => none
journal --journal f => f
journal --journal=f => f
journal --journal=-x => -x
journal --journal==x => =x
journal --journal -x => none
journal --journal= => none
journal --journal=a= => none
journal --journal a= => none
journal --journal  => none
journal => none
check --journal f => none
";

// Fails where words name another path.
fn names(alloc: Global, words: &[String], want: &str) -> Result<(), Fail> {
    let path = journal_path(alloc, words)?;
    if path.as_ref().map_or("none", Label::as_str) == want {
        return Ok(());
    }
    Err(Fail::new(want))
}

fn is_named(alloc: Global, row: &str) -> Result<(), Fail> {
    let (words, want) = row.split_once(" => ").ok_or("no row")?;
    let words = words_of(alloc, words)?;
    names(alloc, words.as_slice(), want)
}

#[test]
fn paths_are_named(rt: HostRuntime) -> Result<(), Fail> {
    for row in PATHS.lines().skip(1) {
        is_named(rt.alloc(), row)?;
    }
    names(rt.alloc(), &[], "none")
}
