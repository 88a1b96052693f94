//! A file as a disk.

ghost use Rattle.std.specs.Prelude.{◌≡◌, ◌≤◌, ◌-◌, ◌<◌, length, IfOk, is_ok};
ghost use Rattle.nm_disk.specs.File.{after_call, file_state};

use crate::disk::Disk;
use nm_base::{Failed, Label, count_fault};
use std::fs::{Files, OpenFile, OpenOptions};
use std::io;
use std::io::{Read, Seek, SeekFrom, Write};
use std::marker::Model;
use std::path::Path;

/// A file as a disk. It tells nothing of its bytes, and counts the errors.
///
/// The file is opened at the first call. That it keeps what a sync brought onto it, and what a crash leaves of
/// the rest, is the system's.
#[derive(Drop)]
pub struct FileDisk<R: Files> {
    rt: R,
    path: Label,
    mode: Mode,
    file: Option<R::File>,
    faults: u64,
}

/// How a file is opened.
#[derive(Clone, Copy)]
enum Mode {
    /// To read and to write, and made where it is missing.
    Create,
    /// To read it as it is.
    ReadOnly,
}

impl<R: Files> Model for FileDisk<R> {
    ghost use Rattle.nm_disk.specs.File.{FileState};

    ghost Value = { FileState };

    ghost view = { λ disk. record { path = disk.path; faults = disk.faults } };
}

impl<R: Files + Drop + Send> FileDisk<R>
where
    R::File: Send,
{
    /// The file at a path, which is not opened yet, and is made where it is missing.
    pub fn at(rt: R, path: Label) -> FileDisk<R>
        ensures { result ≡ record { path = path; faults = 0 } }
    {
        FileDisk {
            rt,
            path,
            mode: Mode::Create,
            file: None,
            faults: 0,
        }
    }

    /// The file at a path, which is not opened yet, to be read alone. Where it is missing each call fails, and none
    /// makes it; each call that writes fails too.
    pub fn read_only(rt: R, path: Label) -> FileDisk<R>
        ensures { result ≡ record { path = path; faults = 0 } }
    {
        FileDisk {
            rt,
            path,
            mode: Mode::ReadOnly,
            file: None,
            faults: 0,
        }
    }
}

// Opens a file, once. Where it may be made its name is brought onto the disk too.
fn open<R: Files>(rt: &R, path: &str, mode: Mode, file: &mut Option<R::File>) -> io::Result<()> {
    if file.is_none() {
        let opened = match mode {
            Mode::Create => open_or_make(rt, path)?,
            Mode::ReadOnly => OpenOptions::new().read(true).open(rt, path)?,
        };
        *file = Some(opened);
    }
    Ok(())
}

// Opens a file, and makes it where it is missing.
fn open_or_make<R: Files>(rt: &R, path: &str) -> io::Result<R::File> {
    let opened = OpenOptions::new()
        .read(true)
        .write(true)
        .create(true)
        .open(rt, path)?;
    if let Some(folder) = Path::new(path).parent() {
        sync_folder(rt, folder)?;
    }
    Ok(opened)
}

// Brings the names in a folder onto the disk. An empty path is the folder in which the program runs.
fn sync_folder<R: Files>(rt: &R, folder: Path<'_>) -> io::Result<()> {
    let text = folder.as_str();
    let path = if text.is_empty() { "." } else { text };
    OpenOptions::new().read(true).open(rt, path)?.sync_all()
}

// Reads from a place on until the piece is full or the file ends.
fn fill<F: Read + Seek>(file: &mut F, at: u64, into: &mut [u8]) -> io::Result<usize>
    ensures { IfOk result (λ n. n ≤ length into.new) }
{
    file.seek(SeekFrom::Start(at))?;
    let mut done = 0;
    while done < into.len() {
        match file.read(&mut into[done..]) {
            Ok(0) => return Ok(done),
            Ok(count) => done += count,
            Err(error) => return Err(error),
        }
    }
    Ok(done)
}

// The length of a file.
fn length_of<R: Files>(
    rt: &R,
    path: &str,
    mode: Mode,
    file: &mut Option<R::File>,
) -> io::Result<u64> {
    open(rt, path, mode, file)?;
    match file {
        Some(file) => Ok(file.metadata()?.len()),
        None => Err(not_open()),
    }
}

// Reads from a file into a piece.
fn read_from<R: Files>(
    rt: &R,
    path: &str,
    mode: Mode,
    file: &mut Option<R::File>,
    at: u64,
    into: &mut [u8],
) -> io::Result<usize>
    ensures { IfOk result (λ n. n ≤ length into.new) }
{
    open(rt, path, mode, file)?;
    match file {
        Some(file) => fill(file, at, into),
        None => Err(not_open()),
    }
}

// Writes a piece into a file.
fn write_to<R: Files>(
    rt: &R,
    path: &str,
    mode: Mode,
    file: &mut Option<R::File>,
    at: u64,
    piece: &[u8],
) -> io::Result<()> {
    open(rt, path, mode, file)?;
    match file {
        Some(file) => {
            file.seek(SeekFrom::Start(at))?;
            file.write_all(piece)
        }
        None => Err(not_open()),
    }
}

// Cuts a file to a length.
fn cut_to<R: Files>(
    rt: &R,
    path: &str,
    mode: Mode,
    file: &mut Option<R::File>,
    to: u64,
) -> io::Result<()> {
    open(rt, path, mode, file)?;
    match file {
        Some(file) => file.set_len(to),
        None => Err(not_open()),
    }
}

// Brings a file's bytes and its length onto the disk.
fn sync_file<R: Files>(
    rt: &R,
    path: &str,
    mode: Mode,
    file: &mut Option<R::File>,
) -> io::Result<()> {
    open(rt, path, mode, file)?;
    match file {
        Some(file) => file.sync_data(),
        None => Err(not_open()),
    }
}

fn not_open() -> io::Error {
    io::Error::from(io::ErrorKind::NotFound)
}

impl<R: Files> Disk for FileDisk<R> {
    ghost state = { file_state };

    ghost as_read = { λ _ _ _. tt };

    ghost counts_now = { λ _ _ _ _ _. tt };

    ghost only_now = { λ _ _ _. tt };

    fn len(&mut self) -> Result<u64, Failed>
        ensures count { self.old.faults ≤ self.new.faults }
        ensures counted { self.new ≡ after_call self.old (is_ok result) }
    {
        match length_of(&self.rt, self.path.as_str(), self.mode, &mut self.file) {
            Ok(count) => Ok(count),
            Err(_) => Err(count_fault(&mut self.faults)),
        }
    }

    fn read(&mut self, at: u64, into: &mut [u8]) -> Result<usize, Failed>
        ensures within { IfOk result (λ n. n ≤ length into.new) }
        ensures count { self.old.faults ≤ self.new.faults }
        ensures counted { self.new ≡ after_call self.old (is_ok result) }
    {
        match read_from(
            &self.rt,
            self.path.as_str(),
            self.mode,
            &mut self.file,
            at,
            into,
        ) {
            Ok(count) => Ok(count),
            Err(_) => Err(count_fault(&mut self.faults)),
        }
    }

    fn write_at(&mut self, at: u64, piece: &[u8]) -> Result<(), Failed>
        ensures count { self.old.faults ≤ self.new.faults }
        ensures counted { self.new ≡ after_call self.old (is_ok result) }
    {
        match write_to(
            &self.rt,
            self.path.as_str(),
            self.mode,
            &mut self.file,
            at,
            piece,
        ) {
            Ok(()) => Ok(()),
            Err(_) => Err(count_fault(&mut self.faults)),
        }
    }

    fn cut(&mut self, to: u64) -> Result<(), Failed>
        ensures count { self.old.faults ≤ self.new.faults }
        ensures counted { self.new ≡ after_call self.old (is_ok result) }
    {
        match cut_to(&self.rt, self.path.as_str(), self.mode, &mut self.file, to) {
            Ok(()) => Ok(()),
            Err(_) => Err(count_fault(&mut self.faults)),
        }
    }

    fn sync(&mut self) -> Result<(), Failed>
        ensures count { self.old.faults ≤ self.new.faults }
        ensures counted { self.new ≡ after_call self.old (is_ok result) }
    {
        match sync_file(&self.rt, self.path.as_str(), self.mode, &mut self.file) {
            Ok(()) => Ok(()),
            Err(_) => Err(count_fault(&mut self.faults)),
        }
    }
}
