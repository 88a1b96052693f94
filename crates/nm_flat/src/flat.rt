//! Flat contents: numbered cells with one rule. Managers and devices are proved and tried with them, without YANG.

ghost use Rattle.std.specs.Prelude.{◌≡◌, ◌≤◌, ◌++◌, not, map as list_map, decimal, codes, find, IfOk, OnOk, true, nat_lt};
ghost use Rattle.std.specs.List.{flat_map, join_with_byte};
ghost use Rattle.std.specs.Option.{option_map};
ghost use Rattle.std.specs.FinMap as map;
ghost use Rattle.nm_proto.specs.Content.{Applies, Finds, is_taken};
ghost use Rattle.nm_flat.specs.Flat.{FlatState, MarksInRange, all_changed, cells_edited, least_absent, marked, cell_text, node_at, same_cell, has_marks_of};

use crate::number_map::NumberMap;
use itoa::Buffer;
use nm_base::{ChangeNo, Label, NoMemory, Tag, read_decimal, write_decimal};
use nm_proto::content::{ApplyFault, CheckFault, Content, FindFault, Show};
use nm_proto::message::{DefaultOperation, Marks};
use std::alloc::Global;
use std::marker::Model;

/// The greatest value of a cell in a valid configuration. It gives flat contents a rule to violate.
pub const GREATEST_VALUE: u64 = 1_000_000;

/// Contents of numbered cells, so that managers and devices can be used without YANG.
#[derive(Clone, Copy)]
pub struct FlatContent {
    alloc: Global,
}

impl FlatContent {
    /// The content. Its configurations are made with this allocator.
    pub fn new(alloc: Global) -> FlatContent {
        FlatContent { alloc }
    }
}

/// A flat configuration: numbered cells, and the marks of change sets.
#[derive(Drop)]
pub struct FlatConfig {
    cells: NumberMap<u64>,
    marks: NumberMap<()>,
}

impl Model for FlatConfig {
    ghost use Rattle.nm_flat.specs.Flat.{FlatState, flat_code, MarksInRange};

    ghost Value = { FlatState };

    ghost coded = { flat_code };

    ghost view = { λ c. record { cells = c.cells; marks = c.marks } };

    ghost invariant = { λ c. MarksInRange c.marks };
}

impl FlatConfig {
    /// The configuration of some cells, without marks. It takes no memory.
    pub fn new(alloc: Global, cells: NumberMap<u64>) -> FlatConfig
        ensures cells { result.cells ≡ cells }
        ensures marks { result.marks ≡ map.empty }
    {
        FlatConfig {
            cells,
            marks: NumberMap::new(alloc),
        }
    }

    /// The cells.
    pub fn cells(&self) -> &NumberMap<u64>
        ensures { result.now ≡ self.now.cells }
    {
        &self.cells
    }

    /// The numbers of the change sets whose marks are there.
    pub fn marks(&self) -> &NumberMap<()>
        ensures value { result.now ≡ self.now.marks }
        ensures in_range { MarksInRange self.now.marks }
    {
        &self.marks
    }
}

/// A flat edit: for each key that it names a new value, or None to take the cell away.
#[derive(Drop)]
pub struct FlatEdit {
    pub changes: NumberMap<Option<u64>>,
}

/// A node of flat contents: one key.
#[derive(Clone, Copy, PartialEq, Eq)]
pub struct FlatNode(pub u32);

impl Content for FlatContent {
    ghost use Rattle.nm_flat.specs.FlatContent.{flat_meaning, flat_laws};

    type Config = FlatConfig;

    type Edit = FlatEdit;

    type Node = FlatNode;

    ghost meaning = { λ _. flat_meaning };

    ghost laws = { λ _. flat_laws };

    fn copy(&self, config: &FlatConfig) -> Result<FlatConfig, NoMemory> {
        Ok(FlatConfig {
            cells: config.cells.copy()?,
            marks: config.marks.copy()?,
        })
    }

    fn apply(
        &self,
        config: &FlatConfig,
        edit: &FlatEdit,
        default_operation: DefaultOperation,
        marks: Option<Marks>,
    ) -> Result<FlatConfig, ApplyFault> {
        let cells = edit_cells(self.alloc, &config.cells, &edit.changes, default_operation)?;
        let marks = mark(&config.marks, marks)?;
        Ok(FlatConfig { cells, marks })
    }

    fn check(&self, config: &FlatConfig) -> Result<(), CheckFault> {
        match first_too_great(&config.cells) {
            Some(key) => Err(CheckFault::Violation {
                tag: Tag::InvalidValue,
                path: number_label(self.alloc, key)?,
            }),
            None => Ok(()),
        }
    }

    fn find(&self, text: &Label) -> Result<FlatNode, FindFault> {
        match read_decimal(text.as_str().as_bytes()) {
            Some(key) => node_at(key),
            None => Err(FindFault::BadPath),
        }
    }

    fn exists(&self, config: &FlatConfig, node: &FlatNode) -> bool {
        config.cells.contains(node.0)
    }

    fn overlaps(&self, one: &FlatNode, other: &FlatNode) -> bool {
        one.0 == other.0
    }

    fn same_at(&self, one: &FlatConfig, other: &FlatConfig, node: &FlatNode) -> bool {
        same_cell(one.cells.get(node.0), other.cells.get(node.0))
    }

    fn same_marks(&self, one: &FlatConfig, other: &FlatConfig) -> bool {
        has_marks_of(&other.marks, &one.marks) && has_marks_of(&one.marks, &other.marks)
    }

    fn has_mark(&self, config: &FlatConfig, change: ChangeNo) -> bool {
        config.marks.contains(change.get())
    }

    fn rows(&self, config: &FlatConfig) -> u32 {
        u32::try_from(config.cells.len()).unwrap_or(u32::MAX)
    }
}

impl Show for FlatContent {
    ghost use Rattle.nm_flat.specs.Flat.{flat_text};

    ghost shown = { λ _. flat_text };

    fn text(&self, config: &FlatConfig) -> Result<Vec<u8>, NoMemory> {
        let mut out = Vec::new(self.alloc);
        out.push(b'{')?;
        put_cells(&mut out, &config.cells)?;
        out.extend_from_slice(b"\"marks\":[")?;
        put_marks(&mut out, &config.marks)?;
        out.extend_from_slice(b"]}")?;
        Ok(out)
    }
}

// The node of a key, below 2^32.
fn node_at(key: u64) -> Result<FlatNode, FindFault>
    ensures { Finds result (node_at (Some key)) }
{
    match u32::try_from(key) {
        Ok(key) => Ok(FlatNode(key)),
        Err(_) => Err(FindFault::BadPath),
    }
}

fn same_cell(one: Option<u64>, other: Option<u64>) -> bool
    ensures { result ≡ same_cell one other }
{
    match (one, other) {
        (None, None) => true,
        (Some(value), Some(other)) => value == other,
        _ => false,
    }
}

// Whether each mark of the one is a mark of the other.
fn has_marks_of(other: &NumberMap<()>, one: &NumberMap<()>) -> bool
    ensures { result ≡ has_marks_of other.now one.now }
{
    for (mark, ()) in one.iter() {
        if !other.contains(*mark) {
            return false;
        }
    }
    true
}

// The cells after an edit.
fn edit_cells(
    alloc: Global,
    cells: &NumberMap<u64>,
    edit: &NumberMap<Option<u64>>,
    default_operation: DefaultOperation,
) -> Result<NumberMap<u64>, ApplyFault>
    ensures { Applies result (cells_edited cells.now edit.now default_operation) }
{
    match default_operation {
        DefaultOperation::Merge => Ok(change_all(cells.copy()?, edit)?),
        DefaultOperation::Replace => Ok(change_all(NumberMap::new(alloc), edit)?),
        DefaultOperation::Nothing => match first_absent(cells, edit) {
            Some(key) => Err(ApplyFault::Refused {
                tag: Tag::DataMissing,
                path: number_label(alloc, key)?,
            }),
            None => Ok(cells.copy()?),
        },
    }
}

// Does to the cells what the edit says of each key.
fn change_all(
    mut cells: NumberMap<u64>,
    edit: &NumberMap<Option<u64>>,
) -> Result<NumberMap<u64>, NoMemory>
    ensures { IfOk result (λ changed. changed ≡ all_changed cells (map.entries edit.now)) }
{
    for (key, change) in edit.iter() {
        match *change {
            Some(value) => {
                cells.insert(*key, value)?;
            }
            None => {
                cells.remove(*key);
            }
        }
    }
    Ok(cells)
}

// The least key that the edit names and the cells lack.
fn first_absent(cells: &NumberMap<u64>, edit: &NumberMap<Option<u64>>) -> Option<u32>
    ensures { result ≡ least_absent cells.now edit.now }
{
    for (key, _) in edit.iter() {
        if !cells.contains(*key) {
            return Some(*key);
        }
    }
    None
}

// The least key whose value is above the greatest.
fn first_too_great(cells: &NumberMap<u64>) -> Option<u32>
    ensures { result ≡ option_map (λ e. e.0) (find (λ e. nat_lt 1000000 e.1) (map.entries cells.now)) }
{
    for (key, value) in cells.iter() {
        if *value > GREATEST_VALUE {
            return Some(*key);
        }
    }
    None
}

// The marks after an edit.
fn mark(old: &NumberMap<()>, marks: Option<Marks>) -> Result<NumberMap<()>, NoMemory>
    requires { MarksInRange old.now }
    ensures value { IfOk result (λ new. new ≡ marked old.now marks) }
    ensures in_range { IfOk result MarksInRange }
{
    let mut new = old.copy()?;
    let Some(marks) = marks else {
        return Ok(new);
    };
    take_marks(&mut new, &marks);
    let add = marks.add.get();
    new.insert(add, ())?;
    Ok(new)
}

// Takes away the marks of `remove`.
fn take_marks(all: &mut NumberMap<()>, marks: &Marks)
    requires { MarksInRange all.old }
    ensures { all.new ≡ map.retain_keys all.old (λ n. not (is_taken marks.now n)) }
{
    for number in 1..ChangeNo::LIMIT + 1 {
        if takes(marks, number) {
            all.remove(number);
        }
    }
}

// Whether the mark of a change set is one that goes.
fn takes(marks: &Marks, number: u32) -> bool
    requires low { 1 ≤ number }
    requires high { number ≤ 64 }
    ensures { result ≡ is_taken marks.now number }
{
    match ChangeNo::new(number) {
        Some(change) => marks.remove.contains(change),
        None => false,
    }
}

fn number_label(alloc: Global, number: u32) -> Result<Label, NoMemory>
    ensures { IfOk result (λ label. label ≡ decimal number) }
{
    let mut buffer = Buffer::new();
    Label::new(alloc, buffer.format(number))
}

fn put_cells(out: &mut Vec<u8>, cells: &NumberMap<u64>) -> Result<(), NoMemory>
    ensures { OnOk result (out.new.items ≡ out.old.items ++ flat_map cell_text (map.entries cells.now)) }
{
    for (key, value) in cells.iter() {
        put_cell(out, *key, *value)?;
    }
    Ok(())
}

fn put_cell(out: &mut Vec<u8>, key: u32, value: u64) -> Result<(), NoMemory>
    ensures { OnOk result (out.new.items ≡ out.old.items ++ cell_text (key, value)) }
{
    out.push(b'"')?;
    write_decimal(u64::from(key), out)?;
    out.extend_from_slice(b"\":")?;
    write_decimal(value, out)?;
    out.push(b',')?;
    Ok(())
}

fn put_marks(out: &mut Vec<u8>, marks: &NumberMap<()>) -> Result<(), NoMemory>
    ensures { OnOk result (out.new.items ≡ out.old.items ++ join_with_byte 44 (list_map decimal (map.keys marks.now))) }
{
    let mut rest = marks.iter();
    if let Some((first, ())) = rest.next() {
        write_decimal(u64::from(*first), out)?;
        for (mark, ()) in rest {
            out.push(b',')?;
            write_decimal(u64::from(*mark), out)?;
        }
    }
    Ok(())
}
