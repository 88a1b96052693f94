//! The beginning of a run over three devices and one change set. Device 1 stands behind its lock, of device 2 there are
//! the phases that follow its history, and of device 3 there is its share of the board's ledger alone.

ghost use Rattle.std.specs.Prelude.{◌≡◌, ◌≤◌, ◌+◌, Some, ◌∷◌, [], length};
ghost use Rattle.nm_proto.specs.Fault.{IsPlan};

use crate::play::Row;
use nm_base::{ChangeNo, DeviceNo, EditNo};
use nm_cells::{CellState, DeviceCell, Pass, PassOwner};
use nm_chronicle::{BookShare, CellShare, Chronicle, Phases, Shares, SlotShares};
use nm_device::Device;
use nm_flat::{FlatConfig, FlatContent, FlatEdit, NumberMap};
use nm_proto::{ChangePlan, Content, DefaultOperation, Listed, PlanEntry, PlannedEdit, Tables};
use nm_run_plan::{RunName, RunPlans};
use std::alloc::Global;
use std::process::Abort;
use std::sync::Mutex;
use std::sync::ledger::Blank;

// What requests are about, and the change sets of the run.
#[derive(Drop)]
pub(crate) struct World {
    pub(crate) content: FlatContent,
    pub(crate) tables: Tables<FlatContent>,
    pub(crate) changes: Vec<ChangePlan>,
}

// What was last told: a word, and a place or a number.
#[derive(Clone, Copy)]
pub(crate) struct Told {
    pub(crate) word: &'static str,
    pub(crate) place: u64,
}

// A run without device 1: the board, who calls on it, and the passes of two callers with what the first was last told.
#[derive(Drop)]
pub(crate) struct Rest<N: RunPlans> {
    pub(crate) chronicle: Mutex<Chronicle<N>>,
    pub(crate) slot: SlotShares<N>,
    pub(crate) book: BookShare<N>,
    pub(crate) phases: Phases<N>,
    pub(crate) share: CellShare<N>,
    pub(crate) pass: Pass,
    pub(crate) other: Pass,
    pub(crate) told: Told,
}

// The device of a number.
pub(crate) fn device_of(rt: &impl Abort, number: &str) -> DeviceNo {
    let number = number.parse::<u8>().expect(rt, "a number");
    DeviceNo::new(number).expect(rt, "a device")
}

// Change set 1 alone.
pub(crate) fn changes_of(rt: &impl Abort, alloc: Global, row: &Row<'_>) -> Vec<ChangePlan>
    ensures { length result.items ≡ 1 }
{
    let mut changes = Vec::new(alloc);
    changes
        .push(change_plan(rt, alloc, row))
        .expect(rt, "memory");
    changes
}

// Change set 1, with one edit for each of the row's devices.
fn change_plan(rt: &impl Abort, alloc: Global, row: &Row<'_>) -> ChangePlan {
    let mut edits = Listed::new(alloc);
    for number in row.devices.split(' ') {
        let edit = PlannedEdit {
            device: device_of(rt, number),
            edit: EditNo(0),
            default_operation: DefaultOperation::Merge,
        };
        edits.push(edit).expect(rt, "memory");
    }
    ChangePlan {
        timeout: 600,
        edits,
    }
}

// The configuration `{"7":1}`.
pub(crate) fn seven(rt: &impl Abort, alloc: Global) -> FlatConfig {
    let mut cells = NumberMap::new(alloc);
    cells.insert(7, 1).expect(rt, "memory");
    FlatConfig::new(alloc, cells)
}

// Whose the calls of a row are.
fn owner_of(rt: &impl Abort, row: &Row<'_>) -> PassOwner {
    if row.coordinates {
        let change = ChangeNo::new(1).expect(rt, "1");
        return PassOwner::Coordinator { change };
    }
    PassOwner::Operator { operator: 1 }
}

// The board of a run with all who call on it, and the share of device 1.
pub(crate) fn begin<N: RunPlans>(
    rt: &impl Abort,
    alloc: Global,
    blank: Blank,
    changes: &[ChangePlan],
    row: &Row<'_>,
) -> (Rest<N>, CellShare<N>)
    requires name { blank.name ≡ N.name }
    requires parts { blank.parts ≡ N.parts }
    requires one_each { blank.parts ≡ length changes.now + 3 + 1 }
    requires changes { changes.now ≡ N.changes }
    requires devices { 3 ≡ N.devices }
    ensures share { result.1 ≡ 0 }
{
    let (chronicle, shares) = Chronicle::<N>::reserve(alloc, blank, changes, 3).expect(
        rt, "memory",
    );
    let Shares {
        mut slots,
        mut cells,
        book,
    } = shares;
    let slot = slots.pop().expect(rt, "a slot");
    let share = cells.pop().expect(rt, "device 3");
    let second = cells.pop().expect(rt, "device 2");
    let first = cells.pop().expect(rt, "device 1");
    let rest = Rest {
        chronicle: Mutex::new(chronicle),
        slot,
        book,
        phases: Phases::new(alloc, second).expect(rt, "memory"),
        share,
        pass: Pass::new(alloc, owner_of(rt, row)),
        other: Pass::new(alloc, PassOwner::Operator { operator: 2 }),
        told: Told { word: "", place: 0 },
    };
    (rest, first)
}

// Device 1, behind its lock.
pub(crate) fn cell_of<N: RunName<FlatContent, FlatConfig, FlatEdit>>(
    rt: &impl Abort,
    alloc: Global,
    content: &FlatContent,
    running: FlatConfig,
    plan: Vec<PlanEntry>,
    share: CellShare<N>,
) -> DeviceCell<FlatContent, N>
    requires content { N.run.content ≡ Some content.now }
    requires starts { N.run.starts ≡ running ∷ [] }
    requires faults { N.run.faults ≡ plan.items ∷ [] }
    requires plan { IsPlan plan.items }
    requires share { share ≡ 0 }
{
    assert!(rt; content.check(&running).is_ok());
    let number = DeviceNo::new(1).expect(rt, "1");
    let device = Device::new(alloc, running);
    let state = CellState::new(alloc, number, device, plan, share).expect(rt, "memory");
    DeviceCell::new(number, state)
}
