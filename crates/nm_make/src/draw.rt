//! What is drawn for a scenario: each change set's devices, and what it changes there.

ghost use Rattle.std.specs.Prelude.{◌≡◌, ◌<◌, IfOk};
ghost use Rattle.nm_make.specs.Drawn.{seeded, drawn, edit_drawn, change_drawn, changes_drawn};

use nm_base::NoMemory;
use rand_core::SeedableRng;
use rand_core::utils::NextWord;
use rand_pcg::Pcg32;
use std::alloc::Global;
use std::cmp::{max, min};

/// An interface of a device, from 1 to 400, gets another MTU, in bytes.
#[derive(Clone, Copy)]
pub struct MadeEdit {
    pub device: u32,
    pub interface: u32,
    pub mtu: u32,
}

/// A change set over one device or two, in ascending order.
#[derive(Clone, Copy)]
pub struct MadeChange {
    pub first: MadeEdit,
    pub second: Option<MadeEdit>,
}

// One of so many numbers from the least on.
fn draw(generator: &mut Pcg32, least: u32, count: u32) -> u32
    requires some { 0 < count }
    requires small { least < 1000 }
    requires few { count < 10000 }
    ensures { (result, generator.new) ≡ drawn least count generator.old }
{
    least + generator.next_word() % count
}

#[tactic(auto, unfolding(crate::specs::Drawn::edit_drawn))]
fn draw_edit(generator: &mut Pcg32, device: u32) -> MadeEdit
    ensures { (result, generator.new) ≡ edit_drawn device generator.old }
{
    let interface = draw(generator, 1, 400);
    let mtu = draw(generator, 68, 9000);
    MadeEdit {
        device,
        interface,
        mtu,
    }
}

#[tactic(auto, unfolding(crate::specs::Drawn::change_drawn))]
fn draw_change(generator: &mut Pcg32) -> MadeChange
    ensures { (result, generator.new) ≡ change_drawn generator.old }
{
    let one = draw(generator, 1, 32);
    let other = draw(generator, 1, 32);
    if one == other {
        let first = draw_edit(generator, one);
        return MadeChange {
            first,
            second: None,
        };
    }
    let first = draw_edit(generator, min(one, other));
    let second = draw_edit(generator, max(one, other));
    MadeChange {
        first,
        second: Some(second),
    }
}

/// The 64 change sets that a number draws. Nothing but the number decides which.
#[tactic(auto, unfolding(crate::specs::Drawn::seeded))]
pub fn draw_changes(alloc: Global, number: u64) -> Result<Vec<MadeChange>, NoMemory>
    ensures { IfOk result (λ changes. changes.items ≡ changes_drawn 64 (seeded number)) }
{
    let mut generator = Pcg32::seed_from_u64(number);
    let mut changes = Vec::with_capacity(alloc, 64)?;
    for _ in 0..64u32 {
        let change = draw_change(&mut generator);
        changes.push(change)?;
    }
    Ok(changes)
}
