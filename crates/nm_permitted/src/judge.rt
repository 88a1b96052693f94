//! Who judges events.

ghost use Rattle.std.specs.Prelude.{◌≡◌, Option, IfOk};
ghost use Rattle.nm_proto.specs.declared.plan.Event.{Event as AnEvent};
ghost use Rattle.nm_world.specs.World.{CoreState, Setting, core_of};
ghost use Rattle.nm_permitted.specs.declared.judge.Denial.{Denial as ADenial};

use nm_base::{Label, NoMemory};
use nm_proto::{Content, Event};
use nm_world::World;

/// Why an event is denied.
#[derive(Drop)]
pub struct Denial {
    /// The name of what denies it.
    pub by: Label,
    /// The path of the row at which it is denied, and None where the operation is.
    pub path: Option<Label>,
}

/// What judges the events of worlds of a content. It looks at what stands at that moment, and neither at what has happened nor at
/// what comes.
pub trait Judge<C: Content + Drop> {
    /// Why an event is denied in what stands then, and None where it is permitted.
    ghost judges: { Self → C → Setting C.Edit → CoreState C.Config C.Node → AnEvent → Option ADenial };

    /// Judges an event that is about to come.
    fn judge(&self, world: &World<C>, event: &Event) -> Result<Option<Denial>, NoMemory>
        ensures { IfOk result (λ denial. denial ≡ judges self.now world.now.content world.now.setting (core_of world.now.state) event.now) };
}

/// The judge that permits everything to everyone.
pub struct Everyone;

impl<C: Content + Drop> Judge<C> for Everyone {
    ghost use Rattle.std.specs.Prelude.{None};

    ghost judges = { λ _ _ _ _ _. None };

    fn judge(&self, _world: &World<C>, _event: &Event) -> Result<Option<Denial>, NoMemory> {
        Ok(None)
    }
}
