//! What guarded parts and forgotten nodes are, in words of the configurations themselves.

ghost use Rattle.std.specs.Prelude.{◌≡◌, ◌↔◌, ℕ, false};
ghost use Rattle.nm_partial.specs.Partial.{PartialState, guards, forgotten, KeepsOthers, AllExist};

use nm_proto::Content;

/// That no partial lock guards against a change exactly where it leaves each part that another session has
/// locked as it was.
pub fn guards_keep_what_others_locked<C: Content>(content: &C)
    ensures { (partials : PartialState C.Node) (session : ℕ) (old new : C.Config) →
        (guards (C.meaning content.now) partials session old new ≡ false) ↔ KeepsOthers (C.meaning content.now) partials session old new }
{}

/// That each node that is still locked once those that are gone were forgotten exists.
pub fn what_is_not_forgotten_exists<C: Content>(content: &C)
    ensures { (partials : PartialState C.Node) (config : C.Config) →
        AllExist (C.meaning content.now) config (forgotten (C.meaning content.now) config partials) }
{}
