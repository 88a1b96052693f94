//! What holds of runs that are counted together by their ends.

ghost use Rattle.std.specs.Prelude.{◌≡◌, ◌++◌, List, true};
ghost use Rattle.nm_explore_groups.specs.declared.group.Group.{Group};
ghost use Rattle.nm_explore_groups.specs.Groups.{first_of, grouped, is_each_once, merged, runs_in, runs_of};

/// Each end is there once.
pub fn each_end_is_there_once<E: Eq>()
    ensures { (runs : List (Group E)) → is_each_once E.eq (grouped E.eq runs) ≡ true }
{}

/// Of each end all runs are counted, and no other.
pub fn all_runs_are_counted<E: Eq>()
    ensures of_each { (end : E) (runs : List (Group E)) → runs_of E.eq end (grouped E.eq runs) ≡ runs_of E.eq end runs }
    ensures of_all { (runs : List (Group E)) → runs_in (grouped E.eq runs) ≡ runs_in runs }
{}

/// The way that is told of an end is that of the first run which comes to it; of an end that no run comes to none is.
pub fn first_way_is_told<E: Eq>()
    ensures { (end : E) (runs : List (Group E)) → first_of E.eq end (grouped E.eq runs) ≡ first_of E.eq end runs }
{}

/// Two parts of the runs, counted apart and then put together, are the whole.
pub fn parts_make_the_whole<E: Eq>()
    ensures { (some more : List (Group E)) → merged E.eq (grouped E.eq some) (grouped E.eq more) ≡ grouped E.eq (some ++ more) }
{}
