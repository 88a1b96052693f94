//! The name of a run over YANG contents, before a run is picked.

use crate::content::YangContent;
use nm_edit::Edit;
use nm_overlay::Overlay;
use nm_run_plan::RunName;
use std::marker::Brand;

impl RunName<YangContent, Overlay, Edit> for Brand {
    ghost use Rattle.nm_run_plan.specs.Run.{no_run};

    ghost run = { no_run };
}
