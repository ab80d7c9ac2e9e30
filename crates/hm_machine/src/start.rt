//! The start of a run, kept so that a machine runs again from it.

use crate::checkpoint::Checkpoint;

/// What changes of a machine, as it stands at the start of a run: so that runs of one image under many schedules want one load.
#[derive(Drop)]
pub struct Start {
    pub(crate) checkpoint: Checkpoint,
}
