// A model that was read, with what is paid in it.

use drn_read::Costs;
use lift_model::Model;

/// The model that is verified for a job, with what a visit of each state costs. Where the job has no reward, no state
/// has a cost.
#[derive(Drop)]
pub(crate) struct CostedModel {
    pub model: Model,
    pub costs: Costs,
}
