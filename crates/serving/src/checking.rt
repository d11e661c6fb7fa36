//! Whether events are of a match.

ghost use Rattle.std.specs.Prelude.{◌≡◌, ◌<◌, ◌↔◌, IsTrue, IfOk, IfErr};
ghost use Rattle.dealer_world.specs.Viewing.{view_of};
ghost use Rattle.dealer_world.specs.Promise.{IsForMatch};
ghost use Rattle.serving.specs.Turning.{IsFrameless, IsOfMatch, IsOutside, IsForDue, IsTakenUp};
ghost use Rattle.serving.specs.declared.due.Due.{Due};
ghost use Rattle.serving.specs.declared.waiting.Taking.TheVariants.{Gives};
ghost use Rattle.serving.specs.declared.serve_fault.ServeFault.TheVariants.{LinkFailed};

use crate::serve_fault::ServeFault;
use crate::waiting::{Taking, Waiting};
use dealer_world::{Cluster, Event};
use promise_store::Disk;

/// Whether the nodes and the seat of an event are of a cluster's match.
pub(crate) fn is_for<D: Disk + Drop>(cluster: &Cluster<D>, event: &Event) -> bool
    ensures { IsTrue result ↔ IsForMatch (view_of cluster.now).config event.now }
{
    event.is_for(cluster.node_count(), cluster.config().game().players())
}

/// An event that is no frame, as it is to be given to a cluster of its match for whatever it is due; the seat is that of
/// an order, else 0.
pub(crate) fn checked<D: Disk + Drop>(
    cluster: &Cluster<D>,
    seat: u8,
    event: Event,
) -> Result<Taking, ServeFault>
    requires frameless { IsFrameless event }
    ensures event { IfOk result (λ taking. taking ≡ Gives (record { event = event; number = 0; seat = seat })) }
    ensures due { (due : Due) → IsForDue due 0 seat event → IfOk result (IsTakenUp due) }
    ensures waiting { IfOk result (IsOfMatch (view_of cluster.now)) }
    ensures fault { (due : Due) → IsForDue due 0 seat event → IfErr result (λ fault. (fault ≡ LinkFailed) × IsOutside (view_of cluster.now).config due) }
{
    if is_for(cluster, &event) {
        Ok(Taking::Gives(Waiting {
            event,
            number: 0,
            seat,
        }))
    } else {
        Err(ServeFault::LinkFailed)
    }
}
