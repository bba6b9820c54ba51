//! Where each flow goes.

ghost use Rattle.std.specs.Prelude.{◌≡◌};
ghost use Rattle.sb_link.specs.Plans.{flow_of};
ghost use Rattle.sb_router.specs.Ways.{route_of};

use sb_link::Flow;

/// Where each flow goes: for each host's id and each device the place of a port, where the flow passes the router.
#[derive(Drop)]
pub struct Routes {
    pub rows: Vec<[Option<usize>; 32]>,
}

impl Routes {
    /// The place to which a flow goes.
    pub fn place(&self, flow: &Flow) -> Option<usize>
        ensures place { result ≡ route_of self.now.rows.items (flow_of flow.now) }
    {
        let row = self.rows.get(usize::from(flow.host))?;
        *row.get(usize::from(flow.device))?
    }
}
