//! What goes over one link.

ghost use Rattle.std.specs.Prelude.{◌≡◌, length};

/// What goes over one link.
#[derive(Clone, Copy)]
pub struct Load {
    /// The words of all its flows.
    pub requests: u32,
    /// Those of them that are answered.
    pub answers: u32,
    /// For each host's id: bit `d` says that its flow to device `d` goes over the link.
    pub through: [u32; 32],
    pub ghost whole: { length through ≡ 32 },
}
