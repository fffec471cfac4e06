//! A node, borrowed from the bytes of its arcs.
ghost use Rattle.std.specs.Prelude.{◌<◌, length};

/// A node, borrowed from the bytes of its arcs. It has at most 256 arcs.
#[derive(Clone, Copy)]
pub struct NodeRef<'t> {
    pub(crate) arcs: &'t [u8],
    ghost fit: { length arcs.now < 55834574848 },
}
