// Circuits in buffers of the work's own, and how one comes into a buffer that was lent.
ghost use Rattle.std.specs.Prelude.{◌≡◌, ◌*◌};
ghost use Rattle.search.specs.Copies.{copied, RoomFor};

// Copies the first arcs of one buffer over the front of another, whose rest stays. Both have room for the longest circuit; a slice that callers cut would
// say the count twice.
pub fn copy(from: &[u8], arcs: usize, to: &mut [u8])
    requires { RoomFor arcs from.now to.old }
    ensures { to.new ≡ copied from.now (4 * arcs) to.old }
{
    let count = 4 * arcs;
    to[..count].copy_from_slice(&from[..count]);
}
