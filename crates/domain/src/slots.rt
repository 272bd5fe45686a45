// Slots: values of a domain in a slice that is lent.
ghost use Rattle.std.specs.Prelude.{◌≡◌, false, length, replicate};

use crate::Lattice;

// The slice's own `fill` wants a type whose clones are known to be equal, which `Copy` does not say.
fn fill<V: Copy>(slots: &mut [V], value: V)
    ensures { slots.new ≡ replicate (length slots.old) value }
{
    slots.fill_with(|| value);
}

// Every slot becomes the constant false.
pub fn clear<D: Lattice>(domain: &D, slots: &mut [D::Value])
    ensures { slots.new ≡ replicate (length slots.old) (D.fixed false) }
{
    fill(slots, domain.constant(false));
}
