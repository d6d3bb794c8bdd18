// Newton's interpolation by values: one place after another is brought to the symbol that was read there.
ghost use Rattle.std.specs.Prelude.{◌≡◌, ◌<◌, ◌≤◌, ◌&&◌, length, ◌==◌, ◌≢◌, nat_lt, slice_index};
ghost use Rattle.words.specs.Soundness.{Sound};
ghost use Rattle.field_laws.specs.Fields.{size as field_size};
ghost use Rattle.reed_solomon_laws.proofs.Arrays.{Interpolated, Taken};
ghost use Rattle.reed_solomon.specs.Passes.{Beside, Rows};

use crate::elements::{add, invert, multiply};
use crate::passes::take_root;
use fields::field::Field;

/// Brings v to a symbol at x by a multiple of p, which vanishes at the places taken before, and makes x a root of p too.
fn take_place<F: Field>(field: &F, x: usize, symbol: u8, v: &mut [u8], p: &mut [u8])
    requires { (Sound F.refusal field.now) × ((x < length p.old) × ((length p.old ≤ field_size (F.model field.now)) × ((symbol < field_size (F.model field.now)) × (Beside (F.model field.now) p.old v.old × (slice_index p.old x ≢ 0))))) }
    ensures { Taken (F.model field.now) (length p.old) x symbol v.old p.old v.new p.new }
{
    let off = add(field, symbol, v[x]);
    let inverse = invert(field, p[x]);
    let c = multiply(field, off, inverse);
    take_root(field, c, x as u8, v, p);
}

/// Whether a place is taken: it is not skipped, and there are not enough yet.
fn is_chosen(mark: u8, taken: usize, wanted: usize) -> bool
    ensures { result ≡ (mark == 0 && nat_lt taken wanted) }
{
    mark == 0 && taken < wanted
}

/// The values v of the polynomial through the first `wanted` places that are not skipped, and the product p of X + x over
/// them. Answers how many there were.
pub(crate) fn through<F: Field>(
    field: &F,
    wanted: usize,
    symbols: &[u8],
    skip: &[u8],
    v: &mut [u8],
    p: &mut [u8],
) -> usize
    requires { (Sound F.refusal field.now) × (Rows (F.model field.now) symbols.now skip.now v.old p.old) }
    ensures { Interpolated (F.model field.now) (length v.old) wanted symbols.now skip.now (length symbols.now) v.new p.new result }
{
    v.fill(0);
    p.fill(1);
    let mut taken = 0;
    // By place, which is itself the element x: a zip with `skip` would count it as well.
    for (x, symbol) in symbols.iter().enumerate() {
        if is_chosen(skip[x], taken, wanted) {
            take_place(field, x, *symbol, v, p);
            taken += 1;
        }
    }
    taken
}
