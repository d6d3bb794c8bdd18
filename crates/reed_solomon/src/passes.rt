// Passes over the values of a polynomial at the first elements.
ghost use Rattle.std.specs.Prelude.{◌≡◌, ℕ, ◌<◌, ◌≤◌, length};
ghost use Rattle.words.specs.Soundness.{Sound};
ghost use Rattle.field_laws.specs.Fields.{size as field_size};
ghost use Rattle.reed_solomon_laws.proofs.Arrays.{Below};
ghost use Rattle.reed_solomon.specs.Passes.{Beside, Follows, plus_multiple, combination, with_root};

use crate::elements::{add, multiply};
use fields::field::Field;

/// v + c·p and r·p at one place. Most places have p = 0, where nothing changes. It answers both: a step that wrote them through two
/// references made the correction of a word a third slower.
fn step<F: Field>(field: &F, c: u8, r: u8, v: u8, p: u8) -> (u8, u8)
    requires { (Sound F.refusal field.now) × ((c < field_size (F.model field.now)) × ((r < field_size (F.model field.now)) × ((v < field_size (F.model field.now)) × (p < field_size (F.model field.now))))) }
    ensures { (result.0 ≡ (F.model field.now).sum v ((F.model field.now).product c p)) × (result.1 ≡ (F.model field.now).product r p) }
{
    if p == 0 {
        return (v, p);
    }
    (add(field, v, multiply(field, c, p)), multiply(field, r, p))
}

/// v + c·p, and then (X + x)·p, where place j stands for the element numbered j.
pub(crate) fn take_root<F: Field>(field: &F, c: u8, x: u8, v: &mut [u8], p: &mut [u8])
    requires { (Sound F.refusal field.now) × ((c < field_size (F.model field.now)) × ((x < field_size (F.model field.now)) × ((length p.old ≤ field_size (F.model field.now)) × (Beside (F.model field.now) p.old v.old)))) }
    ensures { Follows v.new (length p.old) (plus_multiple (F.model field.now) c p.old v.old) × Follows p.new (length p.old) (with_root (F.model field.now) x p.old) }
{
    // By index into v: nothing is known of what a zip of `iter_mut` wrote.
    for (j, y) in p.iter_mut().enumerate() {
        let factor = add(field, j as u8, x);
        let (value, product) = step(field, c, factor, v[j], *y);
        v[j] = value;
        *y = product;
    }
}

/// a·v + b·p
pub(crate) fn combine<F: Field>(field: &F, a: u8, v: &mut [u8], b: u8, p: &[u8])
    requires { (Sound F.refusal field.now) × ((a < field_size (F.model field.now)) × ((b < field_size (F.model field.now)) × (Beside (F.model field.now) p.now v.old))) }
    ensures { Follows v.new (length p.now) (combination (F.model field.now) a v.old b p.now) }
{
    // By index into p: nothing is known of what a zip of `iter_mut` wrote.
    for (j, x) in v.iter_mut().enumerate() {
        *x = add(field, multiply(field, a, *x), multiply(field, b, p[j]));
    }
}

/// (X + x)·p, where place j stands for the element numbered j.
pub(crate) fn add_root<F: Field>(field: &F, x: u8, p: &mut [u8])
    requires { (Sound F.refusal field.now) × ((x < field_size (F.model field.now)) × ((length p.old ≤ field_size (F.model field.now)) × (Below (F.model field.now) (length p.old) p.old))) }
    ensures { Follows p.new (length p.old) (with_root (F.model field.now) x p.old) }
{
    for (j, y) in p.iter_mut().enumerate() {
        *y = multiply(field, add(field, j as u8, x), *y);
    }
}
