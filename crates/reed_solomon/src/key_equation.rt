// The key equation by values: polynomials q and e with q = t·e at every readable place outside the first choice, where t is
// the error there over the product of the choice.
//
// Work space is arrays of the most symbols that a word has, since the library has no heap.
ghost use Rattle.std.specs.Prelude.{◌≡◌, ◌<◌, ◌≤◌, length, if◌then◌else◌, ◌≢◌};
ghost use Rattle.words.specs.Soundness.{Sound};
ghost use Rattle.field_laws.specs.Fields.{size as field_size};
ghost use Rattle.reed_solomon_laws.proofs.Arrays.{Eliminated, Located, miss as missed};
ghost use Rattle.reed_solomon.specs.Passes.{Over, HasElement, Beside, Follows, combination, with_root, Pairs, Advanced, Readings, Lengths, Skips, Rightful};

use crate::elements::{MOST_SYMBOLS, add, invert, multiply};
use crate::passes::{add_root, combine};
use fields::field::Field;

/// (y + g) / p
fn quotient<F: Field>(field: &F, y: u8, g: u8, p: u8) -> u8
    requires { (Sound F.refusal field.now) × ((y < field_size (F.model field.now)) × ((g < field_size (F.model field.now)) × ((p < field_size (F.model field.now)) × (p ≢ 0)))) }
    ensures { (Over (F.model field.now) y g p result) × (result < field_size (F.model field.now)) }
{
    multiply(field, add(field, y, g), invert(field, p))
}

/// Polynomials q and e by their values, and a bound on their degrees.
#[derive(Drop)]
struct Pair<'a> {
    q: &'a mut [u8],
    e: &'a mut [u8],
    bound: usize,
}

impl Pair<'_> {
    /// q + t·e at the place x
    fn miss<F: Field>(&self, field: &F, x: usize, t: u8) -> u8
        requires { (Sound F.refusal field.now) × ((t < field_size (F.model field.now)) × (HasElement (F.model field.now) x self.now.q.now × HasElement (F.model field.now) x self.now.e.now)) }
        ensures { (result ≡ missed (F.model field.now) x t self.now.q.now self.now.e.now) × (result < field_size (F.model field.now)) }
    {
        add(field, self.q[x], multiply(field, t, self.e[x]))
    }

    /// a times this pair, plus b times the pivot
    fn combine<F: Field>(&mut self, field: &F, a: u8, b: u8, pivot: &Pair)
        requires { (Sound F.refusal field.now) × (((a < field_size (F.model field.now)) × (b < field_size (F.model field.now))) × (Pairs (F.model field.now) (length pivot.now.q.now) pivot.now.q.now pivot.now.e.now self.old.q.now self.old.e.now)) }
        ensures q { Follows self.new.q.now (length pivot.now.q.now) (combination (F.model field.now) a self.old.q.now b pivot.now.q.now) }
        ensures e { Follows self.new.e.now (length pivot.now.q.now) (combination (F.model field.now) a self.old.e.now b pivot.now.e.now) }
        ensures same { (length self.new.q.now ≡ length self.old.q.now) × (length self.new.e.now ≡ length self.old.e.now) × (self.new.bound ≡ self.old.bound) }
    {
        combine(field, a, self.q, b, pivot.q);
        combine(field, a, self.e, b, pivot.e);
    }

    /// (X + x) times this pair
    fn add_root<F: Field>(&mut self, field: &F, x: u8)
        requires { (Sound F.refusal field.now) × ((x < field_size (F.model field.now)) × ((length self.old.q.now ≤ field_size (F.model field.now)) × (Beside (F.model field.now) self.old.q.now self.old.e.now))) }
        ensures q { Follows self.new.q.now (length self.old.q.now) (with_root (F.model field.now) x self.old.q.now) }
        ensures e { Follows self.new.e.now (length self.old.q.now) (with_root (F.model field.now) x self.old.e.now) }
        ensures same { (length self.new.q.now ≡ length self.old.q.now) × (length self.new.e.now ≡ length self.old.e.now) × (self.new.bound ≡ self.old.bound) }
    {
        add_root(field, x, self.q);
        add_root(field, x, self.e);
    }
}

/// Makes the other pair meet the equation at x too, by the pivot, and then multiplies the pivot by X + x.
fn eliminate<F: Field>(
    field: &F,
    x: usize,
    gap: u8,
    pivot: &mut Pair,
    other_gap: u8,
    other: &mut Pair,
)
    requires { (Sound F.refusal field.now) × (((x < length pivot.old.q.now) × (length pivot.old.q.now ≤ field_size (F.model field.now))) × (((gap < field_size (F.model field.now)) × (other_gap < field_size (F.model field.now))) × (Pairs (F.model field.now) (length pivot.old.q.now) pivot.old.q.now pivot.old.e.now other.old.q.now other.old.e.now))) }
    ensures eliminated { Eliminated (F.model field.now) (length pivot.old.q.now) x gap other_gap pivot.old.q.now pivot.old.e.now other.old.q.now other.old.e.now pivot.new.q.now pivot.new.e.now other.new.q.now other.new.e.now }
    ensures lengths { Lengths (length pivot.old.q.now) pivot.new.q.now pivot.new.e.now other.new.q.now other.new.e.now }
    ensures bounds { (pivot.new.bound ≡ pivot.old.bound) × (other.new.bound ≡ other.old.bound) }
{
    other.combine(field, gap, other_gap, pivot);
    pivot.add_root(field, x as u8);
}

/// One readable place x more, with the quotient t there. The pivot is a pair that misses the equation at x: of two such the one with
/// the smaller bound, of equal bounds the first. Answers whether it is the first: one word for a pair that the caller has, where a
/// reference back would be no plainer.
fn advance<F: Field>(field: &F, x: usize, t: u8, first: &mut Pair, second: &mut Pair) -> bool
    requires { (Sound F.refusal field.now) × (((x < length first.old.q.now) × (length first.old.q.now ≤ field_size (F.model field.now))) × ((t < field_size (F.model field.now)) × (Pairs (F.model field.now) (length first.old.q.now) first.old.q.now first.old.e.now second.old.q.now second.old.e.now))) }
    ensures advanced { Advanced (F.model field.now) (length first.old.q.now) x t (first.old.bound, second.old.bound) first.old.q.now first.old.e.now second.old.q.now second.old.e.now first.new.q.now first.new.e.now second.new.q.now second.new.e.now result }
    ensures lengths { Lengths (length first.old.q.now) first.new.q.now first.new.e.now second.new.q.now second.new.e.now }
    ensures bounds { (first.new.bound ≡ first.old.bound) × (second.new.bound ≡ second.old.bound) }
{
    let gap0 = first.miss(field, x, t);
    let gap1 = second.miss(field, x, t);
    if gap0 != 0 && (gap1 == 0 || first.bound <= second.bound) {
        eliminate(field, x, gap0, first, gap1, second);
        return true;
    }
    eliminate(field, x, gap1, second, gap0, first);
    false
}

/// Marks the blank places and those where e vanishes.
fn mark_roots(marks: &[u8], e: &[u8], skip: &mut [u8])
    requires { (length e.now ≡ length marks.now) × (length skip.old ≡ length marks.now) }
    ensures { Skips (length marks.now) marks.now e.now skip.new }
{
    // By index into both: nothing is known of what a zip of `iter_mut` wrote.
    for (x, y) in skip.iter_mut().enumerate() {
        *y = u8::from(marks[x] != 0 || e[x] == 0);
    }
}

/// The key equation of a word with its marks, by the values g through a first choice of its places and the product p that vanishes there.
#[derive(Drop)]
pub(crate) struct KeyEquation<'a, F> {
    pub field: &'a F,
    pub word: &'a [u8],
    pub marks: &'a [u8],
    pub g: &'a [u8],
    pub p: &'a [u8],
}

impl<F: Field> KeyEquation<'_, F> {
    /// Solves the equation over the readable places outside the choice that p vanishes at. Answers whether the first of the two pairs
    /// has the smaller bound.
    fn solve(&self, first: &mut Pair, second: &mut Pair) -> bool
        requires { (Sound F.refusal self.now.field.now) × ((Readings (F.model self.now.field.now) self.now.word.now self.now.marks.now self.now.g.now self.now.p.now) × (Lengths (length self.now.word.now) first.old.q.now first.old.e.now second.old.q.now second.old.e.now)) }
        ensures located { Located (F.model self.now.field.now) (length self.now.word.now) self.now.word.now self.now.marks.now self.now.g.now self.now.p.now (if result then first.new.e.now else second.new.e.now) }
        ensures lengths { Lengths (length self.now.word.now) first.new.q.now first.new.e.now second.new.q.now second.new.e.now }
    {
        first.q.fill(1);
        first.e.fill(0);
        first.bound = 1;
        second.q.fill(0);
        second.e.fill(1);
        second.bound = 0;
        // By place, which is itself the element x: a zip of four rows would count it as well.
        for (x, y) in self.word.iter().enumerate() {
            if self.marks[x] == 0 && self.p[x] != 0 {
                let t = quotient(self.field, *y, self.g[x], self.p[x]);
                if advance(self.field, x, t, first, second) {
                    first.bound += 1;
                } else {
                    second.bound += 1;
                }
            }
        }
        first.bound <= second.bound
    }

    /// Marks in `skip` each place but the readable ones that a solution of the equation shows to be right.
    pub(crate) fn locate(&self, skip: &mut [u8])
        requires { (Sound F.refusal self.now.field.now) × ((Readings (F.model self.now.field.now) self.now.word.now self.now.marks.now self.now.g.now self.now.p.now) × ((length skip.old ≡ length self.now.word.now) × (length self.now.word.now ≤ 256))) }
        ensures { Rightful (F.model self.now.field.now) self.now.word.now self.now.marks.now self.now.g.now self.now.p.now skip.new }
    {
        let n = self.word.len();
        let mut q0 = [0; MOST_SYMBOLS];
        let mut e0 = [0; MOST_SYMBOLS];
        let mut q1 = [0; MOST_SYMBOLS];
        let mut e1 = [0; MOST_SYMBOLS];
        let mut first = Pair {
            q: &mut q0[..n],
            e: &mut e0[..n],
            bound: 1,
        };
        let mut second = Pair {
            q: &mut q1[..n],
            e: &mut e1[..n],
            bound: 0,
        };
        if self.solve(&mut first, &mut second) {
            mark_roots(self.marks, first.e, skip);
        } else {
            mark_roots(self.marks, second.e, skip);
        }
    }
}
