// What the benchmark in bench/fields calls from C: passes of products over a buffer, in both fields of width 8.
#![tactic(auto)]

use fields::field::Field;
use fields::polynomial::Polynomial;
use fields::worked::recipe_extension;
use words::fault::Fault;

/// Each element times `by`.
fn scale<F: Field + Drop>(
    field: Result<F, Fault>,
    elements: &mut [u8],
    by: u8,
) -> Result<(), Fault> {
    let field = field?;
    for x in elements.iter_mut() {
        *x = field.product(*x, by)?;
    }
    Ok(())
}

/// The product of all elements, one after the other.
fn chain<F: Field + Drop>(field: Result<F, Fault>, elements: &[u8]) -> Result<u8, Fault> {
    let field = field?;
    elements.iter().try_fold(1, |all, x| field.product(all, *x))
}

// C has no Option: a refusal, which width 8 never brings, is `false` or 0.

#[unsafe(no_mangle)]
pub extern "C" fn polynomial_scale(elements: &mut [u8], by: u8) -> bool {
    scale(Polynomial::new(8), elements, by).is_ok()
}

#[unsafe(no_mangle)]
pub extern "C" fn extension_scale(elements: &mut [u8], by: u8) -> bool {
    scale(recipe_extension(8), elements, by).is_ok()
}

#[unsafe(no_mangle)]
pub extern "C" fn polynomial_chain(elements: &[u8]) -> u8 {
    chain(Polynomial::new(8), elements).unwrap_or(0)
}

#[unsafe(no_mangle)]
pub extern "C" fn extension_chain(elements: &[u8]) -> u8 {
    chain(recipe_extension(8), elements).unwrap_or(0)
}
