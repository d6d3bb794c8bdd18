// Worked examples, and the extensions that recipes use.
ghost use Rattle.std.specs.Prelude.{◌≡◌, ℕ, ◌/◌, ◌^◌, ◌≤◌, [], ◌∷◌, Ok, Err};
ghost use Rattle.field_laws.specs.Extensions.{Extends, extension};
ghost use Rattle.field_laws.specs.Polynomials.{polynomial};
ghost use Rattle.fields.specs.Answers.{Makes, of_two, unlawful};
ghost use Rattle.fields.specs.Examples.{Examples};
ghost use Rattle.fields.specs.Recipe.{RecipeConstant, RecipeWidth, RecipeExtension};

use crate::extension::Extension;
use crate::field::Field;
use crate::polynomial::Polynomial;
use crate::refusals::no_field;
use words::fault::Fault;

/// The c of the extension of a width that a recipe may name; any other width gives 13.
fn constant(width: u8) -> Result<u8, Fault>
    ensures { Makes (RecipeWidth width) (RecipeConstant width) result }
{
    match width {
        2 => Ok(1),
        4 => Ok(2),
        6 => Ok(1),
        8 => Ok(8),
        _ => Err(no_field()),
    }
}

/// The extension of the polynomial field of width m.
fn extension_over(m: u8, c: u8) -> Result<Extension<Polynomial>, Fault>
    ensures { 1 ≤ m → m ≤ 8 → Makes (Extends (polynomial m) c) (λ (x : Extension Polynomial). (x.base.width ≡ m) × (x.c ≡ c)) result }
{
    let field = Polynomial::new(m)?;
    Extension::new(field, c)
}

/// The extension of a width that a recipe may name, over the polynomial field of half the width; any other width gives 13.
pub fn recipe_extension(width: u8) -> Result<Extension<Polynomial>, Fault>
    ensures { Makes (RecipeWidth width) (λ (x : Extension Polynomial). RecipeExtension width x.base.width x.c) result }
{
    let c = constant(width)?;
    extension_over(width / 2, c)
}

/// A product in the polynomial field of width m.
fn polynomial_product(m: u8, a: u8, b: u8) -> Result<u8, Fault>
    ensures { 1 ≤ m → m ≤ 8 → result ≡ of_two (2 ^ m) a b ((polynomial m).product a b) }
{
    let field = Polynomial::new(m)?;
    field.product(a, b)
}

/// A product in the extension that a recipe uses.
fn extension_product(width: u8, a: u8, b: u8) -> Result<u8, Fault>
    ensures { (c : ℕ) → RecipeConstant width c → result ≡ of_two (2 ^ width) a b ((extension (polynomial (width / 2)) c).product a b) }
{
    let field = recipe_extension(width)?;
    field.product(a, b)
}

/// 2·5 at width 3, 2·0x8E at width 8, and 16·16 in the extension of width 8.
fn example_products() -> Result<[u8; 3], Fault>
    ensures { result ≡ Ok ((polynomial 3).product 2 5 ∷ (polynomial 8).product 2 0x8E ∷ (extension (polynomial 4) 8).product 16 16 ∷ []) }
{
    let three = polynomial_product(3, 2, 5)?;
    let eight = polynomial_product(8, 2, 0x8E)?;
    let extended = extension_product(8, 16, 16)?;
    Ok([three, eight, extended])
}

/// The products of the worked examples: 1, 1 and 24.
#[tactic(auto, using(crate::proofs::Extending::examples))]
pub fn examples() -> Result<[u8; 3], Fault>
    ensures stand { Examples }
    ensures values { result ≡ Ok (1 ∷ 1 ∷ 24 ∷ []) }
{
    example_products()
}

/// The extension over width 4 with c = 1, which is refused with 13.
#[tactic(auto, using(field_laws::proofs::Roots::not_by_one))]
pub fn refused_example() -> Result<Extension<Polynomial>, Fault>
    ensures { result ≡ Err unlawful }
{
    extension_over(4, 1)
}
