// What one recipe is, in words and numbers.
use crate::failure::Failure;
use anyhow::Context;
use recipe_texts::text::read_text;
use recipes::recipe::Recipe;
use std::alloc::{AllocError, Global};
use std::fmt;

/// The recipe of a text, for commands that need one.
pub(crate) fn recipe_of(heap: Global, text: &str) -> anyhow::Result<Recipe> {
    read_text(heap, text)?
        .map_err(Failure::from)
        .context(format_args!("recipe '{text}'"))
}

// A recipe's lines: its chain, a line a stage, and the totals.
#[derive(Clone, Copy)]
struct Lines<'a> {
    recipe: &'a Recipe,
}

impl fmt::Display for Lines<'_> {
    fn fmt<W: fmt::Write>(&self, f: &mut fmt::Formatter<W>) -> fmt::Result {
        let recipe = self.recipe;
        let chain = recipe.chain();
        let columns = recipe.columns();
        writeln!(f, "  chain: {chain}, over {columns} columns")?;
        writeln!(
            f,
            "  stages, as width, inner distance, length, message length, distance:"
        )?;
        for (i, stage) in recipe.stages().iter().enumerate() {
            let number = i.saturating_add(1);
            writeln!(f, "  stage {number}: {stage}")?;
        }
        let cells = recipe.cells();
        let bits = recipe.message_bits();
        let bytes = recipe.bytes();
        let reach = recipe.reach();
        writeln!(
            f,
            "  in all: {cells} cells, {bits} message bits, {bytes} bytes, reach {reach}"
        )
    }
}

/// A recipe's lines, or why there are none.
pub(crate) fn describe(heap: Global, text: &str) -> Result<String, AllocError> {
    match read_text(heap, text)? {
        Ok(recipe) => {
            let lines = Lines { recipe: &recipe };
            format!(in heap; "recipe {text}\n{lines}")
        }
        Err(error) => {
            let failure = Failure::from(error);
            format!(in heap; "recipe {text}\n  {failure}\n")
        }
    }
}

#[cfg(test)]
mod tests {
    use super::*;
    use std::test::Fail;

    #[test]
    fn stages_and_totals(rt: HostRuntime) -> Result<(), Fail> {
        let told = describe(rt.alloc(), "13 00 08 02 00 01 01 00 05 01 00 07 00 00 08")?;
        let expected = "recipe 13 00 08 02 00 01 01 00 05 01 00 07 00 00 08
  chain: Reed-Muller with r = 3, over 8 columns
  stages, as width, inner distance, length, message length, distance:
  stage 1: 1 1 8 1 8 (repetition)
  stage 2: 3 2 8 5 4 (Reed-Solomon)
  stage 3: 3 4 8 7 2 (Reed-Solomon)
  stage 4: 1 8 8 8 1 (open)
  in all: 64 cells, 45 message bits, 5 bytes, reach 8
";
        assert!(rt; told.as_str() == expected);
        Ok(())
    }

    #[test]
    fn refusals(rt: HostRuntime) -> Result<(), Fail> {
        let refused = describe(rt.alloc(), "14 01 01")?;
        assert!(rt;
            refused.as_str()
                == "recipe 14 01 01
  refused 4 (recipe, offset 1): no columns, or more than 4096 cells
"
        );
        let unread = describe(rt.alloc(), "1x")?;
        assert!(rt;
            unread.as_str()
                == "recipe 1x
  not hexadecimal text of whole bytes
"
        );
        Ok(())
    }
}
