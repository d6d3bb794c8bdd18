// Recipes as the library and as the other reader take them.
use crate::failure::Failure;
use crate::plan::Plan;
use crate::text::Hex;
use recipes::recipe::Recipe;
use std::alloc::Global;

/// How many rows of bytes both accepted, and how many both refused.
#[derive(Clone, Copy, Default)]
pub(crate) struct Readings {
    pub(crate) accepted: u64,
    pub(crate) refused: u64,
}

/// A recipe that both accept.
#[derive(Drop)]
pub(crate) struct Level {
    pub(crate) recipe: Recipe,
    pub(crate) plan: Plan,
    pub(crate) bytes: Vec<u8>,
}

fn same_numbers(recipe: &Recipe, plan: &Plan) -> bool {
    recipe.cells() == plan.cells()
        && recipe.message_bits() == plan.message_bits()
        && recipe.reach() == plan.reach()
}

fn differ(heap: Global, bytes: &[u8], how: &str) -> Result<Option<Level>, Failure> {
    let bytes = Hex(bytes);
    Err(Failure::Differs(format!(in heap; "recipe {bytes}: {how}")?))
}

impl Readings {
    /// What bytes order, if both accept them.
    pub(crate) fn read(&mut self, heap: Global, bytes: Vec<u8>) -> Result<Option<Level>, Failure> {
        let plan = Plan::read(heap, bytes.as_slice())?;
        let Ok(recipe) = Recipe::read(bytes.as_slice()) else {
            if plan.is_some() {
                return differ(heap, bytes.as_slice(), "refused by the library alone");
            }
            self.refused = self.refused.saturating_add(1);
            return Ok(None);
        };
        let Some(plan) = plan else {
            return differ(heap, bytes.as_slice(), "accepted by the library alone");
        };
        if !same_numbers(&recipe, &plan) {
            return differ(heap, bytes.as_slice(), "cells, message bits or reach");
        }
        self.accepted = self.accepted.saturating_add(1);
        Ok(Some(Level {
            recipe,
            plan,
            bytes,
        }))
    }
}
