// A recipe that was read: always the table of a pile that can be made.
ghost use Rattle.std.specs.Prelude.{◌≡◌, ◌/◌, ◌<◌, ◌≤◌, min, map, length, Some, None, sum_by, MatchResult};
ghost use Rattle.std.specs.List.{AllByRecursion, reduce};
ghost use Rattle.recipes.specs.Chains.{stages_of};
ghost use Rattle.recipes.specs.Meaning.{Lawful, Describes};
ghost use Rattle.recipes.specs.Rules.{Headed, SingleMeaning, first_broken, rules_from, recipe_refusal};
ghost use Rattle.recipes.specs.Totals.{Bounded, used_stages, page_cells, stage_bits, message_bits, stage_reach, reach_of};

use crate::fields::{check_end, read_chain, read_columns, read_stage};
use crate::kinds::ChainKind;
use crate::table::{Stage, Table};
use words::fault::Fault;

/// What a recipe's bytes describe.
#[derive(Clone, Copy)]
pub struct Recipe {
    table: Table,
    ghost lawful: { ∥ Lawful table ∥₁ },
}

fn read_table(bytes: &[u8], chain: ChainKind, columns: usize) -> Result<Table, Fault>
    requires { Headed bytes.now chain columns }
    ensures { MatchResult result (λ t. Describes bytes.now t) (λ f. first_broken (rules_from bytes.now chain (stages_of chain) 0) ≡ Some f) }
{
    let mut table = Table::new(chain, columns);
    let stages = chain.stages();
    for i in 0..stages {
        let fields = read_stage(bytes, chain, columns, i)?;
        table.fill(i, fields.kind, fields.message_len);
    }
    check_end(bytes, 3 + 3 * stages)?;
    Ok(table)
}

// A pile adds up and compares the same of its codes. Here there is no code to ask yet; recipe_piles promises that both agree.
fn sum_bits(stages: &[Stage]) -> usize
    requires { (AllByRecursion Bounded stages.now) × (length stages.now ≤ 5) }
    ensures { result ≡ sum_by stage_bits stages.now }
{
    stages.iter().map(|stage| stage.bits()).sum()
}

fn least_reach(stages: &[Stage]) -> Option<usize>
    requires { AllByRecursion Bounded stages.now }
    ensures { result ≡ reduce min (map stage_reach stages.now) }
{
    stages.iter().map(|stage| stage.reach()).min()
}

impl Recipe {
    /// Reads a recipe from its bytes, or refuses by the first rule that they break.
    pub fn read(bytes: &[u8]) -> Result<Self, Fault>
        ensures reads { MatchResult result (λ recipe. Describes bytes.now recipe.table) (λ f. recipe_refusal bytes.now ≡ Some f) }
        ensures single { SingleMeaning bytes.now }
    {
        let chain = read_chain(bytes)?;
        let columns = read_columns(bytes, chain)?;
        let table = read_table(bytes, chain, columns)?;
        Ok(Recipe { table })
    }

    /// The chain.
    pub fn chain(&self) -> ChainKind
        ensures { result ≡ self.now.table.chain }
    {
        self.table.chain
    }

    /// The number of columns.
    pub fn columns(&self) -> usize
        ensures { result ≡ self.now.table.columns }
    {
        self.table.columns
    }

    /// The records of the stages, first to last.
    pub fn stages(&self) -> &[Stage]
        ensures { result.now ≡ used_stages self.now.table }
    {
        let table = &self.table;
        &table.stages[0..table.chain.stages()]
    }

    /// The cells of a page.
    pub fn cells(&self) -> usize
        ensures { result ≡ page_cells self.now.table }
    {
        let table = &self.table;
        table.chain.cells() * table.columns
    }

    /// The message bits of a page.
    pub fn message_bits(&self) -> usize
        ensures { result ≡ message_bits self.now.table }
    {
        sum_bits(self.stages())
    }

    /// The bytes that a page holds: the message bits in whole bytes.
    pub fn bytes(&self) -> usize
        ensures { result ≡ message_bits self.now.table / 8 }
    {
        self.message_bits() / 8
    }

    /// The reach, which is the distance of the pile: below it, harm is undone. A recipe has a stage, so that there is a least.
    pub fn reach(&self) -> usize
        ensures { result ≡ reach_of self.now.table }
    {
        least_reach(self.stages()).unwrap_or(0)
    }
}
