//! What an interpretation shows, and what it costs.

ghost use Rattle.std.specs.Prelude.{◌≡◌, IfOk};
ghost use Rattle.std.specs.List.{AllByRecursion};
ghost use Rattle.ground_program.specs.Facts.{FitsWeight};
ghost use Rattle.ground_program.specs.Stable.{names_of, costs_of};

use crate::costs::costs;
use crate::literals::all_hold;
use crate::names::NameSet;
use asp_base::{ByteList, Interpretation, Memory, VecList};
use ground_program::{CostList, Level, Show};
use std::alloc::Global;

/// Names.
pub type NameList = VecList<ByteList>;

/// What an interpretation shows and costs.
#[derive(Debug, Drop)]
pub struct Seen {
    /// The names that are shown, each once, in the order in which they first stand.
    pub names: NameList,
    /// The cost of each level, in the order of the levels.
    pub costs: CostList,
}

/// The names whose condition holds, each once, in the order in which they first stand, and the cost of each level. In
/// time linear in the conditions, the items and the names.
pub fn evaluate<I: Interpretation>(
    alloc: Global,
    truth: &I,
    shows: &[Show],
    levels: &[Level],
) -> Result<Seen, Memory>
    requires { AllByRecursion (λ level. AllByRecursion (λ item. FitsWeight item.1) level.items) levels.now }
    ensures names { IfOk result (λ seen. seen.names ≡ names_of shows.now (I.truth truth.now)) }
    ensures costs { IfOk result (λ seen. seen.costs ≡ costs_of levels.now (I.truth truth.now)) }
{
    let names = shown_names(alloc, truth, shows)?.copies(alloc)?;
    let costs = costs(alloc, truth, levels)?;
    Ok(Seen { names, costs })
}

/// The names whose condition holds, lent by the shows.
fn shown_names<'a, I: Interpretation>(
    alloc: Global,
    truth: &I,
    shows: &'a [Show],
) -> Result<NameSet<'a>, Memory>
    ensures { IfOk result (λ names. names ≡ names_of shows.now (I.truth truth.now)) }
{
    let mut names = NameSet::new(alloc);
    for show in shows {
        if all_hold(truth, show.condition.as_slice()) {
            names.insert(show.name.as_slice())?;
        }
    }
    Ok(names)
}
