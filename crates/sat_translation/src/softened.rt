//! From a program to a formula with soft clauses that have the costs of its levels: the store and the map are those of
//! a formula without them, and the soft clauses are made of the map's levels.

ghost use Rattle.std.specs.Prelude.{◌≡◌, ◌≤◌, ◌^◌, [], None, IfOk, IfErr};
ghost use Rattle.asp_base.specs.Sets.{members, Within};
ghost use Rattle.ground_program.specs.Normal.{AreNormal};
ghost use Rattle.ground_program.specs.Room.{room};
ghost use Rattle.ground_program.specs.Size.{size};
ghost use Rattle.normalize.specs.Kept.{room_limit};
ghost use Rattle.soft_costs.specs.Outcome.{AreOver};
ghost use Rattle.soft_costs.specs.Softening.{soft_of, too_large_at};
ghost use Rattle.symbol_map.specs.FaithfulMap.{FaithfulMap};
ghost use Rattle.symbol_map.specs.declared.map.Form.TheVariants as forms;
ghost use Rattle.sat_translation.specs.InputMap.{input_map};
ghost use Rattle.sat_translation.specs.Ranked.{IsRanked, hard_part};
ghost use Rattle.sat_translation.specs.Translated.{FitsRoom, IsWcnf, SoftRefusedAs};
ghost use Rattle.sat_translation.specs.private.Scaled.{PassesAs, soft_refusal};
ghost use Rattle.sat_translation.specs.private.Sizes.{FitsSize};

use crate::mapping::in_form;
use crate::translation::{Draft, Translation, has_edges, mapped};
use asp_base::Memory;
use ground_program::{Level, Program};
use normalize::{NormalRefusal, Normalized, into_normal};
use soft_costs::{ScaleRefusal, soften};
use std::alloc::Global;
use symbol_map::{Form, SymbolMap};

/// Why a program is not translated to a formula with soft clauses.
#[derive(Clone, Copy, Debug, PartialEq, Eq)]
pub enum SoftRefusal {
    /// The program has edges.
    Edges,
    /// The program's room is this number, above 2^24.
    TooLarge { number: u64 },
    /// The weights of the levels, joined in one sum, pass 2^63 - 1 at the level of this priority.
    SumTooLarge { priority: i32 },
    /// Want of memory.
    Memory,
}

impl From<Memory> for SoftRefusal {
    ghost use Rattle.std.specs.Prelude.{◌≡◌};
    ghost use Rattle.sat_translation.specs.declared.softened.SoftRefusal.TheVariants as refusals;

    ghost from_gives = { λ _ e. e ≡ refusals.Memory };

    fn from(_: Memory) -> SoftRefusal {
        SoftRefusal::Memory
    }
}

/// The formula and the map of a program, as `translate` gives them, and soft clauses besides that have the costs of the
/// program's levels: the models that cost the least are one to one the stable models that are optimal.
///
/// `Edges` exactly where the program has edges; `TooLarge` exactly where it has none and its room is above 2^24;
/// `SumTooLarge` exactly where it is not refused for these, and the scale of its levels passes 2^63 - 1, with the
/// priority of the level, from the lowest on, at which it first does.
pub fn translate_soft(alloc: Global, program: Program) -> Result<Translation, SoftRefusal>
    ensures faithful { IfOk result (λ t. FaithfulMap program t.formula t.map) }
    ensures wcnf { IfOk result (λ t. IsWcnf t.formula) }
    ensures soft { IfOk result (λ t. t.formula.soft ≡ soft_of t.map.levels) }
    ensures form { IfOk result (λ t. t.map.form ≡ forms.Wcnf) }
    ensures small { IfOk result (λ t. FitsRoom program t.formula) }
    ensures ranked { IfOk result (λ t. AreNormal program.rules → IsRanked program (hard_part t.formula)) }
    ensures accepted { IfOk result (λ _. (program.edges ≡ []) × (room program ≤ room_limit)
        × (too_large_at program.levels ≡ None)) }
    ensures refused { IfErr result (λ refusal. SoftRefusedAs program refusal) }
{
    if has_edges(&program) {
        return Err(SoftRefusal::Edges);
    }
    match into_normal(alloc, program) {
        Ok(made) => {
            made.program.known();
            softened(alloc, made)
        }
        Err(NormalRefusal::TooLarge { room }) => Err(SoftRefusal::TooLarge { number: room }),
        Err(NormalRefusal::Memory) => Err(SoftRefusal::Memory),
    }
}

/// The formula of a program of normal rules, with the soft clauses of its levels, and a map of the given atoms, those
/// of the program that it stands for.
fn softened(alloc: Global, made: Normalized) -> Result<Translation, SoftRefusal>
    requires normal { AreNormal made.program.rules }
    requires small { size made.program ≤ 2 ^ 24 }
    requires within { Within (members made.given) (members made.program.atoms) }
    ensures ranked { IfOk result (λ t. IsRanked made.program (hard_part t.formula)) }
    ensures wcnf { IfOk result (λ t. IsWcnf t.formula) }
    ensures size { IfOk result (λ t. FitsSize made.program t.formula) }
    ensures map { IfOk result (λ t.
        t.map ≡ record (input_map made.program made.given t.formula.vars) { form = forms.Wcnf }) }
    ensures soft { IfOk result (λ t. t.formula.soft ≡ soft_of t.map.levels) }
    ensures fits { IfOk result (λ _. too_large_at made.program.levels ≡ None) }
    ensures passes { IfErr result (λ refusal. PassesAs made.program.levels refusal) }
{
    let Draft { mut store, map } = mapped(alloc, made)?;
    match soften(alloc, levels(&map), &mut store) {
        Ok(scale) => Ok(Translation {
            formula: store.finish(scale.top),
            map: in_form(map, Form::Wcnf),
        }),
        Err(refusal) => Err(soft_refusal(refusal)),
    }
}

/// The levels of a map, which are over its variables.
fn levels(map: &SymbolMap) -> &[Level]
    ensures levels { result.now ≡ map.now.levels }
    ensures over { AreOver map.now.vars result.now }
{
    map.levels.as_slice()
}

/// What a refusal to scale levels is for a program.
fn soft_refusal(refusal: ScaleRefusal) -> SoftRefusal
    ensures { result ≡ soft_refusal refusal }
{
    match refusal {
        ScaleRefusal::SumTooLarge { priority } => SoftRefusal::SumTooLarge { priority },
        ScaleRefusal::Memory => SoftRefusal::Memory,
    }
}
