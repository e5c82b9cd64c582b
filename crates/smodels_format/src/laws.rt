//! What is written is read back: a law, the contract of a function that does nothing.

ghost use Rattle.std.specs.Prelude.{◌≡◌, ◌≤◌, ◌^◌, true, Ok};
ghost use Rattle.std.specs.List.{AllByRecursion};
ghost use Rattle.ground_program.specs.Facts.{IsProgram, IsShort};
ghost use Rattle.ground_program.specs.Ground.{Ground};
ghost use Rattle.ground_program.specs.Size.{size};
ghost use Rattle.smodels_format.specs.Lowering.{lowered};
ghost use Rattle.smodels_format.specs.Read.{smodels_of};
ghost use Rattle.smodels_format.specs.Writable.{is_writable};
ghost use Rattle.smodels_format.specs.Written.{smodels_text};

/// The smodels text of a program is read as the lowered program, where the program can be written, its size is at most
/// 2^28, and each of its levels has at most 2^24 items.
pub fn smodels_texts_are_read_back()
    ensures { (P : Ground) → IsProgram P → is_writable P ≡ true
        → AllByRecursion (λ level. IsShort level.items) P.levels → size P ≤ 2 ^ 28
        → smodels_of (smodels_text P) ≡ Ok (lowered P) }
{}
