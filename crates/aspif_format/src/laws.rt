//! What is written is read back: a law, the contract of a function that does nothing.

ghost use Rattle.std.specs.Prelude.{◌≡◌, ◌<◌, ◌^◌, length, Ok};
ghost use Rattle.std.specs.List.{AllByRecursion};
ghost use Rattle.ground_program.specs.Ground.{Ground};
ghost use Rattle.ground_program.specs.Facts.{IsProgram};
ghost use Rattle.aspif_format.specs.Read.{aspif_of};
ghost use Rattle.aspif_format.specs.Written.{aspif_text};

/// The aspif text of a program is read as that program, where each name has fewer than 2^63 bytes.
pub fn aspif_texts_are_read_back()
    ensures { (P : Ground) → IsProgram P → AllByRecursion (λ show. length show.name < 2 ^ 63) P.shows
        → aspif_of (aspif_text P) ≡ Ok P }
{}
