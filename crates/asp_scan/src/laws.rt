//! What is written is read back: laws, each the contract of a function that does nothing.
ghost use Rattle.std.specs.Prelude.{◌≡◌, ℕ, suc, ◌^◌, ◌<◌, ℤ, false, List, ◌∷◌, ◌++◌, length, Some, Ok, IsTrue, decimal};
ghost use Rattle.std.specs.Fmt.{signed_decimal};
ghost use Rattle.std.specs.List.{AllByRecursion};
ghost use Rattle.asp_scan.specs.Lines.{is_blank_line, pieces_of, without_return, numbered};
ghost use Rattle.asp_scan.specs.Tokens.{token_at, tokens, fits_i64, number_at, bytes_from};
ghost use Rattle.asp_scan.specs.Words.{spaced, IsLine, IsWord, Ends};

/// A line that is written with its end in front of other text is that text's first line.
pub fn lines_are_read_back()
    ensures pieces { (line rest : List ℕ) → IsLine line → pieces_of (line ++ (10 ∷ rest)) ≡ line ∷ pieces_of rest }
    ensures bytes { (line : List ℕ) → IsLine line → without_return line ≡ line }
    ensures numbered { (n : ℕ) (line rest : List ℕ) → IsLine line → is_blank_line line ≡ false
        → numbered n (pieces_of (line ++ (10 ∷ rest)))
        ≡ record { number = n; bytes = line } ∷ numbered (suc n) (pieces_of rest) }
{}

/// The tokens of words with one space between them are those words.
pub fn words_are_read_back()
    ensures tokens { (words : List (List ℕ)) → AllByRecursion IsWord words → tokens (spaced words) ≡ words }
    ensures line { (words : List (List ℕ)) → AllByRecursion IsWord words → IsLine (spaced words) }
    ensures not_blank { (word : List ℕ) (words : List (List ℕ)) → AllByRecursion IsWord (word ∷ words)
        → is_blank_line (spaced (word ∷ words)) ≡ false }
    ensures next { (word rest : List ℕ) → IsWord word → Ends rest → token_at (word ++ rest) ≡ Some (word, rest) }
    ensures next_spaced { (word rest : List ℕ) → IsWord word → Ends rest
        → token_at (32 ∷ (word ++ rest)) ≡ Some (word, rest) }
{}

/// The decimal text of a number is a word, and is read as that number.
pub fn numbers_are_read_back()
    ensures number { (n : ℤ) (rest : List ℕ) → IsTrue (fits_i64 n) → Ends rest
        → number_at (signed_decimal n ++ rest) ≡ Ok (n, rest) }
    ensures number_spaced { (n : ℤ) (rest : List ℕ) → IsTrue (fits_i64 n) → Ends rest
        → number_at (32 ∷ (signed_decimal n ++ rest)) ≡ Ok (n, rest) }
    ensures word { (n : ℤ) → IsTrue (fits_i64 n) → IsWord (signed_decimal n) }
    ensures word_of_natural { (n : ℕ) → n < 2 ^ 64 → IsWord (decimal n) }
{}

/// Bytes behind one space are read back by their number, whatever they are.
pub fn names_are_read_back()
    ensures { (name rest : List ℕ) → bytes_from (length name) (32 ∷ (name ++ rest)) ≡ Some (name, rest) }
{}
