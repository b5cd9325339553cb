//! What the definitions of this crate say together. The functions do nothing: their contracts are
//! the laws.

ghost use Rattle.std.specs.Prelude.{◌≡◌, ℕ, ◌<◌, ◌^◌, List, [], ◌∷◌, ◌++◌, length, true, All, Some, None};
ghost use Rattle.std.specs.Fmt.{decimal as digits_of_number};
ghost use Rattle.text_core.specs.Bytes.{is_blank};
ghost use Rattle.text_core.specs.Piece.{Piece, front, past, StandsIn};
ghost use Rattle.text_core.specs.Lines.{lines, text_of_lines, first_line, after_line, IsLine};
ghost use Rattle.text_core.specs.Words.{words, first_word, after_word, IsWord};
ghost use Rattle.text_core.specs.Numbers.{number};

/// What is taken from the front of a piece, and what is left after that, stand in the text where the
/// piece does.
pub fn pieces_of_text()
    ensures front { (text : List ℕ) (count : ℕ) (p : Piece)
        → StandsIn text p
        → StandsIn text (front count p) }
    ensures past { (text : List ℕ) (count : ℕ) (p : Piece)
        → StandsIn text p
        → StandsIn text (past count p) }
{}

/// A text with nothing left has no lines, and the lines of any other are its first one and those of
/// what stands after it.
pub fn lines_from_first_line()
    ensures none { (p : Piece) → first_line p ≡ None → lines p.bytes ≡ [] }
    ensures next { (p line : Piece)
        → first_line p ≡ Some line
        → lines p.bytes ≡ line.bytes ∷ lines (after_line p).bytes }
{}

/// A text that ends with a line feed is its lines, each with a line feed, and lines that are written so
/// are read again, whatever follows them. The last line needs no line feed.
pub fn lines_of_text()
    ensures each { (text : List ℕ) → All IsLine (lines text) }
    ensures joined { (text : List ℕ) → text_of_lines (lines (text ++ 10 ∷ [])) ≡ text ++ 10 ∷ [] }
    ensures parted { (parts : List (List ℕ)) (rest : List ℕ)
        → All IsLine parts
        → lines (text_of_lines parts ++ rest) ≡ parts ++ lines rest }
    ensures last { (line : List ℕ)
        → IsLine line
        → 0 < length line
        → lines line ≡ line ∷ [] }
{}

/// A line with no word left has no words, and the words of any other are its first one and those of
/// what stands after it.
pub fn words_from_first_word()
    ensures none { (p : Piece) → first_word p ≡ None → words p.bytes ≡ [] }
    ensures next { (p word : Piece)
        → first_word p ≡ Some word
        → words p.bytes ≡ word.bytes ∷ words (after_word p).bytes }
{}

/// Blanks part the words of a line, any number of them, and stand before and after them too.
pub fn words_of_line()
    ensures each { (line : List ℕ) → All IsWord (words line) }
    ensures blank { (byte : ℕ) (line : List ℕ)
        → is_blank byte ≡ true
        → words (byte ∷ line) ≡ words line }
    ensures parted { (word line : List ℕ) (byte : ℕ)
        → IsWord word
        → is_blank byte ≡ true
        → words (word ++ byte ∷ line) ≡ word ∷ words line }
    ensures last { (word : List ℕ) → IsWord word → words word ≡ word ∷ [] }
{}

/// What is written of a number in base ten is a word, and reads as that number.
pub fn number_from_decimal()
    ensures word { (value : ℕ) → value < 2 ^ 64 → IsWord (digits_of_number value) }
    ensures number { (value : ℕ) → value < 2 ^ 64 → number (digits_of_number value) ≡ Some value }
{}
