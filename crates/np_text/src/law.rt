//! Laws on the definitions. Nothing here runs: each function states a theorem.
ghost use Rattle.std.specs.Prelude.{◌≡◌, ℕ, ◌+◌, ◌-◌, ◌^◌, ◌<◌, ◌≤◌, true, false, List, [], ◌∷◌, ◌++◌, length, take, drop, None, Some};
ghost use Rattle.std.specs.Fmt.{decimal};
ghost use Rattle.std.specs.List.{flat_map, list_all};
ghost use Rattle.std.specs.Cmp.Lexicographic.{slice_cmp};
ghost use Rattle.std.specs.Ordering.{nat_cmp};
ghost use Rattle.std.specs.Str.{IsAscii, all_ascii_digits, bytes_eq};
ghost use Rattle.np_text.specs.Lines.{is_line, line, line_in, lines_of};
ghost use Rattle.np_text.specs.Name.{is_name_text};
ghost use Rattle.np_text.specs.Number.{number_of, ten_digits_of};
ghost use Rattle.np_text.specs.Request.{HasText, request_cmp, request_of, request_text_of, sequence_of};
ghost use Rattle.np_text.specs.Sections.{bar, has_bar, sections_of};
ghost use Rattle.np_text.specs.Word.{AreWords, end_as_of, end_as_word, ending_of, ending_word, node_state_of, node_state_word, phase_of, phase_word, request_state_of, request_state_word, role_kind_of, role_kind_word};

use crate::id::RequestId;

/// A number has one spelling: its decimal form is read as it, and nothing else is.
pub fn a_number_has_one_spelling()
    ensures reads_back { (max n : ℕ) → n ≤ max → max < 2 ^ 64 → number_of max (decimal n) ≡ Some n }
    ensures spelled { (max n : ℕ) (text : List ℕ) → max < 2 ^ 64 → number_of max text ≡ Some n → (n ≤ max) × (decimal n ≡ text) }
    ensures apart { (m n : ℕ) → m < 2 ^ 64 → n < 2 ^ 64 → decimal m ≡ decimal n → m ≡ n }
{}

/// A sequence number has one spelling of ten digits.
pub fn ten_digits_are_one_spelling()
    ensures reads_back { (n : ℕ) → n < 2 ^ 32 → sequence_of (ten_digits_of n) ≡ Some n }
    ensures spelled { (n : ℕ) (text : List ℕ) → sequence_of text ≡ Some n → (n < 2 ^ 32) × (ten_digits_of n ≡ text) }
    ensures apart { (m n : ℕ) → m < 2 ^ 32 → n < 2 ^ 32 → ten_digits_of m ≡ ten_digits_of n → m ≡ n }
    ensures digits { (n : ℕ) → all_ascii_digits (ten_digits_of n) ≡ true }
    ensures ten { (n : ℕ) → n < 2 ^ 32 → length (ten_digits_of n) ≡ 10 }
{}

/// Texts of ten digits are in byte order as their numbers are. So sequence nodes that are sorted
/// by name are sorted by number.
pub fn ten_digits_stand_in_order()
    ensures { (m n : ℕ) → m < 2 ^ 32 → n < 2 ^ 32 →
        slice_cmp nat_cmp (ten_digits_of m) (ten_digits_of n) ≡ nat_cmp m n }
{}

/// A request has one spelling if its priority has three digits, and only such requests have one.
pub fn a_request_has_one_spelling()
    ensures reads_back { (id : RequestId) → HasText id → request_of (request_text_of id) ≡ Some id }
    ensures spelled { (id : RequestId) (text : List ℕ) → request_of text ≡ Some id → HasText id × (request_text_of id ≡ text) }
    ensures apart { (a b : RequestId) → HasText a → HasText b → request_text_of a ≡ request_text_of b → a ≡ b }
{}

/// Texts of requests are in byte order as the requests are: by priority, then by sequence number.
/// That is also the order of [`RequestId`](crate::RequestId) itself.
pub fn request_texts_stand_in_order()
    ensures texts { (a b : RequestId) → HasText a → HasText b →
        slice_cmp nat_cmp (request_text_of a) (request_text_of b) ≡ request_cmp a b }
    ensures own { (a b : RequestId) → ⟦<RequestId as Ord>⟧.cmp a b ≡ request_cmp a b }
{}

/// Each value has one word, and a word is read as a value if and only if it is the value's.
pub fn a_value_has_one_word()
    ensures request_states { AreWords request_state_word request_state_of }
    ensures node_states { AreWords node_state_word node_state_of }
    ensures end_as { AreWords end_as_word end_as_of }
    ensures phases { AreWords phase_word phase_of }
    ensures endings { AreWords ending_word ending_of }
    ensures role_kinds { AreWords role_kind_word role_kind_of }
{}

/// A name's bytes are ASCII, so a name is UTF-8.
pub fn a_name_is_ascii()
    ensures { (text : List ℕ) → is_name_text text ≡ true → IsAscii text }
{}

/// Repeated calls of [`line_at`](crate::line_at), each from one past the last line's end, return a
/// text's lines; and lines joined with their newlines are such a text's lines.
pub fn a_walk_gives_the_lines()
    ensures end { (text : List ℕ) (from : ℕ) → from ≤ length text → line_in text from ≡ None → lines_of (drop from text) ≡ [] }
    ensures step { (text : List ℕ) (from start end : ℕ) → from ≤ length text → line_in text from ≡ Some (start, end) →
        (start ≡ from) × (lines_of (drop from text) ≡ take (end - start) (drop start text) ∷ lines_of (drop (end + 1) text)) }
    ensures joined { (lines : List (List ℕ)) (rest : List ℕ) → list_all is_line lines ≡ true →
        lines_of (flat_map line lines ++ rest) ≡ lines ++ lines_of rest }
    ensures last { (bytes : List ℕ) → is_line bytes ≡ true → 0 < length bytes → lines_of bytes ≡ bytes ∷ [] }
{}

/// Each text is some lines, and a last one that lacks its newline. These clauses say for each such
/// text where its two sections are.
pub fn sections_part_at_the_first_bar()
    ensures found { (lines : List (List ℕ)) (rest : List ℕ) → list_all is_line lines ≡ true → has_bar lines ≡ false →
        sections_of (flat_map line lines ++ line bar ++ rest) ≡ Some (flat_map line lines, rest) }
    ensures last { (lines : List (List ℕ)) → list_all is_line lines ≡ true → has_bar lines ≡ false →
        sections_of (flat_map line lines ++ bar) ≡ Some (flat_map line lines, []) }
    ensures none { (lines : List (List ℕ)) (last : List ℕ) → list_all is_line lines ≡ true → has_bar lines ≡ false →
        is_line last ≡ true → bytes_eq last bar ≡ false → sections_of (flat_map line lines ++ last) ≡ None }
{}
