//! Laws of the grammar. Each function does nothing: its contract is the law.

ghost use Rattle.std.specs.Prelude.{◌≡◌, ℕ, List, ◌∷◌, ◌++◌, None, Some, true};
ghost use Rattle.std.specs.List.{before_last, list_any};
ghost use Rattle.std.specs.Option.{is_none};
ghost use Rattle.np_path.specs.Grammar.{path_fault, is_element, is_path, is_slash, below, name_of, parent_of, root};

/// A text is a path if and only if it has no fault.
pub fn paths_have_no_fault()
    ensures { (text : List ℕ) → is_path text ≡ is_none (path_fault text) }
{}

/// A path and an element below it make a path, whose parent and name are these two.
pub fn children_have_their_parts()
    ensures path { (path name : List ℕ) → is_path path ≡ true → is_element name ≡ true → is_path (below path name) ≡ true }
    ensures parent { (path name : List ℕ) → is_path path ≡ true → is_element name ≡ true → parent_of (below path name) ≡ Some path }
    ensures name { (path name : List ℕ) → is_path path ≡ true → is_element name ≡ true → name_of (below path name) ≡ name }
{}

/// A path that has a parent is its parent's child of its name, and only `/` has none.
pub fn paths_are_their_parts()
    ensures parent { (path above : List ℕ) → is_path path ≡ true → parent_of path ≡ Some above → is_path above ≡ true }
    ensures name { (path above : List ℕ) → is_path path ≡ true → parent_of path ≡ Some above → is_element (name_of path) ≡ true }
    ensures whole { (path above : List ℕ) → is_path path ≡ true → parent_of path ≡ Some above → below above (name_of path) ≡ path }
    ensures root { (path : List ℕ) → is_path path ≡ true → parent_of path ≡ None → path ≡ root }
{}

/// A text with a slash is what is before its last slash, the slash, and what is after it; so
/// the two determine it.
pub fn texts_are_their_halves()
    ensures { (text : List ℕ) → list_any is_slash text ≡ true → text ≡ before_last is_slash text ++ 47 ∷ name_of text }
{}
