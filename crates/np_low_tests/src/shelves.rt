//! Lists by place, at numbers and at items that are themselves seen as lists.

ghost use Rattle.std.specs.Prelude.{◌≡◌, [], ◌∷◌, IfOk, nat_lt};

use np_lists::{Change, Piece, Probe, Shelf};
use std::alloc::{AllocError, Global};
use std::marker::Model;
use std::mem;

/// A name, seen as its bytes.
#[derive(Drop)]
struct Name {
    text: String,
}

impl Model for Name {
    ghost use Rattle.std.specs.Prelude.{List, ℕ};
    ghost use Rattle.std.specs.String.{string_bytes};

    ghost Value = { List ℕ };

    ghost view = { λ n. string_bytes n.text };
}

#[derive(Drop)]
struct Row {
    name: Name,
    count: u32,
}

/// The numbers below one.
#[derive(Drop)]
struct Below(u32);

impl Probe<u32> for Below {
    ghost before = { λ below item. nat_lt item below.0 };

    fn is_before(&self, item: &u32) -> bool {
        *item < self.0
    }
}

/// Another name, and then the name that was there.
#[derive(Drop)]
struct Rename(Name);

impl Change<Row> for Rename {
    ghost after = { λ rename row. record row { name = rename.0 } };

    ghost kept = { λ rename row. record { 0 = row.name } };

    fn make(&mut self, item: &mut Row) {
        mem::swap(&mut self.0, &mut item.name);
    }
}

// 10, 20 and 30.
fn three(alloc: Global) -> Result<Shelf<u32>, AllocError>
    ensures { IfOk result (λ shelf. shelf ≡ 10 ∷ 20 ∷ 30 ∷ []) }
{
    let first = Piece::new(alloc, 10)?;
    let second = Piece::new(alloc, 20)?;
    let third = Piece::new(alloc, 30)?;
    let mut shelf = Shelf::new();
    shelf.insert(0, third);
    shelf.insert(0, first);
    shelf.insert(1, second);
    Ok(shelf)
}

fn is_read(shelf: &Shelf<u32>) -> bool
    requires { shelf.now ≡ 10 ∷ 20 ∷ 30 ∷ [] }
{
    shelf.len() == 3
        && !shelf.is_empty()
        && shelf.at(2).copied() == Some(30)
        && shelf.at(3).is_none()
        && shelf.place(&Below(10)) == 0
        && shelf.place(&Below(11)) == 1
        && shelf.place(&Below(31)) == 3
}

// The second goes to the front, and is taken from there.
fn moves_the_second(shelf: &mut Shelf<u32>) -> bool
    requires { shelf.old ≡ 10 ∷ 20 ∷ 30 ∷ [] }
{
    let piece = shelf.remove(1);
    let is_second = *piece.item() == 20;
    shelf.insert(0, piece);
    is_second && shelf.remove(0).into_item() == 20
}

fn numbers_go_by_place(alloc: Global) -> bool {
    match three(alloc) {
        Ok(mut shelf) => is_read(&shelf) && moves_the_second(&mut shelf),
        Err(_) => false,
    }
}

fn named(alloc: Global, text: &str) -> Result<Name, AllocError> {
    let text = String::from_str(alloc, text)?;
    Ok(Name { text })
}

// A row in the shelf gets the other name, and gives its own.
fn renames(rows: &mut Shelf<Row>, row: Piece<Row>, rename: &mut Rename) -> bool
    requires { rows.old ≡ [] }
{
    rows.insert(0, row);
    rows.change(0, rename);
    let row = rows.remove(0).into_item();
    rename.0.text.as_str() == "elm" && row.name.text.as_str() == "maple" && row.count == 7
}

fn row_of(alloc: Global, text: &str) -> Result<Piece<Row>, AllocError> {
    let name = named(alloc, text)?;
    Piece::new(alloc, Row { name, count: 7 })
}

fn a_row_is_renamed(alloc: Global) -> bool {
    let mut rows = Shelf::new();
    match (row_of(alloc, "elm"), named(alloc, "maple")) {
        (Ok(row), Ok(name)) => renames(&mut rows, row, &mut Rename(name)),
        (Ok(_), Err(_)) | (Err(_), _) => false,
    }
}

// Each is put behind the last.
fn fills(alloc: Global, shelf: &mut Shelf<u32>, count: u32) -> bool {
    for item in 0..count {
        if shelf.len() != item as usize {
            return false;
        }
        match Piece::new(alloc, item) {
            Ok(piece) => shelf.insert(shelf.len(), piece),
            Err(_) => return false,
        }
    }
    true
}

fn takes_from_both_ends(shelf: &mut Shelf<u32>) -> bool {
    for item in 0..1_000_u32 {
        if shelf.len() == 0 {
            return false;
        }
        let first = shelf.remove(0).into_item();
        if shelf.len() == 0 {
            return false;
        }
        let last = shelf.remove(shelf.len() - 1).into_item();
        if first != item || last != 199_999 - item {
            return false;
        }
    }
    true
}

// A list that is never balanced would be 200,000 boxes deep.
fn many_stand_at_one_end(alloc: Global) -> bool {
    let mut shelf = Shelf::new();
    fills(alloc, &mut shelf, 200_000)
        && shelf.at(77_777).copied() == Some(77_777)
        && takes_from_both_ends(&mut shelf)
}

#[test]
fn items_go_by_place(rt: HostRuntime) {
    let alloc = rt.alloc();
    assert!(rt; numbers_go_by_place(alloc), "numbers");
    assert!(rt; a_row_is_renamed(alloc), "rows");
    assert!(rt; many_stand_at_one_end(alloc), "200,000 numbers");
}
