// The edits: cursor moves and changes of cells, each an escape letter, most of them a key too.
ghost use Rattle.std.specs.Prelude.{◌≡◌};
ghost use Rattle.edit.specs.Edits.{of_letter};

// How far a run of open cells from the cursor on may go.
#[derive(Clone, Copy, PartialEq, Eq, Debug)]
pub enum Reach {
    Row,
    Display,
}

#[derive(Clone, Copy, PartialEq, Eq, Debug)]
pub enum Motion {
    Home,
    Up,
    Down,
    Left,
    Right,
    // to the first cell of the next row
    Return,
    // to the cell after the next tab stop
    Tab,
}

#[derive(Clone, Copy, PartialEq, Eq, Debug)]
pub enum Change {
    InsertRow,
    RemoveRow,
    // all cells from the cursor on become open spaces
    EraseAll,
    // the open ones among them become spaces
    EraseOpen,
    // the run becomes spaces
    Erase(Reach),
    // the run's first cell goes, and a space comes in at its end
    Delete(Reach),
    // a space comes in at the cursor, and the run's last cell goes
    Insert(Reach),
}

#[derive(Clone, Copy, PartialEq, Eq, Debug)]
pub enum Edit {
    Move(Motion),
    Change(Change),
}

impl Edit {
    // The edit that ESC and this letter stand for, if any.
    pub fn of_letter(letter: char) -> Option<Edit>
        ensures { result ≡ of_letter letter }
    {
        match letter {
            'e' => Some(Edit::Move(Motion::Home)),
            'f' => Some(Edit::Move(Motion::Up)),
            'i' => Some(Edit::Move(Motion::Down)),
            'g' => Some(Edit::Move(Motion::Left)),
            'h' => Some(Edit::Move(Motion::Right)),
            'j' => Some(Edit::Change(Change::InsertRow)),
            'k' => Some(Edit::Change(Change::RemoveRow)),
            'M' => Some(Edit::Change(Change::EraseAll)),
            'a' => Some(Edit::Change(Change::EraseOpen)),
            'b' => Some(Edit::Change(Change::Erase(Reach::Row))),
            'K' => Some(Edit::Change(Change::Erase(Reach::Display))),
            'c' => Some(Edit::Change(Change::Delete(Reach::Row))),
            'C' => Some(Edit::Change(Change::Delete(Reach::Display))),
            'd' => Some(Edit::Change(Change::Insert(Reach::Row))),
            'D' => Some(Edit::Change(Change::Insert(Reach::Display))),
            _ => None,
        }
    }
}
