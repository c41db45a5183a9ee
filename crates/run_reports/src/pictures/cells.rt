// What a cell of a picture holds, and the marks that are put into cells.

ghost use Rattle.std.specs.Prelude.{◌≡◌};
ghost use Rattle.run_reports.specs.pictures.Marks.{difference, joined};

/// Which of two runs.
#[derive(Clone, Copy)]
pub enum Side {
    One,
    Other,
}

/// What either run does in some step of a cell's column at an address of its row, and whether some of it is a
/// difference: of the one run, or of the other.
#[derive(Clone, Copy)]
pub struct Cell {
    /// An instruction is executed there, or one that shows its operands.
    pub fetched: bool,
    pub loaded: bool,
    pub stored: bool,
    pub one_differs: bool,
    pub other_differs: bool,
}

impl Cell {
    pub const BLANK: Cell = Cell {
        fetched: false,
        loaded: false,
        stored: false,
        one_differs: false,
        other_differs: false,
    };

    pub const FETCHED: Cell = Cell {
        fetched: true,
        ..Cell::BLANK
    };

    pub const LOADED: Cell = Cell {
        loaded: true,
        ..Cell::BLANK
    };

    pub const STORED: Cell = Cell {
        stored: true,
        ..Cell::BLANK
    };

    /// A cell with a difference of a run, where there is one.
    pub fn difference(side: Side, differs: bool) -> Cell
        ensures { result ≡ difference side differs }
    {
        match side {
            Side::One => Cell {
                one_differs: differs,
                ..Cell::BLANK
            },
            Side::Other => Cell {
                other_differs: differs,
                ..Cell::BLANK
            },
        }
    }

    /// All that two cells hold.
    pub fn joined(self, other: Cell) -> Cell
        ensures { result ≡ joined self other }
    {
        Cell {
            fetched: self.fetched || other.fetched,
            loaded: self.loaded || other.loaded,
            stored: self.stored || other.stored,
            one_differs: self.one_differs || other.one_differs,
            other_differs: self.other_differs || other.other_differs,
        }
    }
}

/// What is put into the cell of a step at an address.
#[derive(Clone, Copy)]
pub struct CellMark {
    pub step: u64,
    pub address: u32,
    pub cell: Cell,
}

/// Words of four bytes, one after another: where the first begins, and how many they are.
#[derive(Clone, Copy)]
pub struct Area {
    pub base: u32,
    pub words: u32,
}

/// The axes: how many steps the longer run makes, and which addresses code and frame have.
#[derive(Clone, Copy)]
pub struct Axes {
    pub steps: u64,
    pub code: Area,
    pub frame: Area,
}

/// How long a run is: its steps, and the entries that they show.
#[derive(Clone, Copy)]
pub struct RunLength {
    pub steps: u64,
    pub entries: u64,
}

/// What is told of runs beside their cells: whether they are two, or one in both places, how long each of them is, and
/// in which step they first show different things, if they do.
#[derive(Clone, Copy)]
pub struct Told {
    pub are_two: bool,
    pub one: RunLength,
    pub other: RunLength,
    pub parting: Option<u64>,
}
