// The shape of a code. The type carries the bounds of its numbers.
ghost use Rattle.std.specs.Prelude.{◌≡◌, ◌+◌, ◌*◌, MatchOption};
ghost use Rattle.staircase.specs.Staircase.{Lifted, Shaped};

// the largest lift, and the most rows and columns
pub(crate) const LIFT: usize = 160;

pub(crate) const ROWS: usize = 16;

pub(crate) const COLUMNS: usize = 24;

// The lift, the check rows and the information columns.
#[derive(Clone, Copy, PartialEq, Eq, Debug)]
pub struct Shape {
    pub(crate) lift: usize,
    pub(crate) rows: usize,
    pub(crate) columns: usize,
    ghost lifted: { Lifted lift },
    ghost shaped: { Shaped rows columns },
}

impl Shape {
    // The shape of these numbers, where they are a code's.
    pub fn new(lift: usize, rows: usize, columns: usize) -> Option<Self>
        ensures { MatchOption result (Lifted lift × Shaped rows columns → ⊥) (λ s. (s.lift ≡ lift) × (s.rows ≡ rows) × (s.columns ≡ columns)) }
    {
        let lifted = (1..=LIFT).contains(&lift);
        let shaped = (1..=ROWS).contains(&rows) && (columns == rows || columns == 3 * rows);
        if lifted && shaped && columns <= COLUMNS {
            Some(Shape {
                lift,
                rows,
                columns,
            })
        } else {
            None
        }
    }

    pub fn lift(self) -> usize
        ensures { result ≡ self.lift }
    {
        self.lift
    }

    pub fn rows(self) -> usize
        ensures { result ≡ self.rows }
    {
        self.rows
    }

    pub fn columns(self) -> usize
        ensures { result ≡ self.columns }
    {
        self.columns
    }

    // The bits of a message.
    pub fn message_length(self) -> usize
        ensures { result ≡ self.columns * self.lift }
    {
        self.columns * self.lift
    }

    // The bits of a word.
    pub fn word_length(self) -> usize
        ensures { result ≡ (self.columns + self.rows) * self.lift }
    {
        (self.columns + self.rows) * self.lift
    }

    // How many exponents a code of this shape has.
    pub fn exponents(self) -> usize
        ensures { result ≡ self.rows * self.columns }
    {
        self.rows * self.columns
    }
}
