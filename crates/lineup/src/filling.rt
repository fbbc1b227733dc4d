// Making and filling line-ups.
ghost use Rattle.std.specs.Prelude.{◌≡◌, IfOk, None, OnErr};
ghost use Rattle.lineup.specs.LineUps.{Filled};
ghost use Rattle.lineup.specs.Judging.{asked_by};
ghost use Rattle.lineup.specs.Views.{Alike, view_of};

use crate::asked::Asked;
use crate::cells::write_plan;
use crate::line_up::LineUp;
use refusals::Refusal;
use staircase::data_code::DataCode;
use std::alloc::{AllocError, Global};

// the cells of the widest frame
const ROOM: usize = 3435;

impl<D: DataCode> LineUp<D> {
    // An empty line-up.
    pub fn new(heap: Global) -> Result<Self, AllocError>
        ensures { IfOk result (λ l. view_of l ≡ None) }
    {
        let plan = Vec::with_capacity(heap, ROOM)?;
        let code = D::new(heap)?;
        Ok(LineUp {
            mode: None,
            plan,
            code,
        })
    }

    // Fills the line-up with what is asked, or refuses and leaves it as it was.
    pub fn fill(&mut self, asked: Asked<'_>) -> Result<(), Refusal>
        ensures filled { Filled (view_of self.old) (view_of self.new) (asked_by asked.entry) result }
        ensures kept { OnErr result (self.new ≡ self.old) }
    {
        let (mode, exponents) = asked.judge()?;
        write_plan(asked.plan, &mut self.plan);
        self.code.fill(exponents);
        self.mode = Some(mode);
        Ok(())
    }
}

// A clone holds the same, its code has the same words, and it has room for the widest frame too.
impl<D: DataCode> Clone for LineUp<D> {
    ghost is_clone = { λ l k. Alike l k };

    fn clone(&self) -> Result<Self, AllocError> {
        let mut plan = Vec::with_capacity(*self.plan.allocator(), ROOM)?;
        plan.extend_from_slice(self.plan.as_slice())?;
        let code = self.code.clone()?;
        Ok(LineUp {
            mode: self.mode,
            plan,
            code,
        })
    }
}
