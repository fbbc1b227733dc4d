// The frames of a script, numbered from 0.
ghost use Rattle.std.specs.Prelude.{◌≡◌, ◌++◌, ◌∷◌, [], length, IfOk, OnErr, vec_items};
ghost use Rattle.desk.specs.Changes.{Does, Makes, MayDo};

use crate::trouble::Trouble;
use std::alloc::AllocError;

// Frames, each of any size.
#[derive(Drop)]
pub struct Frames {
    pub frames: Vec<Vec<i16>>,
}

impl Frames {
    ghost use Rattle.desk.specs.Frames.{copied, frames_of, resized, set_in, shown};

    // Adds a frame, and answers its number.
    pub fn push(&mut self, frame: Vec<i16>) -> Result<usize, AllocError>
        ensures ok { IfOk result (λ number. (number ≡ length (frames_of self.old)) × (frames_of self.new ≡ frames_of self.old ++ vec_items frame ∷ [])) }
        ensures err { OnErr result (frames_of self.new ≡ frames_of self.old) }
    {
        let number = self.frames.len();
        self.frames.push(frame)?;
        Ok(number)
    }

    // The numbers of a frame.
    pub fn get(&self, frame: usize) -> Result<&[i16], Trouble>
        ensures { Makes (shown frame (frames_of self.now)) (λ numbers. numbers.now) result }
    {
        match self.frames.get(frame) {
            Some(numbers) => Ok(numbers),
            None => Err(Trouble::NoFrame),
        }
    }

    // Adds a copy of a frame, and answers its number.
    pub fn copy(&mut self, frame: usize) -> Result<usize, Trouble>
        ensures made { MayDo (copied frame (frames_of self.old)) (frames_of self.old) (frames_of self.new) result }
        ensures number { IfOk result (λ number. number ≡ length (frames_of self.old)) }
    {
        if frame >= self.frames.len() {
            return Err(Trouble::NoFrame);
        }
        let copy = self.frames[frame].clone()?;
        Ok(self.push(copy)?)
    }

    // Sets one number of a frame.
    pub fn set(&mut self, frame: usize, place: usize, value: i16) -> Result<(), Trouble>
        ensures { Does (set_in frame place value (frames_of self.old)) (frames_of self.old) (frames_of self.new) result }
    {
        if frame >= self.frames.len() {
            return Err(Trouble::NoFrame);
        }
        let numbers = &mut self.frames[frame];
        if place >= numbers.len() {
            return Err(Trouble::NotThere);
        }
        numbers[place] = value;
        Ok(())
    }

    // Cuts a frame, or adds zeros behind it.
    pub fn resize(&mut self, frame: usize, size: usize) -> Result<(), Trouble>
        ensures { MayDo (resized frame size (frames_of self.old)) (frames_of self.old) (frames_of self.new) result }
    {
        if frame >= self.frames.len() {
            return Err(Trouble::NoFrame);
        }
        self.frames[frame].resize(size, 0)?;
        Ok(())
    }
}
