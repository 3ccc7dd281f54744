ghost use Rattle.std.specs.Prelude.{◌≡◌, ◌<◌, ◌≤◌, [], ◌∷◌, length};
ghost use Rattle.pt_frame.specs.Frame.{mark_in, outer};
ghost use Rattle.pt_frame.specs.Machine.Room.{most_holds};

use arrayvec::ArrayVec;
use std::marker::Model;

/// How many holds there were where each open bracket began, the innermost first.
#[derive(Drop)]
pub struct Marks {
    kept: ArrayVec<u8, 17>,
}

impl Model for Marks {
    ghost use Rattle.std.specs.Prelude.{List, ℕ, reverse};

    ghost Value = { List ℕ };

    ghost view = { λ marks. reverse marks.kept.items };
}

impl Marks {
    pub fn new() -> Self
        ensures { result ≡ [] }
    {
        Marks {
            kept: ArrayVec::new(),
        }
    }

    pub fn push(&mut self, mark: usize)
        requires room { length self.old < most_holds }
        requires fits { mark ≤ most_holds }
        ensures { self.new ≡ mark ∷ self.old }
    {
        self.kept.push(mark as u8);
    }

    /// The innermost one, or none where no bracket is open.
    pub fn innermost(&self) -> usize
        ensures { result ≡ mark_in self.now }
    {
        match self.kept.as_slice().last() {
            Some(mark) => *mark as usize,
            None => 0,
        }
    }

    pub fn pop(&mut self)
        ensures { self.new ≡ outer self.old }
    {
        let _mark = self.kept.pop();
    }
}
